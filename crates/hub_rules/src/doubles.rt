//! Whether a table lists a value twice.
ghost use Rattle.std.specs.Prelude.{◌≡◌, ℕ, map, IfOk, is_none, is_some};
ghost use Rattle.kj_value.specs.Seen.{json};
ghost use Rattle.struct_schema.specs.Places.{ArePlaces};
ghost use Rattle.hub_cells.specs.Cross.{partner};
ghost use Rattle.hub_cells.specs.Pairs.{values_of};
ghost use Rattle.hub_cells.specs.Seen.{side};
ghost use Rattle.hub_cells.specs.Sought.{column};
ghost use Rattle.hub_rules.specs.Refusal.{once};

use hub_cells::{Pair, Side, own_value, partner};
use kj_value::{JVal, NoMemory};
use std::alloc::Global;
use struct_schema::{Place, Places};

fn is_new(on: Side, value: &JVal, pairs: &[Pair]) -> bool
    ensures { result ≡ is_none (partner (side on) (json value.now) (map values_of pairs.now)) }
{
    partner(pairs, on, value).is_none()
}

fn once_by_pairs(on: Side, pairs: &[Pair]) -> bool
    ensures { result ≡ once (side on) (map values_of pairs.now) }
{
    for i in 0..pairs.len() {
        if !is_new(on, own_value(&pairs[i], on), &pairs[i + 1..]) {
            return false;
        }
    }
    true
}

// Whether a pair lists the value, of pairs whose places are known.
fn is_again(places: &Places, on: Side, value: &JVal, pairs: &[Pair]) -> bool
    ensures { (i : ℕ) → ArePlaces places.now i (column (side on) (map values_of pairs.now))
        → result ≡ is_some (partner (side on) (json value.now) (map values_of pairs.now)) }
{
    match places.find(value) {
        Place::First(_) => true,
        Place::Nowhere => false,
        Place::Unknown => partner(pairs, on, value).is_some(),
    }
}

// From the last pair on, each value is sought among the places of those behind it.
fn once_by_places(alloc: Global, on: Side, pairs: &[Pair]) -> Result<bool, NoMemory>
    ensures { IfOk result (λ b. b ≡ once (side on) (map values_of pairs.now)) }
{
    let mut places = Places::new(alloc);
    let mut i = pairs.len();
    while i > 0 {
        let rest = &pairs[i..];
        i -= 1;
        let value = own_value(&pairs[i], on);
        if is_again(&places, on, value, rest) {
            return Ok(false);
        }
        places.put(alloc, i, value)?;
    }
    Ok(true)
}

// Whether no value is listed twice on the side. Where there is no memory for the places, the pairs are compared.
pub(crate) fn once(alloc: Global, on: Side, pairs: &[Pair]) -> bool
    ensures { result ≡ once (side on) (map values_of pairs.now) }
{
    match once_by_places(alloc, on, pairs) {
        Ok(found) => found,
        Err(_) => once_by_pairs(on, pairs),
    }
}
