//! What a table lists.
ghost use Rattle.std.specs.Prelude.{◌≡◌, map, IfOk, option_map};
ghost use Rattle.kj_value.specs.Seen.{json};
ghost use Rattle.kj_value.specs.Same.{json_same};
ghost use Rattle.hub_cells.specs.Seen.{side, tuple};
ghost use Rattle.hub_cells.specs.Pairs.{values_of};
ghost use Rattle.hub_cells.specs.Side.{other};
ghost use Rattle.hub_cells.specs.Cell.{value_on};
ghost use Rattle.hub_cells.specs.Cross.{partner, blank};

use crate::cell::{Side, Tuple};
use crate::pairs::Pair;
use kj_value::{JVal, NoMemory, copy, same};
use std::alloc::Global;

/// Whether two values are one.
pub(crate) fn alike(a: &JVal, b: &JVal) -> bool
    ensures { result ≡ json_same (json a.now) (json b.now) }
{
    same(a, b)
}

/// The pair's value on the side. It takes no memory.
pub fn own_value(pair: &Pair, on: Side) -> &JVal
    ensures { json result.now ≡ value_on (side on) (values_of pair.now) }
{
    match on {
        Side::Spoke => &pair.spoke,
        Side::Hub => &pair.hub,
    }
}

// The pair's value on the other side.
pub(crate) fn other_value(pair: &Pair, on: Side) -> &JVal
    ensures { json result.now ≡ value_on (other (side on)) (values_of pair.now) }
{
    match on {
        Side::Spoke => &pair.hub,
        Side::Hub => &pair.spoke,
    }
}

/// The other side's value of the first pair that lists the value, sought pair by pair. It takes no memory.
pub fn partner<'a>(pairs: &'a [Pair], from: Side, value: &JVal) -> Option<&'a JVal>
    ensures { option_map (λ v. json v.now) result
        ≡ partner (side from) (json value.now) (map values_of pairs.now) }
{
    for p in pairs {
        if alike(own_value(p, from), value) {
            return Some(other_value(p, from));
        }
    }
    None
}

/// The one value that stands for a blank: null is no value.
pub(crate) fn shown_blank(alloc: Global, value: &JVal) -> Result<Tuple, NoMemory>
    ensures { IfOk result (λ t. tuple t ≡ blank (json value.now)) }
{
    match value {
        JVal::Null => Ok(Tuple::One(None)),
        _ => Ok(Tuple::One(Some(copy(alloc, value)?))),
    }
}
