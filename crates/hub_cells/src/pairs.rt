//! The pairs of a table.
ghost use Rattle.std.specs.Prelude.{◌≡◌, ◌++◌, [], ◌∷◌, length, map, IfOk, OnOk, OnErr, option_map, slice_get};
ghost use Rattle.kj_value.specs.Seen.{json};
ghost use Rattle.struct_schema.specs.Places.{ArePlaces, Tells, first_from};
ghost use Rattle.hub_cells.specs.Cross.{partner};
ghost use Rattle.hub_cells.specs.Pairs.{values_of};
ghost use Rattle.hub_cells.specs.Seen.{side};
ghost use Rattle.hub_cells.specs.Sought.{column};

use crate::cell::Side;
use crate::tables::{other_value, own_value, partner};
use kj_value::{JVal, NoMemory};
use std::alloc::Global;
use std::marker::Model;
use struct_schema::{Place, Places, find_in};

/// A value of the spoke's, and the hub's value that matches it.
#[derive(Drop)]
pub struct Pair {
    pub spoke: JVal,
    pub hub: JVal,
}

/// The pairs of a table, in the order of its rule. Once they are indexed, the partner of a text or of a whole number is
/// found without going over them.
pub struct PairItems {
    pairs: Vec<Pair>,
    by_spoke: Option<Places>,
    by_hub: Option<Places>,
}

impl Drop for PairItems {
    fn drop(self) {
        let PairItems {
            pairs: _,
            by_spoke: _,
            by_hub: _,
        } = self;
    }
}

impl Model for PairItems {
    ghost use Rattle.std.specs.Prelude.{List, map};
    ghost use Rattle.std.specs.Coded.{coded_list, coded×};
    ghost use Rattle.kj_value.specs.Json.{Json};
    ghost use Rattle.kj_value.specs.laws.JsonCode.{json_code};

    ghost Value = { List (Json × Json) };

    ghost coded = { coded_list (coded× json_code json_code) };

    ghost use Rattle.hub_cells.specs.Pairs.{values_of};

    ghost view = { λ a. map values_of a.pairs.items };

    ghost use Rattle.hub_cells.specs.Sought.{HaveBoth};

    ghost invariant = { λ a. HaveBoth a.by_spoke a.by_hub (map values_of a.pairs.items) };
}

impl PairItems {
    /// The list with no pairs. It takes no memory.
    pub fn new(alloc: Global) -> PairItems
        ensures { result ≡ [] }
    {
        PairItems {
            pairs: Vec::new(alloc),
            by_spoke: None,
            by_hub: None,
        }
    }

    /// How many pairs there are.
    pub fn len(&self) -> usize
        ensures { result ≡ length self.now }
    {
        self.pairs.len()
    }

    /// The pair at a place, counted from 0.
    pub fn get(&self, i: usize) -> Option<&Pair>
        ensures { option_map (λ p. values_of p.now) result ≡ slice_get self.now i }
    {
        self.pairs.get(i)
    }

    /// The pairs in order.
    pub fn as_slice(&self) -> &[Pair]
        ensures { map values_of result.now ≡ self.now }
    {
        self.pairs.as_slice()
    }

    /// Adds a pair at the end of a list, which isn't indexed any more. After an error the list is as it was.
    pub fn push(&mut self, x: Pair) -> Result<(), NoMemory>
        ensures ok { OnOk result (self.new ≡ self.old ++ values_of x ∷ []) }
        ensures err { OnErr result (self.new ≡ self.old) }
    {
        self.by_spoke = None;
        self.by_hub = None;
        self.pairs.push(x)?;
        Ok(())
    }

    /// The same pairs, indexed.
    pub fn indexed(self, alloc: Global) -> Result<PairItems, NoMemory>
        ensures { IfOk result (λ ps. ps ≡ self) }
    {
        let PairItems {
            pairs,
            by_spoke: _,
            by_hub: _,
        } = self;
        let items = pairs.as_slice();
        let by_spoke = column_places(alloc, items, Side::Spoke)?;
        let by_hub = column_places(alloc, items, Side::Hub)?;
        Ok(PairItems {
            pairs,
            by_spoke: Some(by_spoke),
            by_hub: Some(by_hub),
        })
    }

    // Where the value stands first on the side.
    fn place(&self, on: Side, value: &JVal) -> Place
        ensures { Tells result (first_from 0 (json value.now) (column (side on) self.now)) }
    {
        match on {
            Side::Spoke => find_in(&self.by_spoke, value),
            Side::Hub => find_in(&self.by_hub, value),
        }
    }

    /// The other side's value of the first pair that lists the value. It takes no memory.
    pub fn partner(&self, from: Side, value: &JVal) -> Option<&JVal>
        ensures { option_map (λ v. json v.now) result
            ≡ partner (side from) (json value.now) self.now }
    {
        match self.place(from, value) {
            Place::First(i) => Some(other_value(&self.pairs[i], from)),
            Place::Nowhere => None,
            Place::Unknown => partner(self.pairs.as_slice(), from, value),
        }
    }
}

// The places of the pairs' values on the side.
fn column_places(alloc: Global, pairs: &[Pair], on: Side) -> Result<Places, NoMemory>
    ensures { IfOk result (λ p. ArePlaces p 0 (column (side on) (map values_of pairs.now))) }
{
    let mut places = Places::new(alloc);
    let mut i = pairs.len();
    while i > 0 {
        i -= 1;
        places.put(alloc, i, own_value(&pairs[i], on))?;
    }
    Ok(places)
}
