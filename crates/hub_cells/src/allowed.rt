//! What a cell's side allows.
ghost use Rattle.std.specs.Prelude.{◌≡◌, ◌+◌, ◌&&◌, leb, not, option_map, true};
ghost use Rattle.kj_value.specs.Json.{depth};
ghost use Rattle.kj_value.specs.Seen.{json};
ghost use Rattle.struct_schema.specs.ShapeOf.{shape_of};
ghost use Rattle.struct_schema.specs.Valid.{valid};
ghost use Rattle.struct_schema.specs.Stays.{stays};
ghost use Rattle.hub_cells.specs.Seen.{side, tuple, cell, place, place_list};
ghost use Rattle.hub_cells.specs.Level.{is_word, allowed_at, all_allowed, allows, places};

use crate::cell::{Cell, Name, Names, Side, Tuple};
use kj_value::{JVal, sound};
use std::alloc::Global;
use struct_schema::{Schema, is_filled, is_valid};

/// The levels of an object that is stored or sent: lists and objects that nest within it, itself
/// counted.
pub const STORED_LEVELS: u32 = 64;

// A number of a value has 64 bits.
fn is_word(v: &JVal)
    ensures { is_word (json v.now) ≡ true }
{
    sound(v)
}

fn stays(s: &Schema, v: &JVal) -> bool
    ensures { result ≡ stays (shape_of s.now) (json v.now) }
{
    sound(v);
    is_filled(s, v)
}

// Whether an object with the value below so many names, its own not counted, is within its levels.
fn is_within(names: u32, v: &JVal) -> bool
    ensures { result ≡ leb (names + 1 + depth (json v.now)) STORED_LEVELS }
{
    u64::from(names) + 1 + u64::from(kj_value::depth(v)) <= u64::from(STORED_LEVELS)
}

fn allowed_value(alloc: Global, names: u32, name: &Name, v: &JVal) -> bool
    ensures { result ≡ (valid (shape_of name.now.schema) (json v.now)
        && stays (shape_of name.now.schema) (json v.now)
        && leb (names + 1 + depth (json v.now)) STORED_LEVELS) }
{
    is_valid(alloc, &name.schema, v) && stays(&name.schema, v) && is_within(names, v)
}

fn allowed_at(alloc: Global, names: u32, name: &Name, value: &Option<JVal>) -> bool
    ensures { result ≡ allowed_at names (place name.now) (option_map json value.now) }
{
    match value {
        None => !name.required,
        Some(v) => {
            is_word(v);
            allowed_value(alloc, names, name, v)
        }
    }
}

fn all_allowed(alloc: Global, depth: u32, names: &Names, values: &Tuple) -> bool
    ensures { result ≡ all_allowed depth (place_list names.now) (tuple values.now) }
{
    match (names, values) {
        (Names::Empty, Tuple::Empty) => true,
        (Names::One(n), Tuple::One(v)) => allowed_at(alloc, depth, n, v),
        (Names::Two(m, n), Tuple::Two(v, w)) => {
            allowed_at(alloc, depth, m, v) && allowed_at(alloc, depth, n, w)
        }
        (Names::Empty, Tuple::One(_)) => false,
        (Names::Empty, Tuple::Two(_, _)) => false,
        (Names::One(_), Tuple::Empty) => false,
        (Names::One(_), Tuple::Two(_, _)) => false,
        (Names::Two(_, _), Tuple::Empty) => false,
        (Names::Two(_, _), Tuple::One(_)) => false,
    }
}

impl Cell {
    /// Whether the side's schema allows the values at the cell's names: each is valid, is its own
    /// filling and keeps the object within its levels, and a name that isn't there isn't required.
    /// Whether that name has a default isn't asked. A yes takes no memory.
    pub fn allows(&self, alloc: Global, on: Side, values: &Tuple) -> bool
        ensures { result ≡ allows (side on) (cell self.now) (tuple values.now) }
    {
        match on {
            Side::Spoke => all_allowed(alloc, self.depth, &self.spoke, values),
            Side::Hub => all_allowed(alloc, self.depth, &self.hub, values),
        }
    }
}
