//! The values of `enum`.
ghost use Rattle.std.specs.Prelude.{◌≡◌, map, IfOk};
ghost use Rattle.std.specs.List.{list_any};
ghost use Rattle.kj_value.specs.Seen.{json};
ghost use Rattle.kj_value.specs.Same.{json_same};

use crate::keywords::alike;
use crate::places::{Place, Places, find_in, places_of};
use kj_value::{JItems, JVal, NoMemory};
use std::alloc::Global;
use std::marker::Model;
use std::sync::Arc;

// Values, with their places where they are many.
#[derive(Drop)]
struct Listed {
    values: JItems,
    places: Option<Places>,
}

impl Model for Listed {
    ghost use Rattle.std.specs.Prelude.{List, IfSome};
    ghost use Rattle.std.specs.Coded.{coded_list};
    ghost use Rattle.kj_value.specs.Json.{Json};
    ghost use Rattle.kj_value.specs.laws.JsonCode.{json_code};
    ghost use Rattle.struct_schema.specs.Places.{ArePlaces};

    ghost Value = { List Json };

    ghost coded = { coded_list json_code };

    ghost view = { λ a. a.values };

    ghost invariant = { λ a. IfSome a.places (λ p. ArePlaces p 0 a.values) };
}

impl Listed {
    fn new(alloc: Global, values: JItems) -> Result<Listed, NoMemory>
        ensures { IfOk result (λ a. a ≡ values) }
    {
        let places = places_of(alloc, values.as_slice())?;
        Ok(Listed { values, places })
    }

    fn as_slice(&self) -> &[JVal]
        ensures { map json result.now ≡ self.now }
    {
        self.values.as_slice()
    }

    fn has(&self, v: &JVal) -> bool
        ensures { result ≡ list_any (λ c. json_same c (json v.now)) self.now }
    {
        match find_in(&self.places, v) {
            Place::First(_) => true,
            Place::Nowhere => false,
            Place::Unknown => is_among(self.values.as_slice(), v),
        }
    }
}

/// Values in the order of their document. Whether a text or a whole number is one of many is found without going
/// over them. They never change, and whoever has a copy has the same memory.
pub struct Choices {
    listed: Arc<Listed>,
}

impl Drop for Choices {
    fn drop(self) {
        let Choices { listed: _ } = self;
    }
}

impl Model for Choices {
    ghost use Rattle.std.specs.Prelude.{List};
    ghost use Rattle.std.specs.Arc.{arc_value};
    ghost use Rattle.std.specs.Coded.{coded_list};
    ghost use Rattle.kj_value.specs.Json.{Json};
    ghost use Rattle.kj_value.specs.laws.JsonCode.{json_code};

    ghost Value = { List Json };

    ghost coded = { coded_list json_code };

    ghost view = { λ c. arc_value c.listed };
}

impl Choices {
    /// The values of a list.
    pub fn new(alloc: Global, values: JItems) -> Result<Choices, NoMemory>
        ensures { IfOk result (λ c. c ≡ values) }
    {
        let listed = Listed::new(alloc, values)?;
        Ok(Choices {
            listed: Arc::new(alloc, listed)?,
        })
    }

    /// The same values again, in the same memory.
    pub fn shared(&self) -> Result<Choices, NoMemory>
        ensures { IfOk result (λ c. c ≡ self.now) }
    {
        Ok(Choices {
            listed: Arc::try_clone(&self.listed)?,
        })
    }

    /// The values in their order.
    pub fn as_slice(&self) -> &[JVal]
        ensures { map json result.now ≡ self.now }
    {
        self.listed.as_slice()
    }

    /// Whether the value is one of them. It takes no memory.
    pub fn has(&self, v: &JVal) -> bool
        ensures { result ≡ list_any (λ c. json_same c (json v.now)) self.now }
    {
        self.listed.has(v)
    }
}

fn is_among(choices: &[JVal], v: &JVal) -> bool
    ensures { result ≡ list_any (λ c. json_same c (json v.now)) (map json choices.now) }
{
    for c in choices {
        if alike(c, v) {
            return true;
        }
    }
    false
}
