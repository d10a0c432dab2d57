//! The names that an object has to have.
ghost use Rattle.std.specs.Prelude.{◌≡◌, [], map, IfOk};
ghost use Rattle.std.specs.List.{list_any};
ghost use Rattle.std.specs.Str.{bytes_eq};
ghost use Rattle.kj_value.specs.Texts.{bytes_of};

use crate::places::{Place, Places, find_text_in, text_places};
use kj_value::{NoMemory, TextList, Txt};
use std::alloc::Global;
use std::marker::Model;

/// Names in the order of their document. Whether a name is one of many is found without going over them.
pub struct Required {
    names: TextList,
    places: Option<Places>,
}

impl Drop for Required {
    fn drop(self) {
        let Required {
            names: _,
            places: _,
        } = self;
    }
}

impl Model for Required {
    ghost use Rattle.std.specs.Prelude.{List, ℕ, map, IfSome};
    ghost use Rattle.kj_value.specs.Json.{text};
    ghost use Rattle.struct_schema.specs.Places.{ArePlaces};

    ghost Value = { List (List ℕ) };

    ghost view = { λ a. a.names };

    ghost invariant = { λ a. IfSome a.places (λ p. ArePlaces p 0 (map text a.names)) };
}

impl Required {
    /// No names. It takes no memory.
    pub fn none(alloc: Global) -> Required
        ensures { result ≡ [] }
    {
        Required {
            names: TextList::new(alloc),
            places: None,
        }
    }

    /// The names of a list.
    pub fn new(alloc: Global, names: TextList) -> Result<Required, NoMemory>
        ensures { IfOk result (λ r. r ≡ names) }
    {
        let places = text_places(alloc, names.as_slice())?;
        Ok(Required { names, places })
    }

    /// The same names again, in memory of their own.
    pub fn copied(&self, alloc: Global) -> Result<Required, NoMemory>
        ensures { IfOk result (λ r. r ≡ self.now) }
    {
        let names = self.names.copied(alloc)?;
        Ok(Required::new(alloc, names)?)
    }

    /// The names in their order.
    pub fn as_slice(&self) -> &[Txt]
        ensures { map bytes_of result.now ≡ self.now }
    {
        self.names.as_slice()
    }

    /// Whether the name is one of them. It takes no memory.
    pub fn has(&self, name: &str) -> bool
        ensures { result ≡ list_any (λ n. bytes_eq name.now n) self.now }
    {
        match find_text_in(&self.places, name) {
            Place::First(_) => true,
            Place::Nowhere => false,
            Place::Unknown => is_one_of(self.names.as_slice(), name),
        }
    }
}

fn is_one_of(names: &[Txt], name: &str) -> bool
    ensures { result ≡ list_any (λ n. bytes_eq name.now n) (map bytes_of names.now) }
{
    for n in names {
        if name == n.as_str() {
            return true;
        }
    }
    false
}
