//! The versions of a definition.
use crate::keys::spoke_key;
use hub_cells::Fitted;
use hub_fills::Fills;
use kj_value::{NoMemory, Txt};
use std::alloc::Global;
use std::marker::Model;

/// A version that isn't the hub, with its rules, fitted to its schema and the hub's.
pub struct Spoke {
    name: Txt,
    key: Txt,
    fitted: Fitted,
}

impl Drop for Spoke {
    fn drop(self) {
        let Spoke {
            name: _,
            key: _,
            fitted: _,
        } = self;
    }
}

impl Model for Spoke {
    ghost use Rattle.std.specs.Prelude.{◌≡◌};
    ghost use Rattle.keep_laws.specs.Spokes as laws;
    ghost use Rattle.keep_laws.specs.Keys.{spoke_key};
    ghost use Rattle.spoke_keep.specs.laws.SpokesCode.{spoke_code};

    ghost Value = { laws.Spoke };

    ghost coded = { spoke_code };

    ghost view = { λ s. record { name = s.name.bytes; fit = s.fitted } };

    ghost invariant = { λ s. s.key.bytes ≡ spoke_key s.name.bytes };
}

impl Spoke {
    ghost use Rattle.std.specs.Prelude.{◌≡◌, IfOk};
    ghost use Rattle.keep_laws.specs.Keys.{spoke_key};

    /// The version of this name.
    pub fn new(alloc: Global, name: Txt, fitted: Fitted) -> Result<Spoke, NoMemory>
        ensures { IfOk result (λ s. s ≡ record { name = name.bytes; fit = fitted }) }
    {
        match spoke_key(alloc, name.as_str()) {
            Ok(key) => Ok(Spoke { name, key, fitted }),
            Err(refused) => {
                drop(name);
                drop(fitted);
                Err(refused)
            }
        }
    }

    /// The version's name.
    pub fn name(&self) -> &Txt
        ensures { result.now.bytes ≡ self.now.name }
    {
        &self.name
    }

    /// The rules.
    pub fn fitted(&self) -> &Fitted
        ensures { result.now ≡ self.now.fit }
    {
        &self.fitted
    }

    // The key of the annotation that keeps what this version has and the hub can't hold.
    pub(crate) fn key(&self) -> &str
        ensures { result.now ≡ spoke_key self.now.name }
    {
        self.key.as_str()
    }
}

/// The versions of a definition: the hub, and the spokes in the definition's order. Its type keeps that the
/// names differ, that all rules are fitted from the root on to one schema of the hub, that each default is a value
/// that its side allows, and that none comes too late for some spoke; and for each spoke what the hub's names
/// become where they aren't there.
pub struct Spokes {
    group: Txt,
    hub: Txt,
    items: Vec<Spoke>,
    fills: Vec<Fills>,
}

impl Drop for Spokes {
    fn drop(self) {
        let Spokes {
            group: _,
            hub: _,
            items: _,
            fills: _,
        } = self;
    }
}

impl Model for Spokes {
    ghost use Rattle.keep_laws.specs.Spokes as laws;
    ghost use Rattle.spoke_keep.specs.laws.SpokesCode.{spokes_code};

    ghost Value = { laws.Spokes };

    ghost coded = { spokes_code };

    ghost view = { λ a. record { group = a.group.bytes; hub = a.hub.bytes; items = a.items.items } };

    ghost use Rattle.std.specs.Prelude.{◌≡◌, map};

    ghost invariant = { λ a. laws.IsDefinition (record { group = a.group.bytes; hub = a.hub.bytes; items = a.items.items })
        × (a.fills.items ≡ map (laws.fills_at (record { group = a.group.bytes; hub = a.hub.bytes; items = a.items.items })) a.items.items) };
}

impl Spokes {
    ghost use Rattle.std.specs.Prelude.{◌≡◌, ◌<◌, length, map, Some, slice_get};
    ghost use Rattle.keep_laws.specs.Spokes as laws;

    /// The definition of these spokes, for each of which stands beside it what the hub's names become. It takes no
    /// memory.
    pub fn new(group: Txt, hub: Txt, items: Vec<Spoke>, fills: Vec<Fills>) -> Spokes
        requires definition { laws.IsDefinition (record { group = group.bytes; hub = hub.bytes; items = items.items }) }
        requires fills { fills.items ≡ map (laws.fills_at (record {
          group = group.bytes;
          hub = hub.bytes;
          items = items.items;
        })) items.items }
        ensures { result ≡ record { group = group.bytes; hub = hub.bytes; items = items.items } }
    {
        Spokes {
            group,
            hub,
            items,
            fills,
        }
    }

    /// The definition's group.
    pub fn group(&self) -> &Txt
        ensures { result.now.bytes ≡ self.now.group }
    {
        &self.group
    }

    /// The hub's name.
    pub fn hub(&self) -> &Txt
        ensures { result.now.bytes ≡ self.now.hub }
    {
        &self.hub
    }

    /// The spokes, in the definition's order.
    pub fn items(&self) -> &[Spoke]
        ensures items { result.now ≡ self.now.items }
        ensures definition { laws.IsDefinition self.now }
    {
        self.items.as_slice()
    }

    /// The spoke at a place, counted from 0.
    pub fn at(&self, v: u8) -> &Spoke
        requires { v < length self.now.items }
        ensures { slice_get self.now.items v ≡ Some result.now }
    {
        &self.items[v as usize]
    }

    /// What the hub's names become where they aren't there, along the level of the spoke at a place, counted from 0.
    pub fn fills_at(&self, v: u8) -> &Fills
        requires { v < length self.now.items }
        ensures { (s : laws.Spoke) → slice_get self.now.items v ≡ Some s → result.now ≡ laws.fills_at self.now s }
    {
        &self.fills[v as usize]
    }
}
