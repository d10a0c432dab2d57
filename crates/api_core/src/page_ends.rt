//! Pages of objects by key.
ghost use Rattle.std.specs.Prelude.{◌≡◌, length};

use crate::seen::Seen;
use kj_value::NoMemory;
use std::marker::Model;

/// Objects by rising key.
#[derive(Drop)]
pub struct SeenItems {
    items: Vec<Seen>,
}

impl Model for SeenItems {
    ghost use Rattle.std.specs.Prelude.{List};
    ghost use Rattle.api_core.specs.declared.seen.Seen.{Seen};

    ghost Value = { List Seen };

    ghost view = { λ a. a.items.items };
}

impl SeenItems {
    /// The list of these objects.
    pub fn of(items: Vec<Seen>) -> SeenItems
        ensures { result ≡ items.items }
    {
        SeenItems { items }
    }

    /// How many there are.
    pub fn len(&self) -> usize
        ensures { result ≡ length self.now }
    {
        self.items.len()
    }

    /// The objects, lent.
    pub fn as_slice(&self) -> &[Seen]
        ensures { result.now ≡ self.now }
    {
        self.items.as_slice()
    }

    /// The objects, to be moved out of the list.
    pub fn into_vec(self) -> Vec<Seen>
        ensures { result.items ≡ self }
    {
        self.items
    }
}

/// A page of the objects as they were at the number `rv`, and how many are left behind them.
#[derive(Drop)]
pub struct Page {
    pub rv: u64,
    pub items: SeenItems,
    pub remaining: u64,
}

/// Why there is no page.
#[derive(Clone, Copy, Debug, Drop)]
pub enum PageFault {
    /// The version isn't served.
    Unserved,
    /// The token's number is above the revision.
    Ahead { revision: u64 },
    /// The token's number is below the floor: what stood then isn't known any more.
    Expired { floor: u64 },
    /// A call that wanted memory found none.
    NoMemory,
}

impl From<NoMemory> for PageFault {
    ghost use Rattle.std.specs.Prelude.{◌≡◌};
    ghost use Rattle.api_core.specs.declared.page_ends.PageFault.TheVariants as fault;

    ghost from_gives = { λ _ e. e ≡ fault.NoMemory };

    fn from(_: NoMemory) -> PageFault {
        PageFault::NoMemory
    }
}
