//! What a turn asks of the values that it keeps, and of the items that are added.
ghost use Rattle.std.specs.Prelude.{List};
ghost use Rattle.api_calls.specs.Item.{Logged, Item};

use std::marker::Brand;

/// A value that stands, in contracts, for a list of items, and has a base, which is plain data that no turn changes.
pub trait Standing: Drop {
    type Base;

    ghost stands: { Self → List Logged → Type 0 };

    ghost base: { Self → Self.Base };
}

/// The item that a call of `append` adds. A caller picks it by a type of its own, or by `Brand` in the proof of the call.
pub trait Names {
    ghost item: { Item };
}

impl Names for Brand {
    ghost use Rattle.api_calls.specs.Item.{note, Claim};

    ghost item = { note (Claim 0) };
}
