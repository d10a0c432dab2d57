//! The place at which ears listen.
ghost use Rattle.std.specs.Prelude.{◌≡◌, ℕ, List, Option, Some, IfOk, IfSome, codes};

use edge_io::{Ears, MemEars};
use kj_value::{NoMemory, Txt};
use std::alloc::Global;

/// Ears that tell the place at which they listen, as a text.
pub trait Place: Ears {
    /// The text, where the object tells it.
    ghost place: { Self → Option (List ℕ) };

    /// A text that may be told of ears that were asked to listen at a place.
    ghost is_told: { List ℕ → List ℕ → Type 0 };

    /// The text, of an object that listens. It may differ from the one that it was told to listen at, as where the system chose
    /// a port.
    fn place(&self, alloc: Global) -> Result<Txt, NoMemory>
        ensures text { IfSome (place self.now) (λ text. IfOk result (λ t. t.bytes ≡ text)) }
        ensures told { (asked : List ℕ) → Self.hears self.now asked → IfOk result (λ t. is_told asked t.bytes) };
}

impl Place for MemEars {
    ghost place = { λ e. Some (codes "memory") };

    ghost is_told = { λ asked text. text ≡ codes "memory" };

    fn place(&self, alloc: Global) -> Result<Txt, NoMemory> {
        Txt::of(alloc, "memory")
    }
}
