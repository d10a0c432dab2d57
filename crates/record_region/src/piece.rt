//! A piece, and the answer of a region that has no room for one.
ghost use Rattle.std.specs.Prelude.{◌≡◌, ◌-◌, ◌^◌};

use std::marker::Model;

/// A piece that a region holds, by the number of its first chunk. It can't be copied, so that it is
/// freed once at most.
#[derive(Drop)]
pub struct Piece {
    pub(crate) first: u32,
}

impl Model for Piece {
    ghost use Rattle.std.specs.Prelude.{ℕ};

    ghost Value = { ℕ };

    ghost view = { λ p. p.first };
}

impl Piece {
    /// What stands where a piece is still to be put. It is live in no region: none has so many chunks.
    pub fn none() -> Piece
        ensures { result ≡ 2 ^ 32 - 1 }
    {
        Piece { first: u32::MAX }
    }
}

/// A region had too few free chunks for a piece.
#[derive(Clone, Copy, Debug, Drop, PartialEq, Eq)]
pub struct RegionFull {
    /// How many chunks the piece takes.
    pub need: u32,
    /// How many chunks are free.
    pub free: u32,
}
