//! A number that stands for a list of that length.
use turn_cell::Standing;

/// A number that stands for a list of that length.
#[derive(Drop)]
pub struct Tally {
    pub n: u64,
}

impl Standing for Tally {
    ghost use Rattle.std.specs.Prelude.{◌≡◌, length};

    type Base = ();

    ghost stands = { λ t log. t.n ≡ length log };

    ghost base = { λ t. tt };
}
