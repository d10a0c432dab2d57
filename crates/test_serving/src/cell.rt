//! The counter as the turn keeps it.
use crate::counter::Counter;
use turn_cell::Standing;

/// The counter as the turn keeps it. Its base is the limit.
#[derive(Drop)]
pub struct Cell {
    pub counter: Counter,
}

impl Standing for Cell {
    ghost use Rattle.test_serving.specs.Counts.{Counts};

    type Base = u64;

    ghost stands = { λ c log. Counts c.counter log };

    ghost base = { λ c. c.counter.limit };
}
