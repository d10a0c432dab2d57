//! The counter that callers share.
ghost use Rattle.std.specs.Prelude.{◌≡◌};
ghost use Rattle.turn_cell.specs.Turns.{IsResting};

use crate::cell::Cell;
use turn_cell::{Turn, TurnPass};

mod calls;

/// The counter that callers share.
#[derive(Drop)]
pub struct SharedCounter {
    pub turn: Turn<Cell>,
}

/// The right to call. Between two calls it rests.
#[derive(Drop)]
pub struct Pass {
    pub turn: TurnPass<Cell>,
    ghost resting: { IsResting turn.seat.me.0 },
}
