//! What a worker asks before each turn.
ghost use Rattle.std.specs.Prelude.{Bool};
ghost use Rattle.shared_api.specs.declared.step.TurnStep.{TurnStep as Step};

use shared_api::TurnStep;
use std::sync::Wait;

/// What a worker asks before each turn.
pub trait Gate {
    /// How it may answer a question, and what it is after that.
    ghost answers: { Self → Step → Bool → Self → Type 0 };

    /// Whether the worker may take a turn. `last` is how its turn before came out, at first `Idle`. It may wait.
    fn go_on<R: Wait>(&mut self, rt: &R, last: TurnStep) -> bool
        ensures { answers self.old last result self.new };
}
