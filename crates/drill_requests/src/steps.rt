//! What is done in a step.
ghost use Rattle.std.specs.Prelude.{◌≡◌};
ghost use Rattle.drill_requests.specs.Draws.{step_of};

use crate::draws::Draw;

/// What is done in a step, with the object of a number and a value.
#[derive(Clone, Copy)]
pub enum Step {
    /// It is created at `v1beta1`.
    CreateSpoke { object: u64, value: u64 },
    /// It is created at `v1`.
    CreateHub { object: u64, value: u64 },
    /// It is got, and put back with another field.
    Edit { object: u64, value: u64 },
    Delete { object: u64 },
    /// The worker takes a turn.
    Turn,
    /// The storage version is switched, and a migration is started.
    Switch,
}

/// What is done for the numbers that were drawn.
pub fn step_of(draw: Draw) -> Step
    ensures { result ≡ step_of draw }
{
    let Draw {
        kind,
        object,
        value,
    } = draw;
    if kind < 2 {
        Step::CreateSpoke { object, value }
    } else if kind < 4 {
        Step::CreateHub { object, value }
    } else if kind == 4 {
        Step::Edit { object, value }
    } else if kind == 5 {
        Step::Delete { object }
    } else if kind == 6 {
        Step::Turn
    } else {
        Step::Switch
    }
}
