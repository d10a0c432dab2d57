//! The numbers of a client, which no edit of a constant can turn.
ghost use Rattle.std.specs.Prelude.{◌≡◌};

use crate::buffer::ANSWER_LEVELS;

/// A body is read within 66 levels of lists and objects.
pub fn numbers()
    ensures { ANSWER_LEVELS ≡ 66 }
{}
