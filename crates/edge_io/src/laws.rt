//! The numbers of the outside, which no edit of a constant can turn.
ghost use Rattle.std.specs.Prelude.{◌≡◌};

use crate::files::MOST_FILE_BYTES;

/// A file has at most 4,194,304 bytes.
pub fn numbers()
    ensures { MOST_FILE_BYTES ≡ 4_194_304 }
{}
