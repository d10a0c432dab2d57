//! The numbers of keys and of a server's limits, which no edit of a constant can turn.
ghost use Rattle.std.specs.Prelude.{◌≡◌};

use crate::key::{NAME_BYTES, NAMESPACE_BYTES};
use crate::limits::Limits;

/// A namespace has at most 63 bytes and a name at most 253. The program runs with at most 16,384 objects in 262,144 chunks of
/// 256 bytes, a window of 1,024 superseded records in 65,536 chunks, and 256 migrations.
pub fn numbers()
    ensures namespace { NAMESPACE_BYTES ≡ 63 }
    ensures name { NAME_BYTES ≡ 253 }
    ensures objects { Limits.STANDING.objects ≡ 16_384 }
    ensures chunks { Limits.STANDING.chunks ≡ 262_144 }
    ensures window_records { Limits.STANDING.window_records ≡ 1_024 }
    ensures window_chunks { Limits.STANDING.window_chunks ≡ 65_536 }
    ensures migrations { Limits.STANDING.migrations ≡ 256 }
{}
