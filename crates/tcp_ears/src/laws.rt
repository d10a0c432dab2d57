//! The numbers of patience and of closing, which no edit of a constant can turn.
ghost use Rattle.std.specs.Prelude.{◌≡◌};

use crate::parts::{CLOSING_READS, CLOSING_SECONDS, WRITE_BYTES};
use crate::patience::{
    CROWD, CROWDED_BYTES, CROWDED_SECONDS, IDLE_SECONDS, SLICE_SECONDS, WHOLE_SECONDS,
};

/// A peer is waited for 60 seconds in slices of one, and a whole request 120. Where there are more than 48 connections it is 2 seconds, and
/// 256 bytes a second. 1,048,576 bytes are written at once at most. What a peer still sends at the end is read 16 times, for a second each.
pub fn numbers()
    ensures idle { IDLE_SECONDS ≡ 60 }
    ensures slice { SLICE_SECONDS ≡ 1 }
    ensures whole { WHOLE_SECONDS ≡ 120 }
    ensures crowd { CROWD ≡ 48 }
    ensures crowded_seconds { CROWDED_SECONDS ≡ 2 }
    ensures crowded_bytes { CROWDED_BYTES ≡ 256 }
    ensures write { WRITE_BYTES ≡ 1_048_576 }
    ensures closing_seconds { CLOSING_SECONDS ≡ 1 }
    ensures closing_reads { CLOSING_READS ≡ 16 }
{}
