//! The numbers of links, which no edit of a constant can turn.
ghost use Rattle.std.specs.Prelude.{◌≡◌};

use crate::limits::{CONNECT_SECONDS, EXCHANGE_SECONDS, MOST_ANSWER_BYTES, READ_BYTES};

/// An address is waited for 10 seconds and an exchange 30, and an answer has at most 2,097,152 bytes, which are read 16,384 at a time.
pub fn numbers()
    ensures connect { CONNECT_SECONDS ≡ 10 }
    ensures exchange { EXCHANGE_SECONDS ≡ 30 }
    ensures answer { MOST_ANSWER_BYTES ≡ 2_097_152 }
    ensures piece { READ_BYTES ≡ 16_384 }
{}
