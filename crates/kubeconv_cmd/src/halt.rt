//! Why a document has no answer.
use kj_value::Txt;

/// Why a document has no answer.
#[derive(Drop)]
pub(crate) enum Halt {
    /// The input couldn't be read.
    ReadFailed,
    WriteFailed,
    /// The input is refused, or the version that is wanted.
    Input { why: Txt },
    NoMemory,
}
