//! Why nothing is served.
use kj_value::Txt;
use output_lines::Unserved;

/// Why a file is refused.
#[derive(Drop)]
pub(crate) enum Why {
    TooLong,
    NotText,
    /// Something in it: its path, and a word.
    At { path: Txt, word: Txt },
}

/// Why there is no definition.
#[derive(Drop)]
pub(crate) enum Stop<'a> {
    /// A file couldn't be read.
    ReadFailed,
    /// The file of this name is refused.
    Refused { file: &'a str, why: Why },
    /// The text isn't the address of a converter.
    BadAddress,
    NoMemory,
}

/// Why no connections are answered, or no further ones.
pub(crate) enum Unmet<'a> {
    Unserved(Unserved),
    /// There is no definition.
    Stopped(Stop<'a>),
}
