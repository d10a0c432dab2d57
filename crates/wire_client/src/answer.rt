//! What the bytes of an answer come to.
use kj_value::JVal;

/// What the bytes of an answer come to.
#[derive(Drop)]
pub(crate) enum Answer {
    /// A body that is longer than a client reads.
    TooLong,
    /// No response.
    NoResponse,
    /// A response, and its body's value, where it has one.
    Coded { code: u16, body: Option<JVal> },
}
