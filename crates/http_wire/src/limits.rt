//! The limits of a connection.

/// The most bytes of a head, with the empty lines before it.
pub const MOST_HEAD_BYTES: usize = 16_384;

/// The most fields of a head.
pub const MOST_FIELDS: usize = 64;

/// The most digits of a `Content-Length`.
pub const MOST_LENGTH_DIGITS: usize = 18;

/// The most bytes of a body.
pub const MOST_BODY_BYTES: u64 = 1_048_576;

/// The most requests of one connection.
pub const MOST_REQUESTS: usize = 10_000;
