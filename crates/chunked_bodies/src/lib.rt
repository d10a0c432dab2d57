//! Chunked bodies of responses (RFC 9112, section 7.1).
//!
//! The one contract: `with_length` hands on a response whose body is chunked as the same response with the bytes of its chunks behind
//! its head and their `Content-Length`, and anything else as it is; `front_with_length` does so for one that wasn't read whole. It knows
//! nothing of where the bytes come from, and looks at no field but `Transfer-Encoding` and `Content-Length`.
#![tactic(auto)]

mod chunks;
mod coding;
mod head;
pub mod laws;
mod lines;
mod response;

pub use response::{front_with_length, with_length};

/// The most fields of a head, and of a body's trailers, that are looked at.
pub const MOST_FIELDS: usize = 64;
