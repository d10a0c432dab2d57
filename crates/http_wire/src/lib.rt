//! HTTP/1.1 on the wire, both sides: bytes in any pieces become requests or responses, and these become bytes (RFC 9112).
//!
//! Its one contract: `read_request` gives the next request, or the end, of all the bytes that an inbox and its source
//! hold, whatever the pieces, and `read_response` the next response; `write_response` and `write_request` write exactly
//! one. It knows nothing of paths, queries or of what a request asks for, and looks at no field but `Transfer-Encoding`,
//! `Content-Length` and `Connection`.
#![tactic(auto)]

mod fields;
mod head;
mod inbox;
pub mod laws;
mod limits;
mod lines;
mod reading;
mod receiving;
mod requesting;
mod response;
mod response_head;

pub use inbox::Inbox;
pub use limits::{
    MOST_BODY_BYTES, MOST_FIELDS, MOST_HEAD_BYTES, MOST_LENGTH_DIGITS, MOST_REQUESTS,
};
pub use reading::read_request;
pub use receiving::read_response;
pub use requesting::write_request;
pub use response::write_response;

/// A part of what an inbox holds, in bytes from the front.
#[derive(Clone, Copy, Drop)]
pub struct Span {
    pub start: u32,
    pub len: u32,
}

/// Where the parts of a request stand in the inbox (RFC 9112, section 3).
#[derive(Clone, Copy, Drop)]
pub struct RequestParts {
    pub method: Span,
    /// The target as it was sent, with its query.
    pub target: Span,
    /// Empty where the head has no length.
    pub body: Span,
    /// Whether it asks for closing: it is of HTTP/1.0, or a field `Connection` has the item `close`.
    pub closing: bool,
}

/// The code of a response, and where its body stands in the inbox (RFC 9112, section 4).
#[derive(Clone, Copy, Drop)]
pub struct ResponseParts {
    pub code: u16,
    pub body: Span,
}

/// Why no request or response was read. After all but `Closed` the inbox is of no more use.
#[derive(Clone, Copy, Debug, Drop)]
pub enum WireFault {
    /// The input ended between two requests, or before a response.
    Closed,
    /// It ended inside a message, of which so many bytes are held: at least one, be it of an empty line before the head.
    Torn { held: u64 },
    /// The bytes can't become a head of HTTP/1.0 or 1.1 with so few fields as one may have, or `Content-Length` stands
    /// twice or isn't a number of 1 to 18 digits.
    BadHead,
    /// As many bytes as a head may have are held, and it isn't whole.
    HeadTooLong,
    /// A `Transfer-Encoding` stands in the head, or a POST, a PUT or a response has no `Content-Length`.
    LengthRequired,
    /// `Content-Length` passes the most bytes of a body.
    BodyTooLong { length: u64 },
    /// The source failed: its count of faults has risen.
    ReadFault,
}
