//! The head of a response: what the bytes say of it that may be one.
ghost use Rattle.std.specs.Prelude.{◌≡◌, ◌≤◌, length};
ghost use Rattle.httparse.specs.Spans.{IsResponseWithin, IsResponseOf};
ghost use Rattle.http_wire.specs.Received.{JudgesStatus};

use crate::WireFault;
use crate::fields::response_length;
use crate::limits::{MOST_FIELDS, MOST_HEAD_BYTES};
use httparse::Status;
use httparse::spans::{EMPTY_HEADER_SPAN, HeaderSpan, ResponseSpans, parse_response};

/// The code of a head, and how many bytes it and the body have.
#[derive(Clone, Copy, Drop)]
pub struct StatusParts {
    pub code: u16,
    pub len: usize,
    pub body: u64,
}

/// What bytes say of a response's head at their front.
#[derive(Clone, Copy, Drop)]
pub enum StatusVerdict {
    Whole(StatusParts),
    /// It isn't whole yet.
    Open,
    Refused(WireFault),
}

// What a whole head says.
fn judge_fields(bytes: &[u8], headers: &[HeaderSpan], found: ResponseSpans) -> StatusVerdict
    requires short { length bytes.now ≤ MOST_HEAD_BYTES }
    requires few { length headers.now ≤ MOST_FIELDS }
    requires within { IsResponseWithin bytes.now headers.now found }
    requires head { IsResponseOf bytes.now headers.now found }
    ensures { JudgesStatus bytes.now result }
{
    match response_length(bytes, &headers[..found.headers]) {
        Ok(body) => StatusVerdict::Whole(StatusParts {
            code: found.code,
            len: found.len,
            body,
        }),
        Err(fault) => StatusVerdict::Refused(fault),
    }
}

// What bytes say, of which there are at most as many as a head may have.
fn judge_window(bytes: &[u8]) -> StatusVerdict
    requires { length bytes.now ≤ MOST_HEAD_BYTES }
    ensures { JudgesStatus bytes.now result }
{
    let mut headers = [EMPTY_HEADER_SPAN; MOST_FIELDS];
    match parse_response(bytes, &mut headers) {
        Ok(Status::Complete(found)) => judge_fields(bytes, &headers, found),
        Ok(Status::Partial) => StatusVerdict::Open,
        Err(_) => StatusVerdict::Refused(WireFault::BadHead),
    }
}

/// What the bytes that are held say of a response's head.
pub fn judge_status(held: &[u8]) -> StatusVerdict
    ensures { JudgesStatus held.now result }
{
    judge_window(&held[..held.len().min(MOST_HEAD_BYTES)])
}
