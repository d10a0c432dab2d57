//! The head of a response whose body is chunked.
ghost use Rattle.std.specs.Prelude.{◌≡◌, ◌≤◌, ◌<◌, length, slice_index, MatchOption};
ghost use Rattle.httparse.specs.Grammar.{ResponseHead};
ghost use Rattle.httparse.specs.Spans.{IsResponseWithin, IsResponseOf};
ghost use Rattle.chunked_bodies.specs.inner.Walk.{IsHeadAt, HasNoChunkedHead};

use crate::MOST_FIELDS;
use crate::coding::coding_of;
use httparse::Status;
use httparse::spans::{EMPTY_HEADER_SPAN, HeaderSpan, ResponseSpans, parse_response};

// A status line begins with it.
const FIRST: u8 = b'H';

/// How many bytes the head has, and the place of its field that says that the body is chunked.
#[derive(Clone, Copy, Drop)]
pub(crate) struct ChunkedHead {
    pub len: usize,
    pub coding: usize,
}

// What a head that begins with its status line says.
fn judge(bytes: &[u8], headers: &[HeaderSpan], found: ResponseSpans) -> Option<ChunkedHead>
    requires begins { (0 < length bytes.now) × (slice_index bytes.now 0 ≡ FIRST) }
    requires few { length headers.now ≤ MOST_FIELDS }
    requires within { IsResponseWithin bytes.now headers.now found }
    requires head { IsResponseOf bytes.now headers.now found }
    ensures { MatchOption result (HasNoChunkedHead bytes.now) (λ p. (h : ResponseHead) × IsHeadAt bytes.now p h) }
{
    if found.version != 1 {
        return None;
    }
    match coding_of(bytes, &headers[..found.headers]) {
        Some(coding) => Some(ChunkedHead {
            len: found.len,
            coding,
        }),
        None => None,
    }
}

/// The head at the front, where it is whole and is one of a chunked response.
pub(crate) fn chunked_head(bytes: &[u8]) -> Option<ChunkedHead>
    ensures { MatchOption result (HasNoChunkedHead bytes.now) (λ p. (h : ResponseHead) × IsHeadAt bytes.now p h) }
{
    if bytes.is_empty() {
        return None;
    }
    if bytes[0] != FIRST {
        return None;
    }
    let mut headers = [EMPTY_HEADER_SPAN; MOST_FIELDS];
    match parse_response(bytes, &mut headers) {
        Ok(Status::Complete(found)) => judge(bytes, &headers, found),
        Ok(Status::Partial) => None,
        Err(_) => None,
    }
}
