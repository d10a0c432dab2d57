//! The field of a head that says that the body is chunked.
ghost use Rattle.std.specs.Prelude.{◌≡◌, length, map, All, MatchOption};
ghost use Rattle.std.specs.Str.{str_eq_ignore_ascii_case};
ghost use Rattle.httparse.specs.Spans.{header_bytes, IsHeaderWithin};
ghost use Rattle.chunked_bodies.specs.Response.{frames as frames_of, is_chunked as is_chunked_of, IsChunkedAt};
ghost use Rattle.chunked_bodies.specs.inner.Walk.{IsNowhere};

use httparse::spans::HeaderSpan;

// Whether two texts have the same letters, in any case.
fn same_letters(a: &[u8], b: &[u8]) -> bool
    ensures { result ≡ str_eq_ignore_ascii_case a.now b.now }
{
    a.eq_ignore_ascii_case(b)
}

// Whether the field says how the body ends.
#[tactic(auto, unfolding(crate::specs::Response::frames))]
fn frames(name: &[u8], value: &[u8]) -> bool
    ensures { result ≡ frames_of (name.now, value.now) }
{
    same_letters(name, b"transfer-encoding") || same_letters(name, b"content-length")
}

// Whether the field says that the body is chunked.
#[tactic(auto, unfolding(crate::specs::Response::is_chunked))]
fn is_chunked(name: &[u8], value: &[u8]) -> bool
    ensures { result ≡ is_chunked_of (name.now, value.now) }
{
    same_letters(name, b"transfer-encoding") && same_letters(value, b"chunked")
}

/// The place of the field that says so, where no other says how the body ends.
pub(crate) fn coding_of(bytes: &[u8], headers: &[HeaderSpan]) -> Option<usize>
    requires { All (IsHeaderWithin (length bytes.now)) headers.now }
    ensures { MatchOption result
        (IsNowhere (map (header_bytes bytes.now) headers.now))
        (IsChunkedAt (map (header_bytes bytes.now) headers.now)) }
{
    let mut found = None;
    for i in 0..headers.len() {
        let header = headers[i];
        let name = header.name.of(bytes);
        let value = header.value.of(bytes);
        if frames(name, value) {
            if found.is_some() {
                return None;
            }
            if !is_chunked(name, value) {
                return None;
            }
            found = Some(i);
        }
    }
    found
}
