//! The parts of a target.
ghost use Rattle.std.specs.Prelude.{◌≡◌, ◌<◌, [], ◌∷◌, length, get_or, map, IfOk, MatchOption};
ghost use Rattle.std.specs.Cow.{cow_slice_items};
ghost use Rattle.percent_encoding.specs.Percent.{percent_decode};
ghost use Rattle.http_routes.specs.Paths.{pieces, segments as segments_of};
ghost use Rattle.http_routes.specs.Routes.{path_in, query_in, is_stop as is_stop_of};
ghost use Rattle.http_routes.specs.Views.{now_of};

use kj_value::NoMemory;
use percent_encoding::percent_decode;
use std::alloc::Global;
use std::borrow::CowSlice;

/// The most segments of a path that names something, with the empty one before its first slash.
pub const MOST_SEGMENTS: usize = 8;

/// Whether a segment ends at this byte, or may have an escape there. Letters are told by the first test.
pub fn is_stop(byte: u8) -> bool
    ensures { result ≡ is_stop_of byte }
{
    byte <= b'?' && (byte == b'%' || byte == b'/' || byte == b'?')
}

/// The path of a target, and its query.
pub fn cut_target(target: &[u8]) -> (&[u8], &[u8])
    ensures path { result.0.now ≡ path_in target.now }
    ensures query { result.1.now ≡ query_in target.now }
{
    match target.iter().position(|&b| b == b'?') {
        Some(i) => (&target[..i], &target[i + 1..]),
        None => (target, b""),
    }
}

/// The bytes that the part stands for.
pub fn decoded(alloc: Global, part: &[u8]) -> Result<CowSlice<'_, u8>, NoMemory>
    ensures { IfOk result (λ s. cow_slice_items s ≡ percent_decode part.now) }
{
    Ok(percent_decode(part).into_cow(alloc)?)
}

// The bytes before the first slash, and those behind it.
fn cut(path: &[u8]) -> Option<(&[u8], &[u8])>
    ensures { MatchOption result (pieces path.now ≡ path.now ∷ []) (λ p. (pieces path.now ≡ p.0.now ∷ pieces p.1.now) × (length p.1.now < length path.now)) }
{
    for i in 0..path.len() {
        if path[i] == b'/' {
            return Some((&path[..i], &path[i + 1..]));
        }
    }
    None
}

/// The segments of a path, decoded, or `None` where there are more than a path of the table has.
pub fn segments(alloc: Global, path: &[u8]) -> Result<Option<Vec<CowSlice<'_, u8>>>, NoMemory>
    ensures { IfOk result (λ found. MatchOption found (MOST_SEGMENTS < length (segments_of path.now)) (λ parts. map cow_slice_items parts.items ≡ segments_of path.now)) }
{
    let mut parts = Vec::with_capacity(alloc, MOST_SEGMENTS)?;
    let mut rest = path;
    while parts.len() < MOST_SEGMENTS {
        match cut(rest) {
            Some((piece, more)) => {
                parts.push(decoded(alloc, piece)?)?;
                rest = more;
            }
            None => {
                parts.push(decoded(alloc, rest)?)?;
                return Ok(Some(parts));
            }
        }
    }
    Ok(None)
}

/// The segments, lent.
pub fn lent<'b>(alloc: Global, parts: &'b [CowSlice<'_, u8>]) -> Result<Vec<&'b [u8]>, NoMemory>
    ensures { IfOk result (λ lent. map now_of lent.items ≡ map cow_slice_items parts.now) }
{
    let mut lent = Vec::with_capacity(alloc, parts.len())?;
    for part in parts {
        lent.push(part.as_slice())?;
    }
    Ok(lent)
}

/// The segment at this place.
pub fn part<'b>(parts: &[&'b [u8]], i: usize) -> &'b [u8]
    requires { i < length parts.now }
    ensures { result.now ≡ get_or (map now_of parts.now) i [] }
{
    parts[i]
}
