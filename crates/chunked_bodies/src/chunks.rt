//! The bytes of a body's chunks, joined.
ghost use Rattle.std.specs.Prelude.{◌≤◌, ◌<◌, ◌+◌, length, MatchOption, IfOk, MatchBool};
ghost use Rattle.httparse.specs.Grammar.{ChunkLine};
ghost use Rattle.httparse.specs.Spans.{IsChunkLineAt};
ghost use Rattle.chunked_bodies.specs.Chunks.{HasNoBody};
ghost use Rattle.chunked_bodies.specs.inner.Walk.{Joins, Comes, HasTrailers, HasNoTrailers};

use crate::MOST_FIELDS;
use httparse::spans::{EMPTY_HEADER_SPAN, parse_headers};
use httparse::{Status, parse_chunk_size};
use kj_value::NoMemory;
use std::alloc::Global;

// CR LF has so many bytes.
const LINE_END: usize = 2;

// What comes next of a body: a chunk, whose bytes stand there; the last line and the trailers; or neither, so that it isn't whole.
#[derive(Clone, Copy, Drop)]
pub(crate) enum Next {
    Chunk { start: usize, end: usize },
    End,
    Nothing,
}

// Whether the trailers and their empty line are whole.
fn has_trailers(bytes: &[u8]) -> bool
    ensures { MatchBool result (HasTrailers bytes.now) (HasNoTrailers bytes.now) }
{
    let mut headers = [EMPTY_HEADER_SPAN; MOST_FIELDS];
    match parse_headers(bytes, &mut headers) {
        Ok(Status::Complete(_)) => true,
        Ok(Status::Partial) => false,
        Err(_) => false,
    }
}

// The bytes behind a chunk's line, where they and the line end behind them are whole.
fn chunk_behind(bytes: &[u8], len: usize, size: u64) -> Next
    requires line { (l : ChunkLine) × IsChunkLineAt bytes.now len size l }
    requires within { len ≤ length bytes.now }
    requires filled { 0 < size }
    ensures { Comes bytes.now result }
{
    let left = bytes.len() - len;
    if left < LINE_END {
        return Next::Nothing;
    }
    if size > (left - LINE_END) as u64 {
        return Next::Nothing;
    }
    let end = len + size as usize;
    if bytes[end] != b'\r' {
        return Next::Nothing;
    }
    if bytes[end + 1] != b'\n' {
        return Next::Nothing;
    }
    Next::Chunk { start: len, end }
}

// What comes behind a line of the size 0.
fn end_behind(bytes: &[u8], len: usize) -> Next
    requires line { (l : ChunkLine) × IsChunkLineAt bytes.now len 0 l }
    requires within { len ≤ length bytes.now }
    ensures { Comes bytes.now result }
{
    if has_trailers(&bytes[len..]) {
        Next::End
    } else {
        Next::Nothing
    }
}

fn next_of(bytes: &[u8]) -> Next
    ensures { Comes bytes.now result }
{
    match parse_chunk_size(bytes) {
        Ok(Status::Complete((len, size))) => {
            if size == 0 {
                end_behind(bytes, len)
            } else {
                chunk_behind(bytes, len, size)
            }
        }
        Ok(Status::Partial) => Next::Nothing,
        Err(_) => Next::Nothing,
    }
}

/// The bytes of all chunks of the body at the front, where it is whole.
#[tactic(auto, using(crate::proofs::Bodies::goes_none, crate::proofs::Bodies::goes_none_at, crate::proofs::Bodies::goes_end_at, crate::proofs::Bodies::goes_chunk_at, crate::proofs::Bodies::chunk_within))]
pub(crate) fn joined(alloc: Global, bytes: &[u8]) -> Result<Option<Vec<u8>>, NoMemory>
    ensures { IfOk result (λ found. MatchOption found (HasNoBody bytes.now) (λ v. Joins bytes.now v.items)) }
{
    let mut content = Vec::new(alloc);
    let mut at = 0;
    loop {
        match next_of(&bytes[at..]) {
            Next::Chunk { start, end } => {
                content.extend_from_slice(&bytes[at + start..at + end])?;
                at += end + LINE_END;
            }
            Next::End => return Ok(Some(content)),
            Next::Nothing => return Ok(None),
        }
    }
}
