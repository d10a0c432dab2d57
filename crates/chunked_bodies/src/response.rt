//! A response with its length.
ghost use Rattle.std.specs.Prelude.{◌≡◌, ◌≤◌, ◌++◌, length, slice_range, MatchOption, IfOk, OnOk};
ghost use Rattle.httparse.specs.Grammar.{ResponseHead, print_field, print_response};
ghost use Rattle.chunked_bodies.specs.Response.{HasNoChunked, HandsOn, HandsOnFront, length_line, head_with_length};
ghost use Rattle.chunked_bodies.specs.inner.Walk.{IsHeadAt, Rewrites};

use crate::chunks::joined;
use crate::head::{ChunkedHead, chunked_head};
use crate::lines::{field_line, line_end};
use itoa::Buffer;
use kj_value::NoMemory;
use std::alloc::Global;

const LENGTH: &[u8] = b"Content-Length: ";

const LINE_END: &[u8] = b"\r\n";

// Adds the field.
fn push_length(out: &mut Vec<u8>, len: usize) -> Result<(), NoMemory>
    ensures { OnOk result (out.new.items ≡ out.old.items ++ print_field (length_line len)) }
{
    let mut number = Buffer::new();
    out.extend_from_slice(LENGTH)?;
    out.extend_from_slice(number.format(len).as_bytes())?;
    out.extend_from_slice(LINE_END)?;
    Ok(())
}

fn part(bytes: &[u8], from: usize, to: usize) -> &[u8]
    requires ordered { from ≤ to }
    requires within { to ≤ length bytes.now }
    ensures { result.now ≡ slice_range bytes.now from to }
{
    &bytes[from..to]
}

// The head with a length in the place of its field that says that the body is chunked.
#[tactic(auto, using(crate::proofs::Handing::head_within))]
fn head_with_length(
    alloc: Global,
    bytes: &[u8],
    head: ChunkedHead,
    len: usize,
) -> Result<Vec<u8>, NoMemory>
    requires { (h : ResponseHead) × IsHeadAt bytes.now head h }
    ensures { IfOk result (λ v. (h : ResponseHead) → IsHeadAt bytes.now head h → v.items ≡ print_response (head_with_length h head.coding len)) }
{
    let start = field_line(bytes, head.coding);
    let end = line_end(bytes, start);
    let mut out = Vec::from_slice(alloc, &bytes[..start])?;
    push_length(&mut out, len)?;
    out.extend_from_slice(part(bytes, end, head.len))?;
    Ok(out)
}

// The whole response: its head with the length of these bytes, and the bytes.
fn response_of(
    alloc: Global,
    bytes: &[u8],
    head: ChunkedHead,
    content: &[u8],
) -> Result<Vec<u8>, NoMemory>
    requires { (h : ResponseHead) × IsHeadAt bytes.now head h }
    ensures { IfOk result (λ v. (h : ResponseHead) → IsHeadAt bytes.now head h
        → v.items ≡ print_response (head_with_length h head.coding (length content.now)) ++ content.now) }
{
    let mut out = head_with_length(alloc, bytes, head, content.len())?;
    out.extend_from_slice(content)?;
    Ok(out)
}

// A chunked response with its length.
#[tactic(auto, using(crate::proofs::Handing::head_within, crate::proofs::Handing::no_chunked_head))]
fn rewritten(alloc: Global, bytes: &[u8]) -> Result<Option<Vec<u8>>, NoMemory>
    ensures { IfOk result (λ found. MatchOption found (HasNoChunked bytes.now) (λ v. Rewrites bytes.now v.items)) }
{
    let Some(head) = chunked_head(bytes) else {
        return Ok(None);
    };
    let Some(content) = joined(alloc, &bytes[head.len..])? else {
        return Ok(None);
    };
    let out = response_of(alloc, bytes, head, &content)?;
    Ok(Some(out))
}

/// What is handed on of a response as it was read up to the end of its connection. A response of HTTP/1.1 that begins with its status
/// line, says by one field `Transfer-Encoding` with the value `chunked` alone that its body is chunked, has no `Content-Length`, and whose
/// body is whole, is handed on with its length: its status line and its other fields as they stand, `Content-Length` in the place of
/// `Transfer-Encoding`, and the bytes of its chunks joined. Extensions, trailers and what stands behind them are dropped; a head or
/// trailers of more than 64 fields aren't looked at. Anything else is handed on as it is (RFC 9112, sections 6.3, 7.1 and 7.1.3).
#[tactic(auto, using(crate::proofs::Handing::hands_joined))]
pub fn with_length(alloc: Global, response: Vec<u8>) -> Result<Vec<u8>, NoMemory>
    ensures { IfOk result (λ v. HandsOn response.items v.items) }
{
    match rewritten(alloc, &response)? {
        Some(joined) => Ok(joined),
        None => Ok(response),
    }
}

// The front of a chunked response with the length of what stands behind its head.
#[tactic(auto, using(crate::proofs::Handing::head_within))]
fn counted(alloc: Global, front: &[u8], head: ChunkedHead) -> Result<Vec<u8>, NoMemory>
    requires { (h : ResponseHead) × IsHeadAt front.now head h }
    ensures { IfOk result (λ v. HandsOnFront front.now v.items) }
{
    let out = response_of(alloc, front, head, &front[head.len..])?;
    Ok(out)
}

/// What is handed on of the front of a response that is longer than what was read of it. Where its head is one of those whose chunked
/// bodies `with_length` joins, it is that head with the length of what was read behind it in the place of `Transfer-Encoding`, and that as it
/// stands, chunk lines among it: who reads no body of such a length is told that it is too long, as of a response that had its length.
/// Anything else is handed on as it is.
pub fn front_with_length(alloc: Global, front: Vec<u8>) -> Result<Vec<u8>, NoMemory>
    ensures { IfOk result (λ v. HandsOnFront front.items v.items) }
{
    match chunked_head(&front) {
        Some(head) => counted(alloc, &front, head),
        None => Ok(front),
    }
}
