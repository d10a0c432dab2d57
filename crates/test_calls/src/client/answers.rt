//! Links that answer as a case says.
use edge_io::{MemExchange, MemLink};
use std::alloc::Global;
use wire_client::PlainFar;

// Adds a byte, or CR LF in place of `|`. Answers whether there was room.
fn add_byte(bytes: &mut Vec<u8>, byte: u8) -> bool {
    if byte == b'|' {
        bytes.extend_from_slice(b"\r\n").is_ok()
    } else {
        bytes.push(byte).is_ok()
    }
}

/// The bytes, where `|` stands for CR LF.
pub(crate) fn unfolded(alloc: Global, text: &str) -> Option<Vec<u8>> {
    let mut bytes = Vec::new(alloc);
    for byte in text.as_bytes() {
        if !add_byte(&mut bytes, *byte) {
            return None;
        }
    }
    Some(bytes)
}

/// A response of that code and body.
pub(crate) fn response(alloc: Global, code: &str, body: &str) -> Option<Vec<u8>> {
    let length = body.len();
    match format!(in alloc; "HTTP/1.1 {code} X\r\nContent-Length: {length}\r\n\r\n{body}") {
        Ok(text) => text.as_str().as_bytes().to_vec(alloc).ok(),
        Err(_) => None,
    }
}

fn answer_bytes(alloc: Global, answer: &str) -> Option<Vec<u8>> {
    let Some((first, rest)) = answer.split_once(' ') else {
        return None;
    };
    if first == "raw" {
        return unfolded(alloc, rest);
    }
    response(alloc, first, rest)
}

fn add_answer(alloc: Global, answers: &mut Vec<Vec<u8>>, answer: &str) -> bool {
    match answer_bytes(alloc, answer) {
        Some(bytes) => answers.push(bytes).is_ok(),
        None => false,
    }
}

/// A link that gives this one answer, or that fails where it is `broken`.
pub(crate) fn link_of(alloc: Global, answer: &str) -> Option<PlainFar<MemLink>> {
    let mut answers = Vec::new(alloc);
    if answer == "broken" || add_answer(alloc, &mut answers, answer) {
        Some(link_of_all(alloc, answers))
    } else {
        None
    }
}

/// A link that gives these answers one after the other; the exchange behind the last one fails.
pub(crate) fn link_of_all(alloc: Global, answers: Vec<Vec<u8>>) -> PlainFar<MemLink> {
    PlainFar::new(MemLink::new(alloc, answers, Vec::new(alloc)))
}

/// What stands before the first of these bytes, and behind it.
pub(crate) fn cut<'a>(text: &'a str, at: &str) -> (&'a str, &'a str) {
    match text.split_once(at) {
        Some(parts) => parts,
        None => (text, ""),
    }
}

// The method, the target and the body of a request.
fn told(alloc: Global, request: &str) -> Option<String> {
    let (line, rest) = cut(request, " HTTP/1.1\r\n");
    let (_head, body) = cut(rest, "\r\n\r\n");
    if body.is_empty() {
        return String::from_str(alloc, line).ok();
    }
    format!(in alloc; "{line} {body}").ok()
}

// Adds a request, which is told.
fn add_told(alloc: Global, request: &str, out: &mut String) -> bool {
    match told(alloc, request) {
        Some(text) => out.push_str(text.as_str()).is_ok() && out.push_str(" -> ").is_ok(),
        None => false,
    }
}

// Adds the requests that were made, one after the other. Answers whether there was room.
fn add_requests(alloc: Global, made: &[MemExchange], out: &mut String) -> bool {
    for exchange in made {
        let Ok(request) = str::from_utf8(exchange.request()) else {
            return false;
        };
        if !add_told(alloc, request, out) {
            return false;
        }
    }
    true
}

/// The requests that were made, told one after the other.
pub(crate) fn requests_of(alloc: Global, far: PlainFar<MemLink>) -> Option<String> {
    let mut out = String::new(alloc);
    if add_requests(alloc, far.into_link().made(), &mut out) {
        Some(out)
    } else {
        None
    }
}

fn joined(front: String, told: &Option<String>) -> Option<String> {
    let mut out = front;
    match told {
        Some(told) => match out.push_str(told.as_str()) {
            Ok(()) => Some(out),
            Err(_) => None,
        },
        None => None,
    }
}

/// The requests that were made, and what is told behind them.
pub(crate) fn answered(
    alloc: Global,
    far: PlainFar<MemLink>,
    told: Option<String>,
) -> Option<String> {
    match requests_of(alloc, far) {
        Some(out) => joined(out, &told),
        None => None,
    }
}
