//! Connections in memory: what one sends, and what is written to it.
ghost use Rattle.shared_api.specs.Passes.{IsOf};

use crate::texts::cut;
use api_calls::Versions;
use edge_io::{FixedClock, MemSink, MemSource, Sink, Source};
use http_front::{End, serve_link};
use kj_value::Stamp;
use shared_api::{Pass, SharedApi};
use std::alloc::Global;
use std::sync::Wait;

// More than any connection is written.
const ROOM: usize = 50_000;

// What `~` stands for in a body: as many bytes as a chunk has.
const CHUNK: &str =
    "xxxxxxxxxxxxxxxxxxxxxxxxxxxxxxxxxxxxxxxxxxxxxxxxxxxxxxxxxxxxxxxxxxxxxxxxxxxxxxxxxxxxxxxxxxxxxxxxxxxxxxxxxxxxxxxxxxxxxxxxxxxxxxxxxxxxxxxxxxxxxxxxxxxxxxxxxxxxxxxxxxxxxxxxxxxxxxxxxxxxxxxxxxxxxxxxxxxxxxxxxxxxxxxxxxxxxxxxxxxxxxxxxxxxxxxxxxxxxxxxxxxxxxxxxxxxxxxx";

// The two ends of a connection, and whether it is told in short.
struct Link {
    source: MemSource,
    sink: MemSink,
    is_short: bool,
}

impl Drop for Link {
    fn drop(self) {
        let Link {
            source: _,
            sink: _,
            is_short: _,
        } = self;
    }
}

// The number of a call that fails, where one is named.
fn number_of(word: &str) -> u64 {
    word.parse::<u64>().unwrap_or(u64::MAX)
}

// An output, of which the call of a number fails.
fn sink_of(alloc: Global, writes: u64) -> Option<MemSink> {
    match vec![in alloc; writes] {
        Ok(unwritten) => MemSink::new(alloc, ROOM, unwritten).ok(),
        Err(_) => None,
    }
}

// An input in pieces of a size, of which the call of a number fails.
fn source_of(alloc: Global, bytes: Vec<u8>, piece: usize, reads: u64) -> Option<MemSource> {
    if piece == 0 {
        return None;
    }
    match vec![in alloc; reads] {
        Ok(unread) => Some(MemSource::new(bytes, piece, unread)),
        Err(_) => None,
    }
}

// A connection with this input, in pieces of a size.
fn link_of(
    alloc: Global,
    bytes: Vec<u8>,
    piece: usize,
    reads: u64,
    writes: u64,
    is_short: bool,
) -> Option<Link> {
    match sink_of(alloc, writes) {
        Some(sink) => match source_of(alloc, bytes, piece, reads) {
            Some(source) => Some(Link {
                source,
                sink,
                is_short,
            }),
            None => None,
        },
        None => None,
    }
}

fn request_of(alloc: Global, method: &str, target: &str, body: &str) -> Option<Vec<u8>> {
    let len = body.len();
    match format!(in alloc; "{method} {target} HTTP/1.1\r\nContent-Length: {len}\r\n\r\n{body}") {
        Ok(text) => text.as_str().as_bytes().to_vec(alloc).ok(),
        Err(_) => None,
    }
}

/// The bytes of one request.
pub(crate) fn request_bytes(alloc: Global, order: &str) -> Option<Vec<u8>> {
    let (method, rest) = cut(order);
    let (target, body) = cut(rest);
    match body.replace(alloc, "~", CHUNK) {
        Ok(body) => request_of(alloc, method, target, body.as_str()),
        Err(_) => None,
    }
}

// A connection with one request.
fn request(alloc: Global, order: &str) -> Option<Link> {
    match request_bytes(alloc, order) {
        Some(bytes) => link_of(alloc, bytes, 4_096, u64::MAX, u64::MAX, true),
        None => None,
    }
}

// The bytes, where `|` stands for CR LF.
fn unfolded(alloc: Global, input: &str) -> Option<Vec<u8>> {
    match input.replace(alloc, "|", "\r\n") {
        Ok(text) => text.as_str().as_bytes().to_vec(alloc).ok(),
        Err(_) => None,
    }
}

// A connection with the input of a script.
fn linked(alloc: Global, order: &str, input: &str) -> Option<Link> {
    let (_word, given) = cut(order);
    let (piece, rest) = cut(given);
    let (reads, writes) = cut(rest);
    let Ok(piece) = piece.parse::<usize>() else {
        return None;
    };
    match unfolded(alloc, input) {
        Some(bytes) => link_of(
            alloc,
            bytes,
            piece,
            number_of(reads),
            number_of(writes),
            false,
        ),
        None => None,
    }
}

fn opened(alloc: Global, order: &str, input: &str) -> Option<Link> {
    if order.starts_with('l') {
        linked(alloc, order, input)
    } else {
        request(alloc, order)
    }
}

// The code and the body of a response.
fn short(alloc: Global, written: &str) -> Option<String> {
    let Some(code) = written.get(9..12) else {
        return None;
    };
    let Some(place) = written.find("\r\n\r\n") else {
        return None;
    };
    let Some(body) = written.get(place.wrapping_add(4)..) else {
        return None;
    };
    format!(in alloc; "{code} {body}").ok()
}

// How a connection ended, what is left of its input, and what was written to it.
fn told(alloc: Global, link: &Link, end: End) -> Option<String> {
    let Ok(written) = str::from_utf8(link.sink.bytes()) else {
        return None;
    };
    if link.is_short {
        return short(alloc, written);
    }
    let left = link.source.left().len();
    match written.replace(alloc, "\r\n", "|") {
        Ok(written) => format!(in alloc; "{end:?}, {left} left: {}", written.as_str()).ok(),
        Err(_) => None,
    }
}

/// The clock of all scripts.
pub(crate) fn clock() -> FixedClock {
    FixedClock::new(Stamp {
        text: *b"2024-01-02T03:04:05Z",
    })
}

fn serve<V: Versions + Drop, S: Source, K: Sink, R: Wait>(
    rt: &R,
    alloc: Global,
    api: &SharedApi<V>,
    pass: &mut Pass<V>,
    source: &mut S,
    sink: &mut K,
) -> End
    requires of { IsOf V.meaning api.now pass.old }
    ensures of { IsOf V.meaning api.now pass.new }
{
    let clock = clock();
    serve_link(rt, alloc, api, pass, source, sink, &clock)
}

/// What a connection is answered that an order opens, whose input is the script's if it isn't the order's own.
pub(crate) fn asked<V: Versions + Drop, R: Wait>(
    rt: &R,
    alloc: Global,
    api: &SharedApi<V>,
    pass: &mut Pass<V>,
    order: &str,
    input: &str,
) -> Option<String>
    requires { IsOf V.meaning api.now pass.old }
    ensures { IsOf V.meaning api.now pass.new }
{
    match opened(alloc, order, input) {
        Some(mut link) => {
            let end = serve(rt, alloc, api, pass, &mut link.source, &mut link.sink);
            told(alloc, &link, end)
        }
        None => None,
    }
}
