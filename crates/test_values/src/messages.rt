//! Messages of HTTP: requests and responses that are read in pieces, and that are written where room or a call fails.
ghost use Rattle.std.specs.Prelude.{None, Some, length};
ghost use Rattle.http_wire.specs.Inboxes.{LiesIn};

use crate::chunks;
use crate::spelling::{bytes_of, cut, spelled_bytes};
use crate::told::Told;
use edge_io::{Failed, MemSink, MemSource, Sink, Source};
use http_wire::{
    Inbox, RequestParts, ResponseParts, read_request, read_response, write_request, write_response,
};
use std::alloc::Global;

/// The answer to a case.
pub(crate) fn answer(alloc: Global, word: u8, text: &str, out: &mut Told) {
    match word {
        b'q' => read(alloc, true, text, out),
        b'z' => read(alloc, false, text, out),
        b'n' => to_narrow(alloc, text, out),
        b'o' => to_memory(alloc, text, out),
        b'O' => failing(alloc, text, out),
        _ => chunks::answer(alloc, word, text, out),
    }
}

// ---- read

// In which pieces messages are read, and which of the calls fails, if one does.
#[derive(Clone, Copy, Drop)]
struct Pieces {
    first: usize,
    last: usize,
    failing: u64,
}

// `FIRST LAST FAILING`, and the text behind.
fn pieces_of(text: &str) -> Option<(Pieces, &str)> {
    let Some((first, text)) = cut(text, ' ') else {
        return None;
    };
    let Some((last, text)) = cut(text, ' ') else {
        return None;
    };
    let Some((failing, text)) = cut(text, ' ') else {
        return None;
    };
    let Ok(first) = first.parse::<usize>() else {
        return None;
    };
    let Ok(last) = last.parse::<usize>() else {
        return None;
    };
    let failing = failing.parse::<u64>().unwrap_or(u64::MAX);
    let pieces = Pieces {
        first,
        last,
        failing,
    };
    Some((pieces, text))
}

// `FIRST LAST FAILING TEXT`: what is read of the text in pieces of each size from the first to the last, where the call of a
// number fails, if one does; the answer is to be the same at each size.
fn read(alloc: Global, is_request: bool, text: &str, out: &mut Told) {
    match pieces_of(text) {
        Some((pieces, text)) => read_spelled(alloc, is_request, pieces, text, out),
        None => out.lose(),
    }
}

fn read_spelled(alloc: Global, is_request: bool, pieces: Pieces, text: &str, out: &mut Told) {
    match spelled_bytes(alloc, text) {
        Some(bytes) => read_in(alloc, is_request, pieces, &bytes, out),
        None => out.lose(),
    }
}

fn read_in(alloc: Global, is_request: bool, pieces: Pieces, bytes: &[u8], out: &mut Told) {
    read_at(alloc, is_request, pieces.first, pieces.failing, bytes, out);
    for piece in pieces.first..pieces.last {
        let size = piece.wrapping_add(1);
        if !reads_same(alloc, is_request, size, pieces.failing, bytes, out) {
            out.lose();
        }
    }
}

fn reads_same(
    alloc: Global,
    is_request: bool,
    piece: usize,
    failing: u64,
    bytes: &[u8],
    wanted: &Told,
) -> bool {
    let mut out = Told::new(alloc);
    read_at(alloc, is_request, piece, failing, bytes, &mut out);
    out.is_as(wanted)
}

// A source in memory of these bytes, in pieces of this size, where this call fails.
fn source(alloc: Global, piece: usize, failing: u64, bytes: &[u8]) -> Option<MemSource> {
    if piece == 0 {
        return None;
    }
    let Ok(bytes) = bytes.to_vec(alloc) else {
        return None;
    };
    match vec![in alloc; failing] {
        Ok(failing) => Some(MemSource::new(bytes, piece, failing)),
        Err(_) => None,
    }
}

// What is read in pieces of this size, where this call fails.
fn read_at(
    alloc: Global,
    is_request: bool,
    piece: usize,
    failing: u64,
    bytes: &[u8],
    out: &mut Told,
) {
    match source(alloc, piece, failing, bytes) {
        Some(mut source) => read_of(alloc, is_request, &mut source, out),
        None => out.lose(),
    }
}

fn read_of<S: Source>(alloc: Global, is_request: bool, source: &mut S, out: &mut Told) {
    match Inbox::open(alloc) {
        Ok(mut inbox) => read_by(alloc, is_request, &mut inbox, source, out),
        Err(_) => out.lose(),
    }
}

fn read_by<S: Source>(
    alloc: Global,
    is_request: bool,
    inbox: &mut Inbox,
    source: &mut S,
    out: &mut Told,
) {
    if is_request {
        add_requests(alloc, inbox, source, out);
    } else {
        add_response(alloc, inbox, source, out);
    }
}

// At most three requests, until there is none.
fn add_requests<S: Source>(alloc: Global, inbox: &mut Inbox, source: &mut S, out: &mut Told) {
    for _ in 0..3 {
        if !add_next(alloc, inbox, source, out) {
            return;
        }
    }
}

// The next request, or why there is none. Answers whether there is one.
fn add_next<S: Source>(alloc: Global, inbox: &mut Inbox, source: &mut S, out: &mut Told) -> bool {
    match read_request(inbox, source) {
        Ok(parts) => {
            add_request(alloc, inbox, parts, out);
            inbox.used();
            true
        }
        Err(fault) => {
            out.add_shown(alloc, &fault);
            false
        }
    }
}

fn add_request(alloc: Global, inbox: &Inbox, parts: RequestParts, out: &mut Told)
    requires method { LiesIn (length inbox.now.bytes) parts.method }
    requires target { LiesIn (length inbox.now.bytes) parts.target }
    requires body { LiesIn (length inbox.now.bytes) parts.body }
{
    out.add_bytes(inbox.part(parts.method));
    out.add_bytes(inbox.part(parts.target));
    out.add_text(alloc, inbox.part(parts.body));
    out.add(if parts.closing { "closing" } else { "open" });
}

// A response, or why there is none.
fn add_response<S: Source>(alloc: Global, inbox: &mut Inbox, source: &mut S, out: &mut Told) {
    match read_response(inbox, source) {
        Ok(parts) => add_parts(alloc, inbox, parts, out),
        Err(fault) => out.add_shown(alloc, &fault),
    }
}

fn add_parts(alloc: Global, inbox: &Inbox, parts: ResponseParts, out: &mut Told)
    requires { LiesIn (length inbox.now.bytes) parts.body }
{
    out.add_number(alloc, u64::from(parts.code));
    out.add_text(alloc, inbox.part(parts.body));
}

// ---- written

// A sink that takes at most three bytes at a time.
struct Narrow {
    bytes: Vec<u8>,
    faults: u64,
}

impl Drop for Narrow {
    fn drop(self) {
        let Narrow {
            bytes: _,
            faults: _,
        } = self;
    }
}

impl Sink for Narrow {
    ghost written = { λ s. Some s.bytes.items };

    ghost flushed = { λ s. Some s.bytes.items };

    ghost number = { λ s. None };

    ghost faults = { λ s. s.faults };

    fn write(&mut self, piece: &[u8]) -> Result<usize, Failed> {
        let count = piece.len().min(3);
        if self.bytes.extend_from_slice(&piece[..count]).is_err() {
            self.faults = self.faults.saturating_add(1);
            return Err(Failed);
        }
        Ok(count)
    }

    fn flush(&mut self) -> Result<(), Failed> {
        Ok(())
    }
}

// Writes the request of `METHOD:TARGET`, or the response of the code 405, or that of 201, which closes. Answers whether it is
// written whole.
#[tactic(auto, using(http_wire::specs::laws::PhraseLaws::phrases))]
fn write<K: Sink>(sink: &mut K, head: &str, body: &[u8]) -> bool {
    match cut(head, ':') {
        Some((method, target)) => write_request(sink, method, target, body).is_ok(),
        None => {
            if head == "405" {
                write_response(sink, 405, body, false).is_ok()
            } else {
                write_response(sink, 201, body, true).is_ok()
            }
        }
    }
}

// `HEAD BODY`: whether a narrow sink takes all of it, and what it takes.
fn to_narrow(alloc: Global, text: &str, out: &mut Told) {
    match cut(text, ' ') {
        Some((head, body)) => narrow_of(alloc, head, body, out),
        None => out.lose(),
    }
}

fn narrow_of(alloc: Global, head: &str, body: &str, out: &mut Told) {
    match bytes_of(alloc, body) {
        Some(body) => narrow_takes(alloc, head, &body, out),
        None => out.lose(),
    }
}

fn narrow_takes(alloc: Global, head: &str, body: &[u8], out: &mut Told) {
    let mut sink = Narrow {
        bytes: Vec::new(alloc),
        faults: 0,
    };
    add_taken(alloc, &mut sink, head, body, out);
}

fn add_taken(alloc: Global, sink: &mut Narrow, head: &str, body: &[u8], out: &mut Told) {
    out.add_is(write(sink, head, body));
    out.add_text(alloc, sink.bytes.as_slice());
}

// `ROOM HEAD BODY`: whether a sink of so much room takes all of it, and what it takes.
fn to_memory(alloc: Global, text: &str, out: &mut Told) {
    match numbered(alloc, text) {
        Some((room, head, body)) => memory_takes(alloc, room, head, &body, out),
        None => out.lose(),
    }
}

// `NUMBER HEAD BODY`, whose body is bytes.
fn numbered(alloc: Global, text: &str) -> Option<(u64, &str, Vec<u8>)> {
    let Some((number, text)) = cut(text, ' ') else {
        return None;
    };
    let Some((head, body)) = cut(text, ' ') else {
        return None;
    };
    let Ok(number) = number.parse::<u64>() else {
        return None;
    };
    match bytes_of(alloc, body) {
        Some(body) => Some((number, head, body)),
        None => None,
    }
}

fn memory_takes(alloc: Global, room: u64, head: &str, body: &[u8], out: &mut Told) {
    match MemSink::new(alloc, room as usize, Vec::new(alloc)) {
        Ok(mut sink) => add_written(alloc, &mut sink, head, body, out),
        Err(_) => out.lose(),
    }
}

fn add_written(alloc: Global, sink: &mut MemSink, head: &str, body: &[u8], out: &mut Told) {
    out.add_is(write(sink, head, body));
    out.add_text(alloc, sink.bytes());
}

// `CALLS HEAD BODY`: where each of so many calls fails in turn, whether that is told, and a front is written, but not all.
fn failing(alloc: Global, text: &str, out: &mut Told) {
    match numbered(alloc, text) {
        Some((calls, head, body)) => each_fails(alloc, calls, head, &body, out),
        None => out.lose(),
    }
}

fn each_fails(alloc: Global, calls: u64, head: &str, body: &[u8], out: &mut Told) {
    match whole(alloc, head, body) {
        Some(all) => each_fails_of(alloc, calls, head, body, &all, out),
        None => out.lose(),
    }
}

fn each_fails_of(alloc: Global, calls: u64, head: &str, body: &[u8], all: &[u8], out: &mut Told) {
    for call in 0..calls {
        match written_at(alloc, call, head, body) {
            Some((is_written, front)) => out.add_is(!is_written && is_front(&front, all)),
            None => out.lose(),
        }
    }
}

fn whole(alloc: Global, head: &str, body: &[u8]) -> Option<Vec<u8>> {
    match MemSink::new(alloc, 200, Vec::new(alloc)) {
        Ok(mut sink) => {
            write(&mut sink, head, body);
            sink.bytes().to_vec(alloc).ok()
        }
        Err(_) => None,
    }
}

// Whether all is written where this call fails, and what is.
fn written_at(alloc: Global, call: u64, head: &str, body: &[u8]) -> Option<(bool, Vec<u8>)> {
    let Ok(failing) = vec![in alloc; call] else {
        return None;
    };
    match MemSink::new(alloc, 200, failing) {
        Ok(mut sink) => written_to(alloc, &mut sink, head, body),
        Err(_) => None,
    }
}

fn written_to(
    alloc: Global,
    sink: &mut MemSink,
    head: &str,
    body: &[u8],
) -> Option<(bool, Vec<u8>)> {
    let is_written = write(sink, head, body);
    match sink.bytes().to_vec(alloc) {
        Ok(front) => Some((is_written, front)),
        Err(_) => None,
    }
}

fn is_front(front: &[u8], all: &[u8]) -> bool {
    front.len() < all.len() && all.starts_with(front)
}
