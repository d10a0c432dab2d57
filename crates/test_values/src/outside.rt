//! Clocks, files, connections and links: each once where it works and once where it fails.
ghost use Rattle.std.specs.Prelude.{◌≡◌};
ghost use Rattle.edge_io.specs.Connections.{IsHandedOn};

use crate::links::{self, add_answer, add_made, one_exchange};
use crate::streams::{self, one_read, one_write};
use crate::told::Told;
use edge_io::{
    Clock, DiskFiles, Ears, Files, FixedClock, MOST_FILE_BYTES, MemConnection, MemEars, MemFile,
    MemFiles, MemLink, MemSink, MemSource, RealClock, Sink, Source, SureFiles, stamp_of,
};
use kj_value::Txt;
use std::alloc::Global;
use std::time::Duration;
use std::{io, rt, time};

// ---- clocks

/// The answer to a case.
pub(crate) fn answer<R: rt::Files>(
    alloc: Global,
    system: &R,
    word: u8,
    text: &str,
    out: &mut Told,
) {
    match word {
        b'D' => disk(alloc, system, text, out),
        b'S' => stamp(text, out),
        b'C' => real(text, out),
        b'p' => files(alloc, text, out),
        b'P' => sure_files(alloc, text, out),
        b'e' => ears(alloc, text, out),
        b'k' => link(alloc, out),
        b'K' => links::answer(alloc, text, out),
        _ => streams::answer(alloc, word, text, out),
    }
}

// The moment at a number of seconds, by a clock that stands there.
fn stamp(text: &str, out: &mut Told) {
    match text.parse::<u64>() {
        Ok(seconds) => stamp_at(seconds, out),
        Err(_) => out.lose(),
    }
}

fn stamp_at(seconds: u64, out: &mut Told) {
    if seconds >= 137_438_953_472 {
        return out.lose();
    }
    let fixed = FixedClock::new(stamp_of(seconds));
    out.add(fixed.stamp().as_str());
}

// A clock that reads this many seconds, or fails.
struct Reads(Option<u64>);

impl time::Clock for Reads {
    fn monotonic(&self) -> io::Result<Duration> {
        Ok(Duration::from_secs(1))
    }

    fn since_1970(&self) -> io::Result<Duration> {
        match self.0 {
            Some(seconds) => Ok(Duration::new(seconds, 999_999_999)),
            None => Err(io::Error::from(io::ErrorKind::Unsupported)),
        }
    }
}

// What a clock says over one of the system that reads so many seconds, or that fails.
fn real(text: &str, out: &mut Told) {
    let reads = Reads(text.parse::<u64>().ok());
    let clock = RealClock::new(&reads);
    let stamp = clock.stamp();
    let Reads(_) = reads;
    out.add(stamp.as_str());
}

// ---- files

// Whether a file was added.
fn add_file(alloc: Global, files: &mut Vec<MemFile>, path: &str, bytes: Vec<u8>) -> bool {
    match Txt::of(alloc, path) {
        Ok(path) => files.push(MemFile::new(path, bytes)).is_ok(),
        Err(_) => false,
    }
}

fn add_text(alloc: Global, files: &mut Vec<MemFile>) -> bool {
    match b"text".to_vec(alloc) {
        Ok(bytes) => add_file(alloc, files, "a", bytes),
        Err(_) => false,
    }
}

// A file of so many bytes.
fn add_full(alloc: Global, files: &mut Vec<MemFile>, path: &str, byte: u8, count: usize) -> bool {
    match vec![in alloc; byte; count] {
        Ok(bytes) => add_file(alloc, files, path, bytes),
        Err(_) => false,
    }
}

// One look at a path: how many bytes it is read as, or the fault.
fn one_look<F: Files>(alloc: Global, files: &mut F, path: &str, out: &mut Told) {
    match files.read_file(alloc, path) {
        Ok(text) => out.add_number(alloc, text.as_str().len() as u64),
        Err(fault) => out.add_shown(alloc, &fault),
    }
}

fn look_at_all<F: Files>(alloc: Global, files: &mut F, text: &str, out: &mut Told) {
    for path in text.split(' ') {
        one_look(alloc, files, path, out);
    }
}

// A text, one as long as a file may be, one that is longer, and one that is no text.
fn add_files(alloc: Global, list: &mut Vec<MemFile>) -> bool {
    add_text(alloc, list)
        && add_full(alloc, list, "full", b'x', MOST_FILE_BYTES)
        && add_full(alloc, list, "long", 255, MOST_FILE_BYTES + 1)
        && add_full(alloc, list, "bytes", 255, 1)
}

// Files in memory, of which the second look fails.
fn opened(alloc: Global) -> Option<MemFiles> {
    let mut list = Vec::new(alloc);
    if !add_files(alloc, &mut list) {
        return None;
    }
    match vec![in alloc; 1u64] {
        Ok(failing) => Some(MemFiles::new(list, failing)),
        Err(_) => None,
    }
}

// A look at each path of files in memory.
fn files(alloc: Global, text: &str, out: &mut Told) {
    match opened(alloc) {
        Some(mut files) => look_and_count(alloc, &mut files, text, out),
        None => out.lose(),
    }
}

fn look_and_count(alloc: Global, files: &mut MemFiles, text: &str, out: &mut Told) {
    look_at_all(alloc, files, text, out);
    out.add_is(files.bytes("a").is_some());
    out.add_number(alloc, files.calls());
    out.add_number(alloc, files.faults());
}

// A look at each path of files that never fail.
fn sure_files(alloc: Global, text: &str, out: &mut Told) {
    let mut list = Vec::new(alloc);
    if !add_text(alloc, &mut list) {
        out.lose();
    }
    look_at_all(alloc, &mut SureFiles::new(list), text, out);
}

// A file of the system that is read whole, or the fault.
fn disk<R: rt::Files>(alloc: Global, system: &R, path: &str, out: &mut Told) {
    let mut files = DiskFiles::new(system);
    match files.read_file(alloc, path) {
        Ok(text) => out.add(text.as_str()),
        Err(fault) => out.add_shown(alloc, &fault),
    }
}

// ---- connections and links

// A connection with this input.
fn connection(alloc: Global, text: &str) -> Option<MemConnection> {
    let Ok(bytes) = text.as_bytes().to_vec(alloc) else {
        return None;
    };
    let source = MemSource::new(bytes, 8, Vec::new(alloc));
    match MemSink::new(alloc, 8, Vec::new(alloc)) {
        Ok(sink) => MemConnection::new(alloc, source, sink).ok(),
        Err(_) => None,
    }
}

fn add_connection(alloc: Global, connections: &mut Vec<MemConnection>, text: &str) -> bool {
    match connection(alloc, text) {
        Some(connection) => connections.push(connection).is_ok(),
        None => false,
    }
}

fn ears_of(alloc: Global, text: &str) -> Option<MemEars> {
    let mut connections = Vec::new(alloc);
    if !add_connection(alloc, &mut connections, text) {
        return None;
    }
    match vec![in alloc; 1u64] {
        Ok(failing) => MemEars::new(alloc, connections, failing).ok(),
        Err(_) => None,
    }
}

// The one connection.
fn one_connection(alloc: Global, ears: &mut MemEars, out: &mut Told) {
    match ears.next() {
        Ok((mut input, mut output)) => {
            one_exchange_of(alloc, &mut input, &mut output, out);
            let ended = MemEars::shut(input, output);
            out.add_bytes(ended.written());
            ears.back(ended);
        }
        Err(_) => out.lose(),
    }
}

fn one_exchange_of<S: Source, K: Sink>(alloc: Global, source: &mut S, sink: &mut K, out: &mut Told)
    ensures origin { S.origin source.new ≡ S.origin source.old }
    ensures number { K.number sink.new ≡ K.number sink.old }
    ensures handed_on { IsHandedOn (K.faults sink.new) (K.written sink.new) (K.flushed sink.new) }
{
    one_read(source, out);
    one_write(alloc, sink, b"xyz", out);
    hand_on(sink);
}

// Hands on what was written, where nothing fails.
fn hand_on<K: Sink>(sink: &mut K)
    ensures number { K.number sink.new ≡ K.number sink.old }
    ensures handed_on { IsHandedOn (K.faults sink.new) (K.written sink.new) (K.flushed sink.new) }
{
    match sink.flush() {
        Ok(()) => (),
        Err(_) => (),
    }
}

fn one_failure(ears: &mut MemEars, out: &mut Told) {
    out.add_is(ears.next().is_ok());
}

fn add_last(ears: &MemEars, out: &mut Told) {
    match ears.last_written() {
        Some(bytes) => out.add_bytes(bytes),
        None => out.lose(),
    }
}

fn hear(alloc: Global, ears: &mut MemEars, out: &mut Told) {
    out.add_is(ears.listen("here").is_ok());
    one_failure(ears, out);
    one_connection(alloc, ears, out);
    add_last(ears, out);
    one_failure(ears, out);
}

// A connection with this input, where the second call fails.
fn ears(alloc: Global, text: &str, out: &mut Told) {
    match ears_of(alloc, text) {
        Some(mut ears) => hear_and_count(alloc, &mut ears, out),
        None => out.lose(),
    }
}

fn hear_and_count(alloc: Global, ears: &mut MemEars, out: &mut Told) {
    hear(alloc, ears, out);
    out.add_number(alloc, ears.handed_out() as u64);
    out.add_number(alloc, ears.calls());
    out.add_number(alloc, ears.faults());
}

// Two answers, and the second exchange fails.
fn link_of(alloc: Global) -> Option<MemLink> {
    let mut answers = Vec::new(alloc);
    if !(add_answer(alloc, &mut answers, "one") && add_answer(alloc, &mut answers, "two")) {
        return None;
    }
    match vec![in alloc; 1u64] {
        Ok(failing) => Some(MemLink::new(alloc, answers, failing)),
        Err(_) => None,
    }
}

// Four exchanges, and what they were.
fn link(alloc: Global, out: &mut Told) {
    match link_of(alloc) {
        Some(mut link) => exchange_and_count(alloc, &mut link, out),
        None => out.lose(),
    }
}

fn exchange_and_count(alloc: Global, link: &mut MemLink, out: &mut Told) {
    for _ in 0..4 {
        one_exchange(alloc, link, b"ask", out);
    }
    add_made(link.made(), out);
    out.add_number(alloc, link.calls());
    out.add_number(alloc, link.faults());
}
