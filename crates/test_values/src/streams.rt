//! Readers and writers: each once where it works and once where it fails.
ghost use Rattle.std.specs.Prelude.{◌≡◌};

use crate::told::Told;
use edge_io::{MemSink, MemSource, Sink, Source, StdSink, StdSource, SureSink, SureSource, send};
use std::alloc::Global;
use std::io;
use std::io::{Read, Write};

/// The answer to a case.
pub(crate) fn answer(alloc: Global, word: u8, text: &str, out: &mut Told) {
    match word {
        b'R' => std_readers(text, out),
        b'W' => std_writers(alloc, text, out),
        b'w' => sent(text, out),
        b'a' => source(alloc, text, out),
        b'A' => sure_source(alloc, text, out),
        b'b' => sink(alloc, text, out),
        b'B' => sure_sink(alloc, text, out),
        _ => out.lose(),
    }
}

fn sent(text: &str, out: &mut Told) {
    out.add_is(send(&mut StdSink::new(Does::One), text.as_bytes()).is_ok());
}

// A reader and a writer that does one thing: it fails, takes nothing, or moves one byte.
#[derive(Clone, Copy, Drop)]
enum Does {
    Fail,
    Nothing,
    One,
}

impl Read for Does {
    fn read(&mut self, buf: &mut [u8]) -> io::Result<usize> {
        match self {
            Does::Fail => Err(io::Error::from(io::ErrorKind::Unsupported)),
            Does::Nothing => Ok(0),
            Does::One => {
                if buf.is_empty() {
                    return Ok(0);
                }
                buf[0] = b'x';
                Ok(1)
            }
        }
    }
}

impl Write for Does {
    fn write(&mut self, buf: &[u8]) -> io::Result<usize> {
        match self {
            Does::Fail => Err(io::Error::from(io::ErrorKind::Unsupported)),
            Does::Nothing => Ok(0),
            Does::One => Ok(buf.len().min(1)),
        }
    }

    fn flush(&mut self) -> io::Result<()> {
        match self {
            Does::Fail => Err(io::Error::from(io::ErrorKind::Unsupported)),
            Does::Nothing => Ok(()),
            Does::One => Ok(()),
        }
    }
}

// What a letter says that a reader or a writer does.
fn of_letter(word: u8) -> Does {
    match word {
        b'1' => Does::One,
        b'0' => Does::Nothing,
        _ => Does::Fail,
    }
}

/// One read: what it puts, or that it fails.
pub(crate) fn one_read<S: Source>(source: &mut S, out: &mut Told)
    ensures { S.origin source.new ≡ S.origin source.old }
{
    let mut into = [0; 8];
    match source.read(&mut into) {
        Ok(count) => add_front(&into, count, out),
        Err(_) => out.add("fails"),
    }
}

fn add_front(bytes: &[u8], count: usize, out: &mut Told) {
    match bytes.get(..count) {
        Some(front) => out.add_bytes(front),
        None => out.lose(),
    }
}

/// One write: how much it takes, or that it fails.
pub(crate) fn one_write<K: Sink>(alloc: Global, sink: &mut K, piece: &[u8], out: &mut Told)
    ensures { K.number sink.new ≡ K.number sink.old }
{
    match sink.write(piece) {
        Ok(count) => out.add_number(alloc, count as u64),
        Err(_) => out.add("fails"),
    }
}

fn one_flush<K: Sink>(sink: &mut K, out: &mut Told) {
    out.add(if sink.flush().is_ok() {
        "flushed"
    } else {
        "fails"
    });
}

// A read for each letter.
fn std_readers(text: &str, out: &mut Told) {
    for word in text.as_bytes() {
        one_read(&mut StdSource::new(of_letter(*word)), out);
    }
}

// A write of two bytes, one of none, and a flush, for each letter.
fn std_writers(alloc: Global, text: &str, out: &mut Told) {
    for word in text.as_bytes() {
        let mut sink = StdSink::new(of_letter(*word));
        one_write(alloc, &mut sink, b"ab", out);
        one_write(alloc, &mut sink, b"", out);
        one_flush(&mut sink, out);
    }
}

// A source in memory of these bytes, of whose reads, of three bytes, the second fails.
fn opened(alloc: Global, text: &str) -> Option<MemSource> {
    let Ok(bytes) = text.as_bytes().to_vec(alloc) else {
        return None;
    };
    match vec![in alloc; 1u64] {
        Ok(failing) => Some(MemSource::new(bytes, 3, failing)),
        Err(_) => None,
    }
}

// Reads of three bytes, of which the second fails, with what is left after two.
fn source(alloc: Global, text: &str, out: &mut Told) {
    match opened(alloc, text) {
        Some(mut source) => read_all(alloc, &mut source, out),
        None => out.lose(),
    }
}

fn read_all(alloc: Global, source: &mut MemSource, out: &mut Told) {
    one_read(source, out);
    one_read(source, out);
    out.add_bytes(source.left());
    one_read(source, out);
    one_read(source, out);
    out.add_number(alloc, source.calls());
    out.add_number(alloc, source.faults());
}

// A read of a source that never fails, and what is left.
fn sure_source(alloc: Global, text: &str, out: &mut Told) {
    match text.as_bytes().to_vec(alloc) {
        Ok(bytes) => sure_read(&mut SureSource::new(bytes), out),
        Err(_) => out.lose(),
    }
}

fn sure_read(source: &mut SureSource, out: &mut Told) {
    one_read(source, out);
    out.add_is(source.left().is_empty());
}

// A sink of three bytes whose first write fails.
fn narrow(alloc: Global) -> Option<MemSink> {
    match vec![in alloc; 0u64] {
        Ok(failing) => MemSink::new(alloc, 3, failing).ok(),
        Err(_) => None,
    }
}

// A write of each word to it, and a flush.
fn sink(alloc: Global, text: &str, out: &mut Told) {
    match narrow(alloc) {
        Some(mut sink) => write_all(alloc, &mut sink, text, out),
        None => out.lose(),
    }
}

fn write_all(alloc: Global, sink: &mut MemSink, text: &str, out: &mut Told) {
    for piece in text.split(' ') {
        one_write(alloc, sink, piece.as_bytes(), out);
    }
    one_flush(sink, out);
    out.add_bytes(sink.bytes());
    out.add_number(alloc, sink.calls());
    out.add_number(alloc, sink.faults());
}

// A write to a sink that never fails, and a flush.
fn sure_sink(alloc: Global, text: &str, out: &mut Told) {
    one_write(alloc, &mut SureSink, text.as_bytes(), out);
    one_flush(&mut SureSink, out);
}
