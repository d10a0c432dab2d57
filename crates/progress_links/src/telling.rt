//! What is written on the sink.
ghost use Rattle.std.specs.Prelude.{◌≡◌, IfOk, string_bytes};
ghost use Rattle.edge_io.specs.Sends.{AddsSome};
ghost use Rattle.progress_links.specs.Progress.{MayAdd, MayTell, erased, progress};

use edge_io::{Sink, send};
use kj_value::NoMemory;
use std::alloc::Global;
use std::time::{Clock, Duration, Instant};

// From one telling to the next at least.
const SECONDS: u64 = 1;

/// Whether it is time to tell again: a second has passed since the last telling, or since the first question.
pub(crate) fn is_due<T: Clock>(clock: &T, last: &mut Option<Instant>) -> bool {
    let due = match last {
        None => false,
        Some(since) => match since.elapsed(clock) {
            Ok(past) if past >= Duration::from_secs(SECONDS) => true,
            _ => return false,
        },
    };
    *last = match Instant::now(clock) {
        Ok(now) => Some(now),
        Err(_) => None,
    };
    due
}

// The number of exchanges, at the beginning of the line.
fn progress_text(alloc: Global, made: u64) -> Result<String, NoMemory>
    ensures { IfOk result (λ s. string_bytes s ≡ progress made) }
{
    Ok(format!(in alloc; "\r{made} exchanges")?)
}

// Writes bytes. Where the sink fails no more is written of them.
fn put<K: Sink>(sink: &mut K, bytes: &[u8])
    ensures { AddsSome (K.written sink.old) (K.written sink.new) bytes.now }
{
    let _ = send(sink, bytes);
}

/// Writes how many exchanges were made.
pub(crate) fn tell<K: Sink>(alloc: Global, sink: &mut K, made: u64)
    ensures { MayAdd (K.written sink.old) (K.written sink.new) (progress made) }
{
    match progress_text(alloc, made) {
        Ok(text) => put(sink, text.as_bytes()),
        Err(_) => {}
    }
}

/// Erases the line.
pub(crate) fn erase<K: Sink>(sink: &mut K)
    ensures { AddsSome (K.written sink.old) (K.written sink.new) erased }
{
    put(sink, b"\r\x1b[K");
}
