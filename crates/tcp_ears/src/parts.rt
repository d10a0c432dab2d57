//! What a connection is read from and written to.
ghost use Rattle.std.specs.Prelude.{◌≡◌, ◌<◌, ◌≤◌, ◌↔◌, ℕ, None, [], length, IfOk, IfSome, IsErr, IsTrue, OnOk};
ghost use Rattle.std.specs.Io.{ReadsAtMost, WritesAtMost};
ghost use Rattle.std.specs.Io.Buffered.{writer_buffer, writer_contents};
ghost use Rattle.std.specs.Io.KnownBytes.{IsAtEnd, Keeps, ReadConsumes, WriteAppends};
ghost use Rattle.edge_io.specs.Causes.{HasCause};
ghost use Rattle.edge_io.specs.Content.{TakesFront, AddsFront};
ghost use Rattle.tcp_ears.specs.Streams.{Gives};

use crate::patience::{Counted, IDLE_SECONDS, is_silent, is_slow};
use edge_io::{Failed, Sink, Source};
use std::alloc::Global;
use std::io;
use std::io::{BufWriter, Read, Write};
use std::net::{OpenStream, Shutdown};
use std::sync::Arc;
use std::sync::atomic::{AtomicBool, Ordering};
use std::time::{Clock, Duration, Instant};

/// So many bytes are written at once at most, as many as a body may have.
pub const WRITE_BYTES: usize = 1_048_576;

/// So many seconds a read of what a peer still sends may wait, once the connection is to be closed.
pub const CLOSING_SECONDS: u64 = 1;

/// So many times at most what a peer still sends is read then.
pub const CLOSING_READS: usize = 16;

// So many bytes are read at once then.
const CLOSING_BYTES: usize = 4_096;

/// What a connection is read from. It counts its errors, of which one is that nothing came for so long. A request begins with
/// the first byte that is read after an answer was handed on: so it is told from a connection that waits between two.
#[derive(Drop)]
pub struct TcpSource<'a, S, C> {
    stream: S,
    faults: u64,
    clock: &'a C,
    counted: Counted,
    answered: Arc<AtomicBool, Global>,
    // How many bytes of the request were read, and when it was waited for after the first of them.
    bytes: u64,
    since: Option<Instant>,
}

// A stream whose writes wait for a time at most. One that takes less than it is given has waited for so long, so that the next
// one fails, and a peer that reads nothing is waited for once.
#[derive(Drop)]
struct Timed<S> {
    stream: S,
    waited: bool,
}

impl<S: Write> Write for Timed<S> {
    ghost contents = { λ t. S.contents t.stream };

    fn write(&mut self, piece: &[u8]) -> io::Result<usize>
        ensures bound { WritesAtMost result piece.now }
        ensures bytes { WriteAppends (S.contents self.old.stream) (S.contents self.new.stream) result piece.now }

        // It waited where it took less than it was given, and nothing is written behind that.
        ensures waited { IfOk result (λ n. IsTrue self.new.waited ↔ (n < length piece.now)) }
        ensures once { IsTrue self.old.waited → IsErr result × (self.new ≡ self.old) }
    {
        if self.waited {
            return Err(io::Error::from(io::ErrorKind::TimedOut));
        }
        match self.stream.write(piece) {
            Ok(count) => {
                self.waited = count < piece.len();
                Ok(count)
            }
            Err(fault) => Err(fault),
        }
    }

    fn flush(&mut self) -> io::Result<()> {
        self.stream.flush()
    }
}

/// What a connection is written to, by pieces of a buffer. It counts its errors, of which one is that nothing went for so long.
#[derive(Drop)]
pub struct TcpSink<S: Write + Drop> {
    stream: BufWriter<Timed<S>>,
    faults: u64,
    answered: Arc<AtomicBool, Global>,
}

/// A connection that is closed: how often it failed.
#[derive(Clone, Copy, Drop)]
pub struct TcpClosed {
    pub(crate) read_faults: u64,
    pub(crate) write_faults: u64,
}

// Reads what a peer still sends, which it may have sent before it knew of the end: a socket that is closed with bytes in it tells
// the peer of an error, before the peer has read its last answer (RFC 9112, section 9.6).
fn read_rest<S: Read>(stream: &mut S) {
    let mut piece = [0; CLOSING_BYTES];
    for _turn in 0..CLOSING_READS {
        match stream.read(&mut piece) {
            Ok(0) => return,
            Ok(_) => {}
            Err(_) => return,
        }
    }
}

// Tells the peer of the end, and reads what it still sends.
fn end<S: OpenStream + Read>(stream: &mut S) {
    let wait = Duration::from_secs(CLOSING_SECONDS);
    if stream.shutdown(Shutdown::Write).is_err() {
        return;
    }
    if stream.set_read_timeout(Some(wait)).is_err() {
        return;
    }
    read_rest(stream);
}

/// Closes a connection. Where it failed, nothing more is asked of its peer; bytes that weren't handed on are dropped.
pub(crate) fn close<S: OpenStream + Read + Write + Drop, C: Clock>(
    input: TcpSource<'_, S, C>,
    output: TcpSink<S>,
) -> TcpClosed
    ensures read { result.read_faults ≡ input.entry.faults }
    ensures write { result.write_faults ≡ output.faults }
{
    let TcpSource {
        mut stream,
        faults: read_faults,
        clock: _,
        counted: _counted,
        answered: _,
        bytes: _,
        since: _,
    } = input;
    let TcpSink {
        stream: out,
        faults: write_faults,
        answered: _,
    } = output;
    let (_out, _unwritten) = out.into_parts();
    if read_faults == 0 && write_faults == 0 {
        end(&mut stream);
    }
    TcpClosed {
        read_faults,
        write_faults,
    }
}

impl<'a, S, C: Clock> TcpSource<'a, S, C> {
    // A source of which nothing was read.
    pub(crate) fn new(
        stream: S,
        clock: &'a C,
        counted: Counted,
        answered: Arc<AtomicBool, Global>,
    ) -> TcpSource<'a, S, C>
        ensures { result.faults ≡ 0 }
    {
        TcpSource {
            stream,
            faults: 0,
            clock,
            counted,
            answered,
            bytes: 0,
            since: None,
        }
    }

    // A read begins: after an answer a new request does, and behind its first bytes its time is counted.
    fn begin(&mut self)
        ensures faults { self.new.faults ≡ self.old.faults }
        ensures stream { self.new.stream ≡ self.old.stream }
    {
        if self.answered.swap(false, Ordering::SeqCst) {
            self.bytes = 0;
            self.since = None;
        } else if self.bytes > 0 && self.since.is_none() {
            self.since = Instant::now(self.clock).ok();
        }
    }

    // Whether the request took too long.
    fn is_late(&self) -> bool {
        let Some(since) = self.since else {
            return false;
        };
        let Ok(past) = since.elapsed(self.clock) else {
            return false;
        };
        is_slow(past.as_secs(), self.bytes, self.counted.is_crowded())
    }
}

// A read that waited for so long.
fn is_slice(fault: &io::Error) -> bool {
    matches!(
        fault.kind(),
        io::ErrorKind::WouldBlock | io::ErrorKind::TimedOut
    )
}

impl<'a, S: Read, C: Clock> TcpSource<'a, S, C> {
    // Reads what comes. It waits in slices, and looks after each whether it is to wait on.
    #[tactic(auto, using(edge_io::specs::laws::Reading::keeps_reads, edge_io::specs::laws::Reading::keeps_keeps, edge_io::specs::laws::Reading::keeps_same))]
    fn wait(&mut self, into: &mut [u8]) -> io::Result<usize>
        ensures bound { ReadsAtMost result into.new }
        ensures reads { ReadConsumes (S.remaining self.old.stream) (S.remaining self.new.stream) result into.new }
        ensures faults { self.new.faults ≡ self.old.faults }
    {
        let mut crowded = false;
        for slice in 0..IDLE_SECONDS {
            match self.stream.read(into) {
                Ok(count) => return Ok(count),
                Err(fault) => {
                    crowded = crowded || self.counted.is_crowded();
                    let silent = is_silent(slice + 1, self.bytes, crowded);
                    if silent || !is_slice(&fault) || self.is_late() {
                        return Err(fault);
                    }
                }
            }
        }
        Err(io::Error::from(io::ErrorKind::TimedOut))
    }

    // Reads what comes of a request, unless it takes too long.
    fn take(&mut self, into: &mut [u8]) -> io::Result<usize>
        ensures bound { ReadsAtMost result into.new }
        ensures reads { IfOk result (Gives (S.remaining self.old.stream) (S.remaining self.new.stream) into.new) }
        ensures faults { self.new.faults ≡ self.old.faults }
    {
        self.begin();
        let count = self.wait(into)?;
        self.bytes = self.bytes.saturating_add(count as u64);
        if self.is_late() {
            return Err(io::Error::from(io::ErrorKind::TimedOut));
        }
        Ok(count)
    }
}

impl<'a, S: Read, C: Clock> Source for TcpSource<'a, S, C> {
    ghost left = { λ s. None };

    ghost faults = { λ s. s.faults };

    ghost origin = { λ s. None };

    ghost most = { λ s. None };

    fn read(&mut self, into: &mut [u8]) -> Result<usize, Failed>
        requires { 0 < length into.old }
        ensures bound { ReadsAtMost result into.new }
        ensures bytes { TakesFront None None result into.new }
        ensures end { IfOk result (λ n. n ≡ 0 → IsAtEnd None) }
        ensures few { IfOk result (λ n. IfSome {T = ℕ} None (λ m. n ≤ m)) }
        ensures cause { HasCause self.old.faults self.new.faults result }

        // It gives what the stream gave.
        ensures reads { IfOk result (Gives (S.remaining self.old.stream) (S.remaining self.new.stream) into.new) }
    {
        match self.take(into) {
            Ok(count) => Ok(count),
            Err(_) => {
                self.faults = self.faults.saturating_add(1);
                Err(Failed)
            }
        }
    }
}

impl<S: Write + Drop> TcpSink<S> {
    // A sink to which nothing was written; an error where there is no memory for its buffer.
    pub(crate) fn new(
        alloc: Global,
        stream: S,
        answered: Arc<AtomicBool, Global>,
    ) -> io::Result<TcpSink<S>>
        ensures { IfOk result (λ s. s.faults ≡ 0) }
    {
        let timed = Timed {
            stream,
            waited: false,
        };
        let stream = BufWriter::with_capacity(alloc, WRITE_BYTES, timed)?;
        Ok(TcpSink {
            stream,
            faults: 0,
            answered,
        })
    }
}

impl<S: Write + Drop> Sink for TcpSink<S> {
    ghost written = { λ s. None };

    ghost flushed = { λ s. None };

    ghost faults = { λ s. s.faults };

    ghost number = { λ s. None };

    #[tactic(auto, using(edge_io::specs::laws::Reading::keeps_all))]
    fn write(&mut self, piece: &[u8]) -> Result<usize, Failed>
        ensures bound { WritesAtMost result piece.now }
        ensures bytes { AddsFront None None result piece.now }
        ensures progress { IfOk result (λ n. 0 < length piece.now → 0 < n) }
        ensures cause { HasCause self.old.faults self.new.faults result }

        // It takes what the buffer takes, and what that holds stands behind what the stream took.
        ensures writes { WriteAppends (writer_contents (λ t. S.contents t.stream) self.old.stream) (writer_contents (λ t. S.contents t.stream) self.new.stream) result piece.now }
    {
        match self.stream.write(piece) {
            Ok(0) if !piece.is_empty() => {
                self.faults = self.faults.saturating_add(1);
                Err(Failed)
            }
            Ok(count) => Ok(count),
            Err(_) => {
                self.faults = self.faults.saturating_add(1);
                Err(Failed)
            }
        }
    }

    fn flush(&mut self) -> Result<(), Failed>
        ensures cause { HasCause self.old.faults self.new.faults result }

        // The buffer is empty behind it: the stream took all that was written.
        ensures keeps { Keeps (writer_contents (λ t. S.contents t.stream) self.old.stream) (writer_contents (λ t. S.contents t.stream) self.new.stream) }
        ensures empty { OnOk result (writer_buffer self.new.stream ≡ []) }
    {
        match self.stream.flush() {
            Ok(()) => {
                self.answered.store(true, Ordering::SeqCst);
                Ok(())
            }
            Err(_) => {
                self.faults = self.faults.saturating_add(1);
                Err(Failed)
            }
        }
    }
}
