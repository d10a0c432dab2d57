//! The lines of an input, in whatever pieces it comes.
ghost use Rattle.std.specs.Prelude.{◌≡◌, ◌≤◌, ◌<◌, ◌+◌, ◌++◌, [], ℕ, List, true, false, length, take, drop, get_or, IfOk, IfErr, MatchOption};
ghost use Rattle.std.specs.Io.KnownBytes.{prepend_known, IsAtEnd};
ghost use Rattle.kj_value.specs.Characters.{line_feed};
ghost use Rattle.edge_io.specs.Causes.{Rose};
ghost use Rattle.record_dump.specs.Restores.{AreInLine};
ghost use Rattle.record_dump.specs.inner.Lined.{IsRead, OnUnread, OnUnlined, OnCut};

use edge_io::Source;
use kj_value::NoMemory;
use std::alloc::Global;
use std::marker::Model;

/// The most bytes of a line.
pub const MOST_BYTES: usize = 1_048_576;

// How many bytes are read at a time, at most.
const PIECE_BYTES: usize = 16_384;

/// Why no more bytes are had.
#[derive(Clone, Copy, Drop)]
pub(crate) enum Unread {
    Failed,
    NoMemory,
}

/// Why no line is had.
#[derive(Clone, Copy, Drop)]
pub(crate) enum Unlined {
    Unread(Unread),
    /// The line passes the most bytes.
    TooLong,
    /// The input ended inside of the line.
    Cut,
}

/// Bytes that were read and belong to no line that was used.
#[derive(Drop)]
pub(crate) struct Lines {
    bytes: Vec<u8>,
    start: usize,
}

impl Model for Lines {
    ghost use Rattle.std.specs.Prelude.{ℕ, List, ◌≤◌, length, drop};

    ghost Value = { List ℕ };

    ghost view = { λ l. drop l.start l.bytes.items };

    ghost invariant = { λ l. l.start ≤ length l.bytes.items };
}

// The place of the first line feed, of which none stands among the first `from` bytes.
fn line_feed_behind(bytes: &[u8], from: usize) -> Option<usize>
    requires within { from ≤ length bytes.now }
    requires none { AreInLine (take from bytes.now) }
    ensures { MatchOption result (AreInLine bytes.now) (λ i. (i < length bytes.now) × AreInLine (take i bytes.now) × (get_or bytes.now i 0 ≡ line_feed)) }
{
    for i in from..bytes.len() {
        if bytes[i] == b'\n' {
            return Some(i);
        }
    }
    None
}

// Both, one behind the other.
fn joined(alloc: Global, front: &[u8], back: &[u8]) -> Result<Vec<u8>, NoMemory>
    ensures { IfOk result (λ bytes. bytes.items ≡ front.now ++ back.now) }
{
    let mut bytes = Vec::new(alloc);
    bytes.extend_from_slice(front)?;
    bytes.extend_from_slice(back)?;
    Ok(bytes)
}

impl Lines {
    /// No bytes yet.
    pub(crate) fn new(alloc: Global) -> Lines
        ensures { result ≡ [] }
    {
        Lines {
            bytes: Vec::new(alloc),
            start: 0,
        }
    }

    /// The bytes.
    pub(crate) fn held(&self) -> &[u8]
        ensures { result.now ≡ self.now }
    {
        &self.bytes[self.start..]
    }

    /// So many of the first ones.
    pub(crate) fn first(&self, count: usize) -> &[u8]
        requires { count ≤ length self.now }
        ensures { result.now ≡ take count self.now }
    {
        &self.held()[..count]
    }

    /// Drops the first ones.
    pub(crate) fn used(&mut self, count: usize)
        requires { count ≤ length self.old }
        ensures { self.new ≡ drop count self.old }
    {
        self.start += count;
    }

    // Reads some more bytes, and answers how many: none at the end of the input.
    fn fill<S: Source>(&mut self, alloc: Global, input: &mut S) -> Result<usize, Unread>
        ensures took { (piece : List ℕ) × (S.left input.old ≡ prepend_known piece (S.left input.new))
            × IfOk result (λ n. (length piece ≡ n) × (self.new ≡ self.old ++ piece)) }
        ensures end { IfOk result (λ n. n ≡ 0 → IsAtEnd (S.left input.new)) }
        ensures later { S.faults input.old ≤ S.faults input.new }
        ensures cause { IfErr result (OnUnread (Rose (S.faults input.old) (S.faults input.new))) }
    {
        let mut piece = [0; PIECE_BYTES];
        match input.read(&mut piece) {
            Ok(count) => match joined(alloc, self.held(), &piece[..count]) {
                Ok(bytes) => {
                    self.bytes = bytes;
                    self.start = 0;
                    Ok(count)
                }
                Err(NoMemory) => Err(Unread::NoMemory),
            },
            Err(_) => Err(Unread::Failed),
        }
    }

    /// Whether a byte follows.
    pub(crate) fn has_more<S: Source>(
        &mut self,
        alloc: Global,
        input: &mut S,
    ) -> Result<bool, Unread>
        ensures took { (piece : List ℕ) × (S.left input.old ≡ prepend_known piece (S.left input.new))
            × IfOk result (λ _. self.new ≡ self.old ++ piece) }
        ensures more { IfOk result (λ b. b ≡ true → 0 < length self.new) }
        ensures end { IfOk result (λ b. b ≡ false → (self.new ≡ []) × IsAtEnd (S.left input.new)) }
        ensures later { S.faults input.old ≤ S.faults input.new }
        ensures cause { IfErr result (OnUnread (Rose (S.faults input.old) (S.faults input.new))) }
    {
        if self.held().len() > 0 {
            return Ok(true);
        }
        match self.fill(alloc, input) {
            Ok(count) => Ok(count > 0),
            Err(unread) => Err(unread),
        }
    }

    /// Reads until a line is whole, and answers how many bytes it has.
    pub(crate) fn read_line<S: Source>(
        &mut self,
        alloc: Global,
        input: &mut S,
    ) -> Result<usize, Unlined>
        ensures took { (piece : List ℕ) × (S.left input.old ≡ prepend_known piece (S.left input.new)) × IsRead (self.old ++ piece) self.new result }
        ensures end { IfErr result (OnCut (IsAtEnd (S.left input.new))) }
        ensures later { S.faults input.old ≤ S.faults input.new }
        ensures cause { IfErr result (OnUnlined (Rose (S.faults input.old) (S.faults input.new))) }
    {
        let mut seen = 0;
        loop {
            if let Some(len) = line_feed_behind(self.held(), seen) {
                if len > MOST_BYTES {
                    return Err(Unlined::TooLong);
                }
                return Ok(len);
            }
            seen = self.held().len();
            if seen > MOST_BYTES {
                return Err(Unlined::TooLong);
            }
            match self.fill(alloc, input) {
                Ok(0) => return Err(Unlined::Cut),
                Ok(_) => {}
                Err(unread) => return Err(Unlined::Unread(unread)),
            }
        }
    }
}
