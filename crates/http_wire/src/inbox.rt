//! The bytes that were read and not yet used.
ghost use Rattle.std.specs.Prelude.{◌≡◌, ◌<◌, ◌≤◌, ◌+◌, ◌-◌, ◌++◌, [], List, ℕ, length, take, drop, slice_range, vec_len, Some, IfOk, OnOk, IfSome, MatchResult};
ghost use Rattle.std.specs.Io.KnownBytes.{prepend_known, IsAtEnd};
ghost use Rattle.edge_io.specs.Causes.{HasCause, Rose};
ghost use Rattle.http_wire.specs.declared.inbox.TheConstants.{ROOM};
ghost use Rattle.http_wire.specs.Head.{HasNoWhole, FewBehind};
ghost use Rattle.http_wire.specs.Received.{LacksResponse};
ghost use Rattle.http_wire.specs.Inboxes.{Held, LiesIn, part_of};

use crate::Span;
use crate::limits::{MOST_BODY_BYTES, MOST_HEAD_BYTES};
use edge_io::{Failed, Source};
use kj_value::NoMemory;
use std::alloc::Global;
use std::marker::Model;

/// The bytes of one head and one body.
pub const ROOM: usize = MOST_HEAD_BYTES + MOST_BODY_BYTES as usize;

/// Bytes that were read, in the order in which they came. The last request that was read stays at their front until it
/// is used. Contracts see the bytes, and how many of them that request has: none before a read and after a fault.
pub struct Inbox {
    bytes: Vec<u8>,
    start: usize,
    end: usize,
    request: usize,
}

impl Drop for Inbox {
    fn drop(self) {
        let Inbox {
            bytes: _,
            start: _,
            end: _,
            request: _,
        } = self;
    }
}

impl Model for Inbox {
    ghost Value = { Held };

    ghost view = { λ i. record { bytes = slice_range i.bytes.items i.start i.end; request = i.request } };

    ghost invariant = { λ i. (i.start ≤ i.end) × (i.end ≤ length i.bytes.items) × (length i.bytes.items ≡ ROOM) × (i.request ≤ i.end - i.start) };
}

// Reads behind the first `at` bytes.
fn read_behind<S: Source>(bytes: &mut [u8], at: usize, input: &mut S) -> Result<usize, Failed>
    requires { at < length bytes.old }
    ensures kept { take at bytes.new ≡ take at bytes.old }
    ensures bytes { MatchResult result
        (λ n. S.left input.old ≡ prepend_known (take n (drop at bytes.new)) (S.left input.new))
        (λ _. S.left input.new ≡ S.left input.old) }
    ensures within { IfOk result (λ n. at + n ≤ length bytes.new) }
    ensures end { IfOk result (λ n. n ≡ 0 → IsAtEnd (S.left input.new)) }
    ensures cause { HasCause (S.faults input.old) (S.faults input.new) result }
    ensures origin { S.origin input.new ≡ S.origin input.old }
    ensures few { IfOk result (λ n. IfSome (S.most input.old) (λ m. n ≤ m)) }
    ensures most { S.most input.new ≡ S.most input.old }
{
    input.read(&mut bytes[at..])
}

// Makes room behind the bytes from `start` to `end`, and answers where they begin then. They are moved only where no
// room is left, so that the bytes of a request are moved at most once.
fn make_room(bytes: &mut [u8], start: usize, end: usize) -> usize
    requires ordered { start ≤ end }
    requires within { end ≤ length bytes.old }
    ensures same { slice_range bytes.new result (result + (end - start)) ≡ slice_range bytes.old start end }
    ensures room { end - start < length bytes.old → result + (end - start) < length bytes.new }
    ensures within { result + (end - start) ≤ length bytes.new }
{
    if start == end {
        return 0;
    }
    if end < bytes.len() {
        return start;
    }
    bytes.copy_within(start..end, 0);
    0
}

// Where the bytes that are held begin after a refill, and how many were read behind them.
#[derive(Clone, Copy, Drop)]
struct Refilled {
    start: usize,
    count: Result<usize, Failed>,
}

// Reads behind the bytes from `start` to `end`, and moves these where no room is left behind them.
fn refill<S: Source>(bytes: &mut [u8], start: usize, end: usize, input: &mut S) -> Refilled
    requires ordered { start ≤ end }
    requires within { end ≤ length bytes.old }
    requires room { end - start < length bytes.old }
    ensures kept { slice_range bytes.new result.start (result.start + (end - start)) ≡ slice_range bytes.old start end }
    ensures bytes { MatchResult result.count
        (λ n. (bs : List ℕ) × (slice_range bytes.new result.start (result.start + (end - start) + n) ≡ slice_range bytes.old start end ++ bs)
        × (S.left input.old ≡ prepend_known bs (S.left input.new)))
        (λ _. S.left input.new ≡ S.left input.old) }
    ensures behind { result.start + (end - start) ≤ length bytes.new }
    ensures more { IfOk result.count (λ n. result.start + (end - start) + n ≤ length bytes.new) }
    ensures end { IfOk result.count (λ n. n ≡ 0 → IsAtEnd (S.left input.new)) }
    ensures cause { HasCause (S.faults input.old) (S.faults input.new) result.count }
    ensures origin { S.origin input.new ≡ S.origin input.old }
    ensures few { IfOk result.count (λ n. IfSome (S.most input.old) (λ m. n ≤ m)) }
    ensures most { S.most input.new ≡ S.most input.old }
{
    let at = make_room(bytes, start, end);
    let count = read_behind(bytes, at + (end - start), input);
    Refilled { start: at, count }
}

impl Inbox {
    /// An empty inbox. It takes all its memory now, some 1 MiB, so that no read takes any.
    pub fn open(alloc: Global) -> Result<Inbox, NoMemory>
        ensures { IfOk result (λ inbox. inbox ≡ record { bytes = []; request = 0 }) }
    {
        let bytes = vec![in alloc; 0u8; ROOM]?;
        Ok(Inbox {
            bytes,
            start: 0,
            end: 0,
            request: 0,
        })
    }

    /// A part of what is held, as one of the last request's parts.
    pub fn part(&self, span: Span) -> &[u8]
        requires { LiesIn (length self.now.bytes) span }
        ensures { result.now ≡ part_of self.now.bytes span }
    {
        let start = span.start as usize;
        &self.held()[start..start + span.len as usize]
    }

    /// Drops the request that was read. The bytes behind it stay.
    pub fn used(&mut self)
        ensures { self.new ≡ record { bytes = drop self.old.request self.old.bytes; request = 0 } }
    {
        self.start += self.request;
        self.request = 0;
    }

    /// The bytes that are held.
    pub(crate) fn held(&self) -> &[u8]
        ensures { result.now ≡ self.now.bytes }
    {
        &self.bytes[self.start..self.end]
    }

    /// Notes how many bytes the request has that was read.
    pub(crate) fn note(&mut self, request: usize)
        requires { request ≤ length self.old.bytes }
        ensures { self.new ≡ record { bytes = self.old.bytes; request = request } }
    {
        self.request = request;
    }

    /// Reads some more bytes, and answers how many: none at the end of the input. Nothing is read once a whole request is
    /// held.
    pub(crate) fn fill<S: Source>(&mut self, input: &mut S) -> Result<usize, Failed>
        requires room { length self.old.bytes < ROOM }
        requires needed { HasNoWhole self.old.bytes }
        ensures bytes { prepend_known self.new.bytes (S.left input.new) ≡ prepend_known self.old.bytes (S.left input.old) }
        ensures more { IfOk result (λ n. length self.new.bytes ≡ length self.old.bytes + n) }
        ensures front { take (length self.old.bytes) self.new.bytes ≡ self.old.bytes }
        ensures room { length self.new.bytes ≤ ROOM }
        ensures end { IfOk result (λ n. n ≡ 0 → IsAtEnd (S.left input.new)) }
        ensures cause { HasCause (S.faults input.old) (S.faults input.new) result }
        ensures origin { S.origin input.new ≡ S.origin input.old }
        // Where a request is whole now, fewer bytes stand behind it than one read gives.
        ensures prompt { (m : ℕ) → S.most input.old ≡ Some m → OnOk result (FewBehind self.new.bytes m) }
        ensures most { S.most input.new ≡ S.most input.old }
    {
        self.read_more(input)
    }

    /// The same for a response: nothing is read once a whole one is held.
    pub(crate) fn fill_response<S: Source>(&mut self, input: &mut S) -> Result<usize, Failed>
        requires room { length self.old.bytes < ROOM }
        requires needed { LacksResponse self.old.bytes }
        ensures bytes { prepend_known self.new.bytes (S.left input.new) ≡ prepend_known self.old.bytes (S.left input.old) }
        ensures more { IfOk result (λ n. length self.new.bytes ≡ length self.old.bytes + n) }
        ensures front { take (length self.old.bytes) self.new.bytes ≡ self.old.bytes }
        ensures room { length self.new.bytes ≤ ROOM }
        ensures end { IfOk result (λ n. n ≡ 0 → IsAtEnd (S.left input.new)) }
        ensures cause { HasCause (S.faults input.old) (S.faults input.new) result }
        ensures origin { S.origin input.new ≡ S.origin input.old }
    {
        self.read_more(input)
    }

    // Reads some more bytes, and answers how many. This is the one place where the input is read.
    fn read_more<S: Source>(&mut self, input: &mut S) -> Result<usize, Failed>
        requires { length self.old.bytes < ROOM }
        ensures bytes { prepend_known self.new.bytes (S.left input.new) ≡ prepend_known self.old.bytes (S.left input.old) }
        ensures more { IfOk result (λ n. length self.new.bytes ≡ length self.old.bytes + n) }
        ensures front { take (length self.old.bytes) self.new.bytes ≡ self.old.bytes }
        ensures room { length self.new.bytes ≤ ROOM }
        ensures end { IfOk result (λ n. n ≡ 0 → IsAtEnd (S.left input.new)) }
        ensures cause { HasCause (S.faults input.old) (S.faults input.new) result }
        ensures origin { S.origin input.new ≡ S.origin input.old }
        ensures few { IfOk result (λ n. IfSome (S.most input.old) (λ m. n ≤ m)) }
        ensures most { S.most input.new ≡ S.most input.old }
    {
        let found = refill(&mut self.bytes, self.start, self.end, input);
        self.end = found.start + (self.end - self.start);
        self.start = found.start;
        let count = found.count?;
        self.end += count;
        Ok(count)
    }
}
