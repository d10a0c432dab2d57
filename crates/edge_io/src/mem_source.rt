//! A source in memory.
ghost use Rattle.std.specs.Prelude.{◌≡◌, ◌↔◌, ◌<◌, ◌≤◌, None, Some, length, take, IsErr, IfOk, IfSome};
ghost use Rattle.std.specs.Io.{ReadsAtMost};
ghost use Rattle.std.specs.Io.KnownBytes.{IsAtEnd};
ghost use Rattle.edge_io.specs.Calls.{IsListed};
ghost use Rattle.edge_io.specs.Causes.{HasCause};
ghost use Rattle.edge_io.specs.Content.{TakesFront};
ghost use Rattle.edge_io.specs.Memory.{left_of, origin_of, read_count, IsAfterRead};

use crate::calls::CallCount;
use crate::{Failed, Source};
use std::marker::Model;

/// A source in memory, which gives its bytes in pieces of at most a given size, and fails at the calls that it is told
/// to fail at.
pub struct MemSource {
    bytes: Vec<u8>,
    taken: usize,
    piece: usize,
    number: Option<u64>,
    calls: CallCount,
}

impl Drop for MemSource {
    fn drop(self) {
        let MemSource {
            bytes: _,
            taken: _,
            piece: _,
            number: _,
            calls: _,
        } = self;
    }
}

impl Model for MemSource {
    ghost use Rattle.std.specs.Prelude.{◌<◌, ◌≤◌, vec_len};
    ghost use Rattle.edge_io.specs.Memory.{SourceState};

    ghost Value = { SourceState };

    ghost view = { λ s. record { bytes = s.bytes.items; taken = s.taken; piece = s.piece; number = s.number; calls = s.calls } };

    ghost invariant = { λ s. (s.taken ≤ vec_len s.bytes) × (0 < s.piece) };
}

impl MemSource {
    /// A source of these bytes. Its calls are counted from 0, and those whose number is in `failing` fail.
    pub fn new(bytes: Vec<u8>, piece: usize, failing: Vec<u64>) -> MemSource
        requires { 0 < piece }
        ensures { result ≡ record { bytes = bytes.items; taken = 0; piece = piece; number = None; calls = record { made = 0; failing = failing.items; faults = 0 } } }
    {
        MemSource {
            bytes,
            taken: 0,
            piece,
            number: None,
            calls: CallCount::new(failing),
        }
    }

    /// The bytes that are left.
    pub fn left(&self) -> &[u8]
        ensures { result.now ≡ left_of self.now }
    {
        &self.bytes[self.taken..]
    }

    /// How many calls there were.
    pub fn calls(&self) -> u64
        ensures { result ≡ self.now.calls.made }
    {
        self.calls.made()
    }

    /// How many calls failed.
    pub fn faults(&self) -> u64
        ensures { result ≡ self.now.calls.faults }
    {
        self.calls.faults()
    }

    // The same source, as a part of the connection of that number.
    pub(crate) fn numbered(self, number: u64) -> MemSource
        ensures { result ≡ record self { number = Some number } }
    {
        let MemSource {
            bytes,
            taken,
            piece,
            number: _,
            calls,
        } = self;
        MemSource {
            bytes,
            taken,
            piece,
            number: Some(number),
            calls,
        }
    }
}

impl Source for MemSource {
    ghost left = { λ s. Some (left_of s) };

    ghost faults = { λ s. s.calls.faults };

    ghost origin = { origin_of };

    ghost most = { λ s. Some s.piece };

    fn read(&mut self, into: &mut [u8]) -> Result<usize, Failed>
        requires { 0 < length into.old }
        ensures bound { ReadsAtMost result into.new }
        ensures bytes { TakesFront (Some (left_of self.old)) (Some (left_of self.new)) result into.new }
        ensures end { IfOk result (λ n. n ≡ 0 → IsAtEnd (Some (left_of self.new))) }
        ensures cause { HasCause self.old.calls.faults self.new.calls.faults result }
        ensures origin { origin_of self.new ≡ origin_of self.old }
        ensures few { IfOk result (λ n. IfSome (Some self.old.piece) (λ m. n ≤ m)) }
        ensures most { Some self.new.piece ≡ Some self.old.piece }

        // It fails exactly at the listed calls, and else gives as much as a piece has and `into` holds.
        ensures fails { IsErr result ↔ IsListed self.old.calls }
        ensures count { IfOk result (λ n. n ≡ read_count self.old (length into.old)) }
        ensures after { IsAfterRead self.old self.new result }
    {
        if self.calls.begin() {
            self.calls.fail();
            return Err(Failed);
        }
        let count = self.left().len().min(self.piece).min(into.len());
        copy_front(self.left(), into, count);
        self.taken += count;
        Ok(count)
    }
}

// Writes the first bytes of one slice over those of another.
pub(crate) fn copy_front(from: &[u8], into: &mut [u8], count: usize)
    requires from_has { count ≤ length from.now }
    requires into_has { count ≤ length into.old }
    ensures { take count into.new ≡ take count from.now }
{
    into[..count].copy_from_slice(&from[..count]);
}
