//! A sink in memory.
ghost use Rattle.std.specs.Prelude.{◌≡◌, ◌↔◌, ◌⊎◌, ◌<◌, None, Some, [], length, IsErr, IfOk, OnOk};
ghost use Rattle.std.specs.Io.{WritesAtMost};
ghost use Rattle.edge_io.specs.Calls.{IsListed};
ghost use Rattle.edge_io.specs.Causes.{HasCause};
ghost use Rattle.edge_io.specs.Content.{AddsFront};
ghost use Rattle.edge_io.specs.Memory.{IsFull, write_count, IsAfterWrite, IsAfterFlush};

use crate::calls::CallCount;
use crate::{Failed, Sink};
use kj_value::NoMemory;
use std::alloc::Global;
use std::marker::Model;

/// A sink in memory, which keeps what is written up to a room in bytes, and fails at the calls that it is told to fail
/// at.
pub struct MemSink {
    bytes: Vec<u8>,
    flushed: usize,
    room: usize,
    number: Option<u64>,
    calls: CallCount,
}

impl Drop for MemSink {
    fn drop(self) {
        let MemSink {
            bytes: _,
            flushed: _,
            room: _,
            number: _,
            calls: _,
        } = self;
    }
}

impl Model for MemSink {
    ghost use Rattle.std.specs.Prelude.{◌≤◌, take, vec_len};
    ghost use Rattle.std.specs.Vec.{vec_capacity};
    ghost use Rattle.edge_io.specs.Memory.{SinkState};

    ghost Value = { SinkState };

    ghost view = { λ s. record { bytes = s.bytes.items; flushed = take s.flushed s.bytes.items; room = s.room; number = s.number; calls = s.calls } };

    ghost invariant = { λ s. (s.flushed ≤ vec_len s.bytes) × (vec_len s.bytes ≤ s.room) × (s.room ≤ vec_capacity s.bytes) };
}

impl MemSink {
    /// An empty sink. It takes its room now. Its calls are counted from 0, and those whose number is in `failing` fail.
    pub fn new(alloc: Global, room: usize, failing: Vec<u64>) -> Result<MemSink, NoMemory>
        ensures { IfOk result (λ s. s ≡ record { bytes = []; flushed = []; room = room; number = None; calls = record { made = 0; failing = failing.items; faults = 0 } }) }
    {
        Ok(MemSink {
            bytes: Vec::with_capacity(alloc, room)?,
            flushed: 0,
            room,
            number: None,
            calls: CallCount::new(failing),
        })
    }

    /// The bytes that were written.
    pub fn bytes(&self) -> &[u8]
        ensures { result.now ≡ self.now.bytes }
    {
        &self.bytes
    }

    /// How many calls there were.
    pub fn calls(&self) -> u64
        ensures { result ≡ self.now.calls.made }
    {
        self.calls.made()
    }

    /// How many calls failed.
    pub fn faults(&self) -> u64
        ensures { result ≡ self.now.calls.faults }
    {
        self.calls.faults()
    }

    // The same sink, as a part of the connection of that number.
    pub(crate) fn numbered(self, number: u64) -> MemSink
        ensures { result ≡ record self { number = Some number } }
    {
        let MemSink {
            bytes,
            flushed,
            room,
            number: _,
            calls,
        } = self;
        MemSink {
            bytes,
            flushed,
            room,
            number: Some(number),
            calls,
        }
    }
}

impl Sink for MemSink {
    ghost written = { λ s. Some s.bytes };

    ghost flushed = { λ s. Some s.flushed };

    ghost faults = { λ s. s.calls.faults };

    ghost number = { λ s. s.number };

    fn write(&mut self, piece: &[u8]) -> Result<usize, Failed>
        ensures bound { WritesAtMost result piece.now }
        ensures bytes { AddsFront (Some self.old.bytes) (Some self.new.bytes) result piece.now }
        ensures progress { IfOk result (λ n. 0 < length piece.now → 0 < n) }
        ensures cause { HasCause self.old.calls.faults self.new.calls.faults result }
        ensures number { self.new.number ≡ self.old.number }

        // It fails exactly at the listed calls and where no room is left, and else takes as much as there is room for.
        ensures fails { IsErr result ↔ (IsListed self.old.calls ⊎ IsFull self.old piece.now) }
        ensures count { IfOk result (λ n. n ≡ write_count self.old piece.now) }
        ensures after { IsAfterWrite self.old self.new result piece.now }
    {
        let listed = self.calls.begin();
        let count = (self.room - self.bytes.len()).min(piece.len());
        if listed || (count == 0 && !piece.is_empty()) {
            self.calls.fail();
            return Err(Failed);
        }
        match self.bytes.extend_from_slice(&piece[..count]) {
            Ok(()) => Ok(count),
            Err(_) => unreachable!(),
        }
    }

    fn flush(&mut self) -> Result<(), Failed>
        ensures bytes { Some self.new.bytes ≡ Some self.old.bytes }
        ensures flushed { OnOk result (Some self.new.flushed ≡ Some self.new.bytes) }
        ensures cause { HasCause self.old.calls.faults self.new.calls.faults result }
        ensures number { self.new.number ≡ self.old.number }
        ensures fails { IsErr result ↔ IsListed self.old.calls }
        ensures after { IsAfterFlush self.old self.new result }
    {
        if self.calls.begin() {
            self.calls.fail();
            return Err(Failed);
        }
        self.flushed = self.bytes.len();
        Ok(())
    }
}
