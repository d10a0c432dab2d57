//! A source and a sink that never fail.
ghost use Rattle.std.specs.Prelude.{◌≡◌, ◌<◌, min, None, Some, Ok, length, IsOk, IfOk};
ghost use Rattle.std.specs.Io.{ReadsAtMost, WritesAtMost};
ghost use Rattle.std.specs.Io.KnownBytes.{IsAtEnd};
ghost use Rattle.edge_io.specs.Causes.{HasCause};
ghost use Rattle.edge_io.specs.Content.{TakesFront, AddsFront};

use crate::mem_source::copy_front;
use crate::{Failed, Sink, Source};
use std::marker::Model;

/// A source in memory that never fails. It is seen as the bytes that are left.
pub struct SureSource {
    bytes: Vec<u8>,
    taken: usize,
}

impl Drop for SureSource {
    fn drop(self) {
        let SureSource { bytes: _, taken: _ } = self;
    }
}

impl Model for SureSource {
    ghost use Rattle.std.specs.Prelude.{◌≤◌, ℕ, List, drop, vec_len};

    ghost Value = { List ℕ };

    ghost view = { λ s. drop s.taken s.bytes.items };

    ghost invariant = { λ s. s.taken ≤ vec_len s.bytes };
}

impl SureSource {
    /// A source of these bytes.
    pub fn new(bytes: Vec<u8>) -> SureSource
        ensures { result ≡ bytes.items }
    {
        SureSource { bytes, taken: 0 }
    }

    /// The bytes that are left.
    pub fn left(&self) -> &[u8]
        ensures { result.now ≡ self.now }
    {
        &self.bytes[self.taken..]
    }
}

impl Source for SureSource {
    ghost left = { λ s. Some s };

    ghost faults = { λ s. 0 };

    ghost origin = { λ s. None };

    ghost most = { λ s. None };

    fn read(&mut self, into: &mut [u8]) -> Result<usize, Failed>
        requires { 0 < length into.old }
        ensures bound { ReadsAtMost result into.new }
        ensures bytes { TakesFront (Some self.old) (Some self.new) result into.new }
        ensures end { IfOk result (λ n. n ≡ 0 → IsAtEnd (Some self.new)) }

        // It gives as much as is left and `into` holds.
        ensures count { result ≡ Ok (min (length self.old) (length into.old)) }
    {
        let count = self.left().len().min(into.len());
        copy_front(self.left(), into, count);
        self.taken += count;
        Ok(count)
    }
}

/// A sink that takes everything, keeps nothing and never fails.
#[derive(Clone, Copy, Drop)]
pub struct SureSink;

impl Sink for SureSink {
    ghost written = { λ s. None };

    ghost flushed = { λ s. None };

    ghost faults = { λ s. 0 };

    ghost number = { λ s. None };

    fn write(&mut self, piece: &[u8]) -> Result<usize, Failed>
        ensures { result ≡ Ok (length piece.now) }
    {
        Ok(piece.len())
    }

    fn flush(&mut self) -> Result<(), Failed>
        ensures { IsOk result }
    {
        Ok(())
    }
}
