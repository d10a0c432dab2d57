//! The input of a case.
ghost use Rattle.std.specs.Prelude.{None};

use edge_io::{Failed, Source};

/// An input, of which a read gives so many bytes at most, and none behind a place together with one before it: each place is `step` bytes
/// behind the one before. The read with the number `fails` fails, counted from 0.
pub(crate) struct Input {
    pub(crate) bytes: Vec<u8>,
    pub(crate) piece: usize,
    pub(crate) place: usize,
    pub(crate) step: usize,
    pub(crate) fails: u64,
    pub(crate) at: usize,
    pub(crate) reads: u64,
    pub(crate) faults: u64,
}

impl Drop for Input {
    fn drop(self) {
        let Input {
            bytes: _,
            piece: _,
            place: _,
            step: _,
            fails: _,
            at: _,
            reads: _,
            faults: _,
        } = self;
    }
}

// The bytes that stand before a place, and from it on.
fn parted(bytes: &[u8], place: usize) -> (&[u8], &[u8]) {
    bytes.split_at(place.min(bytes.len()))
}

impl Source for Input {
    ghost left = { λ s. None };

    ghost faults = { λ s. s.faults };

    ghost origin = { λ s. None };

    ghost most = { λ s. None };

    fn read(&mut self, into: &mut [u8]) -> Result<usize, Failed> {
        let number = self.reads;
        self.reads = number.saturating_add(1);
        if number == self.fails {
            self.faults = self.faults.saturating_add(1);
            return Err(Failed);
        }
        let (_, left) = parted(&self.bytes, self.at);
        let (before, behind) = parted(left, self.place.saturating_sub(self.at));
        let next = if before.is_empty() { behind } else { before };
        let count = next.len().min(self.piece).min(into.len());
        into[..count].copy_from_slice(&next[..count]);
        self.at = self.at.saturating_add(count);
        if self.place <= self.at {
            self.place = self.place.saturating_add(self.step);
        }
        Ok(count)
    }
}
