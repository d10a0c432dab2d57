//! What wakes workers that rest.

use std::sync::Wait;
use std::sync::atomic::{AtomicU64, Ordering};
use std::time::Duration;

/// What wakes workers that rest. Each call that sets the flags or starts a migration rings it when its turn is over, and whoever
/// has something to tell the others. Nothing is lost by who rests on it: a ring behind the count that it heard ends its rest,
/// also where it comes before the rest begins.
#[derive(Drop)]
pub struct Bell {
    rung: AtomicU64,
}

impl Bell {
    // A bell that wasn't rung.
    pub(crate) fn new() -> Bell {
        Bell {
            rung: AtomicU64::new(0),
        }
    }

    /// Wakes all that rest on it. It doesn't wait.
    pub fn ring(&self) {
        self.rung.fetch_add(1, Ordering::SeqCst);
        self.rung.wake_all();
    }

    /// How often it was rung.
    pub fn rung(&self) -> u64 {
        self.rung.load(Ordering::SeqCst)
    }

    /// Rests for so many milliseconds, or until the bell was rung more often than `heard` times. It may end early for no reason.
    pub fn rest<R: Wait>(&self, rt: &R, heard: u64, millis: u64) {
        let dur = Duration::from_millis(millis);
        self.rung.park_timeout(rt, (heard % (1 << 32)) as u32, dur);
    }
}
