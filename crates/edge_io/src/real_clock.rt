//! The system's clock.
ghost use Rattle.std.specs.Prelude.{◌≡◌, ◌<◌, ◌≤◌, ◌^◌, ◌/◌, ℕ, None, IfOk, IfErr, OnErr, MatchResult};
ghost use Rattle.std.specs.Duration.{as_nanos};
ghost use Rattle.edge_io.specs.Stamps.{HasStampForm, IsDateTime, IsPlain};

use crate::{Clock, stamp_of};
use kj_value::Stamp;
use std::time::Duration;
use std::{io, time};

// Stamps are of the seconds below this one.
const SECONDS_LIMIT: u64 = 1 << 37;

/// The clock of the system. It answers the stamp of the system's second since 1970-01-01T00:00:00Z, and that of second 0
/// where the system gives none below 2^37.
#[derive(Drop)]
pub struct RealClock<R: time::Clock> {
    system: R,
}

impl<R: time::Clock> RealClock<R> {
    /// A clock that reads the system's.
    pub fn new(system: R) -> RealClock<R> {
        RealClock { system }
    }
}

// The second that was read, where it is one that has a stamp, and else second 0.
fn second_in(read: io::Result<Duration>) -> u64
    ensures bound { result < 2 ^ 37 }
    ensures read { IfOk read (λ d. as_nanos d / 1_000_000_000 < 2 ^ 37 → result ≡ as_nanos d / 1_000_000_000) }
    ensures late { IfOk read (λ d. 2 ^ 37 ≤ as_nanos d / 1_000_000_000 → result ≡ 0) }
    ensures unread { IfErr read (λ _. result ≡ 0) }
{
    match read {
        Ok(since) if since.as_secs() < SECONDS_LIMIT => since.as_secs(),
        _ => 0,
    }
}

impl<R: time::Clock> Clock for RealClock<R> {
    ghost told = { λ c. None };

    fn stamp(&self) -> Stamp
        ensures date { (seconds : ℕ) × (seconds < 2 ^ 37) × IsDateTime seconds result.text }
        ensures form { HasStampForm result.text }
        ensures plain { IsPlain result.text }
    {
        stamp_of(second_in(self.system.since_1970()))
    }
}
