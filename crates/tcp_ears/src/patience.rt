//! How long a peer is waited for.
ghost use Rattle.std.specs.Prelude.{◌↔◌, IsTrue};
ghost use Rattle.tcp_ears.specs.inner.Patience.{IsSilent, IsSlow};

use std::alloc::Global;
use std::sync::Arc;
use std::sync::atomic::{AtomicU64, Ordering};

/// So many seconds a read or a write may wait for the peer.
pub const IDLE_SECONDS: u64 = 60;

/// So many seconds a read waits until it looks whether it is to wait on.
pub const SLICE_SECONDS: u64 = 1;

/// Where there are more connections than this, peers are waited for less.
pub const CROWD: u64 = 48;

/// So many seconds a peer is waited for then that has sent nothing of a request.
pub const CROWDED_SECONDS: u64 = 2;

/// So many bytes a second a peer has to send then of a request that it has begun.
pub const CROWDED_BYTES: u64 = 256;

/// So many seconds a whole request may take, from its first byte to its last.
pub const WHOLE_SECONDS: u64 = 120;

// One of the connections that are there, which are counted. One that came when there were many is never waited for as long as
// others, since the thread that accepts may serve it.
pub(crate) struct Counted {
    count: Arc<AtomicU64, Global>,
    late: bool,
}

impl Counted {
    // One more.
    pub(crate) fn new(count: Arc<AtomicU64, Global>) -> Counted {
        let before = count.fetch_add(1, Ordering::SeqCst);
        Counted {
            count,
            late: before >= CROWD,
        }
    }

    // Whether its peer is waited for less.
    pub(crate) fn is_crowded(&self) -> bool {
        self.late || self.count.load(Ordering::SeqCst) > CROWD
    }
}

impl Drop for Counted {
    fn drop(self) {
        let Self { count, late: _ } = self;
        count.fetch_sub(1, Ordering::SeqCst);
    }
}

// Whether a peer is given up that has sent nothing for so many seconds, and has sent so many bytes of a request.
pub(crate) fn is_silent(seconds: u64, bytes: u64, crowded: bool) -> bool
    ensures { IsTrue result ↔ IsSilent seconds bytes crowded }
{
    seconds >= IDLE_SECONDS || (crowded && bytes == 0 && seconds >= CROWDED_SECONDS)
}

// Whether a peer is given up that has sent so many bytes of a request in so many seconds.
pub(crate) fn is_slow(seconds: u64, bytes: u64, crowded: bool) -> bool
    ensures { IsTrue result ↔ IsSlow seconds bytes crowded }
{
    seconds >= WHOLE_SECONDS || (crowded && bytes < seconds.saturating_mul(CROWDED_BYTES))
}
