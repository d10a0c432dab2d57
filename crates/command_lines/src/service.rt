//! What `serve` is told.
ghost use Rattle.std.specs.Prelude.{◌≡◌, ◌≤◌};
ghost use Rattle.command_lines.specs.declared.service.TheConstants.{MOST_WORKERS};

/// So many workers there are at most.
pub const MOST_WORKERS: u64 = 15;

/// So many workers there are where no number is given.
pub const USUAL_WORKERS: u64 = 2;

/// So many connections are waited for at most, where a number is given.
pub const MOST_CONNECTIONS: u64 = 1_000_000;

/// Where connections come, and so many of them where a number is given, with so many workers beside them.
#[derive(Clone, Copy)]
pub struct Listening<'a> {
    pub place: &'a str,
    pub(crate) workers: u64,
    pub connections: Option<u64>,
    ghost few: { workers ≤ MOST_WORKERS },
}

impl<'a> Listening<'a> {
    /// So many workers are beside the connections, 15 at most.
    pub fn workers(&self) -> u64
        ensures is { result ≡ self.now.workers }
        ensures few { result ≤ 15 }
    {
        self.workers
    }
}
