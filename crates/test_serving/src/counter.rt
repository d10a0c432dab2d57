//! The counter of one thread: the core.
ghost use Rattle.std.specs.Prelude.{◌≤◌};

mod calls;

/// How an add ends: with the new total, or with nothing added.
#[derive(Clone, Copy, Drop)]
pub enum AddEnd {
    Done(u64),
    /// The sum would pass the limit.
    Full,
    NoMemory,
}

/// Numbers in the order in which they were added, their total, and a limit to it.
#[derive(Drop)]
pub struct Counter {
    pub limit: u64,
    pub total: u64,
    pub list: Vec<u64>,
    ghost within: { total ≤ limit },
}
