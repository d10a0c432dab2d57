//! The limits of a server, and what is lacking where one is met.

/// The limits of a server. A chunk is 256 bytes.
#[derive(Clone, Copy, PartialEq, Eq, Drop)]
pub struct Limits {
    /// The most objects that stand at a time.
    pub objects: u64,
    /// The most chunks that they take, each by its weight.
    pub chunks: u64,
    /// The most superseded records that are kept.
    pub window_records: u64,
    /// The most chunks that these take.
    pub window_chunks: u64,
    /// The most migrations that were ever started.
    pub migrations: u64,
}

impl Limits {
    /// The limits that the program runs with: 16,384 objects in 64 MiB, a window of 1,024 records in 16 MiB, and 256
    /// migrations.
    pub const STANDING: Limits = Limits {
        objects: 16_384,
        chunks: 262_144,
        window_records: 1_024,
        window_chunks: 65_536,
        migrations: 256,
    };
}

/// What there is no more room for.
#[derive(Clone, Copy, Debug, PartialEq, Eq, Drop)]
pub enum RoomKind {
    Objects,
    Chunks,
    Migrations,
}

/// How much room is wanted, and how much is free.
#[derive(Clone, Copy, Debug, PartialEq, Eq, Drop)]
pub struct Room {
    pub what: RoomKind,
    pub need: u64,
    pub free: u64,
}

/// How a storage migration stands.
#[derive(Clone, Copy, Debug, PartialEq, Eq, Drop)]
pub enum Condition {
    /// Objects are still being moved.
    Running,
    /// Every object stood at the target.
    Succeeded,
    /// The storage version was changed before that.
    Failed,
}
