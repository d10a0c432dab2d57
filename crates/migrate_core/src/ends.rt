//! A worker, and how calls end.
use kube_meta::{KeySpot, NameSpot, Room};

/// One that moves objects, with the number of its claim.
#[derive(Drop)]
pub struct Worker {
    pub claim: Option<u64>,
}

/// How the start of a migration ended.
#[derive(Drop)]
pub enum StartEnd {
    /// It runs, and objects are moved to this version.
    Done { target: u8 },
    /// There is a migration of that name.
    AlreadyExists,
    /// The migration of this name runs.
    Running { name: NameSpot },
    /// As many were started as the limit allows.
    Full(Room),
}

/// What a claim has to do next.
#[derive(Drop)]
pub enum Advance {
    /// The record of this key, which has this number, is to be moved.
    Prepare { key: KeySpot, rv: u64 },
    /// Nothing is left in its range.
    Done,
    /// The claim isn't in a held slot of the running migration.
    Lost,
}
