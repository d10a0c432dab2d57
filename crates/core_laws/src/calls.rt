//! The calls of a core that are turns, and their answers.
use api_calls::{Flags, StoredList};
use api_core::{CreateEnd, DeleteEnd, Prepared, ReleaseEnd, ReplaceEnd, SetEnd, TrimEnd, TurnEnd};
use kj_value::Txt;
use kube_meta::Key;
use migrate_core::StartEnd;

/// A call of the core that is a turn. `v` is the version of the request, by its place; `expected` is the number at
/// which the caller saw the object; `claim` is the claim of the worker whose turn it is.
#[derive(Drop)]
pub enum Call {
    /// Stores a new object.
    Create {
        v: u8,
        new: Prepared,
    },
    /// Replaces the value of an object.
    Replace {
        v: u8,
        expected: u64,
        new: Prepared,
    },
    /// Removes an object.
    Delete {
        v: u8,
        key: Key,
        expected: u64,
    },
    /// Puts the value with a deletion stamp in the place of an object that has a finalizer.
    Mark {
        v: u8,
        key: Key,
        expected: u64,
        stamped: Prepared,
    },
    /// Removes an object that is being deleted and lost its last finalizer.
    Release {
        v: u8,
        key: Key,
        expected: u64,
    },
    /// Sets which versions are served and which one is stored.
    SetVersions {
        flags: Flags,
    },
    /// Takes the versions that aren't kept out of the stored list.
    Trim {
        keep: StoredList,
    },
    /// Starts a migration.
    Start {
        name: Txt,
    },
    /// A worker's turn with nothing prepared.
    Work {
        claim: Option<u64>,
    },
    /// A worker's turn with the object that stood at `expected`, prepared.
    Touch {
        claim: Option<u64>,
        expected: u64,
        moved: Prepared,
    },
    /// Gives a claim back.
    GiveBack {
        claim: Option<u64>,
    },
}

/// The answer to a call.
#[derive(Drop)]
pub enum Answer {
    Create(CreateEnd),
    Replace(ReplaceEnd),
    Delete(DeleteEnd),
    Release(ReleaseEnd),
    SetVersions(SetEnd),
    Trim(TrimEnd),
    Start(StartEnd),
    /// Of a worker's turn: how it ended, and the claim that the worker has afterwards.
    Work { end: TurnEnd, claim: Option<u64> },
    /// Whether the claim was held.
    GiveBack(bool),
}
