//! How the calls of a core end. Unless it says otherwise an end leaves the core as it was.
use api_calls::{Flags, StoredList};
use kube_meta::{KeySpot, Room};

/// How a create ended.
#[derive(Clone, Copy, Drop)]
pub enum CreateEnd {
    /// The object stands at this number.
    Done { rv: u64 },
    /// The version isn't served.
    Unserved,
    /// An object has the key.
    AlreadyExists,
    /// The value was prepared for another version than the storage version, which is `now`.
    StorageMoved { now: u8 },
    /// There is no room for one more object, or for its weight.
    Full(Room),
}

/// How a replace ended.
#[derive(Clone, Copy, Drop)]
pub enum ReplaceEnd {
    /// The new value stands at `rv`; the object was created by the entry `born`.
    Done { rv: u64, born: u64 },
    /// The version isn't served.
    Unserved,
    /// No object has the key.
    Gone,
    /// The object stands at another number.
    Moved { newer: u64 },
    /// The value was prepared for another version than the storage version, which is `now`.
    StorageMoved { now: u8 },
    /// There is no room for the new weight.
    Full(Room),
}

/// How a delete ended.
#[derive(Clone, Copy, Drop)]
pub enum DeleteEnd {
    /// The object is removed, by the entry `rv`; it was created by the entry `born`.
    Done { rv: u64, born: u64 },
    /// The object has a deletion stamp and stands at `rv`; it was created by the entry `born`.
    Kept { rv: u64, born: u64 },
    /// The version isn't served.
    Unserved,
    /// No object has the key.
    NotFound,
    /// The object stands at another number.
    Moved { newer: u64 },
    /// The stamped value was prepared for another version than the storage version, which is `now`.
    StorageMoved { now: u8 },
}

/// How a release ended: the removal of an object that is being deleted and has lost its last finalizer.
#[derive(Clone, Copy, Drop)]
pub enum ReleaseEnd {
    /// The object is removed, by the entry `rv`; it was created by the entry `born`.
    Done { rv: u64, born: u64 },
    /// The version isn't served.
    Unserved,
    /// No object has the key.
    Gone,
    /// The object stands at another number.
    Moved { newer: u64 },
}

/// How a change of the flags ended, with the stored list after it.
#[derive(Clone, Copy, Drop)]
pub enum SetEnd {
    /// The flags stand, by the entry `rv`.
    Done { rv: u64, stored: StoredList },
    /// They were these already.
    Unchanged { stored: StoredList },
}

/// How a trim of the stored list ended.
#[derive(Drop)]
pub enum TrimEnd {
    /// The kept versions alone are in the stored list, by the entry `rv`. Flags and stored list are those after it.
    Done {
        rv: u64,
        flags: Flags,
        stored: StoredList,
    },
    /// All versions of the stored list were kept.
    Unchanged {
        flags: Flags,
        stored: StoredList,
    },
    /// The version isn't in the stored list.
    Unknown {
        v: u8,
    },
    /// The version isn't kept: it is the storage version, which no key tells, or the object of the key stands there.
    StillStored {
        v: u8,
        key: Option<KeySpot>,
    },
}

/// How a turn of a worker ended.
#[derive(Drop)]
pub enum TurnEnd {
    /// There is nothing to do for now.
    Idle,
    /// The worker has a claim.
    Claimed,
    /// The object of this key, which has this number, is to be prepared.
    Prepare { key: KeySpot, rv: u64 },
    /// The prepared object stands at the target, by the entry `rv`.
    Touched { rv: u64 },
    /// The prepared object isn't the one to be moved any more.
    Moved,
    /// Nothing is left in the claim's range.
    RangeDone,
    /// The migration has succeeded, by the entry `rv`.
    Finished { rv: u64 },
}
