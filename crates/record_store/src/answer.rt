//! What a write answers.
use kube_meta::Room;

/// What came of a write. But for `Done` the store stays as it was.
#[derive(Clone, Copy, Drop)]
pub enum PutEnd {
    /// The record stands.
    Done,
    /// Absence was asked for, and a record stands under the key.
    Present,
    /// A number was asked for, and no record stands under the key.
    Gone,
    /// A record stands there at another number.
    Moved { newer: u64 },
    /// There is no room for one more object, or for its weight.
    Full(Room),
}
