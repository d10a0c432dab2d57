//! A record as it stands under its key.
use kube_meta::Key;
use record_region::Piece;

/// What is known of a record beside its key and its text.
#[derive(Clone, Copy, Drop)]
pub struct Record {
    /// The version at which it is stored.
    pub at: u8,
    /// The number of its last write.
    pub rv: u64,
    /// The number of its creation.
    pub born: u64,
    /// The chunks of 256 bytes that are kept for it.
    pub weight: u64,
    /// The bytes of its text.
    pub len: u64,
}

/// A record with its key and the piece of a region that holds its text.
#[derive(Drop)]
pub struct Row {
    pub key: Key,
    pub record: Record,
    pub piece: Piece,
}
