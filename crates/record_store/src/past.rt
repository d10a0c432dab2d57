//! A record that was superseded.
use crate::row::Row;

/// A record as it stood, with the number of the entry that superseded it.
#[derive(Drop)]
pub struct Past {
    pub by: u64,
    pub row: Row,
}
