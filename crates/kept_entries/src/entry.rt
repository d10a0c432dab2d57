//! A kept entry.
use kj_value::{JFields, TextList};

/// A path of object names, and the part of a cell's values there that was lost: the names with their
/// values.
#[derive(Drop)]
pub struct Entry {
    pub at: TextList,
    pub was: JFields,
}
