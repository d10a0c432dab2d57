//! The compact text of an object's document, with a resource version and a uid put in, without reading it as a value.
//!
//! An object is stored as a text that has neither. Where the text shows the object, both stand at the end of its metadata,
//! whose names rise. So that place is looked for, and what stands around it is copied. The crate's contract is `parts`, and `numbered` over it.
#![tactic(auto)]

mod ends;
mod numbers;
mod place;
mod writing;

pub use numbers::{BETWEEN, NUMBER, numbered, parts};
pub use writing::write_document;
