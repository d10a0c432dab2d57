//! An object with its kept entries, taken from one side to the other and back.
//!
//! The one contract: `convert` answers `converted`, the object of the other side that is paired with the
//! object without its dead entries, `living` the entries of that object, and `complete` a body of the hub in which
//! each name that has a default in some version is there.
//!
//! It knows nothing of requests, of definitions as documents, or of where objects are kept.
#![tactic(auto)]

mod completing;
mod conversion;
mod crossing;
mod entries;
mod left;
mod level;
mod sorting;
mod spots;
mod tuples;
mod under;

pub use completing::complete;
pub use conversion::{KeptBody, convert, living};
