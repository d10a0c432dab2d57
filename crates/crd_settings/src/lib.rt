//! What requests say of a definition's own versions, and how a definition is shown.
//!
//! The contract: `read_flags` and `read_keep` answer what a body says by `Sets` and `Keeps`, or the first thing that is refused
//! by `RefusesFlags` and `RefusesKeep`; `decided` says that a body does one of the two, in one way. `Pieces::show` appends the
//! compact text of the CustomResourceDefinition with the flags and the stored versions of now, and takes no memory.
//!
//! It knows nothing of hubs, rules, objects or stores, nor of which versions are stored now.
#![tactic(auto)]

mod body;
mod cut;
mod flags;
mod keeping;
mod laws;
mod own;
mod parts;
mod pieces;
mod setting;

pub use flags::opening;
pub use keeping::read_keep;
pub use laws::decided;
pub use pieces::Pieces;
pub use setting::read_flags;
