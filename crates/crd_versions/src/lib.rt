//! The versions of a definition that was loaded from a CustomResourceDefinition and the rules of conversion between its
//! versions: `VersionSet`, an implementation of `Versions`.
//!
//! The one contract: what `VersionSet` admits, refuses, shows at a version and reads back is what the definition means, with all
//! the laws of `Versions`; and `load` gives one exactly where nothing of the two texts is refused.
//!
//! It composes the crates below; its own are the form of a hub value at a version, the hub value of a stored text, and that a
//! definition may go to other threads and be looked at by several of them (`proofs/Crossing.antt`, from its lowest part up). It
//! knows nothing of how objects are read, filled, converted or measured, nor of where they are kept.
#![tactic(auto)]

// The form of a hub value at a version, and the hub value of a stored text.
mod forms;
mod going_back;
mod hub_values;

// The implementation.
mod admission;
mod loading;
mod names;
mod set;

pub use crd_loading::{LoadFault, Which};
pub use forms::form;
pub use hub_values::hub_of;
pub use loading::load;
pub use set::VersionSet;
