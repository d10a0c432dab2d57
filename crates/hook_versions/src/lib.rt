//! The versions of a definition whose objects a converter turns.
//!
//! The one contract: `load_hook` loads a definition without rules, whose hub is named, and `HookSet` implements `Versions` for it by the
//! meaning of `crd_laws`. What a converter answers is tested: that it is the object that was given, at the version, valid, filled and at
//! most 64 levels deep; and at admission that each form turns back to the hub value. An answer that fails a test is the tool's fault, and
//! counted as one.
//!
//! It knows nothing of rules, nor of how a converter is asked.
#![tactic(auto)]

mod definition;
mod loading;
mod names;
mod set;

// One answer of a converter.
mod answers;
mod bodies;
mod turning;

// What is made of answers.
mod admission;
mod faults;
mod forms;
mod sameness;
mod weighing;

pub use crd_loading::{LoadFault, Which};
pub use definition::HookDefinition;
pub use loading::load_hook;
pub use set::HookSet;
