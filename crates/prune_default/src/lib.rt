//! Pruning and defaulting (Kubernetes, "Field pruning" and "Defaulting"): what a value becomes under a structural
//! schema.
//!
//! The one contract: `fill` answers what `struct_schema`'s `Filled` relates the value to. Beside it stand laws of that
//! relation: a value has one sound filling, and filling twice is filling once.
//!
//! A walk takes at most five calls a level of a value's lists and objects, so about 320 calls at 64 levels, and two more
//! a level of a default that it copies.
//!
//! It knows nothing of objects, versions, requests or whether a value keeps its schema.
#![tactic(auto)]

mod defaults;
mod filling;
mod laws;
mod room;

pub use filling::fill;
pub use laws::{filled_again, one_filling, some_filling};
pub use room::FILLING_ROOM;
