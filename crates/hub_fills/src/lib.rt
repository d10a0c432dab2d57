//! What the names of the hub's object become where they aren't there: by default at the hub, or else at the first
//! spoke that has a default for them.
//!
//! The one contract: `right`. Where no default comes too late for some spoke, what a name becomes is a value that
//! the hub allows, in a cell that can have a default, and each name with a default on either side has one.
//!
//! It knows nothing of objects, of annotations, nor of the document that rules stand in.
#![tactic(auto)]

mod choosing;
mod fills;
mod lateness;
mod laws;
mod lookups;

pub use choosing::fills_of;
pub use fills::{Deeper, Fills};
pub use lateness::late;
pub use laws::{none_late, right};
