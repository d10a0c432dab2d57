//! Structural schemas (apiextensions.k8s.io/v1): what values they allow, and what values are without
//! anything that pruning would take out and defaulting would set.
//!
//! The one contract: contracts see a `Schema` as the `Shape` that `shape_of` gives. `check` is Ok exactly
//! where `valid` holds of the shape and the value, and else names the first fault of one fixed walk;
//! `is_filled` is true exactly where `Filled` relates the value to itself; `equal`, `equal_below` and `copy_schema` speak
//! of the shape as a whole. `step_before` and `item_step` write the path to what is refused, for the readers above too.
//!
//! A walk over a value takes three or four calls a level of its lists and objects, one over a schema three a
//! level of its nodes.
//!
//! It knows nothing of objects, versions, requests or the document that a schema stands in.
#![tactic(auto)]

mod checking;
mod choices;
mod copies;
mod equality;
mod filling;
mod keywords;
mod kind;
mod laws;
mod path;
mod places;
mod required;
mod schema;
mod trouble;

pub use checking::{check, is_valid};
pub use choices::Choices;
pub use copies::copy_schema;
pub use equality::{equal, equal_below};
pub use filling::{is_filled, is_forbidden};
pub use keywords::lesser;
pub use kind::{IntFormat, NodeKind};
pub use laws::faults;
pub use path::{item_step, step_before};
pub use places::{Place, Places, find_in};
pub use required::Required;
pub use schema::{Schema, SchemaBox, SchemaField, SchemaMap};
pub use trouble::CheckFault;
