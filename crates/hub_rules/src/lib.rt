//! The rules of a spoke, and whether they fit its schema and the hub's.
//!
//! The one contract: `check_fit` is Ok exactly where `fit_fault` refuses nothing, and else names the
//! first refusal with its path.
//!
//! It knows nothing of objects, annotations, versions or requests.
#![tactic(auto)]

mod bounds;
mod doubles;
mod level;
mod names;
mod nodes;
mod passing;
mod refusal;
mod rules;
mod spot;

pub use names::is_ruled;
pub use nodes::{AnyNode, is_required, node_at};
pub use refusal::{FitFault, check_fit};
pub use rules::{Line, MAX_OBJECTS, Rules};
pub use spot::Why;
