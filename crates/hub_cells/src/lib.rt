//! Cells: the names of two versions of an object that hold one thing, and how values go from the one
//! version to the other.
//!
//! The one contract: `cross` answers the tuple of the other side that matches, or else the one that is
//! shown for it, and a match is one-to-one. A `Fitted` is a level of cells for a spoke's schema and the
//! hub's, and its type keeps `IsFitted`: each name of the two schemas stands in it once, what goes over
//! from an allowed tuple is allowed, and where a name can have a default, what goes over from one that
//! is there is there.
//!
//! It knows nothing of the document that rules stand in, of annotations or of metadata.
#![tactic(auto)]

mod allowed;
mod cell;
mod crossing;
mod fitted;
mod laws;
mod pairs;
mod tables;
mod tuples;

pub use allowed::STORED_LEVELS;
pub use cell::{Cell, CellKind, Name, Names, Side, Tuple};
pub use crossing::{Crossed, cross};
pub use fitted::{Fitted, Inner};
pub use laws::{allowed_crosses, matching, one_to_one};
pub use pairs::{Pair, PairItems};
pub use tables::{own_value, partner};
pub use tuples::copy_tuple;
