//! Laws of bodies that go over to another version: of every body, valid or not, whatever is kept beside it.
//!
//! The one contract: `bodies::over_and_back`. Over to the other side and back, the body of every object is what it was.
//!
//! It stands on levels of cells; a cell is two functions, one each way, that answer whatever stands at its names. It has no code that
//! converts, and knows nothing of schemas, of defaults, of how entries are spelled, or of metadata.
#![tactic(auto)]

pub mod bodies;
pub mod cell_laws;
