//! Rules fitted to two schemas: the levels of cells that they mean.
//!
//! The one contract: `fit` gives the levels that the rules mean for a spoke's schema and the hub's exactly
//! where nothing is refused (but for want of memory), and what it gives keeps `IsFitted` in its type. `accepts`
//! says which rules those are, with no walk and no order in it.
//!
//! It knows nothing of objects, annotations, versions or requests.
#![tactic(auto)]

mod cells;
mod fitting;
mod laws;

pub use fitting::fit;
pub use laws::accepts;
