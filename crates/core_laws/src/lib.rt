//! Many turns of one core, one after another: what is said of a list of calls.
//!
//! The crate's one contract is that of `run`: any list of calls, with values that were prepared at whichever turn, is
//! answered by one legal list of the history. It knows nothing of locks, threads or requests, and converts nothing.
#![tactic(auto)]

mod calls;
pub mod laws;
mod making;
mod running;

pub use calls::{Answer, Call};
pub use making::make;
pub use running::run;
