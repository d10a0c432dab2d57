//! The workers of migrations: turns of one worker, while its gate says yes.
//!
//! The crate's one contract is `Works`: the worker's turns are calls of its pass, one after another, each asked for at the
//! gate before, and after the last one its claim is given back, whatever ended it. It knows nothing of threads.
#![tactic(auto)]

mod gate;
mod working;

pub use gate::Gate;
pub use working::{WorkEnd, work};
