//! A far end in memory that is the server: each request is served on a pass of a server that callers share, and the history that the
//! pass has seen is told. Between two requests others make theirs, on a pass of their own.
//!
//! It is for tests of clients. `upgrade` says what a migration over it leaves behind, and `back_up` what a
//! dump over it writes.
#![tactic(auto)]

mod answering;
mod dumping;
mod far;
mod upgrading;

pub use dumping::back_up;
pub use far::{FarBase, ServerFar};
pub use upgrading::upgrade;
