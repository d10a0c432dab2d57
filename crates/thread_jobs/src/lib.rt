//! Jobs in threads of a scope, over std alone.
//!
//! The crate's one contract: a job is done once, in a thread of its own, or by the caller where no thread can be had, and
//! who joins its thread learns what the runner promises of that very job, and that the flag of its handle was raised. It knows nothing of
//! what a job is.
#![tactic(auto)]

mod beginning;
mod flags;
mod running;

pub use beginning::begin;
pub use flags::{Flag, Raised, Told, two_flags};
pub use running::{Done, JobDone, Runner, Running};
