//! What follows of a run's outcome: by the line, by the status, and where nothing fails; and what holds of the one list by which the
//! connections of a line of `serve` were answered, or the input of a line of `pipe`; of any two drills (`drills`); and of how a migration
//! from outside can end over a server of a definition (`tallies`).
//!
//! Each law is the contract of a function that does nothing. Its premise is an `Outcome`, which `run` of `kubeconv_cmd` says of each
//! line that its words are, or the list that it tells of. It knows nothing of how a run comes to its outcome.
#![tactic(auto)]

pub mod any_line;
pub mod drill;
pub mod drills;
pub mod dump;
pub mod lists;
pub mod load;
pub mod migrate;
pub mod pipe;
pub mod serve;
pub mod tallies;
pub mod task;
