//! A backup of what a server stores, and its restoring, from outside: all objects are listed, page by page, and each is written as a
//! line; and each line is posted as a new object.
//!
//! The one contract: `dump` makes the exchanges of a dump and writes its lines, as `specs/Dumps.antt` and `specs/Lines.antt` say them;
//! `restore` makes those of the lines that it reads, as `specs/Restores.antt` says them.
//!
//! It knows nothing of how a request is sent, nor of what stands in an object beside its key and what a server sets anew.
#![tactic(auto)]

mod dumping;
mod ends;
pub mod laws;
mod line;
mod lines;
mod posting;
mod restoring;
mod walk;

pub use dumping::dump;
pub use ends::{DumpEnd, RestoreEnd};
pub use restoring::restore;
