//! A line that is written and handed on, and the one that tells where connections come.
//!
//! The one contract: what is written is a text with the end of a line, or where that fails a front of it, and at the end it is handed on.
//! A place is told only once somebody listens there, and it is what the ears tell of the one that was asked for. The crate knows nothing
//! of what is served, nor of statuses.
#![tactic(auto)]

mod listening;
mod writing;

pub use listening::{Unserved, listen_at};
pub use writing::write_line;
