//! What lines do that work on a server from outside.
//!
//! The contracts are those of three lines, each of which reads the address of a place, makes one link and gives it back: `migrate_line`
//! migrates the objects of the place and writes the tally, `dump_line` writes them as lines, and `load_line` posts the lines of an input
//! and writes how many were created and how many were there.
//!
//! It knows nothing of the words of a line, nor of statuses.
#![tactic(auto)]

mod dumping;
mod end;
mod loading;
mod migrating;
mod telling;

pub use dumping::dump_line;
pub use end::{LoadEnd, MigrateEnd};
pub use loading::load_line;
pub use migrating::migrate_line;
