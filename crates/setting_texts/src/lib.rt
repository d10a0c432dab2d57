//! What the calls on the definition and on storage migrations read and show, outside any turn.
//!
//! Bodies are read, and the texts of the definition, of its group and of migrations are written, before a turn where it may
//! enter something, so that nothing after it takes memory. The crate's one contract is that each answer is what the replies'
//! definitions say at the list of the turn. It knows nothing of objects, passes, turns or threads.
#![tactic(auto)]

// The definition and its group.
mod crd;
mod groups;
mod set;
mod trim;

// Migrations.
mod migrations;
mod start;
mod start_body;

pub use crd::definition;
pub use groups::group;
pub use migrations::{all_migrations, one_migration};
pub use set::{flags_in, showing};
pub use start::{start_in, started};
pub use trim::{keep_in, trimmed};
