//! Storage migrations, and the plan of the one that runs: which keys were handed out, and to which claims.
//!
//! The one contract: `Migrations` is seen as the list of the migrations and the plan, and each call is one move of the
//! plan's definitions on it. All memory is taken when it is opened.
//!
//! It reads records by key through `Records`, and knows nothing of what they hold, of versions or of histories.
#![tactic(auto)]

mod bound;
mod claims;
mod ends;
mod item;
mod items;
mod migrations;
mod records;
mod slot;
mod slots;

pub use ends::{Advance, StartEnd, Worker};
pub use item::{MigrationItem, MigrationItems};
pub use items::named;
pub use migrations::Migrations;
pub use records::{Records, Row};
