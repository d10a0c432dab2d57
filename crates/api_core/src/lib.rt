//! The core: what the turn lock hands out. It takes one event at a time and decides.
//!
//! The crate's one contract: from a core that stands for a list of the history each call leaves one that stands for that
//! list, or for it and one item more, with the same definition, limits and boot number, and answers what the
//! definitions decide at that list. Commits take no memory.
//!
//! What a look at a turn sees, what is prepared for it and how its calls end are plain data. The core asks `Versions` for flags and
//! counts only: it converts nothing. It knows nothing of locks, threads or requests.
#![tactic(auto)]

// One turn as plain data.
mod ends;
mod page_ends;
mod seen;

// The core.
mod meaning;
mod pages;
mod present;
mod settings;
mod store_rows;
mod stored_versions;
mod work;
mod writes;

pub use ends::{CreateEnd, DeleteEnd, ReleaseEnd, ReplaceEnd, SetEnd, TrimEnd, TurnEnd};
pub use page_ends::{Page, PageFault, SeenItems};
pub use present::Core;
pub use seen::{Peeked, Prepared, Seen};
