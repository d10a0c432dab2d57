//! What the calls of the server show of objects and pages, and why they refuse, outside any turn.
//!
//! A reply is made here of what a look at the core saw: an object's text at a version, a page of them, a stored text. The
//! crate's one contract is that each answer is what the replies' definitions say at the list of that look. `write_texts` and
//! `setting_texts`, which stand on it, do the same for writes, and for settings and migrations. It knows nothing of passes,
//! turns or threads.
#![tactic(auto)]

// The definition that is shown by, and the parts of every text.
mod context;
mod documents;
mod kept;
mod page_text;
mod place;
mod refused;
mod render;

// What each call tells.
mod get;
mod list;
mod raw;

pub use context::Context;
pub use documents::{reply_text, stored_text};
pub use page_text::{add, comma_before, group_version, quoted};
pub use place::place_of;
pub use refused::{
    Refused, bad_definition, no_finalizer, not_admitted, not_read, not_started, plain,
};
