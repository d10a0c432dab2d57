//! Kept entries: what one version of an object has and another can't hold, as the text of an
//! annotation beside the object.
//!
//! The one contract: `IsKept` relates a text and the list of entries that it spells; a text has one
//! such list. The text is the compact text of a list of `{"at":[NAME, ..],"was":{NAME:VALUE, ..}}`.
//!
//! It knows nothing of versions, cells, schemas or objects: which entry still speaks of its object
//! isn't asked here.
#![tactic(auto)]

mod entry;
mod fault;
mod laws;
mod list;
mod order;
mod reading;
mod writing;

pub use entry::Entry;
pub use fault::KeptFault;
pub use laws::one_list;
pub use list::Kept;
pub use order::{are_in_order, is_before};
pub use reading::{KEPT_LEVELS, read_kept};
pub use writing::write_kept;
