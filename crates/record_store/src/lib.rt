//! The records of a server: each object's text as it was written, at its version, and those that were
//! superseded, for pages of an older number.
//!
//! The one contract: a store is seen as its records by strictly rising key, each with its text, and the
//! window of superseded ones. A write puts one record under its key, moves the one that stood there
//! into the window, and leaves every other record as it is. It takes no memory and is never refused for
//! want of it: all memory is taken when a store is opened. A page at a number from the floor on has
//! copies of the records as they were then; and where the records and the window are those of a history,
//! it is the page of that history, by `page_of_history`.
//!
//! It knows nothing of what a text means, of versions, or of requests.
#![tactic(auto)]

// The rows that stand, by rising key, in blocks whose room is taken once.
mod block;
mod index;
mod lookup;
mod row;
mod row_list;

// The newest superseded rows that fit, and the floor above which all are known.
mod past;
mod window;

// The records with their texts, over one region.
mod answer;
mod held_versions;
mod page;
mod record;
mod store;
mod text;

// What a page has to do with the history, and how large a server's region is.
mod page_laws;
mod standing;

pub use answer::PutEnd;
pub use page_laws::{Texts, page_of_history};
pub use record::{NewRecord, StorePage, StoredRecord};
pub use row::Record;
pub use standing::standing_region;
pub use store::Store;
