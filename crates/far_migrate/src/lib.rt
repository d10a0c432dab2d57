//! The documented upgrade of what a server stores, from outside: all objects are listed, page by page, and each is put back as it
//! came, so that the server writes it at its storage version.
//!
//! The one contract: `migrate` makes the exchanges of a migration, as `specs/Pages.antt` and `specs/Puts.antt` say them, and answers
//! its tally, or why there is none. `laws` says what such exchanges tell.
//!
//! It knows nothing of how a request is sent, nor of what stands in an object beside its key and its number.
#![tactic(auto)]

mod ending;
pub mod laws;
mod migrating;
mod ordering;
mod paging;
mod putting;
mod run;
mod tally;

pub use migrating::migrate;
pub use ordering::{goes_on, is_last, last_of};
pub use run::FIRST_LIMIT;
pub use tally::{FarFault, Tally};
