//! Whole objects taken from a spoke's version to the hub's and back, with their metadata and annotations.
//!
//! The one contract: `to_hub` gives the whole object that pairs with what `settle` leaves of an object, and
//! `from_hub` the settled object that pairs with a whole one; `back_to_hub` takes a settled object over without asking what is
//! alive of it.
//!
//! It knows nothing of requests, of how a definition is read, or of where objects are kept.
#![tactic(auto)]

mod carrying;
mod fault;
mod form;
mod hub;
mod keys;
mod notes;
mod settling;
mod spokes;

pub use fault::KeepFault;
pub use form::{from_hub, into_spoke, shape_at};
pub use hub::{back_to_hub, to_hub};
pub use keys::{hub_key, spoke_key};
pub use settling::settle;
pub use spokes::{Spoke, Spokes};
