//! Objects of Kubernetes as values: keys, metadata, names, and the document of an object.
//!
//! The crate's one contract: `write_object` answers the document of an object, as `specs/Document.antt` defines it, and
//! `copy_object` the same object once more, and `copy_shaped` what it becomes at another version.
//!
//! It knows nothing of versions, schemas, requests or stores.
#![tactic(auto)]

mod copying;
mod document;
mod key;
pub mod laws;
mod limits;
mod names;
mod object;
mod spot;

pub use copying::{copy_meta, copy_object, copy_shaped};
pub use document::write_object;
pub use key::{Key, NAME_BYTES, NAMESPACE_BYTES};
pub use limits::{Condition, Limits, Room, RoomKind};
pub use names::{has_good_ends, name_ok, namespace_ok};
pub use object::{Meta, Object, Shape};
pub use spot::{KeySpot, NameSpot};
