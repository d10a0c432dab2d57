//! Objects out of documents.
//!
//! The crate's one contract: `read_object` answers the object that a document submits, or the first refusal in a fixed
//! order, as `specs/Refusal.antt` and `specs/Parts.antt` define them, and `read_unnamed` the metadata alone, whose name and
//! namespace aren't judged; `read_written` answers the object that a document was written of. Parts of the document are
//! moved into the object.
//!
//! It knows nothing of versions, schemas, requests or stores.
#![tactic(auto)]

mod fault;
mod finalizers;
mod judging;
mod labels;
mod laws;
mod numerals;
mod parts;
mod reading;
mod rules;

pub use fault::ObjectFault;
pub use finalizers::{FINALIZER_BYTES, FINALIZERS, finalizer_ok};
pub use labels::{KEY_NAME_BYTES, annotation_key_ok, label_key_ok, label_value_ok};
pub use laws::{accepted, numbers, read_back};
pub use reading::{read_object, read_unnamed, read_written};
pub use rules::given;
