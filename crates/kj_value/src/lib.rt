//! JSON values (RFC 8259) whose numbers are whole numbers of 64 bits signed, and the small types of
//! text beside them.
//!
//! The one contract: bytes and values are related by `Reads`, which is `serde_json`'s reading with
//! whole numbers, and a value has one compact text, `text_of`. Contracts see a `JVal` as the `Json`
//! that `json` gives, a list as the list of its items, an object as its pairs of name and value in
//! the order of their names, and a `Txt` as its bytes.
//!
//! It knows nothing of what a value means: no Kubernetes object, no schema, no request.
#![tactic(auto)]

mod error;
mod kinds;
mod laws;
mod names;
mod quick;
mod reading;
mod rule;
mod stamp;
mod texts;
mod txt;
mod value;
mod walks;
mod writing;

pub use error::NoMemory;
pub use laws::{one_reading, one_text, reading_depth, sound, text_reads};
pub use names::{Named, find, seek};
pub use reading::{JsonFault, MAX_JSON_LEVELS, read};
pub use rule::Rule;
pub use stamp::Stamp;
pub use texts::{TextField, TextList, TextMap};
pub use txt::Txt;
pub use value::{Field, JFields, JItems, JVal};
pub use walks::{alike_items, copy, depth, same};
pub use writing::write;
