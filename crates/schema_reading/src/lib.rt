//! Reads a schema document (apiextensions.k8s.io/v1, `JSONSchemaProps`) into a structural schema.
//!
//! The one contract: `read_schema` is Ok exactly on the documents that are allowed, with the schema that
//! `shape_read` says the document spells, and else names the first keyword that isn't allowed by
//! `first_refusal`, with its path. Want of memory may come anywhere.
//!
//! At 32 nestings, the deepest that is read, the walk stands in some 200 calls: four a nesting, and two a
//! level of a default 32 deep at the innermost node.
//!
//! It knows nothing of the definition around a schema, and nothing of objects or requests.
#![tactic(auto)]

mod defaults;
mod keywords;
mod kinds;
mod laws;
mod own;
mod tries;
mod trouble;
mod walk;
mod words;

pub use laws::{accepts, own_fillings, sound_defaults, valid_defaults};
pub use trouble::SchemaFault;
pub use walk::{MAX_DEFAULT_DEPTH, MAX_NESTING, MAX_NODES, read_schema};
