//! Reads a CustomResourceDefinition (apiextensions.k8s.io/v1) of several versions, from a JSON value.
//!
//! The one contract: `read_definition` is Ok exactly on the documents that are definitions, with what
//! `definition_read` says the document spells, and else names the first thing that is refused by
//! `first_refusal`, with its path and a word. Want of memory may come anywhere.
//!
//! It knows nothing of bytes, of rules of conversion, of objects or requests.
#![tactic(auto)]

mod comparing;
mod definition;
mod found;
mod laws;
mod parts;
mod places;
mod reading;
mod schemas;
mod values;
mod walk;
mod words;

pub use definition::{Definition, Version};
pub use laws::{accepts, valid_defaults};
pub use parts::{is_yes, items_in};
pub use places::{KIND_BYTES, MAX_VERSIONS, MIN_VERSIONS};
pub use reading::{DefinitionFault, read_definition};
pub use values::is_text;
