//! A cache of forms: the texts that were last shown of objects, each by its key, its number and its version.
//!
//! The crate's one contract: a `FormCache` is the list of the forms that it holds, the last used first. What is found is the
//! text that was last kept for the key, the number and the version, and it goes to the front; what is kept goes to the front,
//! and where the cache is full the last form goes out. It knows keys and texts, and nothing of objects, versions or requests.
#![tactic(auto)]

mod cache;
pub mod laws;
mod name;

pub use cache::{FormCache, PASS_FORMS, TEXT_BYTES};
// A crate can name the cache in a contract only if the types of its fields are exported.
#[doc(hidden)]
pub use name::FormName;
