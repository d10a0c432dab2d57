//! The definition that tests and drills share: each kind of rule stands in it.
pub use crate::example_laws::accepted;
pub use crate::example_texts::{definition, rules};
