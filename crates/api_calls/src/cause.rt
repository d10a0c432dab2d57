//! What is wrong with a document.
use kj_value::{Rule, Txt};

/// A field and the rule that it breaks: one of the causes in a Status of reason Invalid.
#[derive(Drop)]
pub struct Cause {
    /// The field's path, its names joined by points.
    pub field: Txt,
    pub rule: Rule,
}
