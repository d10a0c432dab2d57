//! What a loaded definition means: which objects are whole at the hub, which object of each version is one with them,
//! which requests are admitted and with which hub value, and why each other request is refused; and which document of another
//! version is one with a document, or why there is none.
//!
//! The one contract: `standing`, `finalizers`, `unstamped`, `one_to_one`, `admitting` and `deciding`, the laws that a server asks of
//! a definition, and `one_value`, that a document has at most one value at a version. Beside them stand `fillings` and
//! `one_cause`, that each body has a filling and each refusal one reason, and `going_over` and `one_hub`, for code that makes hub values.
//!
//! It knows nothing of how objects are held in memory, of how a definition is read, nor of flags and stored versions.
#![tactic(auto)]

mod document_laws;
mod laws;
mod limits;

pub use document_laws::one_value;
pub use laws::{
    admitting, deciding, fillings, finalizers, going_over, known, one_cause, one_hub, one_to_one,
    standing, unstamped,
};
pub use limits::MAX_MEASURE;
