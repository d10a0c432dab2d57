//! Admission and conversion: from a request to its object's hub value with its weight, and from a document of one version to the one of
//! another; or why there is none.
//!
//! The one contract of admission is of two steps. `pass` gives the object that the request submits at its version, with its body filled
//! and checked, as `Passes` of `crd_meaning` says, and all that is known of such an object; or a fault that is the first of the table
//! of `crd_meaning`. `hub_value` takes it on to the object's one hub value with what that weighs, or names the first annotation
//! that can't be read, or says that its measure is too large at some version: what each form is made of is made once and measured, and let
//! go but for that of the storage version. `convert` answers the document that is one with the given one at the wanted version, as
//! `IsConverted` of `crd_meaning` says, or why there is none, as `IsUnconverted` says.
//! `measure_within` counts what an object measures, so that no text is written and no memory taken. Beside them stand laws of how
//! deep a filled value is.
//!
//! It knows nothing of how objects are stored, of flags, of reviews, nor of what is replied.
#![tactic(auto)]

// From a request to its object, filled and checked.
mod asking;
mod body;
mod depth_laws;
mod fields;
mod filling;
mod metadata;
mod numbers;
mod opening;
mod passing;
mod placing;
mod taking;
mod version_texts;
mod versions;

// What an object measures.
mod measured_meta;
mod measuring;
mod values;

// From the object to its hub value and its weight, and from there to a version.
mod faults;
mod forms;
mod hubs;
mod weighing;

// From a document to the one of another version.
mod converting;
mod crossing;
mod document_faults;
mod document_metadata;
mod document_passing;
mod judging;
mod naming;
mod reading;
mod showing;

pub use converting::convert;
pub use depth_laws::{default_depth, filled_depth};
pub use forms::form_at;
pub use hubs::{Weighed, hub_value};
pub use measuring::measure_within;
pub use opening::order_of;
pub use passing::{Passed, pass, pass_body};
