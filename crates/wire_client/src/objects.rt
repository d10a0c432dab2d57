//! The form of an object.
ghost use Rattle.std.specs.Prelude.{◌≡◌, option_copied};
ghost use Rattle.kj_value.specs.Seen.{json};
ghost use Rattle.wire_client.specs.Forms.{fields_fault as fields_fault_of, object_fault as object_fault_of};
ghost use Rattle.wire_client.specs.inner.Seen.{wanted_view};

use crate::fields::{has_name, has_namespace, has_version, number_in};
use kj_value::{JFields, JVal};

/// The namespace and the name that an object is to have, where they are known.
#[derive(Clone, Copy, Drop)]
pub(crate) struct Wants<'a> {
    pub ns: Option<&'a str>,
    pub name: Option<&'a str>,
}

/// The path of the first place of an object of that version that has another form.
pub(crate) fn object_fault(version: &str, wants: &Wants<'_>, object: &JVal) -> Option<&'static str>
    ensures { option_copied result ≡ object_fault_of version.now (wanted_view wants.now) (json object.now) }
{
    match object.as_object() {
        Some(fields) => fields_fault(version, wants, fields),
        None => Some(""),
    }
}

#[tactic(auto, unfolding(crate::specs::Forms::fields_fault))]
fn fields_fault(version: &str, wants: &Wants<'_>, fields: &JFields) -> Option<&'static str>
    ensures { option_copied result ≡ fields_fault_of version.now (wanted_view wants.now) fields.now }
{
    if !has_version(fields, version) {
        return Some("apiVersion");
    }
    if !has_namespace(fields, wants.ns) {
        return Some("metadata.namespace");
    }
    if !has_name(fields, wants.name) {
        return Some("metadata.name");
    }
    match number_in(fields) {
        Some(_) => None,
        None => Some("metadata.resourceVersion"),
    }
}
