//! Whether a document is what the request's path asks for.
ghost use Rattle.std.specs.Prelude.{◌≡◌, ◌<◌, length, IfOk, IfErr, option_map};
ghost use Rattle.api_calls.specs.Versions.{Refused, request_of};
ghost use Rattle.crd_meaning.specs.Request.{rows};
ghost use Rattle.crd_admission.specs.Steps.{plain, IsFirst, IsAsked, has_version, has_kind, has_namespace, has_name};

use crate::fields::{in_metadata, is_absent_or, is_text};
use crate::version_texts::is_version_text;
use crate::versions::version_at;
use api_calls::{AdmitFault, Incoming, Why};
use crd_reading::Definition;
use kj_value::{JFields, JVal};

/// Nothing, where the version, the kind, the namespace and the name are those of the path, or else the first that isn't.
pub(crate) fn judge_path(
    definition: &Definition,
    input: &Incoming<'_>,
    fields: &JFields,
) -> Result<(), AdmitFault>
    requires { input.now.version < length definition.now.versions }
    ensures asked { IfOk result (λ _. IsAsked (plain definition.now) (request_of input.now) fields.now) }
    ensures refused { IfErr result (Refused (IsFirst (rows (plain definition.now) (request_of input.now) fields.now)) ⊥) }
{
    if !has_version(definition, input.version, fields) {
        return Err(AdmitFault::BadRequest(Why::WrongVersion));
    }
    if !has_kind(definition, fields) {
        return Err(AdmitFault::BadRequest(Why::WrongKind));
    }
    if !has_namespace(fields, input.ns) {
        return Err(AdmitFault::BadRequest(Why::WrongNamespace));
    }
    if !has_name(fields, input.name) {
        return Err(AdmitFault::BadRequest(Why::WrongName));
    }
    Ok(())
}

fn has_version(definition: &Definition, v: u8, fields: &JFields) -> bool
    requires { v < length definition.now.versions }
    ensures { result ≡ has_version (plain definition.now) v fields.now }
{
    let group = definition.group();
    match fields.get("apiVersion") {
        Some(JVal::Text(t)) => {
            is_version_text(
                t.as_str(),
                group.as_str(),
                version_at(definition, v).name.as_str(),
            )
        }
        _ => false,
    }
}

fn has_kind(definition: &Definition, fields: &JFields) -> bool
    ensures { result ≡ has_kind (plain definition.now) fields.now }
{
    is_text(fields.get("kind"), definition.kind().as_str())
}

fn has_namespace(fields: &JFields, ns: &str) -> bool
    ensures { result ≡ has_namespace ns.now fields.now }
{
    is_absent_or(in_metadata(fields, "namespace"), ns)
}

// A path without a name asks for none.
fn has_name(fields: &JFields, name: Option<&str>) -> bool
    ensures { result ≡ has_name (option_map (λ s. s.now) name.entry) fields.now }
{
    match name {
        None => true,
        Some(name) => is_text(in_metadata(fields, "name"), name),
    }
}
