//! What a body reads as.
ghost use Rattle.std.specs.Prelude.{◌≡◌, ◌≢◌, IfOk, IfErr, MatchOption, option_map};
ghost use Rattle.kj_value.specs.Json.{object, members_of};
ghost use Rattle.kj_value.specs.Seen.{json};
ghost use Rattle.kj_value.specs.Fields.{Pairs, field};
ghost use Rattle.api_calls.specs.Versions.{Refused};
ghost use Rattle.crd_reading.specs.Words.{api_version, document_kind};
ghost use Rattle.crd_reading.specs.Spelled.{full_name};
ghost use Rattle.crd_settings.specs.Body.{IsDocument, IsFault, NoDocument, NoObject, ReadsObject, says};

use api_calls::{AdmitFault, Cause, Why};
use crd_reading::{Definition, is_text};
use kj_value::{JFields, JVal, JsonFault, MAX_JSON_LEVELS, NoMemory, Rule, Txt, read};
use std::alloc::Global;

fn into_fields(v: JVal) -> Option<JFields>
    ensures { MatchOption result
        ((fields : Pairs) → json v ≢ object (members_of fields))
        (λ fields. json v ≡ object (members_of fields)) }
{
    match v {
        JVal::Obj(fields) => Some(fields),
        _ => None,
    }
}

// The fields of the object that the bytes are.
pub(crate) fn read_object(alloc: Global, bytes: &[u8]) -> Result<JFields, AdmitFault>
    ensures ok { IfOk result (ReadsObject bytes.now) }
    ensures refused { IfErr result (Refused (NoObject bytes.now) ⊥) }
{
    let v = match read(alloc, bytes, MAX_JSON_LEVELS) {
        Ok(v) => v,
        Err(JsonFault::NotJson) => return Err(AdmitFault::BadRequest(Why::NotJson)),
        Err(JsonFault::TooDeep) => return Err(AdmitFault::BadRequest(Why::TooDeep)),
        Err(JsonFault::NotWhole) => return Err(AdmitFault::BadRequest(Why::NotWhole)),
        Err(JsonFault::NoMemory) => return Err(AdmitFault::NoMemory),
    };
    match into_fields(v) {
        Some(fields) => Ok(fields),
        None => Err(AdmitFault::BadRequest(Why::NotObject)),
    }
}

fn says(v: Option<&JVal>, wanted: &str) -> bool
    ensures { result ≡ says wanted.now (option_map (λ w. json w.now) v.entry) }
{
    match v {
        None => false,
        Some(v) => is_text(v, wanted),
    }
}

#[tactic(auto, unfolding(crd_reading::specs::Words::api_version))]
fn api_version() -> &'static str
    ensures { result.now ≡ api_version }
{
    "apiextensions.k8s.io/v1"
}

#[tactic(auto, unfolding(crd_reading::specs::Words::document_kind))]
fn document_kind() -> &'static str
    ensures { result.now ≡ document_kind }
{
    "CustomResourceDefinition"
}

// The fields of the CustomResourceDefinition that the bytes are.
pub(crate) fn read_document(alloc: Global, bytes: &[u8]) -> Result<JFields, AdmitFault>
    ensures ok { IfOk result (IsDocument bytes.now) }
    ensures refused { IfErr result (Refused (NoDocument bytes.now) ⊥) }
{
    let fields = read_object(alloc, bytes)?;
    if !says(fields.get("apiVersion"), api_version()) {
        return Err(AdmitFault::BadRequest(Why::WrongVersion));
    }
    if !says(fields.get("kind"), document_kind()) {
        return Err(AdmitFault::BadRequest(Why::WrongKind));
    }
    Ok(fields)
}

// The definition's name: the plural, a point and the group.
pub(crate) fn full_name(alloc: Global, definition: &Definition) -> Result<Txt, NoMemory>
    ensures { IfOk result (λ t. t.bytes ≡ full_name definition.now) }
{
    let mut text = String::from_str(alloc, definition.plural().as_str())?;
    text.push_str(".")?;
    text.push_str(definition.group().as_str())?;
    Ok(Txt::of_string(text))
}

// A field of a body for the definition breaks a rule.
pub(crate) fn broken(
    alloc: Global,
    definition: &Definition,
    path: &str,
    rule: Rule,
) -> Result<AdmitFault, NoMemory>
    ensures { IfOk result (IsFault (full_name definition.now) path.now rule) }
{
    let name = full_name(alloc, definition)?;
    let field = Txt::of(alloc, path)?;
    Ok(AdmitFault::Invalid {
        name,
        cause: Cause { field, rule },
    })
}
