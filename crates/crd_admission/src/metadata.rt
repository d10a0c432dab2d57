//! The object of a document that the path asks for, whose metadata are judged.
ghost use Rattle.std.specs.Prelude.{◌≡◌, true, None, Some, Option, IfOk, IfErr, option_map, codes};
ghost use Rattle.std.specs.Str.{bytes_eq};
ghost use Rattle.kj_value.specs.Fields.{field};
ghost use Rattle.kj_value.specs.Seen.{json};
ghost use Rattle.kube_meta.specs.View.{meta_of, object_of};
ghost use Rattle.object_reading.specs.Keeping.{KeepsRules};
ghost use Rattle.object_reading.specs.Parts.{parts_in, submitted, text_or_empty};
ghost use Rattle.object_reading.specs.Refusal.{Refusal, is_given_text, Tells};
ghost use Rattle.object_reading.specs.Rules.{any_text};
ghost use Rattle.api_calls.specs.Versions.{Refused};
ghost use Rattle.crd_meaning.specs.Request.{first_there, given_name, metadata_field, metadata_fault, metadata_rows, name_path};
ghost use Rattle.crd_admission.specs.Steps.{IsFirst};

use crate::fields::in_metadata;
use api_calls::{AdmitFault, Cause, Why};
use kj_value::{JFields, JVal, NoMemory, Rule, Txt};
use kube_meta::Object;
use object_reading::{ObjectFault, read_object};
use std::alloc::Global;

/// The object that a document of these fields submits, whose parts are moved out of them, or the first fault of its
/// metadata.
pub(crate) fn submitted(alloc: Global, kind: &str, fields: JFields) -> Result<Object, AdmitFault>
    requires version { is_given_text any_text (field (codes "apiVersion") fields) ≡ true }
    requires kind { is_given_text (λ s. bytes_eq s kind.now) (field (codes "kind") fields) ≡ true }
    ensures nothing { IfOk result (λ _. first_there (metadata_rows fields) ≡ None) }
    ensures object { IfOk result (λ o. object_of o ≡ submitted (parts_in fields)) }
    ensures rules { IfOk result (λ o. KeepsRules (meta_of o.meta)) }
    ensures refused { IfErr result (Refused (IsFirst (metadata_rows fields)) ⊥) }
{
    match given_name(alloc, &fields) {
        Ok(name) => match read_object(alloc, JVal::Obj(fields), kind) {
            Ok(o) => Ok(o),
            Err(fault) => Err(metadata_fault(alloc, name, fault)),
        },
        Err(NoMemory) => {
            drop(fields);
            Err(AdmitFault::NoMemory)
        }
    }
}

// The name that the body gives, where that is a text.
fn given_name(alloc: Global, fields: &JFields) -> Result<Txt, NoMemory>
    ensures { IfOk result (λ t. t.bytes ≡ given_name fields.now) }
{
    let value = in_metadata(fields, "name");
    let name = text_or_empty(alloc, value)?;
    Ok(name)
}

fn text_or_empty(alloc: Global, value: Option<&JVal>) -> Result<Txt, NoMemory>
    ensures { IfOk result (λ t. t.bytes ≡ text_or_empty (option_map (λ v. json v.now) value.entry)) }
{
    match value {
        Some(JVal::Text(t)) => Txt::of(alloc, t.as_str()),
        _ => Txt::of(alloc, ""),
    }
}

// The refusal of an object of this name, as a fault of the request.
fn metadata_fault(alloc: Global, name: Txt, fault: ObjectFault) -> AdmitFault
    ensures { (r : Option Refusal) → Tells fault r
        → Refused (λ f. option_map (metadata_fault name.bytes) r ≡ Some f) ⊥ result }
{
    match fault {
        ObjectFault::NotObject => AdmitFault::BadRequest(Why::NotObject),
        ObjectFault::BadVersion => AdmitFault::BadRequest(Why::WrongVersion),
        ObjectFault::WrongKind => AdmitFault::BadRequest(Why::WrongKind),
        ObjectFault::BadMeta { field } => match metadata_field(alloc, field.as_str()) {
            Ok(path) => invalid(name, path, Rule::Kind),
            Err(NoMemory) => AdmitFault::NoMemory,
        },
        ObjectFault::BadName => match name_path(alloc) {
            Ok(path) => invalid(name, path, Rule::Name),
            Err(NoMemory) => AdmitFault::NoMemory,
        },
        ObjectFault::NoMemory => AdmitFault::NoMemory,
    }
}

fn invalid(name: Txt, field: Txt, rule: Rule) -> AdmitFault
    ensures { result ≡ AdmitFault.Invalid name (record { field = field; rule = rule }) }
{
    AdmitFault::Invalid {
        name,
        cause: Cause { field, rule },
    }
}

#[tactic(auto, unfolding(crd_meaning::specs::Request::name_path))]
fn name_path(alloc: Global) -> Result<Txt, NoMemory>
    ensures { IfOk result (λ t. t.bytes ≡ name_path) }
{
    Txt::of(alloc, "metadata.name")
}

/// The path of a field of the metadata; of the empty one, the metadata's own.
#[tactic(auto, unfolding(crd_meaning::specs::Request::metadata_path, crd_meaning::specs::Request::metadata_prefix))]
pub(crate) fn metadata_field(alloc: Global, field: &str) -> Result<Txt, NoMemory>
    ensures { IfOk result (λ t. t.bytes ≡ metadata_field field.now) }
{
    if field.is_empty() {
        return Txt::of(alloc, "metadata");
    }
    let mut path = String::from_str(alloc, "metadata.")?;
    path.push_str(field)?;
    Ok(Txt::of_string(path))
}
