//! Whether a document is an object of the kind that is wanted, and else what is refused.
ghost use Rattle.std.specs.Prelude.{◌≡◌, None, Some, Option, IfOk, IfErr, option_map, codes};
ghost use Rattle.std.specs.Str.{bytes_eq};
ghost use Rattle.kj_value.specs.Seen.{json};
ghost use Rattle.kj_value.specs.Fields.{field};
ghost use Rattle.object_reading.specs.Fields.{object_at};
ghost use Rattle.object_reading.specs.Rules.{any_text};
ghost use Rattle.object_reading.specs.Refusal.{Refusal, bad_meta, first_holding, judged_fields, judged_unnamed, judged_metadata, judged, is_given_text, Tells};

use crate::fault::ObjectFault;
use crate::rules::{
    annotations_ok, finalizers_ok, given, labels_ok, name_field_ok, namespace_field_ok, owners_ok,
    resource_version_field_ok,
};
use kj_value::{JFields, JVal, Txt};
use std::alloc::Global;

/// Nothing, where a document of these fields is an object of the kind, or else the first refusal.
pub(crate) fn judge(alloc: Global, fields: &JFields, kind: &str) -> Result<(), ObjectFault>
    ensures accepted { IfOk result (λ _. first_holding (judged kind.now fields.now) ≡ None) }
    ensures refused { IfErr result (λ e. Tells e (first_holding (judged kind.now fields.now))) }
{
    if !has_version(fields) {
        return Err(ObjectFault::BadVersion);
    }
    if !has_kind(fields, kind) {
        return Err(ObjectFault::WrongKind);
    }
    judge_metadata(alloc, given(fields, "metadata"))
}

fn has_version(fields: &JFields) -> bool
    ensures { result ≡ is_given_text any_text (field (codes "apiVersion") fields.now) }
{
    match fields.get("apiVersion") {
        Some(JVal::Text(_)) => true,
        _ => false,
    }
}

fn has_kind(fields: &JFields, kind: &str) -> bool
    ensures { result ≡ is_given_text (λ s. bytes_eq s kind.now) (field (codes "kind") fields.now) }
{
    match fields.get("kind") {
        Some(JVal::Text(text)) => text.as_str() == kind,
        _ => false,
    }
}

#[tactic(auto, using(crate::proofs::Lists::pairs_members))]
fn judge_metadata(alloc: Global, metadata: Option<&JVal>) -> Result<(), ObjectFault>
    ensures accepted { IfOk result (λ _. first_holding (judged_metadata (option_map (λ v. json v.now) metadata.entry)) ≡ None) }
    ensures refused { IfErr result (λ e. Tells e (first_holding (judged_metadata (option_map (λ v. json v.now) metadata.entry)))) }
{
    match metadata {
        None => judge_fields(alloc, &JFields::new(alloc)),
        Some(JVal::Obj(fields)) => judge_fields(alloc, fields),
        _ => Err(broken(alloc, "")),
    }
}

fn judge_fields(alloc: Global, metadata: &JFields) -> Result<(), ObjectFault>
    ensures accepted { IfOk result (λ _. first_holding (judged_fields metadata.now) ≡ None) }
    ensures refused { IfErr result (λ e. Tells e (first_holding (judged_fields metadata.now))) }
{
    if !annotations_ok(given(metadata, "annotations")) {
        return Err(broken(alloc, "annotations"));
    }
    if !finalizers_ok(given(metadata, "finalizers")) {
        return Err(broken(alloc, "finalizers"));
    }
    if !labels_ok(given(metadata, "labels")) {
        return Err(broken(alloc, "labels"));
    }
    if !namespace_field_ok(given(metadata, "namespace")) {
        return Err(broken(alloc, "namespace"));
    }
    if !owners_ok(given(metadata, "ownerReferences")) {
        return Err(broken(alloc, "ownerReferences"));
    }
    if !resource_version_field_ok(given(metadata, "resourceVersion")) {
        return Err(broken(alloc, "resourceVersion"));
    }
    if !name_field_ok(given(metadata, "name")) {
        return Err(ObjectFault::BadName);
    }
    Ok(())
}

/// Nothing, where the fields keep the rules of metadata whose name and namespace aren't looked at, or else the first refusal.
pub(crate) fn judge_unnamed(alloc: Global, metadata: &JFields) -> Result<(), ObjectFault>
    ensures accepted { IfOk result (λ _. first_holding (judged_unnamed metadata.now) ≡ None) }
    ensures refused { IfErr result (λ e. Tells e (first_holding (judged_unnamed metadata.now))) }
{
    if !annotations_ok(given(metadata, "annotations")) {
        return Err(broken(alloc, "annotations"));
    }
    if !finalizers_ok(given(metadata, "finalizers")) {
        return Err(broken(alloc, "finalizers"));
    }
    if !labels_ok(given(metadata, "labels")) {
        return Err(broken(alloc, "labels"));
    }
    if !owners_ok(given(metadata, "ownerReferences")) {
        return Err(broken(alloc, "ownerReferences"));
    }
    if !resource_version_field_ok(given(metadata, "resourceVersion")) {
        return Err(broken(alloc, "resourceVersion"));
    }
    Ok(())
}

// The fault of a field of the metadata.
fn broken(alloc: Global, field: &str) -> ObjectFault
    ensures { (r : Option Refusal) → r ≡ Some (bad_meta field.now) → Tells result r }
{
    match Txt::of(alloc, field) {
        Ok(field) => ObjectFault::BadMeta { field },
        Err(_) => ObjectFault::NoMemory,
    }
}
