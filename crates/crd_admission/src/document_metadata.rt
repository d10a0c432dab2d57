//! The metadata of a document, whose name and namespace aren't judged.
ghost use Rattle.std.specs.Prelude.{◌≡◌, [], None, Some, IfOk, IfErr, option_map, codes};
ghost use Rattle.kj_value.specs.Fields.{field};
ghost use Rattle.kj_value.specs.Seen.{json};
ghost use Rattle.kube_meta.specs.View.{meta_of};
ghost use Rattle.object_reading.specs.Fields.{given, object_at};
ghost use Rattle.object_reading.specs.Parts.{text_or_empty};
ghost use Rattle.object_reading.specs.Refusal.{bad_meta, first_holding, Tells};
ghost use Rattle.crd_meaning.specs.Document.{judged_fields, judged_metadata};
ghost use Rattle.crd_admission.specs.inner.Documents.{numberless_meta};

use kj_value::{JFields, JVal, NoMemory, Txt};
use kube_meta::Meta;
use object_reading::{ObjectFault, read_unnamed};
use std::alloc::Global;

/// The metadata that the value is, without the number and what a server sets; or `BadMeta` at the first of its fields that
/// breaks its rule, by name, where the value of another kind than an object is the empty field.
pub(crate) fn read_metadata(alloc: Global, metadata: JVal) -> Result<Meta, ObjectFault>
    ensures nothing { IfOk result (λ _. first_holding (judged_metadata (given (Some (json metadata)))) ≡ None) }
    ensures meta { IfOk result (λ m. meta_of m ≡ numberless_meta (object_at (Some (json metadata)))) }
    ensures refused { IfErr result (λ e. Tells e (first_holding (judged_metadata (given (Some (json metadata)))))) }
{
    match metadata {
        JVal::Obj(fields) => read_fields(alloc, fields),
        JVal::Null => read_fields(alloc, JFields::new(alloc)),
        _ => Err(no_object(alloc)),
    }
}

fn no_object(alloc: Global) -> ObjectFault
    ensures { Tells result (Some (bad_meta [])) }
{
    ObjectFault::BadMeta {
        field: empty(alloc),
    }
}

// Fields of metadata without their number.
fn read_fields(alloc: Global, fields: JFields) -> Result<Meta, ObjectFault>
    ensures nothing { IfOk result (λ _. first_holding (judged_fields fields) ≡ None) }
    ensures meta { IfOk result (λ m. meta_of m ≡ numberless_meta fields) }
    ensures refused { IfErr result (λ e. Tells e (first_holding (judged_fields fields))) }
{
    match read_unnamed(alloc, fields) {
        Ok(meta) => Ok(numberless(meta)),
        Err(fault) => Err(fault),
    }
}

fn numberless(m: Meta) -> Meta
    ensures { meta_of result ≡ record (meta_of m) { resource_version = None } }
{
    let mut rest = m;
    rest.resource_version = None;
    rest
}

/// The name that a value of `metadata` gives, or the empty text.
#[tactic(auto, using(object_reading::proofs::Lists::pairs_members))]
pub(crate) fn name_in(alloc: Global, metadata: Option<&JVal>) -> Result<Txt, NoMemory>
    ensures { IfOk result (λ t. t.bytes ≡ text_or_empty (field (codes "name") (object_at (option_map (λ v. json v.now) metadata.entry)))) }
{
    match metadata {
        Some(JVal::Obj(fields)) => copied_text(alloc, fields.get("name")),
        _ => Ok(empty(alloc)),
    }
}

fn copied_text(alloc: Global, value: Option<&JVal>) -> Result<Txt, NoMemory>
    ensures { IfOk result (λ t. t.bytes ≡ text_or_empty (option_map (λ v. json v.now) value.entry)) }
{
    match value {
        Some(JVal::Text(text)) => Txt::of(alloc, text.as_str()),
        _ => Ok(empty(alloc)),
    }
}

/// The text that the value is, moved out of it, or the empty one.
pub(crate) fn text_or_empty(alloc: Global, value: Option<JVal>) -> Txt
    ensures { result.bytes ≡ text_or_empty (option_map json value) }
{
    match value {
        Some(JVal::Text(text)) => text,
        _ => empty(alloc),
    }
}

// It takes no memory.
fn empty(alloc: Global) -> Txt
    ensures { result.bytes ≡ [] }
{
    Txt::of_string(String::new(alloc))
}
