//! The document of an object, with the metadata of another document.
ghost use Rattle.std.specs.Prelude.{◌≡◌, Some, IfOk};
ghost use Rattle.kj_value.specs.Seen.{json};
ghost use Rattle.kube_meta.specs.Document.{text_fields};
ghost use Rattle.kube_meta.specs.View.{meta_of, object_of};
ghost use Rattle.object_reading.specs.Fields.{object_at};
ghost use Rattle.crd_meaning.specs.Converted.{document_with, with_notes};

use kj_value::{JFields, JVal, NoMemory, TextField, TextMap, Txt};
use kube_meta::{Meta, Object};
use std::alloc::Global;
use std::mem;

/// The document of an object, whose value of `metadata` is the given one but for the annotations, which are the object's. All
/// parts are moved.
#[tactic(auto, unfolding(crd_meaning::specs::Converted::document_with))]
pub(crate) fn document(alloc: Global, metadata: JVal, form: Object) -> Result<JVal, NoMemory>
    ensures { IfOk result (λ k. json k ≡ document_with (object_at (Some (json metadata))) (object_of form)) }
{
    let Object {
        api_version,
        kind,
        meta,
        body,
    } = form;
    let mut fields = body;
    fields.set(Txt::of(alloc, "apiVersion")?, JVal::Text(api_version))?;
    fields.set(Txt::of(alloc, "kind")?, JVal::Text(kind))?;
    let metadata = with_notes(alloc, fields_of(alloc, metadata), notes_of(alloc, meta))?;
    fields.set(Txt::of(alloc, "metadata")?, JVal::Obj(metadata))?;
    Ok(JVal::Obj(fields))
}

#[tactic(auto, using(object_reading::proofs::Lists::pairs_members))]
fn fields_of(alloc: Global, value: JVal) -> JFields
    ensures { result ≡ object_at (Some (json value)) }
{
    match value {
        JVal::Obj(fields) => fields,
        _ => JFields::new(alloc),
    }
}

fn notes_of(alloc: Global, m: Meta) -> TextMap
    ensures { result ≡ (meta_of m).annotations }
{
    let mut meta = m;
    mem::replace(&mut meta.annotations, TextMap::new(alloc))
}

fn with_notes(alloc: Global, metadata: JFields, notes: TextMap) -> Result<JFields, NoMemory>
    ensures { IfOk result (λ ms. ms ≡ with_notes notes metadata) }
{
    let mut fields = metadata;
    if notes.len() == 0 {
        let _ = fields.remove("annotations");
        return Ok(fields);
    }
    let notes = text_fields(alloc, notes)?;
    fields.set(Txt::of(alloc, "annotations")?, JVal::Obj(notes))?;
    Ok(fields)
}

fn text_fields(alloc: Global, texts: TextMap) -> Result<JFields, NoMemory>
    ensures { IfOk result (λ ms. ms ≡ text_fields texts) }
{
    let mut fields = JFields::new(alloc);
    for text in texts.into_vec() {
        let TextField { name, value } = text;
        fields.set(name, JVal::Text(value))?;
    }
    Ok(fields)
}
