//! What is taken of one answer.
ghost use Rattle.std.specs.Prelude.{◌≡◌, ◌<◌, ◌↔◌, None, is_some, option_map, IsTrue, IfOk, IfSome, IfNone};
ghost use Rattle.kj_value.specs.Fields.{field};
ghost use Rattle.kj_value.specs.Seen.{json};
ghost use Rattle.kube_meta.specs.View.{meta_of, object_of};
ghost use Rattle.object_reading.specs.Fields.{text_at};
ghost use Rattle.object_reading.specs.Keeping.{KeepsRules};
ghost use Rattle.object_reading.specs.Parts.{object_in, parts_in, whole_in};
ghost use Rattle.object_reading.specs.Refusal.{refusal};
ghost use Rattle.object_reading.specs.Written.{IsWritable};
ghost use Rattle.crd_meaning.specs.Definition.{count_of};
ghost use Rattle.crd_laws.specs.Turning.{IsTakenAt};
ghost use Rattle.hook_versions.specs.inner.Steps.{IsFieldsAt, IsSent, IsTaken, HasParts, TakesParts};

use crate::bodies::fitted;
use crate::definition::HookDefinition;
use crate::names::version_text;
use crd_admission::order_of;
use kj_value::{JFields, JVal, NoMemory, TextMap, Txt};
use kube_meta::{Meta, Object, copy_meta};
use object_reading::{ObjectFault, read_object};
use std::alloc::Global;
use std::mem;

// The fields of the object at a name.
fn object_at<'a>(fields: &'a JFields, name: &str) -> Option<&'a JFields>
    ensures { IsFieldsAt fields.now name.now (option_map (λ found. found.now) result) }
{
    match fields.get(name) {
        Some(value) => value.as_object(),
        None => None,
    }
}

// Whether a text stands at a name.
fn has_text(fields: &JFields, name: &str) -> bool
    ensures { result ≡ is_some (text_at (field name.now fields.now)) }
{
    match fields.get(name) {
        Some(value) => value.as_text().is_some(),
        None => false,
    }
}

// Whether the metadata of an object's fields have a uid.
fn gives_uid(fields: &JFields) -> bool
    ensures { result ≡ is_some (parts_in fields.now).meta.uid }
{
    match object_at(fields, "metadata") {
        Some(metadata) => has_text(metadata, "uid"),
        None => false,
    }
}

// Whether a document gives a uid.
fn has_uid(answer: &JVal) -> bool
    ensures { result ≡ is_some (whole_in (json answer.now)).meta.uid }
{
    match answer.as_object() {
        Some(fields) => gives_uid(fields),
        None => false,
    }
}

// The object of an answer, where it is one of the definition's kind.
fn read(alloc: Global, kind: &str, answer: JVal) -> Result<Option<Object>, NoMemory>
    ensures read { IfOk result (λ o. IfSome o (λ x. (refusal kind.now (json answer) ≡ None) × (object_of x ≡ object_in (json answer)) × KeepsRules (meta_of x.meta) × IsWritable (object_of x))) }
    ensures unread { IfOk result (λ o. IfNone o (refusal kind.now (json answer) ≡ None → ⊥)) }
{
    match read_object(alloc, answer, kind) {
        Ok(o) => Ok(Some(o)),
        Err(ObjectFault::NoMemory) => Err(NoMemory),
        Err(ObjectFault::NotObject) => Ok(None),
        Err(ObjectFault::BadVersion) => Ok(None),
        Err(ObjectFault::WrongKind) => Ok(None),
        Err(ObjectFault::BadMeta { field: _ }) => Ok(None),
        Err(ObjectFault::BadName) => Ok(None),
    }
}

fn is_text(a: &Txt, b: &Txt) -> bool
    ensures { IsTrue result ↔ (a.now.bytes ≡ b.now.bytes) }
{
    a.as_str() == b.as_str()
}

// Whether an object has the kind and the key of another one.
fn has_key(x: &Object, y: &Object) -> bool
    ensures { IsTrue result ↔ ((y.now.kind.bytes ≡ x.now.kind.bytes) × (y.now.meta.name.bytes ≡ x.now.meta.name.bytes) × (y.now.meta.namespace.bytes ≡ x.now.meta.namespace.bytes)) }
{
    is_text(&y.kind, &x.kind)
        && is_text(&y.meta.name, &x.meta.name)
        && is_text(&y.meta.namespace, &x.meta.namespace)
}

// Metadata with the labels and annotations of others.
fn with_texts(alloc: Global, m: &Meta, of: Meta) -> Result<Meta, NoMemory>
    ensures { IfOk result (λ n. meta_of n ≡ record (meta_of m.now) { labels = (meta_of of).labels; annotations = (meta_of of).annotations }) }
{
    let mut rest = of;
    let labels = mem::replace(&mut rest.labels, TextMap::new(alloc));
    let annotations = mem::replace(&mut rest.annotations, TextMap::new(alloc));
    let mut meta = copy_meta(alloc, m, annotations)?;
    meta.labels = labels;
    Ok(meta)
}

// The object with the version, the labels, the annotations and the body of another one, where that has its key and stands at the
// version.
fn with_parts(
    alloc: Global,
    set: &HookDefinition,
    v: u8,
    x: &Object,
    o: Object,
) -> Result<Option<Object>, NoMemory>
    requires known { v < count_of set.now }
    ensures taken { IfOk result (λ r. IfSome r (λ y. TakesParts set.now v (object_of x.now) (object_of o) (object_of y))) }
    ensures untaken { IfOk result (λ r. IfNone r (HasParts set.now v (object_of x.now) (object_of o) → ⊥)) }
{
    let text = version_text(alloc, set, v)?;
    if !is_text(&o.api_version, &text) {
        return Ok(None);
    }
    if !has_key(x, &o) {
        return Ok(None);
    }
    order_of(&o);
    let Object {
        api_version,
        kind: _,
        meta,
        body,
    } = o;
    let Some(body) = fitted(alloc, &set.version(v).schema, body) else {
        return Ok(None);
    };
    let meta = with_texts(alloc, &x.meta, meta)?;
    let kind = Txt::of(alloc, x.kind.as_str())?;
    Ok(Some(Object {
        api_version,
        kind,
        meta,
        body,
    }))
}

/// The object that is taken of the answer to an object, where the answer passes each test.
pub(crate) fn taken(
    alloc: Global,
    set: &HookDefinition,
    v: u8,
    x: &Object,
    answer: JVal,
) -> Result<Option<Object>, NoMemory>
    requires known { v < count_of set.now }
    requires sent { IsSent set.now (object_of x.now) }
    ensures taken { IfOk result (λ o. IfSome o (λ y. IsTaken set.now (object_of x.now) v (json answer) (object_of y))) }
    ensures untaken { IfOk result (λ o. IfNone o (IsTakenAt set.now v (object_of x.now) (json answer) → ⊥)) }
{
    if has_uid(&answer) {
        return Ok(None);
    }
    match read(alloc, set.definition().kind().as_str(), answer)? {
        Some(o) => with_parts(alloc, set, v, x, o),
        None => Ok(None),
    }
}
