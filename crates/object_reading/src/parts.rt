//! The parts of an object, moved out of its document.
ghost use Rattle.std.specs.Prelude.{◌≡◌, ◌++◌, ◌∷◌, [], ℕ, List, Some, None, option_map, IfOk, IfSome, OnOk};
ghost use Rattle.kj_value.specs.Seen.{json};
ghost use Rattle.kj_value.specs.Fields.{field, without_field};
ghost use Rattle.kj_value.specs.Texts.{bytes_of};
ghost use Rattle.kube_meta.specs.View.{meta_of, object_of, stamp_bytes};
ghost use Rattle.object_reading.specs.Fields.{object_at, list_at, text_at};
ghost use Rattle.object_reading.specs.Parts.{text_or_empty, number_at, texts_in, text_item, text_items, meta_in, parts_in, submitted_meta, submitted, not_empty, added};
ghost use Rattle.object_reading.specs.Written.{IsMoment, IsBody};

use kj_value::{Field, JFields, JItems, JVal, NoMemory, Stamp, TextList, TextMap, Txt};
use kube_meta::{Meta, Object};
use std::alloc::Global;
use std::mem;

/// The object of these fields, stamps, generation and uid included.
pub(crate) fn object_of(alloc: Global, mut fields: JFields) -> Result<Object, NoMemory>
    ensures submitted { IfOk result (λ o. submitted (object_of o) ≡ submitted (parts_in fields)) }
    ensures whole { IfSome (parts_in fields).meta.created IsMoment → IfSome (parts_in fields).meta.deleted IsMoment
        → IfOk result (λ o. object_of o ≡ parts_in fields) }
    ensures body { IfOk result (λ o. IsBody o.body) }
{
    let metadata = fields_of(alloc, take(&mut fields, "metadata"));
    let kind = text_or_empty(alloc, take(&mut fields, "kind"));
    let api_version = text_or_empty(alloc, take(&mut fields, "apiVersion"));
    let meta = meta_of(alloc, metadata)?;
    Ok(Object {
        api_version,
        kind,
        meta,
        body: fields,
    })
}

// Takes a field out.
fn take(fields: &mut JFields, name: &str) -> Option<JVal>
    ensures value { option_map json result ≡ field name.now fields.old }
    ensures rest { fields.new ≡ without_field name.now fields.old }
    ensures gone { field name.now fields.new ≡ None }
{
    // Asked for what its clause says: the names rise, so that the name stands nowhere else.
    let _ = fields.len();
    fields.remove(name)
}

/// The object without what a server sets: its stamps, generation and uid. An empty number is none.
pub(crate) fn submitted(o: Object) -> Object
    ensures { object_of result ≡ submitted (object_of o) }
{
    let Object {
        api_version,
        kind,
        meta,
        body,
    } = o;
    Object {
        api_version,
        kind,
        meta: submitted_meta(meta),
        body,
    }
}

pub(crate) fn submitted_meta(m: Meta) -> Meta
    ensures { meta_of result ≡ submitted_meta (meta_of m) }
{
    let mut meta = m;
    meta.created = None;
    meta.deleted = None;
    meta.generation = 0;
    meta.resource_version = not_empty(mem::replace(&mut meta.resource_version, None));
    meta.uid = None;
    meta
}

fn not_empty(text: Option<Txt>) -> Option<Txt>
    ensures { option_map bytes_of result ≡ not_empty (option_map bytes_of text) }
{
    match text {
        Some(text) => {
            if text.len() == 0 {
                return None;
            }
            Some(text)
        }
        None => None,
    }
}

pub(crate) fn meta_of(alloc: Global, mut fields: JFields) -> Result<Meta, NoMemory>
    ensures submitted { IfOk result (λ m. submitted_meta (meta_of m) ≡ submitted_meta (meta_in fields)) }
    ensures whole { IfSome (meta_in fields).created IsMoment → IfSome (meta_in fields).deleted IsMoment
        → IfOk result (λ m. meta_of m ≡ meta_in fields) }
{
    // From the last name on, so that nothing which stays stands behind what is taken out.
    let uid = text_of(fields.remove("uid"));
    let resource_version = text_of(fields.remove("resourceVersion"));
    let owners = items_of(alloc, fields.remove("ownerReferences"));
    let namespace = text_or_empty(alloc, fields.remove("namespace"));
    let name = text_or_empty(alloc, fields.remove("name"));
    let labels = texts_of(alloc, fields.remove("labels"))?;
    let generation = number_of(fields.remove("generation"));
    let finalizers = text_items_of(alloc, fields.remove("finalizers"))?;
    let deleted = stamp_of(fields.remove("deletionTimestamp"));
    let created = stamp_of(fields.remove("creationTimestamp"));
    let annotations = texts_of(alloc, fields.remove("annotations"))?;
    Ok(Meta {
        name,
        namespace,
        labels,
        annotations,
        finalizers,
        owners,
        created,
        deleted,
        generation,
        resource_version,
        uid,
    })
}

fn text_of(value: Option<JVal>) -> Option<Txt>
    ensures { option_map bytes_of result ≡ text_at (option_map json value) }
{
    value?.into_text()
}

fn text_or_empty(alloc: Global, value: Option<JVal>) -> Txt
    ensures { result.bytes ≡ text_or_empty (option_map json value) }
{
    match text_of(value) {
        Some(text) => text,
        None => Txt::of_string(String::new(alloc)),
    }
}

fn number_of(value: Option<JVal>) -> i64
    ensures { result ≡ number_at (option_map json value) }
{
    match value {
        Some(JVal::Int(n)) => n,
        _ => 0,
    }
}

// The moment that stands there.
fn stamp_of(value: Option<JVal>) -> Option<Stamp>
    ensures { IfSome (text_at (option_map json value)) IsMoment
        → option_map stamp_bytes result ≡ text_at (option_map json value) }
{
    match text_of(value) {
        Some(text) => moment(text.as_str()),
        None => None,
    }
}

fn moment(text: &str) -> Option<Stamp>
    ensures { IsMoment text.now → option_map stamp_bytes result ≡ Some text.now }
{
    let bytes = text.as_bytes();
    if bytes.len() != 20 {
        return None;
    }
    if !bytes.is_ascii() {
        return None;
    }
    let mut text = [0; 20];
    text.copy_from_slice(bytes);
    Some(Stamp { text })
}

fn fields_of(alloc: Global, value: Option<JVal>) -> JFields
    ensures { result ≡ object_at (option_map json value) }
{
    let Some(value) = value else {
        return JFields::new(alloc);
    };
    match value.into_object() {
        Some(fields) => fields,
        None => JFields::new(alloc),
    }
}

fn items_of(alloc: Global, value: Option<JVal>) -> JItems
    ensures { result ≡ list_at (option_map json value) }
{
    let Some(value) = value else {
        return JItems::new(alloc);
    };
    match value.into_list() {
        Some(items) => items,
        None => JItems::new(alloc),
    }
}

fn texts_of(alloc: Global, value: Option<JVal>) -> Result<TextMap, NoMemory>
    ensures { IfOk result (λ ts. ts ≡ texts_in (object_at (option_map json value))) }
{
    texts_in(alloc, fields_of(alloc, value))
}

fn texts_in(alloc: Global, fields: JFields) -> Result<TextMap, NoMemory>
    ensures { IfOk result (λ ts. ts ≡ texts_in fields) }
{
    let mut texts = TextMap::with_room(alloc, fields.len())?;
    for field in fields.into_vec() {
        add(&mut texts, field)?;
    }
    Ok(texts)
}

fn add(texts: &mut TextMap, field: Field) -> Result<(), NoMemory>
    ensures { OnOk result (texts.new ≡ added texts.old field.name.bytes (json field.value)) }
{
    let Field { name, value } = field;
    match value {
        JVal::Text(text) => texts.set(name, text),
        _ => Ok(()),
    }
}

fn text_items_of(alloc: Global, value: Option<JVal>) -> Result<TextList, NoMemory>
    ensures { IfOk result (λ ts. ts ≡ text_items (list_at (option_map json value))) }
{
    text_items(alloc, items_of(alloc, value))
}

fn text_items(alloc: Global, items: JItems) -> Result<TextList, NoMemory>
    ensures { IfOk result (λ ts. ts ≡ text_items items) }
{
    let mut texts = TextList::with_room(alloc, items.len())?;
    for item in items.into_vec() {
        add_item(&mut texts, item)?;
    }
    Ok(texts)
}

fn add_item(texts: &mut TextList, item: JVal) -> Result<(), NoMemory>
    ensures { OnOk result (texts.new ≡ texts.old ++ text_item (json item)) }
{
    match item {
        JVal::Text(text) => texts.push(text),
        _ => Ok(()),
    }
}
