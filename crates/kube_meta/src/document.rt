//! From an object to its document.
ghost use Rattle.std.specs.Prelude.{◌≡◌, ◌≤◌, ◌++◌, [], suc, ◌+◌, max, map, option_map, IfOk, OnOk};
ghost use Rattle.kj_value.specs.Json.{depth, items_depth, members_depth, items_of, members_of, text};
ghost use Rattle.kj_value.specs.Seen.{json};
ghost use Rattle.kj_value.specs.Texts.{bytes_of};
ghost use Rattle.kube_meta.specs.View.{meta_of, object_of, stamp_bytes};
ghost use Rattle.kube_meta.specs.Document.{optional, some_text, some_texts, some_list, some_generation, text_fields, metadata, document};
ghost use Rattle.kube_meta.specs.inner.Following.{IsAfter, Follows};

use crate::object::{Meta, Object};
use kj_value::{JFields, JItems, JVal, NoMemory, Stamp, TextField, TextList, TextMap, Txt};
use std::alloc::Global;
use std::mem;

/// The names that metadata can have.
const META_NAMES: usize = 11;

/// The document of an object, whose parts are moved: only the names of its own fields take memory. Empty maps, lists, names
/// and namespaces, generation 0 and an absent stamp, number or uid aren't written. Where the body has a field `apiVersion`,
/// `kind` or `metadata`, the object's own value stands in its place.
pub fn write_object(alloc: Global, o: Object) -> Result<JVal, NoMemory>
    ensures value { IfOk result (λ v. json v ≡ document (object_of o)) }
    ensures levels { IfOk result (λ v. depth (json v)
        ≤ suc (max (members_depth (members_of o.body)) (2 + items_depth (items_of o.meta.owners)))) }
{
    let Object {
        api_version,
        kind,
        meta,
        body,
    } = o;
    let metadata = write_metadata(alloc, meta)?;
    let mut fields = body;
    fields.set(Txt::of(alloc, "apiVersion")?, JVal::Text(api_version))?;
    fields.set(Txt::of(alloc, "kind")?, JVal::Text(kind))?;
    fields.set(Txt::of(alloc, "metadata")?, JVal::Obj(metadata))?;
    Ok(JVal::Obj(fields))
}

fn write_metadata(alloc: Global, m: Meta) -> Result<JFields, NoMemory>
    ensures { IfOk result (λ ms. ms ≡ metadata (meta_of m)) }
{
    let mut rest = m;
    let mut fields = JFields::with_room(alloc, META_NAMES)?;
    put_metadata(alloc, &mut rest, &mut fields)?;
    Ok(fields)
}

// Puts the metadata, which are taken out of their places.
fn put_metadata(alloc: Global, m: &mut Meta, fields: &mut JFields) -> Result<(), NoMemory>
    requires { fields.old ≡ [] }
    ensures { OnOk result (fields.new ≡ metadata (meta_of m.old)) }
{
    let annotations = take_texts(alloc, &mut m.annotations)?;
    put(alloc, fields, "annotations", annotations)?;
    let created = some_stamp(alloc, &m.created)?;
    put(alloc, fields, "creationTimestamp", created)?;
    let deleted = some_stamp(alloc, &m.deleted)?;
    put(alloc, fields, "deletionTimestamp", deleted)?;
    let finalizers = take_text_list(alloc, &mut m.finalizers)?;
    put(alloc, fields, "finalizers", finalizers)?;
    put(alloc, fields, "generation", some_generation(m))?;
    let labels = take_texts(alloc, &mut m.labels)?;
    put(alloc, fields, "labels", labels)?;
    put(alloc, fields, "name", take_text(alloc, &mut m.name))?;
    put(
        alloc,
        fields,
        "namespace",
        take_text(alloc, &mut m.namespace),
    )?;
    put(
        alloc,
        fields,
        "ownerReferences",
        take_list(alloc, &mut m.owners),
    )?;
    put(
        alloc,
        fields,
        "resourceVersion",
        take_given(&mut m.resource_version),
    )?;
    put(alloc, fields, "uid", take_given(&mut m.uid))?;
    Ok(())
}

// It puts the value, where there is one, behind the fields.
fn put(alloc: Global, fields: &mut JFields, name: &str, value: Option<JVal>) -> Result<(), NoMemory>
    requires { Follows name.now fields.old }
    ensures fields { OnOk result (fields.new ≡ fields.old ++ optional name.now (option_map json value)) }
    ensures later { OnOk result ((k : _) → IsAfter k name.now → Follows k fields.new) }
{
    match value {
        Some(v) => {
            fields.set(Txt::of(alloc, name)?, v)?;
            Ok(())
        }
        None => Ok(()),
    }
}

fn take_texts(alloc: Global, map: &mut TextMap) -> Result<Option<JVal>, NoMemory>
    ensures { IfOk result (λ v. option_map json v ≡ some_texts map.old) }
{
    if map.len() == 0 {
        return Ok(None);
    }
    let taken = mem::replace(map, TextMap::new(alloc));
    Ok(Some(JVal::Obj(text_fields(alloc, taken)?)))
}

fn text_fields(alloc: Global, texts: TextMap) -> Result<JFields, NoMemory>
    ensures { IfOk result (λ ms. ms ≡ text_fields texts) }
{
    let mut fields = JFields::with_room(alloc, texts.len())?;
    for t in texts.into_vec() {
        let TextField { name, value } = t;
        fields.set(name, JVal::Text(value))?;
    }
    Ok(fields)
}

fn take_text_list(alloc: Global, texts: &mut TextList) -> Result<Option<JVal>, NoMemory>
    ensures { IfOk result (λ v. option_map json v ≡ some_list (map text texts.old)) }
{
    if texts.len() == 0 {
        return Ok(None);
    }
    let taken = mem::replace(texts, TextList::new(alloc));
    Ok(Some(JVal::List(text_items(alloc, taken)?)))
}

fn text_items(alloc: Global, texts: TextList) -> Result<JItems, NoMemory>
    ensures { IfOk result (λ js. js ≡ map text texts) }
{
    let mut items = JItems::with_room(alloc, texts.len())?;
    for t in texts.into_vec() {
        items.push(JVal::Text(t))?;
    }
    Ok(items)
}

fn take_list(alloc: Global, list: &mut JItems) -> Option<JVal>
    ensures { option_map json result ≡ some_list list.old }
{
    if list.len() == 0 {
        return None;
    }
    Some(JVal::List(mem::replace(list, JItems::new(alloc))))
}

fn some_stamp(alloc: Global, stamp: &Option<Stamp>) -> Result<Option<JVal>, NoMemory>
    ensures { IfOk result (λ v. option_map json v ≡ option_map text (option_map stamp_bytes stamp.now)) }
{
    match stamp {
        Some(stamp) => Ok(Some(JVal::Text(Txt::of(alloc, stamp.as_str())?))),
        None => Ok(None),
    }
}

fn take_given(given: &mut Option<Txt>) -> Option<JVal>
    ensures { option_map json result ≡ option_map text (option_map bytes_of given.old) }
{
    match mem::replace(given, None) {
        Some(given) => Some(JVal::Text(given)),
        None => None,
    }
}

fn take_text(alloc: Global, given: &mut Txt) -> Option<JVal>
    ensures { option_map json result ≡ some_text given.old.bytes }
{
    if given.as_str().is_empty() {
        return None;
    }
    let empty = Txt::of_string(String::new(alloc));
    Some(JVal::Text(mem::replace(given, empty)))
}

fn some_generation(m: &Meta) -> Option<JVal>
    ensures { option_map json result ≡ some_generation m.now.generation }
{
    let generation = m.generation;
    if generation == 0 {
        return None;
    }
    Some(JVal::Int(generation))
}
