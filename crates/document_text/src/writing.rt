//! From an object to the compact text of its document, with no value made of it.
ghost use Rattle.std.specs.Prelude.{◌≡◌, ℕ, List, Option, [], ◌∷◌, codes, map, option_map, FitsSigned, IfOk, OnOk};
ghost use Rattle.std.specs.Int.{w64};
ghost use Rattle.serde.specs.Event.{map_ends};
ghost use Rattle.kj_value.specs.Json.{text, list, object, items_of, members_of};
ghost use Rattle.kj_value.specs.Sound.{IsSoundJson};
ghost use Rattle.kj_value.specs.Pair.{pair_of};
ghost use Rattle.kj_value.specs.Data.{to_data};
ghost use Rattle.kj_value.specs.Text.{text_of};
ghost use Rattle.kube_meta.specs.View.{meta_of, object_of, stamp_bytes};
ghost use Rattle.kube_meta.specs.Document.{optional, some_text, some_texts, some_list, some_generation, text_fields, metadata, document};
ghost use Rattle.document_text.specs.FieldLaws.{before, after, others};
ghost use Rattle.document_text.specs.Shown.{with_given};
ghost use Rattle.document_text.specs.Sent.{Grows, events_of, fields_events, object_events, document_events, shown_by};

use kj_value::{Field, JItems, NoMemory, Stamp, TextList, TextMap, Txt};
use kube_meta::{Meta, Object};
use serde::{Described, Serialize, Serializer};
use serde_json::{Number, to_string};
use std::alloc::Global;
use std::cmp::Ordering;

// An object, with the number and the uid that its document shows.
#[derive(Drop)]
pub(crate) struct Document<'a> {
    pub(crate) object: &'a Object,
    pub(crate) number: Option<&'a str>,
    pub(crate) uid: Option<&'a str>,
}

impl Described for Document<'_> {
    ghost use Rattle.document_text.specs.Sent.{Grows, document_events, shown_by};

    ghost writes = { λ d. Grows (document_events (shown_by d)) };
}

impl Serialize for Document<'_> {
    fn serialize<S: Serializer>(&self, out: &mut S) -> Result<(), S::Error> {
        send_document(self, out)
    }
}

// The generation is known to be a number of 64 bits, once it is looked at.
fn fits(m: &Meta)
    ensures { FitsSigned w64 m.now.generation }
{
    let _n = m.generation;
}

// What is inside of an object is known to be in order, once it is looked at.
fn in_order(object: &Object)
    ensures { (number uid : Option (List ℕ)) → IsSoundJson (document (with_given number uid (object_of object.now))) }
{
    let _ = object.body.len();
    let _ = object.meta.owners.len();
    let _ = object.meta.labels.len();
    let _ = object.meta.annotations.len();
    fits(&object.meta);
}

/// The compact text of an object's document, with this resource version and this uid in place of its own, or with none.
pub fn write_document(
    alloc: Global,
    object: &Object,
    number: Option<&str>,
    uid: Option<&str>,
) -> Result<Txt, NoMemory>
    ensures text { IfOk result (λ t. t.bytes ≡ text_of (document (with_given (option_map (λ s. s.now) number.entry) (option_map (λ s. s.now) uid.entry) (object_of object.now)))) }
    ensures sound { IsSoundJson (document (with_given (option_map (λ s. s.now) number.entry) (option_map (λ s. s.now) uid.entry) (object_of object.now))) }
{
    in_order(object);
    let shown = Document {
        object,
        number,
        uid,
    };
    match to_string(alloc, &shown) {
        Ok(text) => Ok(Txt::of_string(text)),
        Err(_) => Err(NoMemory),
    }
}

// The fields that stand before a name, and those that stand behind it.
fn parted<'a>(fields: &'a [Field], name: &str) -> (&'a [Field], &'a [Field])
    ensures before { map pair_of result.0.now ≡ before name.entry.now (map pair_of fields.entry.now) }
    ensures after { map pair_of result.1.now ≡ after name.entry.now (map pair_of fields.entry.now) }
{
    let mut i = 0;
    while i < fields.len() {
        match name.cmp(fields[i].name.as_str()) {
            Ordering::Less => return (&fields[..i], &fields[i..]),
            Ordering::Equal => return (&fields[..i], &fields[i + 1..]),
            Ordering::Greater => i += 1,
        }
    }
    (fields, &[])
}

fn send_document<S: Serializer>(d: &Document<'_>, out: &mut S) -> Result<(), S::Error>
    ensures { OnOk result (Grows (document_events (shown_by d.now)) (S.written out.old) (S.written out.new)) }
{
    let object = d.object;
    let (first, behind) = parted(object.body.as_slice(), "apiVersion");
    let (second, behind) = parted(behind, "kind");
    let (third, last) = parted(behind, "metadata");
    out.begin_map(None)?;
    send_fields(first, out)?;
    send_text("apiVersion", object.api_version.as_str(), out)?;
    send_fields(second, out)?;
    send_text("kind", object.kind.as_str(), out)?;
    send_fields(third, out)?;
    out.key("metadata")?;
    send_metadata(d, out)?;
    send_fields(last, out)?;
    out.end_map()
}

fn send_metadata<S: Serializer>(d: &Document<'_>, out: &mut S) -> Result<(), S::Error>
    ensures { OnOk result (Grows (object_events (metadata (shown_by d.now).meta)) (S.written out.old) (S.written out.new)) }
{
    out.begin_map(None)?;
    send_others(&d.object.meta, out)?;
    send_given("resourceVersion", d.number, out)?;
    send_given("uid", d.uid, out)?;
    out.end_map()
}

// The metadata but for the number and the uid.
fn send_others<S: Serializer>(m: &Meta, out: &mut S) -> Result<(), S::Error>
    ensures { OnOk result (Grows (fields_events (others (meta_of m.now))) (S.written out.old) (S.written out.new)) }
{
    send_texts("annotations", &m.annotations, out)?;
    send_stamp("creationTimestamp", &m.created, out)?;
    send_stamp("deletionTimestamp", &m.deleted, out)?;
    send_list("finalizers", &m.finalizers, out)?;
    send_generation(m, out)?;
    send_texts("labels", &m.labels, out)?;
    send_some("name", m.name.as_str(), out)?;
    send_some("namespace", m.namespace.as_str(), out)?;
    send_items("ownerReferences", &m.owners, out)
}

fn send_fields<S: Serializer>(fields: &[Field], out: &mut S) -> Result<(), S::Error>
    ensures { OnOk result (Grows (fields_events (map pair_of fields.now)) (S.written out.old) (S.written out.new)) }
{
    for f in fields {
        out.key(f.name.as_str())?;
        f.value.serialize(out)?;
    }
    Ok(())
}

fn send_text<S: Serializer>(name: &str, value: &str, out: &mut S) -> Result<(), S::Error>
    ensures { OnOk result (Grows (fields_events ((name.now, text value.now) ∷ [])) (S.written out.old) (S.written out.new)) }
{
    out.key(name)?;
    out.str(value)
}

// The text, where there is one.
fn send_given<S: Serializer>(name: &str, value: Option<&str>, out: &mut S) -> Result<(), S::Error>
    ensures { OnOk result (Grows (fields_events (optional name.now (option_map text (option_map (λ s. s.now) value.entry)))) (S.written out.old) (S.written out.new)) }
{
    match value {
        Some(value) => send_text(name, value, out),
        None => Ok(()),
    }
}

// The text, where it isn't empty.
fn send_some<S: Serializer>(name: &str, value: &str, out: &mut S) -> Result<(), S::Error>
    ensures { OnOk result (Grows (fields_events (optional name.now (some_text value.now))) (S.written out.old) (S.written out.new)) }
{
    if value.is_empty() {
        return Ok(());
    }
    send_text(name, value, out)
}

fn send_stamp<S: Serializer>(name: &str, stamp: &Option<Stamp>, out: &mut S) -> Result<(), S::Error>
    ensures { OnOk result (Grows (fields_events (optional name.now (option_map text (option_map stamp_bytes stamp.now)))) (S.written out.old) (S.written out.new)) }
{
    match stamp {
        Some(stamp) => send_text(name, stamp.as_str(), out),
        None => Ok(()),
    }
}

fn send_generation<S: Serializer>(m: &Meta, out: &mut S) -> Result<(), S::Error>
    ensures { OnOk result (Grows (fields_events (optional (codes "generation") (some_generation m.now.generation))) (S.written out.old) (S.written out.new)) }
{
    let generation = m.generation;
    if generation == 0 {
        return Ok(());
    }
    out.key("generation")?;
    Number::from(generation).serialize(out)
}

// The texts by name, where there are some.
fn send_texts<S: Serializer>(name: &str, texts: &TextMap, out: &mut S) -> Result<(), S::Error>
    ensures { OnOk result (Grows (fields_events (optional name.now (some_texts texts.now))) (S.written out.old) (S.written out.new)) }
{
    if texts.len() == 0 {
        return Ok(());
    }
    out.key(name)?;
    send_map(texts, out)
}

fn send_map<S: Serializer>(texts: &TextMap, out: &mut S) -> Result<(), S::Error>
    ensures { OnOk result (Grows (events_of (to_data (object (members_of (text_fields texts.now))))) (S.written out.old) (S.written out.new)) }
{
    out.begin_map(Some(texts.len()))?;
    for t in texts.as_slice() {
        send_text(t.name.as_str(), t.value.as_str(), out)?;
    }
    out.end_map()
}

// The texts, where there are some.
fn send_list<S: Serializer>(name: &str, texts: &TextList, out: &mut S) -> Result<(), S::Error>
    ensures { OnOk result (Grows (fields_events (optional name.now (some_list (map text texts.now)))) (S.written out.old) (S.written out.new)) }
{
    if texts.len() == 0 {
        return Ok(());
    }
    out.key(name)?;
    send_each(texts, out)
}

fn send_each<S: Serializer>(texts: &TextList, out: &mut S) -> Result<(), S::Error>
    ensures { OnOk result (Grows (events_of (to_data (list (items_of (map text texts.now))))) (S.written out.old) (S.written out.new)) }
{
    out.begin_seq(Some(texts.len()))?;
    for t in texts.as_slice() {
        out.str(t.as_str())?;
    }
    out.end_seq()
}

// The list, where it has items.
fn send_items<S: Serializer>(name: &str, items: &JItems, out: &mut S) -> Result<(), S::Error>
    ensures { OnOk result (Grows (fields_events (optional name.now (some_list items.now))) (S.written out.old) (S.written out.new)) }
{
    if items.len() == 0 {
        return Ok(());
    }
    out.key(name)?;
    send_values(items, out)
}

fn send_values<S: Serializer>(items: &JItems, out: &mut S) -> Result<(), S::Error>
    ensures { OnOk result (Grows (events_of (to_data (list (items_of items.now)))) (S.written out.old) (S.written out.new)) }
{
    out.begin_seq(Some(items.len()))?;
    for x in items.as_slice() {
        x.serialize(out)?;
    }
    out.end_seq()
}
