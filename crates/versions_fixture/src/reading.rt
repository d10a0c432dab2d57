//! The parts of an object that is read.
ghost use Rattle.std.specs.Prelude.{◌≡◌, Option, Some, None, IsSomeAnd, IfSome, option_map, option_and_then, codes, List, ℕ};
ghost use Rattle.kj_value.specs.Json.{members_of, object};
ghost use Rattle.kj_value.specs.Seen.{json};
ghost use Rattle.kj_value.specs.Fields.{field};
ghost use Rattle.kube_meta.specs.Document.{document, metadata, some_text};
ghost use Rattle.kube_meta.specs.View.{object_of, stamp_bytes};
ghost use Rattle.api_calls.specs.Versions.{AreStamps, IsStamp};
ghost use Rattle.versions_fixture.specs.Parts.{PartsView, meta_at, number_in, object_at, parts_of, text_in};
ghost use Rattle.versions_fixture.specs.declared.parts.Version.TheVariants.{V1};

use crate::parts::{Parts, Version};
use kj_value::{JFields, JVal, Stamp};
use kube_meta::Object;

// The text in a field.
fn text_at<'a>(fields: &'a JFields, name: &str) -> Option<&'a str>
    ensures { option_map (λ s. s.now) result ≡ option_and_then text_in (field name.now fields.entry.now) }
{
    match fields.get(name) {
        Some(JVal::Text(text)) => Some(text.as_str()),
        _ => None,
    }
}

// The number in the field `generation`, or 0.
fn generation_in(fields: &JFields) -> i64
    ensures { result ≡ number_in (field (codes "generation") fields.now) }
{
    match fields.get("generation") {
        Some(JVal::Int(n)) => *n,
        _ => 0,
    }
}

// The moment that a text spells.
fn stamp_of(text: &str) -> Option<Stamp>
    ensures { IsStamp text.now → option_map stamp_bytes result ≡ Some text.now }
{
    let bytes = text.as_bytes();
    if bytes.len() != 20 {
        return None;
    }
    if !bytes.is_ascii() {
        return None;
    }
    let mut text = [0; 20];
    text.copy_from_slice(bytes);
    Some(Stamp { text })
}

fn stamp_at(fields: &JFields, name: &str) -> Option<Stamp>
    ensures { (s : Option (List ℕ)) → IfSome s IsStamp → option_and_then text_in (field name.now fields.now) ≡ s
        → option_map stamp_bytes result ≡ s }
{
    match text_at(fields, name) {
        Some(text) => stamp_of(text),
        None => None,
    }
}

// The parts of an object with these metadata and this value.
fn metadata_parts<'a>(fields: &'a JFields, value: Option<&'a str>) -> Parts<'a>
    ensures { (p : PartsView) → AreStamps p.created p.deleted p.generation → fields.entry.now ≡ metadata (meta_at p)
        → option_map (λ s. s.now) value.entry ≡ p.value → parts_of result ≡ p }
{
    Parts {
        name: text_or_empty(fields, "name"),
        namespace: text_or_empty(fields, "namespace"),
        created: stamp_at(fields, "creationTimestamp"),
        deleted: stamp_at(fields, "deletionTimestamp"),
        generation: generation_in(fields),
        value,
    }
}

// The text in a field, or the empty text.
fn text_or_empty<'a>(fields: &'a JFields, name: &str) -> &'a str
    ensures { (s : List ℕ) → field name.now fields.entry.now ≡ some_text s → result.now ≡ s }
{
    match text_at(fields, name) {
        Some(text) => text,
        None => "",
    }
}

fn fields_parts<'a>(version: Version, fields: &'a JFields) -> Option<Parts<'a>>
    ensures { (p : PartsView) → AreStamps p.created p.deleted p.generation
        → object (members_of fields.entry.now) ≡ document (object_at version p) → IsSomeAnd result (λ q. parts_of q ≡ p) }
{
    let value = text_at(fields, version.field());
    match fields.get("metadata") {
        Some(JVal::Obj(metadata)) => Some(metadata_parts(metadata, value)),
        Some(JVal::Null) => None,
        Some(JVal::Bool(_)) => None,
        Some(JVal::Int(_)) => None,
        Some(JVal::Text(_)) => None,
        Some(JVal::List(_)) => None,
        None => None,
    }
}

/// The parts of an object whose document the value is.
pub fn parts_in<'a>(version: Version, v: &'a JVal) -> Option<Parts<'a>>
    ensures { (p : PartsView) → AreStamps p.created p.deleted p.generation
        → json v.entry.now ≡ document (object_at version p) → IsSomeAnd result (λ q. parts_of q ≡ p) }
{
    match v {
        JVal::Obj(fields) => fields_parts(version, fields),
        JVal::Null => None,
        JVal::Bool(_) => None,
        JVal::Int(_) => None,
        JVal::Text(_) => None,
        JVal::List(_) => None,
    }
}

/// The parts of a hub value.
pub fn hub_parts<'a>(hub: &'a Object) -> Parts<'a>
    ensures { (p : PartsView) → object_of hub.entry.now ≡ object_at V1 p → parts_of result ≡ p }
{
    Parts {
        name: hub.meta.name.as_str(),
        namespace: hub.meta.namespace.as_str(),
        created: hub.meta.created,
        deleted: hub.meta.deleted,
        generation: hub.meta.generation,
        value: text_at(&hub.body, Version::V1.field()),
    }
}
