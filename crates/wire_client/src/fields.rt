//! What stands at the names of a body, looked at.
ghost use Rattle.std.specs.Prelude.{◌≡◌, ◌&&◌, Some, true, false, option_map, option_copied, MatchOption, codes, decimal, is_some};
ghost use Rattle.kj_value.specs.Fields.{field};
ghost use Rattle.kj_value.specs.Seen.{json};
ghost use Rattle.kube_meta.specs.Names.{is_name, is_namespace};
ghost use Rattle.object_reading.specs.Fields.{given, object_at, text_at};
ghost use Rattle.object_reading.specs.Numbers.{is_number};
ghost use Rattle.object_reading.specs.Refusal.{is_given_text};
ghost use Rattle.wire_client.specs.Forms.{fields_of, meta_field, meta_text as meta_text_of, has_version as has_version_of, has_number as has_number_of, has_namespace as has_namespace_of, has_name as has_name_of, fits as fits_of, is_token, items_in as items_of_page, token_in as token_of_page, number_in as number_of_page};

use api_calls::number_of;
use kj_value::{JFields, JItems, JVal};
use kube_meta::{name_ok, namespace_ok};

// The value at a name of an object.
fn named<'a>(object: &'a JVal, name: &str) -> Option<&'a JVal>
    ensures { option_map (λ v. json v.now) result ≡ field name.now (object_at (Some (json object.entry.now))) }
{
    match object.as_object() {
        Some(fields) => fields.get(name),
        None => None,
    }
}

// The value at a name of the metadata.
fn in_metadata<'a>(fields: &'a JFields, name: &str) -> Option<&'a JVal>
    ensures { option_map (λ v. json v.now) result ≡ meta_field name.now fields.entry.now }
{
    match fields.get("metadata") {
        Some(metadata) => named(metadata, name),
        None => None,
    }
}

// The text at a name of the metadata.
fn text_in_metadata<'a>(fields: &'a JFields, name: &str) -> Option<&'a str>
    ensures { option_copied result ≡ text_at (meta_field name.now fields.entry.now) }
{
    match in_metadata(fields, name) {
        Some(value) => value.as_text(),
        None => None,
    }
}

/// Whether the version is this one.
pub(crate) fn has_version(fields: &JFields, version: &str) -> bool
    ensures { result ≡ has_version_of version.now fields.now }
{
    match fields.get("apiVersion") {
        Some(JVal::Text(text)) => text.as_str() == version,
        _ => false,
    }
}

// Whether the text is the one that is wanted.
fn fits(wanted: Option<&str>, text: &str) -> bool
    ensures { result ≡ fits_of (option_copied wanted.entry) text.now }
{
    match wanted {
        Some(wanted) => text == wanted,
        None => true,
    }
}

/// Whether there is a namespace, and it is the one that is wanted.
pub(crate) fn has_namespace(fields: &JFields, wanted: Option<&str>) -> bool
    ensures { result ≡ has_namespace_of (option_copied wanted.entry) fields.now }
{
    match in_metadata(fields, "namespace") {
        Some(JVal::Text(text)) => namespace_ok(text.as_str()) && fits(wanted, text.as_str()),
        _ => false,
    }
}

/// Whether there is a name, and it is the one that is wanted.
pub(crate) fn has_name(fields: &JFields, wanted: Option<&str>) -> bool
    ensures { result ≡ has_name_of (option_copied wanted.entry) fields.now }
{
    match in_metadata(fields, "name") {
        Some(JVal::Text(text)) => name_ok(text.as_str()) && fits(wanted, text.as_str()),
        _ => false,
    }
}

/// The number.
pub(crate) fn number_in(fields: &JFields) -> Option<u64>
    ensures { MatchOption result (has_number_of fields.now ≡ false)
        (λ n. (has_number_of fields.now ≡ true) × (decimal n ≡ number_of_page fields.now)) }
{
    match text_in_metadata(fields, "resourceVersion") {
        Some(text) => number_of(text),
        None => None,
    }
}

/// The token of the next page, which is empty where there is none.
pub(crate) fn token_in(fields: &JFields) -> Option<&str>
    ensures { MatchOption result (is_token (given (meta_field (codes "continue") fields.now)) ≡ false)
        (λ s. (is_token (given (meta_field (codes "continue") fields.now)) ≡ true) × (s.now ≡ token_of_page fields.now)) }
{
    match in_metadata(fields, "continue") {
        Some(JVal::Text(token)) => Some(token.as_str()),
        Some(JVal::Null) => Some(""),
        None => Some(""),
        Some(JVal::Bool(_)) => None,
        Some(JVal::Int(_)) => None,
        Some(JVal::List(_)) => None,
        Some(JVal::Obj(_)) => None,
    }
}

/// The items of a page.
pub(crate) fn items_in(fields: &JFields) -> Option<&JItems>
    ensures { option_map (λ items. items.now) result ≡ items_of_page fields.now }
{
    match fields.get("items") {
        Some(value) => value.as_list(),
        None => None,
    }
}

/// The items of a page, moved out.
pub(crate) fn take_items(fields: JFields) -> Option<JItems>
    ensures { result ≡ items_of_page fields }
{
    let mut rest = fields;
    match rest.remove("items") {
        Some(value) => value.into_list(),
        None => None,
    }
}

/// Whether something stands at the name.
pub(crate) fn has_field(fields: &JFields, name: &str) -> bool
    ensures { result ≡ is_some (field name.now fields.now) }
{
    match fields.get(name) {
        Some(_) => true,
        None => false,
    }
}

/// The text at a name of an object's metadata, and an empty one where there is none.
pub(crate) fn meta_text<'a>(object: &'a JVal, name: &str) -> &'a str
    ensures { result.now ≡ meta_text_of name.now (fields_of (json object.entry.now)) }
{
    match text_of_metadata(object, name) {
        Some(text) => text,
        None => "",
    }
}

fn text_of_metadata<'a>(object: &'a JVal, name: &str) -> Option<&'a str>
    ensures { option_copied result ≡ text_at (meta_field name.now (fields_of (json object.entry.now))) }
{
    match object.as_object() {
        Some(fields) => text_in_metadata(fields, name),
        None => None,
    }
}

/// The name of an object, where it tells one.
pub(crate) fn name_of(object: &JVal) -> Option<&str>
    ensures { option_copied result ≡ text_at (meta_field (codes "name") (fields_of (json object.now))) }
{
    text_of_metadata(object, "name")
}
