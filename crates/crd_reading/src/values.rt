//! Which values may stand at a place, by themselves.
ghost use Rattle.std.specs.Prelude.{◌≡◌, slice_get, length, nat_le};
ghost use Rattle.std.specs.Char.{is_ascii_alphanumeric};
ghost use Rattle.std.specs.List.{list_all};
ghost use Rattle.kj_value.specs.Json.{items_of};
ghost use Rattle.kj_value.specs.Seen.{json};
ghost use Rattle.schema_reading.specs.Allowed.{is_object_value, is_truth, is_text};
ghost use Rattle.crd_reading.specs.Allowed.{begins_with_letter, is_kind_name, is_text_of, any_text, is_false, are_few, is_few, is_allowed, blame};
ghost use Rattle.kube_meta.specs.Names.{is_name, is_namespace};

use crate::places::{KIND_BYTES, MAX_VERSIONS, MIN_VERSIONS, Place};
use crate::words::{api_version, document_kind, namespaced, shape_word, unknown_word};
use kj_value::JVal;
use kube_meta::{name_ok, namespace_ok};

fn begins_with_letter(text: &[u8]) -> bool
    ensures { result ≡ begins_with_letter (slice_get text.now 0) }
{
    match text.first() {
        Some(byte) => byte.is_ascii_alphabetic(),
        None => false,
    }
}

fn is_alphanumeric(byte: u8) -> bool
    ensures { result ≡ is_ascii_alphanumeric byte }
{
    byte.is_ascii_alphanumeric()
}

fn all_alphanumeric(text: &[u8]) -> bool
    ensures { result ≡ list_all is_ascii_alphanumeric text.now }
{
    text.iter().all(|b| is_alphanumeric(*b))
}

#[tactic(auto, unfolding(crate::specs::Allowed::is_kind_name))]
fn is_kind_name(text: &str) -> bool
    ensures { result ≡ is_kind_name text.now }
{
    text.len() <= KIND_BYTES
        && begins_with_letter(text.as_bytes())
        && all_alphanumeric(text.as_bytes())
}

fn is_object(v: &JVal) -> bool
    ensures { result ≡ is_object_value (json v.now) }
{
    matches!(v, JVal::Obj(_))
}

fn is_truth(v: &JVal) -> bool
    ensures { result ≡ is_truth (json v.now) }
{
    matches!(v, JVal::Bool(_))
}

/// Whether the value is this text.
pub fn is_text(v: &JVal, text: &str) -> bool
    ensures { result ≡ is_text text.now (json v.now) }
{
    match v {
        JVal::Text(t) => t.as_str() == text,
        _ => false,
    }
}

fn is_any_text(v: &JVal) -> bool
    ensures { result ≡ is_text_of any_text (json v.now) }
{
    matches!(v, JVal::Text(_))
}

fn is_name(v: &JVal) -> bool
    ensures { result ≡ is_text_of is_name (json v.now) }
{
    match v {
        JVal::Text(t) => name_ok(t.as_str()),
        _ => false,
    }
}

fn is_label(v: &JVal) -> bool
    ensures { result ≡ is_text_of is_namespace (json v.now) }
{
    match v {
        JVal::Text(t) => namespace_ok(t.as_str()),
        _ => false,
    }
}

fn is_kind(v: &JVal) -> bool
    ensures { result ≡ is_text_of is_kind_name (json v.now) }
{
    match v {
        JVal::Text(t) => is_kind_name(t.as_str()),
        _ => false,
    }
}

fn is_false(v: &JVal) -> bool
    ensures { result ≡ is_false (json v.now) }
{
    match v {
        JVal::Bool(b) => !*b,
        _ => false,
    }
}

// As many as a definition may have versions.
fn are_few(count: usize) -> bool
    ensures { result ≡ are_few count }
{
    count >= MIN_VERSIONS && count <= MAX_VERSIONS
}

// A list of so many items.
fn is_few(v: &JVal) -> bool
    ensures { result ≡ is_few (json v.now) }
{
    match v {
        JVal::List(items) => are_few(items.len()),
        _ => false,
    }
}

// Whether the value may stand at the place, whatever stands inside it.
pub(crate) fn is_allowed(place: Place, v: &JVal) -> bool
    ensures { result ≡ is_allowed place (json v.now) }
{
    match place {
        Place::Document => is_object(v),
        Place::MetadataObject => is_object(v),
        Place::SpecObject => is_object(v),
        Place::NamesObject => is_object(v),
        Place::VersionList => is_few(v),
        Place::VersionObject => is_object(v),
        Place::SchemaObject => is_object(v),
        Place::ApiVersionText => is_text(v, api_version()),
        Place::KindText => is_text(v, document_kind()),
        Place::ScopeText => is_text(v, namespaced()),
        Place::AnyText => is_any_text(v),
        Place::NameText => is_name(v),
        Place::LabelText => is_label(v),
        Place::KindName => is_kind(v),
        Place::Truth => is_truth(v),
        Place::Never => is_false(v),
        Place::AnyObject => is_object(v),
        Place::Any => true,
        Place::Nowhere => false,
    }
}

// The word of a value that may not stand at the place.
pub(crate) fn blame(place: Place) -> &'static str
    ensures { result.now ≡ blame place }
{
    match place {
        Place::Document => shape_word(),
        Place::MetadataObject => shape_word(),
        Place::SpecObject => shape_word(),
        Place::NamesObject => shape_word(),
        Place::VersionList => shape_word(),
        Place::VersionObject => shape_word(),
        Place::SchemaObject => shape_word(),
        Place::ApiVersionText => shape_word(),
        Place::KindText => shape_word(),
        Place::ScopeText => shape_word(),
        Place::AnyText => shape_word(),
        Place::NameText => shape_word(),
        Place::LabelText => shape_word(),
        Place::KindName => shape_word(),
        Place::Truth => shape_word(),
        Place::Never => shape_word(),
        Place::AnyObject => shape_word(),
        Place::Any => shape_word(),
        Place::Nowhere => unknown_word(),
    }
}
