//! Whether a keyword has a value that it may have.
ghost use Rattle.std.specs.Prelude.{◌≡◌, [], map, option_map, codes, Some, IfOk};
ghost use Rattle.kj_value.specs.Json.{items_of, members_of};
ghost use Rattle.kj_value.specs.Seen.{json};
ghost use Rattle.schema_reading.specs.Allowed.{is_array_kind, is_text_kind, is_whole_kind, is_mixed_kind, is_open_kind, is_truth, is_number, is_object_value, is_filled_list, format_named, format_of, are_new, are_names, is_text, asks_type, is_either, is_note, fits, fits_meta, fits_scope, known_fits, is_allowed, items_allowed, additional_allowed};

use crate::kinds::{is_object_kind, is_yes, value_at};
use crate::words::{Keyword, Scope, keyword_named};
use kj_value::{JFields, JVal, NoMemory};
use std::alloc::Global;
use std::collections::BTreeMap;
use struct_schema::{IntFormat, NodeKind};

fn is_array_kind(kind: Option<NodeKind>) -> bool
    ensures { result ≡ is_array_kind kind }
{
    matches!(kind, Some(NodeKind::Array))
}

fn is_text_kind(kind: Option<NodeKind>) -> bool
    ensures { result ≡ is_text_kind kind }
{
    matches!(kind, Some(NodeKind::Text))
}

fn is_whole_kind(kind: Option<NodeKind>) -> bool
    ensures { result ≡ is_whole_kind kind }
{
    matches!(kind, Some(NodeKind::Whole))
}

fn is_mixed_kind(kind: Option<NodeKind>) -> bool
    ensures { result ≡ is_mixed_kind kind }
{
    matches!(kind, Some(NodeKind::IntOrText))
}

fn is_open_kind(kind: Option<NodeKind>) -> bool
    ensures { result ≡ is_open_kind kind }
{
    matches!(
        kind,
        Some(NodeKind::Object) | Some(NodeKind::IntOrText) | Some(NodeKind::Any)
    )
}

fn is_truth(v: &JVal) -> bool
    ensures { result ≡ is_truth (json v.now) }
{
    matches!(v, JVal::Bool(_))
}

fn is_number(v: &JVal) -> bool
    ensures { result ≡ is_number (json v.now) }
{
    matches!(v, JVal::Int(_))
}

fn is_object_value(v: &JVal) -> bool
    ensures { result ≡ is_object_value (json v.now) }
{
    matches!(v, JVal::Obj(_))
}

fn is_filled_list(v: &JVal) -> bool
    ensures { result ≡ is_filled_list (json v.now) }
{
    match v {
        JVal::List(items) => items.len() > 0,
        _ => false,
    }
}

#[tactic(auto, unfolding(crate::specs::Allowed::format_named))]
fn format_named(text: &str) -> Option<IntFormat>
    ensures { result ≡ format_named text.now }
{
    if text == "int32" {
        return Some(IntFormat::Int32);
    }
    if text == "int64" {
        return Some(IntFormat::Int64);
    }
    None
}

pub(crate) fn format_of(v: &JVal) -> Option<IntFormat>
    ensures { result ≡ format_of (json v.now) }
{
    match v {
        JVal::Text(t) => format_named(t.as_str()),
        _ => None,
    }
}

// Whether each item is a text, unlike those before it.
fn are_new(alloc: Global, items: &[JVal]) -> Result<bool, NoMemory>
    ensures { IfOk result (λ b. b ≡ are_new [] (items_of (map json items.now))) }
{
    let mut seen: BTreeMap<&str, ()> = BTreeMap::new(alloc);
    for v in items {
        match v {
            JVal::Text(t) => {
                if seen.contains_key(t.as_str()) {
                    return Ok(false);
                }
                seen.insert(t.as_str(), ())?;
            }
            _ => return Ok(false),
        }
    }
    Ok(true)
}

// Whether the value is a list of texts of which none stands twice.
fn are_names(alloc: Global, v: &JVal) -> Result<bool, NoMemory>
    ensures { IfOk result (λ b. b ≡ are_names (json v.now)) }
{
    match v {
        JVal::List(items) => are_new(alloc, items.as_slice()),
        _ => Ok(false),
    }
}

fn is_text(v: &JVal, text: &str) -> bool
    ensures { result ≡ is_text text.now (json v.now) }
{
    match v {
        JVal::Text(t) => t.as_str() == text,
        _ => false,
    }
}

// Whether the value is an object whose one name is `type`, with this text.
fn asks_type(v: &JVal, text: &str) -> bool
    ensures { result ≡ asks_type text.now (json v.now) }
{
    match v {
        JVal::Obj(fields) => match fields.as_slice() {
            [field] => field.name.as_str() == Keyword::Kind.word() && is_text(&field.value, text),
            _ => false,
        },
        _ => false,
    }
}

// Whether the value is the one list that `anyOf` may be.
fn is_either(v: &JVal) -> bool
    ensures { result ≡ is_either (json v.now) }
{
    match v {
        JVal::List(items) => match items.as_slice() {
            [first, second] => asks_type(first, "integer") && asks_type(second, "string"),
            _ => false,
        },
        _ => false,
    }
}

fn is_note(keyword: Keyword) -> bool
    ensures { result ≡ is_note keyword }
{
    matches!(
        keyword,
        Keyword::Description | Keyword::Title | Keyword::Example | Keyword::ExternalDocs
    )
}

// Whether the keyword may have the value at a node of the kind.
fn fits(alloc: Global, kind: Option<NodeKind>, keyword: Keyword, v: &JVal) -> Result<bool, NoMemory>
    ensures { IfOk result (λ b. b ≡ fits kind keyword (json v.now)) }
{
    match keyword {
        Keyword::IntOrString => Ok(is_mixed_kind(kind) && is_yes(Some(v))),
        Keyword::Preserve => Ok(is_open_kind(kind) && is_yes(Some(v))),
        Keyword::Nullable => Ok(is_truth(v)),
        Keyword::Enum => Ok(is_filled_list(v)),
        Keyword::Minimum => Ok(is_whole_kind(kind) && is_number(v)),
        Keyword::Maximum => Ok(is_whole_kind(kind) && is_number(v)),
        Keyword::Format => Ok(is_whole_kind(kind) && format_of(v).is_some()),
        Keyword::MinLength => Ok(is_text_kind(kind) && is_number(v)),
        Keyword::MaxLength => Ok(is_text_kind(kind) && is_number(v)),
        Keyword::MinItems => Ok(is_array_kind(kind) && is_number(v)),
        Keyword::MaxItems => Ok(is_array_kind(kind) && is_number(v)),
        Keyword::Required => Ok(is_object_kind(kind) && are_names(alloc, v)?),
        Keyword::Properties => Ok(is_object_kind(kind) && is_object_value(v)),
        Keyword::AnyOf => Ok(is_mixed_kind(kind) && is_either(v)),
        Keyword::Default => Ok(true),
        Keyword::Description => Ok(true),
        Keyword::Title => Ok(true),
        Keyword::Example => Ok(true),
        Keyword::ExternalDocs => Ok(true),
        Keyword::Additional => Ok(false),
        Keyword::Items => Ok(false),
        Keyword::Kind => Ok(false),
    }
}

fn fits_meta(keyword: Keyword) -> bool
    ensures { result ≡ fits_meta keyword }
{
    is_note(keyword) || matches!(keyword, Keyword::Default)
}

// Whether the name may have the value.
pub(crate) fn is_allowed(
    alloc: Global,
    scope: Scope,
    name: &str,
    v: &JVal,
) -> Result<bool, NoMemory>
    ensures { IfOk result (λ b. b ≡ is_allowed scope name.now (json v.now)) }
{
    match keyword_named(name) {
        None => Ok(false),
        Some(keyword) => match scope {
            Scope::Node(kind) => fits(alloc, kind, keyword, v),
            Scope::Meta => Ok(fits_meta(keyword)),
        },
    }
}

// Whether the node may have what it has under `items`, and nothing where it has nothing.
pub(crate) fn items_allowed(kind: Option<NodeKind>, v: Option<&JVal>) -> bool
    ensures { result ≡ items_allowed kind (option_map (λ v. json v.now) v.entry) }
{
    match v {
        None => !is_array_kind(kind),
        Some(v) => is_array_kind(kind) && is_object_value(v),
    }
}

// The same under `additionalProperties`.
pub(crate) fn additional_allowed(kind: Option<NodeKind>, fields: &JFields, v: Option<&JVal>) -> bool
    ensures { result
        ≡ additional_allowed kind (members_of fields.now) (option_map (λ v. json v.now) v.entry) }
{
    match v {
        None => true,
        Some(v) => {
            is_object_kind(kind)
                && is_object_value(v)
                && value_at(fields, Keyword::Properties).is_none()
        }
    }
}
