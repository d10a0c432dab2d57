//! What a node of a schema document asks of a value's kind.
ghost use Rattle.std.specs.Prelude.{◌≡◌, option_map, is_none};
ghost use Rattle.kj_value.specs.Json.{members_of};
ghost use Rattle.kj_value.specs.Seen.{json};
ghost use Rattle.struct_schema.specs.Names.{value_at};
ghost use Rattle.schema_reading.specs.Words.{word};
ghost use Rattle.schema_reading.specs.Kind.{type_named, is_object_kind, type_kind, is_yes, untyped_kind, kind_by, node_kind, type_allowed};

use crate::words::Keyword;
use kj_value::{JFields, JVal};
use struct_schema::NodeKind;

// The value of a keyword.
pub(crate) fn value_at<'a>(fields: &'a JFields, keyword: Keyword) -> Option<&'a JVal>
    ensures { option_map (λ v. json v.now) result
        ≡ value_at (word keyword) (members_of fields.now) }
{
    fields.get(keyword.word())
}

pub(crate) fn is_absent(fields: &JFields, keyword: Keyword) -> bool
    ensures { result ≡ is_none (value_at (word keyword) (members_of fields.now)) }
{
    value_at(fields, keyword).is_none()
}

#[tactic(auto, unfolding(crate::specs::Kind::type_named))]
fn type_named(text: &str) -> Option<NodeKind>
    ensures { result ≡ type_named text.now }
{
    if text == "object" {
        return Some(NodeKind::Object);
    }
    if text == "array" {
        return Some(NodeKind::Array);
    }
    if text == "string" {
        return Some(NodeKind::Text);
    }
    if text == "integer" {
        return Some(NodeKind::Whole);
    }
    if text == "boolean" {
        return Some(NodeKind::Truth);
    }
    None
}

pub(crate) fn is_object_kind(kind: Option<NodeKind>) -> bool
    ensures { result ≡ is_object_kind kind }
{
    matches!(kind, Some(NodeKind::Object))
}

// The kind that `type` names.
fn type_kind(v: &JVal) -> Option<NodeKind>
    ensures { result ≡ type_kind (json v.now) }
{
    match v {
        JVal::Text(t) => type_named(t.as_str()),
        _ => None,
    }
}

// Whether the value is there, and true.
pub(crate) fn is_yes(v: Option<&JVal>) -> bool
    ensures { result ≡ is_yes (option_map (λ v. json v.now) v.entry) }
{
    match v {
        Some(JVal::Bool(b)) => *b,
        _ => false,
    }
}

// The kind of a node without `type`.
fn untyped_kind(fields: &JFields) -> Option<NodeKind>
    ensures { result ≡ untyped_kind (members_of fields.now) }
{
    if is_yes(value_at(fields, Keyword::IntOrString)) {
        return Some(NodeKind::IntOrText);
    }
    if is_yes(value_at(fields, Keyword::Preserve)) {
        return Some(NodeKind::Any);
    }
    None
}

// The kind of a node, where its document says one.
pub(crate) fn node_kind(fields: &JFields) -> Option<NodeKind>
    ensures { result ≡ node_kind (members_of fields.now) }
{
    match value_at(fields, Keyword::Kind) {
        None => untyped_kind(fields),
        Some(v) => type_kind(v),
    }
}

// Whether a node of this kind may stand there: the root is an object.
pub(crate) fn type_allowed(root: bool, kind: Option<NodeKind>) -> bool
    ensures { result ≡ type_allowed root kind }
{
    if root {
        is_object_kind(kind)
    } else {
        kind.is_some()
    }
}
