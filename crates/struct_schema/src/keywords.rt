//! The keywords of a node that look at a value and not inside it.
ghost use Rattle.std.specs.Prelude.{◌≡◌, pos, chars, length, option_map};
ghost use Rattle.kj_value.specs.Json.{whole, text, list, items_of, members_of};
ghost use Rattle.kj_value.specs.Seen.{json};
ghost use Rattle.kj_value.specs.Same.{json_same};
ghost use Rattle.kj_value.specs.Texts.{bytes_of};
ghost use Rattle.struct_schema.specs.ShapeOf.{own_of};
ghost use Rattle.struct_schema.specs.Keywords.{has_kind, is_chosen, at_least, at_most, is_formed, character_count, item_count};
ghost use Rattle.struct_schema.specs.Fault.{broken_limit, broken_rule, lesser, missing, first_missing};

use crate::choices::Choices;
use crate::kind::{IntFormat, NodeKind};
use crate::required::Required;
use crate::schema::Schema;
use kj_value::{JFields, JItems, JVal, Rule, Txt, same};
use std::cmp::Ordering;

// Whether the value is of the node's kind.
fn has_kind(kind: NodeKind, v: &JVal) -> bool
    ensures { result ≡ has_kind kind (json v.now) }
{
    match (kind, v) {
        (NodeKind::Object, JVal::Obj(_)) => true,
        (NodeKind::Array, JVal::List(_)) => true,
        (NodeKind::Text, JVal::Text(_)) => true,
        (NodeKind::Whole, JVal::Int(_)) => true,
        (NodeKind::Truth, JVal::Bool(_)) => true,
        (NodeKind::IntOrText, JVal::Int(_)) => true,
        (NodeKind::IntOrText, JVal::Text(_)) => true,
        (NodeKind::Any, _) => true,
        _ => false,
    }
}

// Whether two values are one.
pub(crate) fn alike(a: &JVal, b: &JVal) -> bool
    ensures { result ≡ json_same (json a.now) (json b.now) }
{
    same(a, b)
}

fn is_chosen(choices: &Option<Choices>, v: &JVal) -> bool
    ensures { result ≡ is_chosen choices.now (json v.now) }
{
    match choices {
        None => true,
        Some(choices) => choices.has(v),
    }
}

fn at_least(least: Option<i64>, n: i64) -> bool
    ensures { result ≡ at_least least n }
{
    match least {
        None => true,
        Some(m) => m <= n,
    }
}

fn at_most(most: Option<i64>, n: i64) -> bool
    ensures { result ≡ at_most most n }
{
    match most {
        None => true,
        Some(m) => n <= m,
    }
}

fn is_formed(format: Option<IntFormat>, n: i64) -> bool
    ensures { result ≡ is_formed format n }
{
    match format {
        None => true,
        Some(IntFormat::Int32) => at_least(Some(-2147483648), n) && at_most(Some(2147483647), n),
        Some(IntFormat::Int64) => true,
    }
}

// Whether a count is no less than the bound.
fn has_least(least: Option<i64>, count: usize) -> bool
    ensures { result ≡ at_least least (pos count) }
{
    match least {
        None => true,
        Some(m) => i128::from(m) <= count as i128,
    }
}

// Whether a count is no more than the bound.
fn has_most(most: Option<i64>, count: usize) -> bool
    ensures { result ≡ at_most most (pos count) }
{
    match most {
        None => true,
        Some(m) => count as i128 <= i128::from(m),
    }
}

// How many items a list has.
fn item_count(items: &JItems) -> usize
    ensures { result ≡ item_count (items_of items.now) }
{
    items.len()
}

// How many characters a text has.
fn character_count(text: &str) -> usize
    ensures { result ≡ character_count text.now }
{
    text.chars().count()
}

fn broken_number(s: &Schema, n: i64) -> Option<Rule>
    ensures { result ≡ broken_limit (own_of s.now) (whole n) }
{
    if !at_least(s.minimum, n) {
        return Some(Rule::Minimum);
    }
    if !at_most(s.maximum, n) {
        return Some(Rule::Maximum);
    }
    if !is_formed(s.format, n) {
        return Some(Rule::Format);
    }
    None
}

fn broken_text(s: &Schema, t: &Txt) -> Option<Rule>
    ensures { result ≡ broken_limit (own_of s.now) (text t.now.bytes) }
{
    let count = character_count(t.as_str());
    if !has_least(s.min_length, count) {
        return Some(Rule::MinLength);
    }
    if !has_most(s.max_length, count) {
        return Some(Rule::MaxLength);
    }
    None
}

fn broken_list(s: &Schema, items: &JItems) -> Option<Rule>
    ensures { result ≡ broken_limit (own_of s.now) (list (items_of items.now)) }
{
    let count = item_count(items);
    if !has_least(s.min_items, count) {
        return Some(Rule::MinItems);
    }
    if !has_most(s.max_items, count) {
        return Some(Rule::MaxItems);
    }
    None
}

fn broken_limit(s: &Schema, v: &JVal) -> Option<Rule>
    ensures { result ≡ broken_limit (own_of s.now) (json v.now) }
{
    match v {
        JVal::Null | JVal::Bool(_) | JVal::Obj(_) => None,
        JVal::Int(n) => broken_number(s, *n),
        JVal::Text(t) => broken_text(s, t),
        JVal::List(items) => broken_list(s, items),
    }
}

// The first keyword that the value doesn't keep, but for `required`.
pub(crate) fn broken_rule(s: &Schema, v: &JVal) -> Option<Rule>
    ensures { result ≡ broken_rule (own_of s.now) (json v.now) }
{
    if !has_kind(s.kind, v) {
        return Some(Rule::Kind);
    }
    if !is_chosen(&s.choices, v) {
        return Some(Rule::Enum);
    }
    broken_limit(s, v)
}

// Whether the object lacks the name.
pub(crate) fn is_missing(fields: &JFields, name: &str) -> bool
    ensures { result ≡ missing (members_of fields.now) name.now }
{
    match fields.get(name) {
        None => true,
        Some(_) => false,
    }
}

/// The lesser of two names, by bytes, or the one where there is no other. It takes no memory.
pub fn lesser<'a>(first: Option<&'a Txt>, name: &'a Txt) -> &'a Txt
    ensures { Some result.now.bytes
        ≡ lesser (option_map (λ t. t.now.bytes) first.entry) name.now.bytes }
{
    match first {
        None => name,
        Some(least) => match name.as_str().cmp(least.as_str()) {
            Ordering::Less => name,
            Ordering::Equal => least,
            Ordering::Greater => least,
        },
    }
}

// The first name by bytes that is required and missing.
pub(crate) fn first_missing<'a>(required: &'a Required, fields: &JFields) -> Option<&'a Txt>
    ensures { option_map (λ t. t.now.bytes) result
        ≡ first_missing required.now (members_of fields.now) }
{
    let mut first: Option<&Txt> = None;
    for name in required.as_slice() {
        if is_missing(fields, name.as_str()) {
            first = Some(lesser(first, name));
        }
    }
    first
}
