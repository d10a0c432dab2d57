//! Tries of single keywords.
ghost use Rattle.std.specs.Prelude.{◌≡◌, [], option_map, MatchResult, Some, None, cond};
ghost use Rattle.kj_value.specs.Json.{members_of};
ghost use Rattle.kj_value.specs.Seen.{json};
ghost use Rattle.struct_schema.specs.Names.{value_at};
ghost use Rattle.schema_reading.specs.Words.{word};
ghost use Rattle.schema_reading.specs.Visit.{refused_at, first};
ghost use Rattle.schema_reading.specs.Visits.{in_part, is_below, unallowed, is_meta_type, meta_rest, meta_typed, meta_visits, meta_object, additional_visits, items_visits, typed_visits, type_visits};
ghost use Rattle.schema_reading.specs.Told.{StopsSchemaReading};

use crate::keywords::{additional_allowed, is_allowed, items_allowed};
use crate::kinds::{is_absent, type_allowed, value_at};
use crate::trouble::{Stop, refused_here};
use crate::words::{Keyword, Part, Scope};
use kj_value::{JFields, JVal};
use std::alloc::Global;
use std::cmp::Ordering;
use struct_schema::NodeKind;

// Whether the first name comes before the second, by bytes.
fn is_below(name: &str, other: &str) -> bool
    ensures { result ≡ is_below name.now other.now }
{
    match name.cmp(other) {
        Ordering::Less => true,
        Ordering::Equal => false,
        Ordering::Greater => false,
    }
}

fn in_part(part: Part, name: &str) -> bool
    ensures { result ≡ in_part part name.now }
{
    match part {
        Part::BeforeAdditional => is_below(name, Keyword::Additional.word()),
        Part::BeforeItems => {
            is_below(Keyword::Additional.word(), name) && is_below(name, Keyword::Items.word())
        }
        Part::BeforeType => {
            is_below(Keyword::Items.word(), name) && is_below(name, Keyword::Kind.word())
        }
        Part::AfterType => is_below(Keyword::Kind.word(), name),
        Part::AnyBeforeType => is_below(name, Keyword::Kind.word()),
    }
}

// The names of one part, in their order.
pub(crate) fn try_part(
    alloc: Global,
    part: Part,
    scope: Scope,
    fields: &JFields,
) -> Result<(), Stop>
    ensures { let o = option_map (refused_at []) (unallowed part scope (members_of fields.now)) in
        MatchResult result (λ _. o ≡ None) (λ e. StopsSchemaReading o e) }
{
    for f in fields.as_slice() {
        if in_part(part, f.name.as_str()) {
            if !is_allowed(alloc, scope, f.name.as_str(), &f.value)? {
                return Err(refused_here(alloc, f.name.as_str()));
            }
        }
    }
    Ok(())
}

// One keyword, allowed or not.
pub(crate) fn try_keyword(alloc: Global, keyword: Keyword, allowed: bool) -> Result<(), Stop>
    ensures { let o = cond allowed None (Some (refused_at [] (word keyword))) in
        MatchResult result (λ _. o ≡ None) (λ e. StopsSchemaReading o e) }
{
    if allowed {
        Ok(())
    } else {
        Err(refused_here(alloc, keyword.word()))
    }
}

// Whether the value is this text.
fn is_meta_type(text: &str, v: Option<&JVal>) -> bool
    ensures { result ≡ is_meta_type text.now (option_map (λ v. json v.now) v.entry) }
{
    match v {
        Some(JVal::Text(t)) => t.as_str() == text,
        _ => false,
    }
}

// What comes behind the type, with the default.
fn try_meta_rest(alloc: Global, fields: &JFields) -> Result<(), Stop>
    ensures { let o = first 0 (meta_rest (members_of fields.now)) in
        MatchResult result (λ _. o ≡ None) (λ e. StopsSchemaReading o e) }
{
    match try_part(alloc, Part::AfterType, Scope::Meta, fields) {
        Err(stop) => Err(stop),
        Ok(()) => {
            let absent = is_absent(fields, Keyword::Default);
            try_keyword(alloc, Keyword::Default, absent)
        }
    }
}

fn try_meta_type(alloc: Global, text: &str, fields: &JFields) -> Result<(), Stop>
    ensures { let o = first 0 (meta_typed text.now (members_of fields.now)) in
        MatchResult result (λ _. o ≡ None) (λ e. StopsSchemaReading o e) }
{
    let is_right = is_meta_type(text, value_at(fields, Keyword::Kind));
    match try_keyword(alloc, Keyword::Kind, is_right) {
        Err(stop) => Err(stop),
        Ok(()) => try_meta_rest(alloc, fields),
    }
}

fn try_meta_object(alloc: Global, text: &str, fields: &JFields) -> Result<(), Stop>
    ensures { let o = first 0 (meta_object text.now (members_of fields.now)) in
        MatchResult result (λ _. o ≡ None) (λ e. StopsSchemaReading o e) }
{
    match try_part(alloc, Part::AnyBeforeType, Scope::Meta, fields) {
        Err(stop) => Err(stop),
        Ok(()) => try_meta_type(alloc, text, fields),
    }
}

// The schema of a name that the root passes over, which has this type.
pub(crate) fn try_meta(alloc: Global, text: &str, doc: &JVal) -> Result<(), Stop>
    ensures { let o = first 0 (meta_visits text.now (json doc.now)) in
        MatchResult result (λ _. o ≡ None) (λ e. StopsSchemaReading o e) }
{
    match doc {
        JVal::Obj(fields) => try_meta_object(alloc, text, fields),
        _ => try_keyword(alloc, Keyword::Kind, false),
    }
}

// The keywords up to `additionalProperties`.
pub(crate) fn try_additional(
    alloc: Global,
    kind: Option<NodeKind>,
    fields: &JFields,
) -> Result<(), Stop>
    ensures { let o = first 0 (additional_visits kind (members_of fields.now)) in
        MatchResult result (λ _. o ≡ None) (λ e. StopsSchemaReading o e) }
{
    match try_part(alloc, Part::BeforeAdditional, Scope::Node(kind), fields) {
        Err(stop) => Err(stop),
        Ok(()) => {
            let v = value_at(fields, Keyword::Additional);
            try_keyword(
                alloc,
                Keyword::Additional,
                additional_allowed(kind, fields, v),
            )
        }
    }
}

// Those from there up to `items`.
pub(crate) fn try_items(alloc: Global, kind: Option<NodeKind>, fields: &JFields) -> Result<(), Stop>
    ensures { let o = first 0 (items_visits kind (members_of fields.now)) in
        MatchResult result (λ _. o ≡ None) (λ e. StopsSchemaReading o e) }
{
    match try_part(alloc, Part::BeforeItems, Scope::Node(kind), fields) {
        Err(stop) => Err(stop),
        Ok(()) => {
            let v = value_at(fields, Keyword::Items);
            try_keyword(alloc, Keyword::Items, items_allowed(kind, v))
        }
    }
}

// `type`, and what comes behind it.
fn try_typed(
    alloc: Global,
    root: bool,
    kind: Option<NodeKind>,
    fields: &JFields,
) -> Result<(), Stop>
    ensures { let o = first 0 (typed_visits root kind (members_of fields.now)) in
        MatchResult result (λ _. o ≡ None) (λ e. StopsSchemaReading o e) }
{
    match try_keyword(alloc, Keyword::Kind, type_allowed(root, kind)) {
        Err(stop) => Err(stop),
        Ok(()) => try_part(alloc, Part::AfterType, Scope::Node(kind), fields),
    }
}

// The rest, with `type`.
pub(crate) fn try_type(
    alloc: Global,
    root: bool,
    kind: Option<NodeKind>,
    fields: &JFields,
) -> Result<(), Stop>
    ensures { let o = first 0 (type_visits root kind (members_of fields.now)) in
        MatchResult result (λ _. o ≡ None) (λ e. StopsSchemaReading o e) }
{
    match try_part(alloc, Part::BeforeType, Scope::Node(kind), fields) {
        Err(stop) => Err(stop),
        Ok(()) => try_typed(alloc, root, kind, fields),
    }
}
