//! Whether a value keeps a schema, and the first fault where it doesn't.
ghost use Rattle.std.specs.Prelude.{◌≡◌, map, MatchResult, OnOk, OnErr, IfErr, option_map, Some, None, true, false};
ghost use Rattle.kj_value.specs.Json.{object, items_of, members_of};
ghost use Rattle.kj_value.specs.Seen.{json};
ghost use Rattle.struct_schema.specs.Shape.{some_shape, items_shape, own, maybe_of};
ghost use Rattle.struct_schema.specs.ShapeOf.{shape_of, own_of};
ghost use Rattle.struct_schema.specs.Names.{shape_for};
ghost use Rattle.struct_schema.specs.Valid.{valid};
ghost use Rattle.struct_schema.specs.Fault.{fault, own_fault, items_fault, members_fault, missing_fault, first_missing, or_else};
ghost use Rattle.struct_schema.specs.Told.{NamesCheckFault, StopsCheck};

use crate::keywords::{broken_rule, first_missing};
use crate::schema::Schema;
use crate::trouble::{CheckFault, Stop, broken_here, under_item, under_name};
use kj_value::{JFields, JItems, JVal, Rule};
use std::alloc::Global;

/// Whether the schema allows the value. A value that it doesn't allow is answered by its first fault:
/// the rules of a node in the order of the table of keywords, then what the value holds, names rising
/// and items in order. `NoMemory` comes only at such a value; a yes takes no memory.
pub fn check(alloc: Global, s: &Schema, v: &JVal) -> Result<(), CheckFault>
    ensures valid { OnOk result (valid (shape_of s.now) (json v.now) ≡ true) }
    ensures refused { OnErr result (valid (shape_of s.now) (json v.now) ≡ false) }
    ensures first { IfErr result (λ e. NamesCheckFault (fault (shape_of s.now) (json v.now)) e) }
{
    match first_fault(alloc, s, v) {
        Ok(()) => Ok(()),
        Err(Stop::Starved) => Err(CheckFault::NoMemory),
        Err(Stop::Found(broken)) => Err(CheckFault::Broken {
            path: broken.path,
            rule: broken.rule,
        }),
    }
}

/// Whether the schema allows the value. A yes takes no memory.
pub fn is_valid(alloc: Global, s: &Schema, v: &JVal) -> bool
    ensures { result ≡ valid (shape_of s.now) (json v.now) }
{
    match check(alloc, s, v) {
        Ok(()) => true,
        Err(_) => false,
    }
}

// The node's own keywords, but for `required`.
fn own_fault(alloc: Global, s: &Schema, v: &JVal) -> Result<(), Stop>
    ensures { MatchResult result (λ _. own_fault (own_of s.now) (json v.now) ≡ None)
        (λ e. StopsCheck (own_fault (own_of s.now) (json v.now)) e) }
{
    match broken_rule(s, v) {
        None => Ok(()),
        Some(rule) => Err(broken_here(alloc, rule)),
    }
}

// The names that must be there.
fn missing_fault(alloc: Global, s: &Schema, fields: &JFields) -> Result<(), Stop>
    ensures { let o = missing_fault (first_missing s.now.required (members_of fields.now)) in
        MatchResult result (λ _. o ≡ None) (λ e. StopsCheck o e) }
{
    match first_missing(&s.required, fields) {
        None => Ok(()),
        Some(name) => Err(under_name(alloc, name.as_str(), broken_here(alloc, Rule::Required))),
    }
}

#[cycle(first_fault)]
#[tactic(auto, using(kj_value::specs::laws::Inside::item_depth, kj_value::specs::laws::Inside::field_depth))]
fn first_fault(alloc: Global, s: &Schema, v: &JVal) -> Result<(), Stop>
    ensures { MatchResult result (λ _. fault (shape_of s.now) (json v.now) ≡ None)
        (λ e. StopsCheck (fault (shape_of s.now) (json v.now)) e) }
{
    match v {
        JVal::Null => {
            if s.nullable {
                Ok(())
            } else {
                Err(broken_here(alloc, Rule::Kind))
            }
        }
        JVal::Bool(_) => own_fault(alloc, s, v),
        JVal::Int(_) => own_fault(alloc, s, v),
        JVal::Text(_) => own_fault(alloc, s, v),
        JVal::List(items) => match own_fault(alloc, s, v) {
            Err(stop) => Err(stop),
            Ok(()) => list_fault(alloc, s, items),
        },
        JVal::Obj(fields) => match own_fault(alloc, s, v) {
            Err(stop) => Err(stop),
            Ok(()) => object_fault(alloc, s, fields),
        },
    }
}

#[cycle(first_fault)]
#[tactic(auto, using(kj_value::specs::laws::Inside::item_depth, kj_value::specs::laws::Inside::field_depth))]
fn list_fault(alloc: Global, s: &Schema, items: &JItems) -> Result<(), Stop>
    ensures { let o = items_fault (items_shape (shape_of s.now)) 0 (items_of items.now) in
        MatchResult result (λ _. o ≡ None) (λ e. StopsCheck o e) }
{
    match &s.items {
        None => Ok(()),
        Some(inner) => items_fault(alloc, inner.get(), items.as_slice()),
    }
}

#[cycle(first_fault)]
#[tactic(auto, using(kj_value::specs::laws::Inside::item_depth, kj_value::specs::laws::Inside::field_depth))]
fn items_fault(alloc: Global, s: &Schema, items: &[JVal]) -> Result<(), Stop>
    ensures { let o = items_fault (some_shape (shape_of s.now)) 0 (items_of (map json items.now)) in
        MatchResult result (λ _. o ≡ None) (λ e. StopsCheck o e) }
{
    for i in 0..items.len() {
        if let Err(stop) = first_fault(alloc, s, &items[i]) {
            return Err(under_item(alloc, i, stop));
        }
    }
    Ok(())
}

#[cycle(first_fault)]
#[tactic(auto, using(kj_value::specs::laws::Inside::item_depth, kj_value::specs::laws::Inside::field_depth))]
fn object_fault(alloc: Global, s: &Schema, fields: &JFields) -> Result<(), Stop>
    ensures { let o = or_else (missing_fault (first_missing s.now.required (members_of fields.now)))
        (members_fault (shape_of s.now) (members_of fields.now)) in
        MatchResult result (λ _. o ≡ None) (λ e. StopsCheck o e) }
{
    match missing_fault(alloc, s, fields) {
        Err(stop) => Err(stop),
        Ok(()) => fields_fault(alloc, s, fields),
    }
}

#[cycle(first_fault)]
#[tactic(auto, using(kj_value::specs::laws::Inside::item_depth, kj_value::specs::laws::Inside::field_depth))]
fn fields_fault(alloc: Global, s: &Schema, fields: &JFields) -> Result<(), Stop>
    ensures { let o = members_fault (shape_of s.now) (members_of fields.now) in
        MatchResult result (λ _. o ≡ None) (λ e. StopsCheck o e) }
{
    for f in fields.as_slice() {
        if let Some(node) = s.schema_for(f.name.as_str()) {
            if let Err(stop) = first_fault(alloc, node, &f.value) {
                return Err(under_name(alloc, f.name.as_str(), stop));
            }
        }
    }
    Ok(())
}
