//! The defaults of names that aren't there.
ghost use Rattle.std.specs.Prelude.{◌≡◌, ◌≤◌, ◌+◌, ℕ, List, None, IfOk, OnOk, cond, map, is_some, is_none, ◌||◌};
ghost use Rattle.kj_value.specs.Fields.{AreInOrder};
ghost use Rattle.kj_value.specs.Json.{members_of};
ghost use Rattle.struct_schema.specs.Shape.{map_of, shapes_of};
ghost use Rattle.struct_schema.specs.ShapeOf.{own_of, named_shape};
ghost use Rattle.struct_schema.specs.Names.{is_name, property, value_at};
ghost use Rattle.struct_schema.specs.Stays.{each_default};
ghost use Rattle.prune_default.specs.inner.Missing.{default_of, first_default, or_value};
ghost use Rattle.prune_default.specs.Size.{members_size};

use crate::room::take_field;
use kj_value::{Field, JFields, NoMemory, Txt, copy};
use std::alloc::Global;
use struct_schema::{Schema, SchemaField, SchemaMap};

// Sets the default of each property that has one and isn't there.
pub(crate) fn set_defaults(
    alloc: Global,
    s: &Schema,
    fields: JFields,
    room: &mut u64,
) -> Result<JFields, NoMemory>
    ensures set { IfOk result (λ ns. (n : List ℕ) → value_at n (members_of ns)
        ≡ or_value (value_at n (members_of fields)) (default_of (property n (map_of s.now.properties)))) }
    ensures within { IfOk result (λ ns. members_size (members_of ns) + room.new ≤ members_size (members_of fields) + room.old) }
{
    match &s.properties {
        None => Ok(fields),
        Some(properties) => {
            if needs_none(properties, &fields) {
                Ok(fields)
            } else {
                merge(alloc, properties.as_slice(), fields, room)
            }
        }
    }
}

// Whether each property that has a default is there. Where none has one, they aren't gone over.
fn needs_none(properties: &SchemaMap, fields: &JFields) -> bool
    ensures none { result ≡ each_default (shapes_of properties.now) (members_of fields.now) }
    ensures order { AreInOrder properties.now }
{
    let listed = properties.as_slice();
    if properties.has_defaults() {
        needs_no_default(listed, fields)
    } else {
        true
    }
}

fn needs_no_default(properties: &[SchemaField], fields: &JFields) -> bool
    ensures { result ≡ each_default (shapes_of (map named_shape properties.now)) (members_of fields.now) }
{
    for p in properties {
        if !is_there_or_has_none(p, fields) {
            return false;
        }
    }
    true
}

fn is_there_or_has_none(property: &SchemaField, fields: &JFields) -> bool
    ensures { result ≡ (is_some (value_at property.now.name.bytes (members_of fields.now))
        || is_none (own_of property.now.schema).default_value) }
{
    match &property.schema.default_value {
        None => true,
        Some(_) => is_there(fields, property.name.as_str()),
    }
}

fn is_there(fields: &JFields, name: &str) -> bool
    ensures { result ≡ is_some (value_at name.now (members_of fields.now)) }
{
    match fields.get(name) {
        Some(_) => true,
        None => false,
    }
}

// The names of both rise, and are set in their common order, so that each goes to the end.
fn merge(
    alloc: Global,
    properties: &[SchemaField],
    fields: JFields,
    room: &mut u64,
) -> Result<JFields, NoMemory>
    ensures set { IfOk result (λ ns. (n : List ℕ) → value_at n (members_of ns)
        ≡ or_value (value_at n (members_of fields)) (first_default n (shapes_of (map named_shape properties.now)))) }
    ensures within { IfOk result (λ ns. members_size (members_of ns) + room.new ≤ members_size (members_of fields) + room.old) }
{
    let mut filled = JFields::with_room(alloc, fields.len())?;
    let mut rest = properties;
    for f in fields.into_vec() {
        let Field { name, value } = f;
        rest = set_before(alloc, rest, name.as_str(), &mut filled, room)?;
        filled.set(name, value)?;
    }
    set_all(alloc, rest, &mut filled, room)?;
    Ok(filled)
}

// Sets the defaults of the properties before the name, and answers the properties from there on.
fn set_before<'a>(
    alloc: Global,
    properties: &'a [SchemaField],
    name: &str,
    filled: &mut JFields,
    room: &mut u64,
) -> Result<&'a [SchemaField], NoMemory>
    ensures set { IfOk result (λ rest. (n : List ℕ)
        → or_value (value_at n (members_of filled.new)) (first_default n (shapes_of (map named_shape rest.now)))
        ≡ or_value (value_at n (members_of filled.old)) (first_default n (shapes_of (map named_shape properties.now)))) }
    ensures within { OnOk result (members_size (members_of filled.new) + room.new ≤ members_size (members_of filled.old) + room.old) }
{
    for i in 0..properties.len() {
        if properties[i].name.as_str() >= name {
            return Ok(&properties[i..]);
        }
        set_missing(alloc, &properties[i], filled, room)?;
    }
    Ok(&properties[properties.len()..])
}

fn set_all(
    alloc: Global,
    properties: &[SchemaField],
    filled: &mut JFields,
    room: &mut u64,
) -> Result<(), NoMemory>
    ensures set { OnOk result ((n : List ℕ) → value_at n (members_of filled.new)
        ≡ or_value (value_at n (members_of filled.old)) (first_default n (shapes_of (map named_shape properties.now)))) }
    ensures within { OnOk result (members_size (members_of filled.new) + room.new ≤ members_size (members_of filled.old) + room.old) }
{
    for p in properties {
        set_missing(alloc, p, filled, room)?;
    }
    Ok(())
}

// Sets the property's default, where it has one and the name isn't there.
fn set_missing(
    alloc: Global,
    property: &SchemaField,
    filled: &mut JFields,
    room: &mut u64,
) -> Result<(), NoMemory>
    ensures set { OnOk result ((n : List ℕ) → value_at n (members_of filled.new)
        ≡ or_value (value_at n (members_of filled.old))
        (cond (is_name n property.now.name.bytes) (own_of property.now.schema).default_value None)) }
    ensures within { OnOk result (members_size (members_of filled.new) + room.new ≤ members_size (members_of filled.old) + room.old) }
{
    if let Some(value) = &property.schema.default_value {
        if is_there(filled, property.name.as_str()) {
            return Ok(());
        }
        take_field(room, property.name.as_str(), value)?;
        let name = Txt::of(alloc, property.name.as_str())?;
        filled.set(name, copy(alloc, value)?)?;
    }
    Ok(())
}
