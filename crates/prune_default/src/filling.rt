//! A value's filling.
ghost use Rattle.std.specs.Prelude.{◌≡◌, ◌≤◌, ◌+◌, ℕ, List, Some, IfOk, OnOk, option_map, cond, length};
ghost use Rattle.kj_value.specs.Json.{items_of, members_of};
ghost use Rattle.kj_value.specs.Seen.{json};
ghost use Rattle.kj_value.specs.Sound.{IsSoundJson};
ghost use Rattle.struct_schema.specs.Shape.{map_of, maybe_of, some_shape, items_shape};
ghost use Rattle.struct_schema.specs.ShapeOf.{shape_of, own_of};
ghost use Rattle.struct_schema.specs.Names.{is_name, shape_for, value_at};
ghost use Rattle.struct_schema.specs.Filled.{Filled, NameFilled, RestFilled, ItemFilled, PresentFilled, EachItem};
ghost use Rattle.prune_default.specs.inner.Missing.{or_value};
ghost use Rattle.prune_default.specs.Size.{size, items_size, members_size, maybe_size, most_made};

use crate::defaults::set_defaults;
use crate::room::{take_value, whole_room};
use kj_value::{Field, JFields, JItems, JVal, NoMemory, Txt, copy, sound};
use std::alloc::Global;
use struct_schema::{Schema, is_forbidden};

/// What the value becomes where names that the schema doesn't know are pruned, nulls that it doesn't allow are taken
/// out, and defaults are set. What stays is moved and not copied; only defaults and their names are copied, and of these no
/// more than `FILLING_ROOM`. `NoMemory` comes where they are more, and where there is no memory for them, or for the lists and
/// objects that hold the parts.
pub fn fill(alloc: Global, s: &Schema, v: JVal) -> Result<JVal, NoMemory>
    ensures filled { IfOk result (λ w. Filled (shape_of s.now) (json v) (json w)) }
    ensures sound { IfOk result (λ w. IsSoundJson (json w)) }
    ensures same { IfOk result (λ w. Filled (shape_of s.now) (json v) (json v) → json w ≡ json v) }
    ensures bounded { IfOk result (λ w. size (json w) ≤ size (json v) + most_made) }
{
    sound(&v);
    let mut room = whole_room();
    let filled = fill_value(alloc, s, v, &mut room)?;
    sound(&filled);
    Ok(filled)
}

#[cycle(fill_value)]
fn fill_value(alloc: Global, s: &Schema, v: JVal, room: &mut u64) -> Result<JVal, NoMemory>
    ensures filled { IfOk result (λ w. Filled (shape_of s.now) (json v) (json w)) }
    ensures within { IfOk result (λ w. size (json w) + room.new ≤ size (json v) + room.old) }
{
    match v {
        JVal::Null => Ok(JVal::Null),
        JVal::Bool(b) => Ok(JVal::Bool(b)),
        JVal::Int(n) => Ok(JVal::Int(n)),
        JVal::Text(t) => Ok(JVal::Text(t)),
        JVal::List(items) => {
            if s.kind.is_array() {
                Ok(JVal::List(fill_list(alloc, s, items, room)?))
            } else {
                Ok(JVal::List(items))
            }
        }
        JVal::Obj(fields) => {
            if s.kind.is_object() {
                Ok(JVal::Obj(fill_object(alloc, s, fields, room)?))
            } else {
                Ok(JVal::Obj(fields))
            }
        }
    }
}

// The node's default, copied.
fn copy_default(alloc: Global, node: &Schema, room: &mut u64) -> Result<Option<JVal>, NoMemory>
    ensures filled { IfOk result (λ w. option_map json w ≡ (own_of node.now).default_value) }
    ensures within { IfOk result (λ w. maybe_size (option_map json w) + room.new ≤ room.old) }
{
    match &node.default_value {
        None => Ok(None),
        Some(value) => {
            take_value(room, value)?;
            Ok(Some(copy(alloc, value)?))
        }
    }
}

#[cycle(fill_value)]
fn fill_list(alloc: Global, s: &Schema, items: JItems, room: &mut u64) -> Result<JItems, NoMemory>
    ensures filled { IfOk result (λ js. EachItem (λ x y. ItemFilled (items_shape (shape_of s.now)) x y)
        (items_of items) (items_of js)) }
    ensures within { IfOk result (λ js. items_size (items_of js) + room.new ≤ items_size (items_of items) + room.old) }
{
    match &s.items {
        None => Ok(items),
        Some(inner) => fill_items(alloc, inner.get(), items, room),
    }
}

#[cycle(fill_value)]
fn fill_items(
    alloc: Global,
    node: &Schema,
    items: JItems,
    room: &mut u64,
) -> Result<JItems, NoMemory>
    ensures filled { IfOk result (λ js. EachItem (λ x y. ItemFilled (some_shape (shape_of node.now)) x y)
        (items_of items) (items_of js)) }
    ensures within { IfOk result (λ js. items_size (items_of js) + room.new ≤ items_size (items_of items) + room.old) }
{
    let mut filled = JItems::with_room(alloc, items.len())?;
    for x in items.into_vec() {
        filled.push(fill_item(alloc, node, x, room)?)?;
    }
    Ok(filled)
}

#[cycle(fill_value)]
fn fill_item(alloc: Global, node: &Schema, x: JVal, room: &mut u64) -> Result<JVal, NoMemory>
    ensures filled { IfOk result (λ w. ItemFilled (some_shape (shape_of node.now)) (json x) (json w)) }
    ensures within { IfOk result (λ w. size (json w) + room.new ≤ size (json x) + room.old) }
{
    if is_forbidden(node, &x) {
        match copy_default(alloc, node, room)? {
            Some(value) => Ok(value),
            None => Ok(JVal::Null),
        }
    } else {
        fill_value(alloc, node, x, room)
    }
}

#[cycle(fill_value)]
fn fill_object(
    alloc: Global,
    s: &Schema,
    fields: JFields,
    room: &mut u64,
) -> Result<JFields, NoMemory>
    ensures filled { IfOk result (λ ns. (n : List ℕ) →
        NameFilled (map_of s.now.properties) (λ v w. RestFilled (maybe_of s.now.additional) s.now.preserve v w) n
        (value_at n (members_of fields)) (value_at n (members_of ns))) }
    ensures within { IfOk result (λ ns. members_size (members_of ns) + room.new ≤ members_size (members_of fields) + room.old) }
{
    let kept = fill_names(alloc, s, fields, room)?;
    set_defaults(alloc, s, kept, room)
}

// Sets the value at the name, where there is one.
fn keep(kept: &mut JFields, name: Txt, value: Option<JVal>) -> Result<(), NoMemory>
    ensures kept { OnOk result ((n : List ℕ) → value_at n (members_of kept.new) ≡ cond (is_name n name.bytes)
        (or_value (option_map json value) (value_at n (members_of kept.old))) (value_at n (members_of kept.old))) }
    ensures within { OnOk result (members_size (members_of kept.new)
        ≤ members_size (members_of kept.old) + (length name.bytes + 4 + maybe_size (option_map json value))) }
{
    match value {
        Some(value) => kept.set(name, value),
        None => Ok(()),
    }
}

// Each value that is there, filled or taken out.
#[cycle(fill_value)]
fn fill_names(
    alloc: Global,
    s: &Schema,
    fields: JFields,
    room: &mut u64,
) -> Result<JFields, NoMemory>
    ensures filled { IfOk result (λ ns. (n : List ℕ) → RestFilled (shape_for (shape_of s.now) n) s.now.preserve
        (value_at n (members_of fields)) (value_at n (members_of ns))) }
    ensures within { IfOk result (λ ns. members_size (members_of ns) + room.new ≤ members_size (members_of fields) + room.old) }
{
    let mut kept = JFields::with_room(alloc, fields.len())?;
    for f in fields.into_vec() {
        let Field { name, value } = f;
        let value = fill_name(alloc, s, name.as_str(), value, room)?;
        keep(&mut kept, name, value)?;
    }
    Ok(kept)
}

#[cycle(fill_value)]
fn fill_name(
    alloc: Global,
    s: &Schema,
    name: &str,
    value: JVal,
    room: &mut u64,
) -> Result<Option<JVal>, NoMemory>
    ensures filled { IfOk result (λ w. RestFilled (shape_for (shape_of s.now) name.now) s.now.preserve
        (Some (json value)) (option_map json w)) }
    ensures within { IfOk result (λ w. maybe_size (option_map json w) + room.new ≤ size (json value) + room.old) }
{
    match s.schema_for(name) {
        None => {
            if s.preserve {
                Ok(Some(value))
            } else {
                Ok(None)
            }
        }
        Some(node) => fill_present(alloc, node, value, room),
    }
}

#[cycle(fill_value)]
fn fill_present(
    alloc: Global,
    node: &Schema,
    value: JVal,
    room: &mut u64,
) -> Result<Option<JVal>, NoMemory>
    ensures filled { IfOk result (λ w. PresentFilled (own_of node.now) (λ x y. Filled (shape_of node.now) x y)
        (json value) (option_map json w)) }
    ensures within { IfOk result (λ w. maybe_size (option_map json w) + room.new ≤ size (json value) + room.old) }
{
    if is_forbidden(node, &value) {
        copy_default(alloc, node, room)
    } else {
        Ok(Some(fill_value(alloc, node, value, room)?))
    }
}
