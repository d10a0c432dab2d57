//! Whether a value is its own filling.
ghost use Rattle.std.specs.Prelude.{◌≡◌, ◌↔◌, IsTrue, is_some, is_none, ◌||◌, ◌&&◌, map};
ghost use Rattle.kj_value.specs.Json.{items_of, members_of};
ghost use Rattle.kj_value.specs.Seen.{json};
ghost use Rattle.kj_value.specs.Pair.{pair_of};
ghost use Rattle.struct_schema.specs.Shape.{map_of, items_shape, some_shape, shapes_of};
ghost use Rattle.struct_schema.specs.ShapeOf.{shape_of, own_of, named_shape};
ghost use Rattle.struct_schema.specs.Names.{shape_for, value_at};
ghost use Rattle.struct_schema.specs.Filled.{Filled, is_forbidden};
ghost use Rattle.struct_schema.specs.Stays.{stays, items_stay, names_stay, item_stays, name_stays, item_null, name_null, defaults_there, each_default};

use crate::keywords::{alike, is_missing};
use crate::schema::{Schema, SchemaField, SchemaMap};
use kj_value::{Field, JFields, JItems, JVal, sound};

/// Whether the value is what it becomes by pruning and defaulting: whether nothing in it would be taken
/// out or set. It takes no memory.
pub fn is_filled(s: &Schema, v: &JVal) -> bool
    ensures { IsTrue result ↔ Filled (shape_of s.now) (json v.now) (json v.now) }
{
    sound(v);
    stays(s, v)
}

/// Whether the value is a null that the node doesn't allow. It takes no memory.
pub fn is_forbidden(s: &Schema, v: &JVal) -> bool
    ensures { result ≡ is_forbidden (own_of s.now) (json v.now) }
{
    match v {
        JVal::Null => !s.nullable,
        _ => false,
    }
}

// Whether a forbidden null among the items stays a null.
fn item_null(s: &Schema) -> bool
    ensures { result ≡ item_null (own_of s.now).default_value }
{
    match &s.default_value {
        None => true,
        Some(value) => alike(value, &JVal::Null),
    }
}

// Whether a forbidden null at a name stays a null.
fn name_null(s: &Schema) -> bool
    ensures { result ≡ name_null (own_of s.now).default_value }
{
    match &s.default_value {
        None => false,
        Some(value) => alike(value, &JVal::Null),
    }
}

// Whether the name is there, or has no default.
fn needs_no_default(field: &SchemaField, fields: &JFields) -> bool
    ensures { result ≡ (is_some (value_at field.now.name.bytes (members_of fields.now))
        || is_none (own_of field.now.schema).default_value) }
{
    match &field.schema.default_value {
        None => true,
        Some(_) => !is_missing(fields, field.name.as_str()),
    }
}

fn each_default_of(properties: &[SchemaField], fields: &JFields) -> bool
    ensures { result
        ≡ each_default (shapes_of (map named_shape properties.now)) (members_of fields.now) }
{
    for p in properties {
        if !needs_no_default(p, fields) {
            return false;
        }
    }
    true
}

fn each_default(properties: &SchemaMap, fields: &JFields) -> bool
    ensures { result ≡ each_default (shapes_of properties.now) (members_of fields.now) }
{
    if properties.has_defaults() {
        each_default_of(properties.as_slice(), fields)
    } else {
        true
    }
}

// Whether each property that has a default is there.
fn defaults_there(s: &Schema, fields: &JFields) -> bool
    ensures { result ≡ defaults_there (map_of s.now.properties) (members_of fields.now) }
{
    match &s.properties {
        None => true,
        Some(properties) => {
            let _ = properties.len();
            each_default(properties, fields)
        }
    }
}

#[cycle(stays)]
#[tactic(auto, using(kj_value::specs::laws::Inside::item_depth, kj_value::specs::laws::Inside::field_depth))]
fn stays(s: &Schema, v: &JVal) -> bool
    ensures { result ≡ stays (shape_of s.now) (json v.now) }
{
    match v {
        JVal::List(items) => {
            if s.kind.is_array() {
                list_stays(s, items)
            } else {
                true
            }
        }
        JVal::Obj(fields) => {
            if s.kind.is_object() {
                object_stays(s, fields)
            } else {
                true
            }
        }
        _ => true,
    }
}

#[cycle(stays)]
#[tactic(auto, using(kj_value::specs::laws::Inside::item_depth, kj_value::specs::laws::Inside::field_depth))]
fn list_stays(s: &Schema, items: &JItems) -> bool
    ensures { result ≡ items_stay (items_shape (shape_of s.now)) (items_of items.now) }
{
    match &s.items {
        None => true,
        Some(inner) => items_stay(inner.get(), items),
    }
}

#[cycle(stays)]
#[tactic(auto, using(kj_value::specs::laws::Inside::item_depth, kj_value::specs::laws::Inside::field_depth))]
fn items_stay(node: &Schema, items: &JItems) -> bool
    ensures { result ≡ items_stay (some_shape (shape_of node.now)) (items_of items.now) }
{
    for x in items.as_slice() {
        if !item_stays(node, x) {
            return false;
        }
    }
    true
}

#[cycle(stays)]
fn item_stays(node: &Schema, x: &JVal) -> bool
    ensures { result
        ≡ item_stays (some_shape (shape_of node.now)) (json x.now) (λ t. stays t (json x.now)) }
{
    if is_forbidden(node, x) {
        item_null(node)
    } else {
        stays(node, x)
    }
}

#[cycle(stays)]
#[tactic(auto, using(kj_value::specs::laws::Inside::item_depth, kj_value::specs::laws::Inside::field_depth))]
fn object_stays(s: &Schema, fields: &JFields) -> bool
    ensures { result ≡ (names_stay (shape_of s.now) (members_of fields.now)
        && defaults_there (map_of s.now.properties) (members_of fields.now)) }
{
    names_stay(s, fields) && defaults_there(s, fields)
}

#[cycle(stays)]
#[tactic(auto, using(kj_value::specs::laws::Inside::item_depth, kj_value::specs::laws::Inside::field_depth))]
fn names_stay(s: &Schema, fields: &JFields) -> bool
    ensures { result ≡ names_stay (shape_of s.now) (members_of fields.now) }
{
    for f in fields.as_slice() {
        if !name_stays(s, f) {
            return false;
        }
    }
    true
}

#[cycle(stays)]
fn name_stays(s: &Schema, f: &Field) -> bool
    ensures { let j = json f.now.value in
        result ≡ name_stays (shape_for (shape_of s.now) f.now.name.bytes) s.now.preserve j (λ t. stays t j) }
{
    match s.schema_for(f.name.as_str()) {
        None => s.preserve,
        Some(node) => {
            if is_forbidden(node, &f.value) {
                name_null(node)
            } else {
                stays(node, &f.value)
            }
        }
    }
}
