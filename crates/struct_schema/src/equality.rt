//! Whether two schemas are one.
ghost use Rattle.std.specs.Prelude.{◌≡◌, ◌↔◌, ◌&&◌, IsTrue, map, option_map};
ghost use Rattle.std.specs.Str.{bytes_eq};
ghost use Rattle.kj_value.specs.Seen.{json};
ghost use Rattle.kj_value.specs.Texts.{bytes_of};
ghost use Rattle.struct_schema.specs.Shape.{map_of, maybe_of, shapes_of};
ghost use Rattle.struct_schema.specs.ShapeOf.{shape_of, own_of, named_shape};
ghost use Rattle.struct_schema.specs.Below.{without_default, below};
ghost use Rattle.struct_schema.specs.ShapeSame.{all_same, kinds_same, same_bound, bounds_same, same_format, same_choices, same_default, lists_same, keywords_same, own_same, shape_same, shapes_same, map_same, maybe_same};

use crate::choices::Choices;
use crate::keywords::alike;
use crate::kind::{IntFormat, format_number, kind_number};
use crate::schema::{Schema, SchemaBox, SchemaField, SchemaMap};
use kj_value::{JVal, Txt, alike_items};

/// Whether two schemas say the same in every keyword, those inside of them too. The lists of `enum` and
/// `required` count in their order. It takes no memory.
pub fn equal(a: &Schema, b: &Schema) -> bool
    ensures { IsTrue result ↔ (shape_of a.now ≡ shape_of b.now) }
{
    same_schema(a, b)
}

/// Whether two schemas say the same in every keyword but the `default` of their roots, those inside of them
/// too, as `equal` does. It takes no memory.
pub fn equal_below(a: &Schema, b: &Schema) -> bool
    ensures { IsTrue result ↔ (below (shape_of a.now) ≡ below (shape_of b.now)) }
{
    same_below(a, b)
}

fn kinds_same(a: &Schema, b: &Schema) -> bool
    ensures { result ≡ kinds_same (own_of a.now) (own_of b.now) }
{
    kind_number(a.kind) == kind_number(b.kind)
        && a.preserve == b.preserve
        && a.nullable == b.nullable
}

fn same_bound(a: Option<i64>, b: Option<i64>) -> bool
    ensures { result ≡ same_bound a b }
{
    match (a, b) {
        (None, None) => true,
        (Some(x), Some(y)) => x == y,
        (None, Some(_)) => false,
        (Some(_), None) => false,
    }
}

fn bounds_same(a: &Schema, b: &Schema) -> bool
    ensures { result ≡ bounds_same (own_of a.now) (own_of b.now) }
{
    same_bound(a.minimum, b.minimum)
        && same_bound(a.maximum, b.maximum)
        && same_bound(a.min_length, b.min_length)
        && same_bound(a.max_length, b.max_length)
        && same_bound(a.min_items, b.min_items)
        && same_bound(a.max_items, b.max_items)
}

fn same_format(a: Option<IntFormat>, b: Option<IntFormat>) -> bool
    ensures { result ≡ same_format a b }
{
    match (a, b) {
        (None, None) => true,
        (Some(x), Some(y)) => format_number(x) == format_number(y),
        (None, Some(_)) => false,
        (Some(_), None) => false,
    }
}

fn same_choices(a: &Option<Choices>, b: &Option<Choices>) -> bool
    ensures { result ≡ same_choices a.now b.now }
{
    match (a, b) {
        (None, None) => true,
        (Some(x), Some(y)) => alike_items(x.as_slice(), y.as_slice()),
        (None, Some(_)) => false,
        (Some(_), None) => false,
    }
}

fn same_names(xs: &[Txt], ys: &[Txt]) -> bool
    ensures { result ≡ all_same bytes_eq (map bytes_of xs.now) (map bytes_of ys.now) }
{
    if xs.len() != ys.len() {
        return false;
    }
    for i in 0..xs.len() {
        if xs[i].as_str() != ys[i].as_str() {
            return false;
        }
    }
    true
}

fn same_default(a: &Option<JVal>, b: &Option<JVal>) -> bool
    ensures { result ≡ same_default (option_map json a.now) (option_map json b.now) }
{
    match (a, b) {
        (None, None) => true,
        (Some(x), Some(y)) => alike(x, y),
        (None, Some(_)) => false,
        (Some(_), None) => false,
    }
}

fn lists_same(a: &Schema, b: &Schema) -> bool
    ensures { result ≡ lists_same (own_of a.now) (own_of b.now) }
{
    same_format(a.format, b.format)
        && same_choices(&a.choices, &b.choices)
        && same_names(a.required.as_slice(), b.required.as_slice())
}

// The keywords of two nodes, but for their defaults and the schemas inside.
fn same_keywords(a: &Schema, b: &Schema) -> bool
    ensures { result ≡ keywords_same (own_of a.now) (own_of b.now) }
{
    kinds_same(a, b) && bounds_same(a, b) && lists_same(a, b)
}

// The keywords of two nodes, but for the schemas inside.
fn same_own(a: &Schema, b: &Schema) -> bool
    ensures { result ≡ own_same (own_of a.now) (own_of b.now) }
{
    same_keywords(a, b) && same_default(&a.default_value, &b.default_value)
}

fn same_below(a: &Schema, b: &Schema) -> bool
    ensures { result ≡ shape_same (below (shape_of a.now)) (below (shape_of b.now)) }
{
    same_keywords(a, b)
        && same_properties(&a.properties, &b.properties)
        && same_node(&a.additional, &b.additional)
        && same_node(&a.items, &b.items)
}

#[cycle(same_schema)]
fn same_schema(a: &Schema, b: &Schema) -> bool
    ensures { result ≡ shape_same (shape_of a.now) (shape_of b.now) }
{
    same_own(a, b)
        && same_properties(&a.properties, &b.properties)
        && same_node(&a.additional, &b.additional)
        && same_node(&a.items, &b.items)
}

#[cycle(same_schema)]
fn same_properties(a: &Option<SchemaMap>, b: &Option<SchemaMap>) -> bool
    ensures { result ≡ map_same (map_of a.now) (map_of b.now) }
{
    match (a, b) {
        (None, None) => true,
        (Some(x), Some(y)) => same_fields(x.as_slice(), y.as_slice()),
        (None, Some(_)) => false,
        (Some(_), None) => false,
    }
}

#[cycle(same_schema)]
fn same_node(a: &Option<SchemaBox>, b: &Option<SchemaBox>) -> bool
    ensures { result ≡ maybe_same (maybe_of a.now) (maybe_of b.now) }
{
    match (a, b) {
        (None, None) => true,
        (Some(x), Some(y)) => same_schema(x.get(), y.get()),
        (None, Some(_)) => false,
        (Some(_), None) => false,
    }
}

#[cycle(same_schema)]
#[tactic(auto, using(crate::specs::inner::ShapeInside::schema_depth))]
fn same_fields(xs: &[SchemaField], ys: &[SchemaField]) -> bool
    ensures { result
        ≡ shapes_same (shapes_of (map named_shape xs.now)) (shapes_of (map named_shape ys.now)) }
{
    if xs.len() != ys.len() {
        return false;
    }
    for i in 0..xs.len() {
        let x = &xs[i];
        let y = &ys[i];
        if x.name.as_str() != y.name.as_str() || !same_schema(&x.schema, &y.schema) {
            return false;
        }
    }
    true
}
