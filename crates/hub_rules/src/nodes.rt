//! What a schema has at a name.
ghost use Rattle.std.specs.Prelude.{◌≡◌, ◌&&◌, not, is_none, is_some, option_map};
ghost use Rattle.kj_value.specs.Json.{null};
ghost use Rattle.kj_value.specs.Seen.{json};
ghost use Rattle.kj_value.specs.Same.{json_same};
ghost use Rattle.struct_schema.specs.Shape.{shape, plain, no_map, no_shape, maybe_of};
ghost use Rattle.struct_schema.specs.ShapeOf.{shape_of, own_of};
ghost use Rattle.struct_schema.specs.ShapeSame.{shape_same};
ghost use Rattle.hub_cells.specs.Fit.{is_required};
ghost use Rattle.hub_rules.specs.Refusal.{node, is_there, node_at, or_any, default_at, lacks_default, is_text, is_whole, is_text_node, is_whole_node, is_closed, alike_required, is_null, alike_below};

use kj_value::{JVal, Txt, same};
use std::alloc::Global;
use std::marker::Model;
use struct_schema::{NodeKind, Schema, equal, equal_below};

/// A node that allows any value, for a name that a schema doesn't have.
#[derive(Drop)]
pub struct AnyNode {
    schema: Schema,
}

impl Model for AnyNode {
    ghost use Rattle.std.specs.Prelude.{◌≡◌};
    ghost use Rattle.struct_schema.specs.Shape.{Shape, no_shape};
    ghost use Rattle.struct_schema.specs.ShapeOf.{shape_of};
    ghost use Rattle.struct_schema.specs.laws.ShapeCode.{shape_code};
    ghost use Rattle.hub_rules.specs.Refusal.{or_any};

    ghost Value = { Shape };

    ghost coded = { shape_code };

    ghost view = { λ a. shape_of a.schema };

    ghost invariant = { λ a. shape_of a.schema ≡ or_any no_shape };
}

impl AnyNode {
    /// The node. It takes no memory.
    pub fn new(alloc: Global) -> AnyNode {
        AnyNode {
            schema: Schema::of_kind(alloc, NodeKind::Any),
        }
    }

    /// The node.
    pub fn get(&self) -> &Schema
        ensures { shape_of result.now ≡ or_any no_shape }
    {
        &self.schema
    }
}

// The schema under `properties`.
pub(crate) fn node<'a>(s: &'a Schema, name: &str) -> Option<&'a Schema>
    ensures { maybe_of (option_map (λ t. shape_of t.now) result) ≡ node name.now (shape_of s.now) }
{
    match &s.properties {
        Some(named) => named.get(name),
        None => None,
    }
}

pub(crate) fn is_there(s: &Schema, name: &str) -> bool
    ensures { result ≡ is_there (node name.now (shape_of s.now)) }
{
    match node(s, name) {
        Some(_) => true,
        None => false,
    }
}

/// The schema of a name. It takes no memory.
pub fn node_at<'a>(s: &'a Schema, name: &Txt, any: &'a AnyNode) -> &'a Schema
    ensures { shape_of result.now ≡ node_at name.now.bytes (shape_of s.now) }
{
    match node(s, name.as_str()) {
        Some(t) => t,
        None => any.get(),
    }
}

/// Whether an object has to have the name. It takes no memory.
pub fn is_required(name: &Txt, s: &Schema) -> bool
    ensures { result ≡ is_required name.now.bytes (shape_of s.now) }
{
    s.required.has(name.as_str())
}

// Both sides require the name, or neither does.
pub(crate) fn alike_required(a: &Txt, b: &Txt, s: &Schema, h: &Schema) -> bool
    ensures { result ≡ alike_required a.now.bytes b.now.bytes (shape_of s.now) (shape_of h.now) }
{
    is_required(a, s) == is_required(b, h)
}

pub(crate) fn lacks_default(name: &Txt, s: &Schema, any: &AnyNode) -> bool
    ensures { result ≡ lacks_default name.now.bytes (shape_of s.now) }
{
    node_at(s, name, any).default_value.is_none()
}

// Whether two schemas are one.
pub(crate) fn alike_nodes(a: &Schema, b: &Schema) -> bool
    ensures { result ≡ shape_same (shape_of a.now) (shape_of b.now) }
{
    equal(a, b)
}

// Whether two schemas are one but for their roots' defaults.
pub(crate) fn alike_below(a: &Schema, b: &Schema) -> bool
    ensures { result ≡ alike_below (shape_of a.now) (shape_of b.now) }
{
    equal_below(a, b)
}

// Whether two values are one.
pub(crate) fn alike(a: &JVal, b: &JVal) -> bool
    ensures { result ≡ json_same (json a.now) (json b.now) }
{
    same(a, b)
}

pub(crate) fn is_null(v: &JVal) -> bool
    ensures { result ≡ is_null (json v.now) }
{
    matches!(v, JVal::Null)
}

fn is_text(kind: NodeKind) -> bool
    ensures { result ≡ is_text kind }
{
    matches!(kind, NodeKind::Text)
}

fn is_whole(kind: NodeKind) -> bool
    ensures { result ≡ is_whole kind }
{
    matches!(kind, NodeKind::Whole)
}

pub(crate) fn is_text_node(s: &Schema) -> bool
    ensures { result ≡ is_text_node (shape_of s.now) }
{
    is_text(s.kind) && !s.nullable
}

pub(crate) fn is_whole_node(s: &Schema) -> bool
    ensures { result ≡ is_whole_node (shape_of s.now) }
{
    is_whole(s.kind) && !s.nullable
}

// Whether the node is an object whose names are those of `properties` and no others.
pub(crate) fn is_closed(s: &Schema) -> bool
    ensures { result ≡ is_closed (shape_of s.now) }
{
    s.kind.is_object()
        && s.properties.is_some()
        && !s.additional.is_some()
        && !s.preserve
        && !s.nullable
        && s.choices.is_none()
}
