//! A schema again, in memory of its own but for the values of `enum`, which copies share.
ghost use Rattle.std.specs.Prelude.{◌≡◌, IfOk, map, option_map};
ghost use Rattle.kj_value.specs.Seen.{json};
ghost use Rattle.struct_schema.specs.Shape.{map_of, maybe_of};
ghost use Rattle.struct_schema.specs.ShapeOf.{shape_of, named_shape};

use crate::choices::Choices;
use crate::schema::{Schema, SchemaBox, SchemaField, SchemaMap};
use kj_value::{JVal, NoMemory, Txt, copy};
use std::alloc::Global;

fn share_choices(choices: &Option<Choices>) -> Result<Option<Choices>, NoMemory>
    ensures { IfOk result (λ o. o ≡ choices.now) }
{
    match choices {
        None => Ok(None),
        Some(choices) => Ok(Some(choices.shared()?)),
    }
}

fn copy_default(alloc: Global, value: &Option<JVal>) -> Result<Option<JVal>, NoMemory>
    ensures { IfOk result (λ o. option_map json o ≡ option_map json value.now) }
{
    match value {
        None => Ok(None),
        Some(v) => Ok(Some(copy(alloc, v)?)),
    }
}

/// The same schema again. The values of `enum` are shared, and the rest is in memory of its own.
#[cycle(copy_schema)]
pub fn copy_schema(alloc: Global, s: &Schema) -> Result<Schema, NoMemory>
    ensures { IfOk result (λ t. shape_of t ≡ shape_of s.now) }
{
    let choices = share_choices(&s.choices)?;
    let required = s.required.copied(alloc)?;
    let properties = copy_properties(alloc, &s.properties)?;
    let additional = copy_node(alloc, &s.additional)?;
    let items = copy_node(alloc, &s.items)?;
    let default_value = copy_default(alloc, &s.default_value)?;
    Ok(Schema {
        kind: s.kind,
        preserve: s.preserve,
        nullable: s.nullable,
        choices,
        minimum: s.minimum,
        maximum: s.maximum,
        format: s.format,
        min_length: s.min_length,
        max_length: s.max_length,
        min_items: s.min_items,
        max_items: s.max_items,
        required,
        properties,
        additional,
        items,
        default_value,
    })
}

#[cycle(copy_schema)]
fn copy_properties(alloc: Global, map: &Option<SchemaMap>) -> Result<Option<SchemaMap>, NoMemory>
    ensures { IfOk result (λ m. map_of m ≡ map_of map.now) }
{
    match map {
        None => Ok(None),
        Some(map) => Ok(Some(copy_map(alloc, map)?)),
    }
}

#[cycle(copy_schema)]
fn copy_node(alloc: Global, node: &Option<SchemaBox>) -> Result<Option<SchemaBox>, NoMemory>
    ensures { IfOk result (λ m. maybe_of m ≡ maybe_of node.now) }
{
    match node {
        None => Ok(None),
        Some(inner) => Ok(Some(SchemaBox::new(alloc, copy_schema(alloc, inner.get())?)?)),
    }
}

#[cycle(copy_schema)]
#[tactic(auto, using(crate::specs::inner::ShapeInside::schema_depth))]
fn copy_map(alloc: Global, map: &SchemaMap) -> Result<SchemaMap, NoMemory>
    ensures { IfOk result (λ m. m ≡ map.now) }
{
    let mut copies = Vec::with_capacity(alloc, map.len())?;
    for f in map.as_slice() {
        let name = Txt::of(alloc, f.name.as_str())?;
        let schema = copy_schema(alloc, &f.schema)?;
        copies.push(SchemaField { name, schema })?;
    }
    Ok(SchemaMap::from_vec(copies))
}
