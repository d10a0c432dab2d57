//! A structural schema.
ghost use Rattle.std.specs.Prelude.{◌≡◌, ◌||◌, ℕ, [], ◌∷◌, ◌++◌, length, map, IfOk, OnOk, OnErr, is_some, option_map};
ghost use Rattle.kj_value.specs.Fields.{AreInOrder, field};
ghost use Rattle.struct_schema.specs.Shape.{shape, no_map, no_shape, maybe_of, properties, plain};
ghost use Rattle.struct_schema.specs.ShapeOf.{shape_of, own_of, named_shape};
ghost use Rattle.struct_schema.specs.Defaults.{have_default};
ghost use Rattle.struct_schema.specs.Names.{property, shape_for};

use crate::choices::Choices;
use crate::kind::{IntFormat, NodeKind};
use crate::required::Required;
use kj_value::{JVal, Named, NoMemory, Txt, find};
use std::alloc::Global;
use std::marker::Model;

/// A node of a structural schema with the nodes inside it (apiextensions.k8s.io/v1,
/// `JSONSchemaProps`). Each field is the keyword of its name.
#[cycle(schema)]
pub struct Schema {
    /// `type`, or what stands for it.
    pub kind: NodeKind,
    /// `x-kubernetes-preserve-unknown-fields`.
    pub preserve: bool,
    pub nullable: bool,
    /// `enum`.
    pub choices: Option<Choices>,
    pub minimum: Option<i64>,
    pub maximum: Option<i64>,
    pub format: Option<IntFormat>,
    /// `minLength`, in characters.
    pub min_length: Option<i64>,
    /// `maxLength`, in characters.
    pub max_length: Option<i64>,
    pub min_items: Option<i64>,
    pub max_items: Option<i64>,
    pub required: Required,
    pub properties: Option<SchemaMap>,
    /// `additionalProperties`.
    pub additional: Option<SchemaBox>,
    pub items: Option<SchemaBox>,
    /// `default`.
    pub default_value: Option<JVal>,
}

impl Drop for Schema {
    #[cycle(schema_drop)]
    fn drop(self) {
        let Schema {
            kind: _,
            preserve: _,
            nullable: _,
            choices: _,
            minimum: _,
            maximum: _,
            format: _,
            min_length: _,
            max_length: _,
            min_items: _,
            max_items: _,
            required: _,
            properties: _,
            additional: _,
            items: _,
            default_value: _,
        } = self;
    }
}

/// One name of `properties`, with its schema.
#[cycle(schema)]
pub struct SchemaField {
    /// Unlike every other name of its map.
    pub name: Txt,
    pub schema: Schema,
}

impl Drop for SchemaField {
    #[cycle(schema_drop)]
    fn drop(self) {
        let SchemaField { name: _, schema: _ } = self;
    }
}

/// Schemas by name, the names strictly rising by bytes. It knows whether one of them has a default.
#[cycle(schema)]
pub struct SchemaMap {
    fields: Vec<SchemaField>,
    defaults: bool,
}

impl Drop for SchemaMap {
    #[cycle(schema_drop)]
    fn drop(self) {
        let SchemaMap {
            fields: _,
            defaults: _,
        } = self;
    }
}

/// A schema inside another.
#[cycle(schema)]
pub struct SchemaBox {
    node: Box<Schema>,
}

impl Drop for SchemaBox {
    #[cycle(schema_drop)]
    fn drop(self) {
        let SchemaBox { node: _ } = self;
    }
}

impl Model for SchemaMap {
    ghost use Rattle.std.specs.Prelude.{List, map, ℕ};
    ghost use Rattle.std.specs.Coded.{coded_list, coded_ℕ, coded×};
    ghost use Rattle.kj_value.specs.Fields.{AreInOrder};
    ghost use Rattle.struct_schema.specs.Shape.{Shape, shapes_of, shapes_depth};
    ghost use Rattle.struct_schema.specs.laws.ShapeCode.{shape_code};

    ghost Value = { List (List ℕ × Shape) };

    ghost coded = { coded_list (coded× (coded_list coded_ℕ) shape_code) };

    ghost use Rattle.struct_schema.specs.ShapeOf.{named_shape};

    ghost view = { λ a. map named_shape a.fields.items };

    ghost use Rattle.std.specs.Prelude.{◌≡◌};
    ghost use Rattle.struct_schema.specs.Defaults.{have_default};

    ghost invariant = { λ a. AreInOrder (map named_shape a.fields.items)
        × (a.defaults ≡ have_default (map named_shape a.fields.items)) };

    ghost size = { λ ss. shapes_depth (shapes_of ss) };

    ghost use Rattle.struct_schema.specs.inner.ShapeFalls.{most-schemas};

    ghost size_decreases = { λ a h. most-schemas a.fields.items };
}

impl Model for SchemaBox {
    ghost use Rattle.struct_schema.specs.Shape.{Shape, shape_depth};
    ghost use Rattle.struct_schema.specs.laws.ShapeCode.{shape_code};

    ghost Value = { Shape };

    ghost coded = { shape_code };

    ghost use Rattle.struct_schema.specs.ShapeOf.{shape_of};

    ghost view = { λ a. shape_of a.node.value };

    ghost size = { shape_depth };

    ghost use Rattle.struct_schema.specs.inner.ShapeFalls.{deep-box};

    ghost size_decreases = { λ a h. deep-box a.node.value };
}

impl Schema {
    /// A node of this kind with no other keyword. It takes no memory.
    pub fn of_kind(alloc: Global, kind: NodeKind) -> Schema
        ensures { shape_of result ≡ shape (plain kind) no_map no_shape no_shape }
    {
        Schema {
            kind,
            preserve: false,
            nullable: false,
            choices: None,
            minimum: None,
            maximum: None,
            format: None,
            min_length: None,
            max_length: None,
            min_items: None,
            max_items: None,
            required: Required::none(alloc),
            properties: None,
            additional: None,
            items: None,
            default_value: None,
        }
    }

    /// The schema for a name of an object: that under `properties`, or else the one of all other names.
    /// It takes no memory.
    pub fn schema_for(&self, name: &str) -> Option<&Schema>
        ensures { maybe_of (option_map (λ s. shape_of s.now) result)
            ≡ shape_for (shape_of self.now) name.now }
    {
        match self.property(name) {
            Some(schema) => Some(schema),
            None => match &self.additional {
                Some(inner) => Some(inner.get()),
                None => None,
            },
        }
    }

    // The schema under `properties`.
    fn property(&self, name: &str) -> Option<&Schema>
        ensures { maybe_of (option_map (λ s. shape_of s.now) result)
            ≡ property name.now (properties (shape_of self.now)) }
    {
        match &self.properties {
            Some(named) => named.get(name),
            None => None,
        }
    }
}

impl Named for SchemaField {
    ghost name_of = { λ f. f.name.bytes };

    fn name(&self) -> &str {
        self.name.as_str()
    }
}

impl SchemaBox {
    /// A schema to stand inside another.
    pub fn new(alloc: Global, schema: Schema) -> Result<SchemaBox, NoMemory>
        ensures { IfOk result (λ b. b ≡ shape_of schema) }
    {
        Ok(SchemaBox {
            node: Box::new(alloc, schema)?,
        })
    }

    /// The schema. It takes no memory.
    pub fn get(&self) -> &Schema
        ensures { shape_of result.now ≡ self.now }
    {
        &self.node
    }
}

impl SchemaMap {
    /// The map with no names. It takes no memory.
    pub fn new(alloc: Global) -> SchemaMap
        ensures { result ≡ [] }
    {
        SchemaMap {
            fields: Vec::new(alloc),
            defaults: false,
        }
    }

    pub(crate) fn from_vec(fields: Vec<SchemaField>) -> SchemaMap
        requires { AreInOrder (map named_shape fields.items) }
        ensures { result ≡ map named_shape fields.items }
    {
        let defaults = have_default(fields.as_slice());
        SchemaMap { fields, defaults }
    }

    /// How many names there are.
    pub fn len(&self) -> usize
        ensures len { result ≡ length self.now }
        ensures order { AreInOrder self.now }
    {
        self.fields.len()
    }

    /// The names with their schemas, in the order of the names.
    pub fn as_slice(&self) -> &[SchemaField]
        ensures value { map named_shape result.now ≡ self.now }
        ensures order { AreInOrder self.now }
    {
        self.fields.as_slice()
    }

    /// Whether a schema of the map has a default.
    pub fn has_defaults(&self) -> bool
        ensures { result ≡ have_default self.now }
    {
        self.defaults
    }

    /// The schema at a name. It takes no memory.
    pub fn get(&self, name: &str) -> Option<&Schema>
        ensures { option_map (λ s. shape_of s.now) result ≡ field name.now self.now }
    {
        match find(self.fields.as_slice(), name) {
            Some(i) => Some(&self.fields[i].schema),
            None => None,
        }
    }

    /// Adds a name that comes after all others. After an error the map is as it was.
    pub fn push(&mut self, name: Txt, schema: Schema) -> Result<(), NoMemory>
        requires { AreInOrder (self.old ++ (name.bytes, shape_of schema) ∷ []) }
        ensures ok { OnOk result (self.new ≡ self.old ++ (name.bytes, shape_of schema) ∷ []) }
        ensures err { OnErr result (self.new ≡ self.old) }
    {
        let defaults = either(self.defaults, has_default(&schema));
        self.fields.push(SchemaField { name, schema })?;
        self.defaults = defaults;
        Ok(())
    }
}

fn either(a: bool, b: bool) -> bool
    ensures { result ≡ (a || b) }
{
    a || b
}

fn has_default(schema: &Schema) -> bool
    ensures { result ≡ is_some (own_of schema.now).default_value }
{
    match &schema.default_value {
        None => false,
        Some(_) => true,
    }
}

fn have_default(fields: &[SchemaField]) -> bool
    ensures { result ≡ have_default (map named_shape fields.now) }
{
    for f in fields {
        if has_default(&f.schema) {
            return true;
        }
    }
    false
}
