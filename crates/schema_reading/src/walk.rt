//! The walk over a schema document.
ghost use Rattle.std.specs.Prelude.{◌≡◌, ℕ, ◌≤◌, ◌+◌, [], Bool, option_map, MatchOption, OnOk, IfOk, IfErr, MatchResult, Some, None, false, true};
ghost use Rattle.kj_value.specs.Json.{object, members_of};
ghost use Rattle.kj_value.specs.Seen.{json};
ghost use Rattle.struct_schema.specs.Names.{value_at};
ghost use Rattle.struct_schema.specs.OwnDefaults.{HasOwnDefaults};
ghost use Rattle.struct_schema.specs.Shape.{shape, no_map, map_of, maybe_of, shapes_of};
ghost use Rattle.struct_schema.specs.ShapeOf.{shape_of, own_of};
ghost use Rattle.schema_reading.specs.Words.{word};
ghost use Rattle.schema_reading.specs.ShapeRead.{shape_read, inner_read, map_read, shapes_read, with_default};
ghost use Rattle.schema_reading.specs.Visit.{first};
ghost use Rattle.schema_reading.specs.Visits.{visits, object_visits, inner_visits, map_visits, each_visits, default_visits, first_refusal};
ghost use Rattle.schema_reading.specs.Told.{NamesSchemaFault, StopsSchemaReading, Passes};

use crate::defaults::default_allowed;
use crate::kinds::{node_kind, value_at};
use crate::own::read_own;
use crate::tries::{try_additional, try_items, try_keyword, try_meta, try_type};
use crate::trouble::{SchemaFault, Stop, refused_here, under_name};
use crate::words::{Keyword, limit_word, passed_type};
use kj_value::{JFields, JVal, Txt, copy};
use std::alloc::Global;
use struct_schema::{Schema, SchemaBox, SchemaMap};

/// How deep nodes may be nested below the root.
pub const MAX_NESTING: u32 = 32;

/// How many nodes a schema may have, the root among them. What the root passes over doesn't count.
pub const MAX_NODES: u32 = 1024;

/// How deep a default may be.
pub const MAX_DEFAULT_DEPTH: u32 = 32;

/// The schema that the document spells, or the first keyword that isn't allowed: nodes are visited from the
/// root, keywords by name, then properties by name; the schema under `items` or `additionalProperties` at
/// that keyword's place, and a node's default last. What must be there and isn't is refused in the place of
/// its name, a document or a property that is no object at `type`, and a node that is too deep or one too
/// many as `Limit`. `NoMemory` may come anywhere.
///
/// The walk is linear in the document times the logarithm of the names of a level, but for a default, where
/// each object is held against all properties of its node.
pub fn read_schema(alloc: Global, doc: &JVal) -> Result<Schema, SchemaFault>
    ensures read { IfOk result (λ s. shape_of s ≡ shape_read true (json doc.now)) }
    ensures own_defaults { IfOk result (λ s. HasOwnDefaults (shape_of s)) }
    ensures allowed { OnOk result (first_refusal (json doc.now) ≡ None) }
    ensures refused { IfErr result (λ e. NamesSchemaFault (first_refusal (json doc.now)) e) }
{
    let mut nodes = 0;
    match read_node(alloc, true, 0, &mut nodes, doc) {
        Ok(schema) => Ok(schema),
        Err(Stop::Starved) => Err(SchemaFault::NoMemory),
        Err(Stop::Found(spot)) => Err(SchemaFault::Refused {
            path: spot.path,
            keyword: spot.keyword,
        }),
    }
}

// The schema with those inside it.
fn with_parts(
    mut own: Schema,
    properties: Option<SchemaMap>,
    additional: Option<SchemaBox>,
    items: Option<SchemaBox>,
) -> Schema
    ensures { shape_of result
        ≡ shape (own_of own) (map_of properties) (maybe_of additional) (maybe_of items) }
{
    own.properties = properties;
    own.additional = additional;
    own.items = items;
    own
}

fn with_default(mut s: Schema, value: Option<JVal>) -> Schema
    ensures { shape_of result ≡ with_default (option_map json value) (shape_of s) }
{
    s.default_value = value;
    s
}

// The default of a node that has this schema without it.
fn read_default(
    alloc: Global,
    root: bool,
    s: &Schema,
    fields: &JFields,
) -> Result<Option<JVal>, Stop>
    ensures read { IfOk result (λ o. option_map json o
        ≡ value_at (word Keyword.Default) (members_of fields.now)) }
    ensures walk { let o = first 0 (default_visits root (shape_of s.now)
        (value_at (word Keyword.Default) (members_of fields.now))) in
        MatchResult result (λ _. o ≡ None) (λ e. StopsSchemaReading o e) }
{
    match value_at(fields, Keyword::Default) {
        None => Ok(None),
        Some(v) => {
            let allowed = default_allowed(alloc, root, s, v);
            try_keyword(alloc, Keyword::Default, allowed)?;
            Ok(Some(copy(alloc, v)?))
        }
    }
}

// The object under `properties`.
fn properties_of(fields: &JFields) -> Option<&JFields>
    ensures { MatchOption result
        ((root : Bool) → (d : ℕ) → (map_visits root d (members_of fields.now) ≡ []) × (map_read root (members_of fields.now) ≡ no_map))
        (λ named. value_at (word Keyword.Properties) (members_of fields.now)
        ≡ Some (object (members_of named.now))) }
{
    match value_at(fields, Keyword::Properties) {
        None => None,
        Some(JVal::Obj(named)) => Some(named),
        Some(JVal::Null) => None,
        Some(JVal::Bool(_)) => None,
        Some(JVal::Int(_)) => None,
        Some(JVal::Text(_)) => None,
        Some(JVal::List(_)) => None,
    }
}

// A node so deep below the root, after so many others.
#[cycle(read_node)]
fn read_node(
    alloc: Global,
    root: bool,
    depth: u32,
    nodes: &mut u32,
    doc: &JVal,
) -> Result<Schema, Stop>
    requires { depth ≤ MAX_NESTING + 1 }
    ensures read { IfOk result (λ s. shape_of s ≡ shape_read root (json doc.now)) }
    ensures walk { let v = visits root depth (json doc.now) in
        MatchResult result (λ _. Passes nodes.old nodes.new v) (λ e. StopsSchemaReading (first nodes.old v) e) }
{
    if *nodes >= MAX_NODES {
        return Err(refused_here(alloc, limit_word()));
    }
    if depth > MAX_NESTING {
        return Err(refused_here(alloc, limit_word()));
    }
    *nodes += 1;
    match doc {
        JVal::Obj(fields) => read_object(alloc, root, depth, nodes, fields),
        _ => Err(refused_here(alloc, Keyword::Kind.word())),
    }
}

// A node that is an object, once it is counted.
#[cycle(read_node)]
fn read_object(
    alloc: Global,
    root: bool,
    depth: u32,
    nodes: &mut u32,
    fields: &JFields,
) -> Result<Schema, Stop>
    requires { depth ≤ MAX_NESTING }
    ensures read { IfOk result (λ s. shape_of s ≡ shape_read root (object (members_of fields.now))) }
    ensures walk { let v = object_visits root depth (members_of fields.now) in
        MatchResult result (λ _. Passes nodes.old nodes.new v) (λ e. StopsSchemaReading (first nodes.old v) e) }
{
    let kind = node_kind(fields);
    match try_additional(alloc, kind, fields) {
        Ok(()) => {}
        Err(stop) => return Err(stop),
    }
    let additional = match read_inner(alloc, Keyword::Additional, depth, nodes, fields) {
        Ok(inner) => inner,
        Err(stop) => return Err(stop),
    };
    match try_items(alloc, kind, fields) {
        Ok(()) => {}
        Err(stop) => return Err(stop),
    }
    let items = match read_inner(alloc, Keyword::Items, depth, nodes, fields) {
        Ok(inner) => inner,
        Err(stop) => return Err(stop),
    };
    match try_type(alloc, root, kind, fields) {
        Ok(()) => {}
        Err(stop) => return Err(stop),
    }
    let properties = match read_properties(alloc, root, depth, nodes, fields) {
        Ok(map) => map,
        Err(stop) => return Err(stop),
    };
    let own = read_own(alloc, root, fields)?;
    let bare = with_parts(own, properties, additional, items);
    match read_default(alloc, root, &bare, fields) {
        Ok(value) => Ok(with_default(bare, value)),
        Err(stop) => Err(stop),
    }
}

// The schema under `additionalProperties` or `items`.
#[cycle(read_node)]
fn read_inner(
    alloc: Global,
    keyword: Keyword,
    depth: u32,
    nodes: &mut u32,
    fields: &JFields,
) -> Result<Option<SchemaBox>, Stop>
    requires { depth ≤ MAX_NESTING }
    ensures read { IfOk result (λ m. maybe_of m ≡ inner_read keyword (members_of fields.now)) }
    ensures walk { let v = inner_visits keyword depth (members_of fields.now) in
        MatchResult result (λ _. Passes nodes.old nodes.new v) (λ e. StopsSchemaReading (first nodes.old v) e) }
{
    match value_at(fields, keyword) {
        None => Ok(None),
        Some(doc) => match read_node(alloc, false, depth + 1, nodes, doc) {
            Err(stop) => Err(under_name(alloc, keyword.word(), stop)),
            Ok(schema) => Ok(Some(SchemaBox::new(alloc, schema)?)),
        },
    }
}

// The schemas under `properties`.
#[cycle(read_node)]
fn read_properties(
    alloc: Global,
    root: bool,
    depth: u32,
    nodes: &mut u32,
    fields: &JFields,
) -> Result<Option<SchemaMap>, Stop>
    requires { depth ≤ MAX_NESTING }
    ensures read { IfOk result (λ m. map_of m ≡ map_read root (members_of fields.now)) }
    ensures walk { let v = map_visits root depth (members_of fields.now) in
        MatchResult result (λ _. Passes nodes.old nodes.new v) (λ e. StopsSchemaReading (first nodes.old v) e) }
{
    match properties_of(fields) {
        None => Ok(None),
        Some(named) => match read_map(alloc, root, depth, nodes, named) {
            Err(stop) => Err(under_name(alloc, Keyword::Properties.word(), stop)),
            Ok(map) => Ok(Some(map)),
        },
    }
}

#[cycle(read_node)]
fn read_map(
    alloc: Global,
    root: bool,
    depth: u32,
    nodes: &mut u32,
    named: &JFields,
) -> Result<SchemaMap, Stop>
    requires { depth ≤ MAX_NESTING }
    ensures read { IfOk result (λ m. shapes_of m ≡ shapes_read root (members_of named.now)) }
    ensures walk { let v = each_visits root depth (members_of named.now) in
        MatchResult result (λ _. Passes nodes.old nodes.new v) (λ e. StopsSchemaReading (first nodes.old v) e) }
{
    let mut map = SchemaMap::new(alloc);
    for f in named.as_slice() {
        match passed_type(root, f.name.as_str()) {
            Some(text) => match try_meta(alloc, text, &f.value) {
                Err(stop) => return Err(under_name(alloc, f.name.as_str(), stop)),
                Ok(()) => {}
            },
            None => match read_node(alloc, false, depth + 1, nodes, &f.value) {
                Err(stop) => return Err(under_name(alloc, f.name.as_str(), stop)),
                Ok(schema) => {
                    map.push(Txt::of(alloc, f.name.as_str())?, schema)?;
                }
            },
        }
    }
    Ok(map)
}
