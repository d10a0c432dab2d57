//! The versions of a document with their schemas.
ghost use Rattle.std.specs.Prelude.{◌≡◌, IfOk, IfErr, OnOk, option_map, map, None, Some, true};
ghost use Rattle.kj_value.specs.Json.{items_of};
ghost use Rattle.kj_value.specs.Seen.{json};
ghost use Rattle.struct_schema.specs.ShapeOf.{shape_of};
ghost use Rattle.struct_schema.specs.OwnDefaults.{HasOwnDefaults};
ghost use Rattle.schema_reading.specs.ShapeRead.{shape_read};
ghost use Rattle.schema_reading.specs.Visits.{first_refusal};
ghost use Rattle.schema_reading.specs.Told.{NamesSchemaFault};
ghost use Rattle.crd_reading.specs.Seen.{version_of};
ghost use Rattle.crd_reading.specs.Spelled.{or_null, schema_in, version_read, versions_read};
ghost use Rattle.crd_reading.specs.Whole.{HaveOwnDefaults};
ghost use Rattle.crd_reading.specs.First.{path_of_text, of_schema, under_schema, schema_refusal, schemas_refusal};
ghost use Rattle.crd_reading.specs.Told.{found_of, refused_in};

use crate::definition::Version;
use crate::found::{Found, in_item, in_name};
use crate::parts::{inside, is_yes, text_in};
use crate::words::Word;
use kj_value::{JVal, NoMemory, Txt};
use schema_reading::{SchemaFault, read_schema};
use std::alloc::Global;
use struct_schema::Schema;

// What is refused in the schema of the version with a number, in the whole document.
fn in_schema(alloc: Global, i: usize, found: Found) -> Result<Found, NoMemory>
    ensures { IfOk result (λ f. Some (found_of f) ≡ under_schema i (Some (found_of found))) }
{
    let schema = in_name(alloc, Word::OpenApi.text(), found)?;
    let version = in_name(alloc, Word::Schema.text(), schema)?;
    let item = in_item(alloc, i, version)?;
    let versions = in_name(alloc, Word::Versions.text(), item)?;
    in_name(alloc, Word::Spec.text(), versions)
}

// The schema of a version, as a document.
fn schema_in(v: &JVal) -> Option<&JVal>
    ensures { or_null (option_map (λ w. json w.now) result) ≡ schema_in (json v.now) }
{
    inside(inside(Some(v), Word::Schema), Word::OpenApi)
}

// A document, or null where there is none, as a schema.
fn read_given(alloc: Global, v: Option<&JVal>) -> Result<Schema, SchemaFault>
    ensures read { IfOk result (λ s. shape_of s
        ≡ shape_read true (or_null (option_map (λ w. json w.now) v.entry))) }
    ensures own_defaults { IfOk result (λ s. HasOwnDefaults (shape_of s)) }
    ensures allowed { OnOk result
        (first_refusal (or_null (option_map (λ w. json w.now) v.entry)) ≡ None) }
    ensures refused { IfErr result (λ e.
        NamesSchemaFault (first_refusal (or_null (option_map (λ w. json w.now) v.entry))) e) }
{
    match v {
        None => read_schema(alloc, &JVal::Null),
        Some(v) => read_schema(alloc, v),
    }
}

// What is refused in a schema.
fn found(path: Txt, keyword: Txt) -> Found
    ensures { found_of result ≡ record { path = path_of_text path.bytes; why = keyword.bytes } }
{
    let named = path.len() > 0;
    Found {
        path,
        named,
        word: keyword,
    }
}

fn read_schema_in(alloc: Global, v: &JVal) -> Result<Result<Schema, Found>, NoMemory>
    ensures read { IfOk result (λ r. IfOk r
        (λ s. shape_of s ≡ shape_read true (schema_in (json v.now)))) }
    ensures own_defaults { IfOk result (λ r. IfOk r (λ s. HasOwnDefaults (shape_of s))) }
    ensures walk { IfOk result (λ r. refused_in r
        ≡ of_schema (first_refusal (schema_in (json v.now)))) }
{
    match read_given(alloc, schema_in(v)) {
        Ok(schema) => Ok(Ok(schema)),
        Err(SchemaFault::Refused { path, keyword }) => Ok(Err(found(path, keyword))),
        Err(SchemaFault::NoMemory) => Err(NoMemory),
    }
}

// The version with a number.
fn read_version(alloc: Global, i: usize, v: &JVal) -> Result<Result<Version, Found>, NoMemory>
    ensures read { IfOk result (λ r. IfOk r (λ d. version_of d ≡ version_read (json v.now))) }
    ensures own_defaults { IfOk result (λ r. IfOk r (λ d. HasOwnDefaults (shape_of d.schema))) }
    ensures walk { IfOk result (λ r. refused_in r ≡ schema_refusal i (json v.now)) }
{
    match read_schema_in(alloc, v)? {
        Err(found) => Ok(Err(in_schema(alloc, i, found)?)),
        Ok(schema) => {
            let name = Txt::of(alloc, text_in(inside(Some(v), Word::Name)))?;
            let served = is_yes(inside(Some(v), Word::Served));
            let storage = is_yes(inside(Some(v), Word::Storage));
            Ok(Ok(Version {
                name,
                served,
                storage,
                schema,
            }))
        }
    }
}

// The versions in order, or the first thing that is refused in their schemas.
pub(crate) fn read_versions(
    alloc: Global,
    items: &[JVal],
) -> Result<Result<Vec<Version>, Found>, NoMemory>
    ensures read { IfOk result (λ r. IfOk r
        (λ vs. map version_of vs.items ≡ versions_read (items_of (map json items.now)))) }
    ensures own_defaults { IfOk result (λ r. IfOk r
        (λ vs. HaveOwnDefaults (map version_of vs.items))) }
    ensures walk { IfOk result (λ r. refused_in r
        ≡ schemas_refusal 0 (items_of (map json items.now))) }
{
    let mut versions = Vec::new(alloc);
    for i in 0..items.len() {
        match read_version(alloc, i, &items[i])? {
            Err(found) => return Ok(Err(found)),
            Ok(version) => versions.push(version)?,
        }
    }
    Ok(Ok(versions))
}
