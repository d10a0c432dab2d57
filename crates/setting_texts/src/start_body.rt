//! The body of a start of a migration.
ghost use Rattle.std.specs.Prelude.{◌≡◌, ◌≢◌, ◌↔◌, IfErr, IfOk, IsTrue, MatchOption, Some, codes, option_map};
ghost use Rattle.kj_value.specs.Fields.{Pairs, field};
ghost use Rattle.kj_value.specs.Json.{members_of, object, text};
ghost use Rattle.kj_value.specs.Seen.{json};
ghost use Rattle.kj_value.specs.declared.rule.Rule.{Rule};
ghost use Rattle.api_calls.specs.Bodies.{IsOfDefinition, IsOfKind, ReadsObject, RefusesStart, Starts, fields_in, text_in};
ghost use Rattle.api_calls.specs.Cause.{cause_of};
ghost use Rattle.api_calls.specs.Documents.{migration_kind, migration_version};
ghost use Rattle.api_calls.specs.Versions.{Refused};

use api_calls::{AdmitFault, Cause, OBJECT_LEVELS, Versions, Why};
use call_texts::Context;
use kj_value::{JFields, JVal, JsonFault, NoMemory, Rule, Txt, read};
use kube_meta::name_ok;
use std::alloc::Global;

fn into_fields(v: JVal) -> Option<JFields>
    ensures { MatchOption result
        ((fields : Pairs) → json v ≢ object (members_of fields))
        (λ fields. json v ≡ object (members_of fields)) }
{
    match v {
        JVal::Obj(fields) => Some(fields),
        _ => None,
    }
}

fn value_at<'a>(v: &'a JVal, name: &str) -> Option<&'a JVal>
    ensures { option_map (λ w. json w.now) result ≡ field name.now (fields_in (Some (json v.now))) }
{
    match v {
        JVal::Obj(fields) => fields.get(name),
        _ => None,
    }
}

// The value at a name of the object that stands there.
fn inside<'a>(v: Option<&'a JVal>, name: &str) -> Option<&'a JVal>
    ensures { option_map (λ w. json w.now) result ≡ field name.now (fields_in (option_map (λ w. json w.now) v.entry)) }
{
    match v {
        None => None,
        Some(v) => value_at(v, name),
    }
}

// The text that stands there; anything else is read as the empty one.
fn text_in(v: Option<&JVal>) -> &str
    ensures { result.now ≡ text_in (option_map (λ w. json w.now) v.entry) }
{
    match v {
        Some(JVal::Text(t)) => t.as_str(),
        _ => "",
    }
}

fn is_text(v: &JVal, wanted: &str) -> bool
    ensures { IsTrue result ↔ (json v.now ≡ text wanted.now) }
{
    match v {
        JVal::Text(t) => t.as_str() == wanted,
        _ => false,
    }
}

// Whether the text stands there.
fn says(v: Option<&JVal>, wanted: &str) -> bool
    ensures { IsTrue result ↔ (option_map (λ w. json w.now) v.entry ≡ Some (text wanted.now)) }
{
    match v {
        None => false,
        Some(v) => is_text(v, wanted),
    }
}

fn is_migration(fields: &JFields) -> bool
    ensures { IsTrue result ↔ (field (codes "kind") fields.now ≡ Some (text migration_kind)) }
{
    says(fields.get("kind"), "StorageVersionMigration")
}

fn is_of_version(fields: &JFields) -> bool
    ensures { IsTrue result ↔ (field (codes "apiVersion") fields.now ≡ Some (text migration_version)) }
{
    says(fields.get("apiVersion"), "storagemigration.k8s.io/v1alpha1")
}

// A field breaks a rule.
fn broken(alloc: Global, path: &str, rule: Rule) -> Result<Cause, NoMemory>
    ensures { IfOk result (λ c. cause_of c ≡ record { field = path.now; rule = rule }) }
{
    let field = Txt::of(alloc, path)?;
    Ok(Cause { field, rule })
}

// The fields of the object that the body is.
fn read_start<V: Versions>(lent: &Context<'_, V>, bytes: &[u8]) -> Result<JFields, AdmitFault>
    ensures reads { IfOk result (ReadsObject bytes.now) }
    ensures refused { IfErr result (Refused (RefusesStart (V.meaning lent.now.versions.now) bytes.now) ⊥) }
{
    let v = match read(lent.alloc, bytes, OBJECT_LEVELS) {
        Ok(v) => v,
        Err(JsonFault::NotJson) => return Err(AdmitFault::BadRequest(Why::NotJson)),
        Err(JsonFault::TooDeep) => return Err(AdmitFault::BadRequest(Why::TooDeep)),
        Err(JsonFault::NotWhole) => return Err(AdmitFault::BadRequest(Why::NotWhole)),
        Err(JsonFault::NoMemory) => return Err(AdmitFault::NoMemory),
    };
    match into_fields(v) {
        Some(fields) => Ok(fields),
        None => Err(AdmitFault::BadRequest(Why::NotObject)),
    }
}

// The fields of the StorageVersionMigration that the body is.
fn migration_fields<V: Versions>(lent: &Context<'_, V>, bytes: &[u8]) -> Result<JFields, AdmitFault>
    ensures reads { IfOk result (ReadsObject bytes.now) }
    ensures kind { IfOk result (IsOfKind migration_version migration_kind) }
    ensures refused { IfErr result (Refused (RefusesStart (V.meaning lent.now.versions.now) bytes.now) ⊥) }
{
    let fields = read_start(lent, bytes)?;
    if !is_of_version(&fields) {
        return Err(AdmitFault::BadRequest(Why::WrongVersion));
    }
    if !is_migration(&fields) {
        return Err(AdmitFault::BadRequest(Why::WrongKind));
    }
    Ok(fields)
}

// Whether `spec.resource` names the definition's group and plural.
fn is_of_definition<V: Versions>(lent: &Context<'_, V>, fields: &JFields) -> bool
    ensures { IsTrue result ↔ IsOfDefinition (V.meaning lent.now.versions.now) fields.now }
{
    let resource = inside(fields.get("spec"), "resource");
    says(inside(resource, "group"), lent.versions.group().as_str())
        && says(
            inside(resource, "resource"),
            lent.versions.plural().as_str(),
        )
}

/// The name of the migration that a body starts (StorageVersionMigration of storagemigration.k8s.io/v1alpha1). Refused
/// are, in this order: as a bad request what is no JSON value of 64 levels with whole numbers, no object, or of another
/// `apiVersion` or `kind`; as invalid a `metadata.name` that is no name of an object (`Name`), and a `spec.resource` that
/// isn't the definition's group and plural (`Wrong`). Other fields aren't looked at. `Tool` never comes.
pub(crate) fn started_name<V: Versions>(
    lent: &Context<'_, V>,
    bytes: &[u8],
) -> Result<Txt, AdmitFault>
    ensures starts { IfOk result (λ t. Starts (V.meaning lent.now.versions.now) bytes.now t.bytes) }
    ensures refused { IfErr result (Refused (RefusesStart (V.meaning lent.now.versions.now) bytes.now) ⊥) }
{
    let fields = migration_fields(lent, bytes)?;
    let given = text_in(inside(fields.get("metadata"), "name"));
    let name = Txt::of(lent.alloc, given)?;
    if !name_ok(name.as_str()) {
        let cause = broken(lent.alloc, "metadata.name", Rule::Name)?;
        return Err(AdmitFault::Invalid { name, cause });
    }
    if !is_of_definition(lent, &fields) {
        let cause = broken(lent.alloc, "spec.resource", Rule::Wrong)?;
        return Err(AdmitFault::Invalid { name, cause });
    }
    Ok(name)
}
