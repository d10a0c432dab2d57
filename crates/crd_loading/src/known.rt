//! The rules of known versions.
ghost use Rattle.std.specs.Prelude.{◌≡◌, IfOk, map};
ghost use Rattle.kj_value.specs.Json.{object, members_of};
ghost use Rattle.kj_value.specs.Seen.{json};
ghost use Rattle.crd_reading.specs.Seen.{version_of};
ghost use Rattle.crd_reading.specs.Offered.{has_version};
ghost use Rattle.crd_loading.specs.Known.{known_spoke, known_spokes, known_hub, known_field, known_rules, mapped};

use crate::words::{hub_name, spokes_name};
use crd_reading::Version;
use kj_value::{Field, JFields, JVal, NoMemory};
use std::alloc::Global;

fn has_version(versions: &[Version], name: &str) -> bool
    ensures { result ≡ has_version name.now (map version_of versions.now) }
{
    for v in versions {
        if name == v.name.as_str() {
            return true;
        }
    }
    false
}

fn known_spoke(versions: &[Version], name: &str, v: JVal) -> JVal
    ensures { json result ≡ known_spoke (map version_of versions.now) name.now (json v) }
{
    if has_version(versions, name) {
        v
    } else {
        JVal::Null
    }
}

fn known_spokes_of(
    alloc: Global,
    versions: &[Version],
    fields: JFields,
) -> Result<JFields, NoMemory>
    ensures { IfOk result
        (λ fs. fs ≡ mapped (known_spoke (map version_of versions.now)) fields) }
{
    let mut known = JFields::new(alloc);
    for f in fields.into_vec() {
        let Field { name, value } = f;
        let spoke = known_spoke(versions, name.as_str(), value);
        known.set(name, spoke)?;
    }
    Ok(known)
}

#[tactic(auto, using(crate::proofs::Fields::each_mapped))]
fn known_spokes(alloc: Global, versions: &[Version], v: JVal) -> Result<JVal, NoMemory>
    ensures { IfOk result (λ w. json w ≡ known_spokes (map version_of versions.now) (json v)) }
{
    match v {
        JVal::Obj(fields) => Ok(JVal::Obj(known_spokes_of(alloc, versions, fields)?)),
        JVal::Null => Ok(JVal::Null),
        JVal::Bool(b) => Ok(JVal::Bool(b)),
        JVal::Int(n) => Ok(JVal::Int(n)),
        JVal::Text(t) => Ok(JVal::Text(t)),
        JVal::List(items) => Ok(JVal::List(items)),
    }
}

fn known_hub(versions: &[Version], v: JVal) -> JVal
    ensures { json result ≡ known_hub (map version_of versions.now) (json v) }
{
    match v {
        JVal::Text(t) => {
            if has_version(versions, t.as_str()) {
                JVal::Text(t)
            } else {
                JVal::Null
            }
        }
        JVal::Null => JVal::Null,
        JVal::Bool(b) => JVal::Bool(b),
        JVal::Int(n) => JVal::Int(n),
        JVal::List(items) => JVal::List(items),
        JVal::Obj(fields) => JVal::Obj(fields),
    }
}

fn known_field(alloc: Global, versions: &[Version], name: &str, v: JVal) -> Result<JVal, NoMemory>
    ensures { IfOk result
        (λ w. json w ≡ known_field (map version_of versions.now) name.now (json v)) }
{
    if name == hub_name() {
        return Ok(known_hub(versions, v));
    }
    if name == spokes_name() {
        return known_spokes(alloc, versions, v);
    }
    Ok(v)
}

fn known_fields(alloc: Global, versions: &[Version], fields: JFields) -> Result<JFields, NoMemory>
    ensures { IfOk result
        (λ fs. fs ≡ mapped (known_field (map version_of versions.now)) fields) }
{
    let mut known = JFields::new(alloc);
    for f in fields.into_vec() {
        let Field { name, value } = f;
        let field = known_field(alloc, versions, name.as_str(), value)?;
        known.set(name, field)?;
    }
    Ok(known)
}

// The document with a null for each hub and spoke that is no version.
#[tactic(auto, using(crate::proofs::Fields::each_mapped))]
pub(crate) fn known_rules(
    alloc: Global,
    versions: &[Version],
    document: JVal,
) -> Result<JVal, NoMemory>
    ensures { IfOk result
        (λ w. json w ≡ known_rules (map version_of versions.now) (json document)) }
{
    match document {
        JVal::Obj(fields) => Ok(JVal::Obj(known_fields(alloc, versions, fields)?)),
        JVal::Null => Ok(JVal::Null),
        JVal::Bool(b) => Ok(JVal::Bool(b)),
        JVal::Int(n) => Ok(JVal::Int(n)),
        JVal::Text(t) => Ok(JVal::Text(t)),
        JVal::List(items) => Ok(JVal::List(items)),
    }
}
