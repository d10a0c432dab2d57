//! What is admitted: a document with a name and the one property.
ghost use Rattle.std.specs.Prelude.{◌≡◌, ◌<◌, true, IfOk, IfErr, None, MatchOption, List, ℕ, Option, option_map};
ghost use Rattle.kj_value.specs.Seen.{json};
ghost use Rattle.kube_meta.specs.Document.{document};
ghost use Rattle.kube_meta.specs.Names.{is_namespace};
ghost use Rattle.kube_meta.specs.View.{object_of};
ghost use Rattle.api_calls.specs.Meaning.{Weighs};
ghost use Rattle.api_calls.specs.Versions.{Refused, request_of};
ghost use Rattle.versions_fixture.specs.Parts.{bare, object_at, parts_of};
ghost use Rattle.versions_fixture.specs.Definition.{Admits, IsFault, FixtureRefuses, Submits, two_names};

use crate::parts::{Parts, Version, made, weight, written};
use crate::reading::parts_in;
use api_calls::{AdmitFault, Admitted, Cause, Incoming, OBJECT_LEVELS, Why};
use kj_value::{JVal, JsonFault, NoMemory, Rule, Txt, read, same};
use kube_meta::name_ok;
use std::alloc::Global;

/// The most chunks of 256 bytes that an object's measure takes at any version.
pub const MOST_CHUNKS: u64 = 1_024;

// What is submitted by a value that was read.
fn submitted<'a>(
    alloc: Global,
    version: Version,
    v: &'a JVal,
) -> Result<Option<Parts<'a>>, NoMemory>
    ensures { IfOk result (λ found. MatchOption found
        ((name : List ℕ) (value : Option (List ℕ)) → json v.entry.now ≡ document (object_at version (bare name value)) → ⊥)
        (λ p. json v.entry.now ≡ document (object_at version (bare p.name.now (option_map (λ s. s.now) p.value))))) }
{
    let Some(found) = parts_in(version, v) else {
        return Ok(None);
    };
    let bare = Parts {
        name: found.name,
        namespace: "",
        created: None,
        deleted: None,
        generation: 0,
        value: found.value,
    };
    let document = written(alloc, version, &bare)?;
    if same(&document, v) {
        Ok(Some(bare))
    } else {
        Ok(None)
    }
}

fn invalid(alloc: Global, name: &str, field: &str, rule: Rule) -> Result<AdmitFault, NoMemory>
    ensures { IfOk result (IsFault name.now field.now rule) }
{
    let name = Txt::of(alloc, name)?;
    let field = Txt::of(alloc, field)?;
    Ok(AdmitFault::Invalid {
        name,
        cause: Cause { field, rule },
    })
}

// What is admitted of a name and a value.
fn entered(alloc: Global, input: &Incoming<'_>, p: &Parts<'_>) -> Result<Admitted, AdmitFault>
    requires ns { is_namespace input.now.ns.now ≡ true }
    requires submits { Submits (request_of input.now) p.now.name.now (option_map (λ s. s.now) p.now.value) }
    ensures ok { IfOk result (λ a. Admits (request_of input.now) (object_of a.hub) a.expected) }
    ensures weight { IfOk result (λ a. Weighs two_names (object_of a.hub) a.weight) }
    ensures shape { IfOk result (λ a. a.shape ≡ None) }
    ensures refused { IfErr result (Refused (FixtureRefuses (request_of input.now)) ⊥) }
{
    if !name_ok(p.name) {
        return Err(invalid(alloc, p.name, "metadata.name", Rule::Name)?);
    }
    if input.name.is_some() {
        return Err(invalid(alloc, p.name, "metadata.resourceVersion", Rule::Required)?);
    }
    let hub = Parts {
        name: p.name,
        namespace: input.ns,
        created: None,
        deleted: None,
        generation: 0,
        value: p.value,
    };
    let weight = weight(alloc, &hub)?;
    if weight > MOST_CHUNKS {
        return Err(invalid(alloc, p.name, "object", Rule::Size)?);
    }
    let hub = made(alloc, Version::V1, &hub)?;
    Ok(Admitted {
        hub,
        weight,
        expected: None,
        shape: None,
    })
}

/// The hub value of a request, with its weight.
pub fn admitted(alloc: Global, input: &Incoming<'_>) -> Result<Admitted, AdmitFault>
    requires known { input.now.version < 2 }
    requires ns { is_namespace input.now.ns.now ≡ true }
    ensures ok { IfOk result (λ a. Admits (request_of input.now) (object_of a.hub) a.expected) }
    ensures weight { IfOk result (λ a. Weighs two_names (object_of a.hub) a.weight) }
    ensures shape { IfOk result (λ a. a.shape ≡ None) }
    ensures refused { IfErr result (Refused (FixtureRefuses (request_of input.now)) ⊥) }
{
    let version = Version::at(input.version);
    let v = match read(alloc, input.bytes, OBJECT_LEVELS) {
        Ok(v) => v,
        Err(JsonFault::NotJson) => return Err(AdmitFault::BadRequest(Why::NotJson)),
        Err(JsonFault::TooDeep) => return Err(AdmitFault::BadRequest(Why::TooDeep)),
        Err(JsonFault::NotWhole) => return Err(AdmitFault::BadRequest(Why::NotWhole)),
        Err(JsonFault::NoMemory) => return Err(AdmitFault::NoMemory),
    };
    match submitted(alloc, version, &v) {
        Ok(Some(p)) => entered(alloc, input, &p),
        Ok(None) => Err(AdmitFault::BadRequest(Why::NotObject)),
        Err(NoMemory) => Err(AdmitFault::NoMemory),
    }
}
