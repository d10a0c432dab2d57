//! An object's body, filled and then checked.
ghost use Rattle.std.specs.Prelude.{◌≡◌, true, None, IfOk, IfErr};
ghost use Rattle.kj_value.specs.Fields.{Pairs};
ghost use Rattle.kj_value.specs.Json.{object, members_of, Members};
ghost use Rattle.kj_value.specs.Seen.{json};
ghost use Rattle.kube_meta.specs.View.{meta_of, object_of};
ghost use Rattle.struct_schema.specs.Fault.{fault};
ghost use Rattle.struct_schema.specs.ShapeOf.{shape_of};
ghost use Rattle.struct_schema.specs.Valid.{valid};
ghost use Rattle.api_calls.specs.Versions.{Refused};
ghost use Rattle.crd_meaning.specs.Admission.{IsFilling};
ghost use Rattle.crd_meaning.specs.Refusal.{broken_at};
ghost use Rattle.crd_admission.specs.Steps.{BreaksRule, IsToldOf, TellsCause};

use api_calls::{AdmitFault, Cause};
use kj_value::{JFields, JVal, Txt};
use kube_meta::{Meta, Object};
use prune_default::{fill, one_filling};
use std::alloc::Global;
use std::mem;
use struct_schema::{CheckFault, Schema, check};

/// The object with its body filled, which breaks no rule of the schema. `Invalid` names the first rule that the filled body
/// breaks, at its path.
pub(crate) fn filled(alloc: Global, s: &Schema, o: Object) -> Result<Object, AdmitFault>
    ensures filling { IfOk result (λ p. IsFilling (shape_of s.now) o.body p.body) }
    ensures valid { IfOk result (λ p. valid (shape_of s.now) (object (members_of p.body)) ≡ true) }
    ensures rest { IfOk result (λ p. object_of p ≡ record (object_of o) { body = p.body }) }
    ensures refused { IfErr result (Refused (BreaksRule (shape_of s.now) (object_of o)) ⊥) }
{
    let Object {
        api_version,
        kind,
        meta,
        body,
    } = o;
    match filled_body(alloc, s, body) {
        Ok(body) => Ok(Object {
            api_version,
            kind,
            meta,
            body,
        }),
        Err(fault) => {
            drop(api_version);
            drop(kind);
            Err(broken(alloc, meta, fault))
        }
    }
}

// The fault of an object with these metadata.
fn broken(alloc: Global, meta: Meta, fault: CheckFault) -> AdmitFault
    ensures { Refused (IsToldOf (meta_of meta).name fault) ⊥ result }
{
    match fault {
        CheckFault::Broken { path, rule } => AdmitFault::Invalid {
            name: name_of(alloc, meta),
            cause: Cause { field: path, rule },
        },
        CheckFault::NoMemory => {
            drop(meta);
            AdmitFault::NoMemory
        }
    }
}

fn name_of(alloc: Global, m: Meta) -> Txt
    ensures { result.bytes ≡ (meta_of m).name }
{
    let mut rest = m;
    let name = mem::replace(&mut rest.name, Txt::of_string(String::new(alloc)));
    drop(rest);
    name
}

fn filled_body(alloc: Global, s: &Schema, body: JFields) -> Result<JFields, CheckFault>
    ensures filling { IfOk result (IsFilling (shape_of s.now) body) }
    ensures valid { IfOk result (λ k. valid (shape_of s.now) (object (members_of k)) ≡ true) }
    ensures broken { (k : Pairs) → IsFilling (shape_of s.now) body k
        → IfErr result (λ e. TellsCause e (broken_at (shape_of s.now) k)) }
{
    one_filling();
    match fill(alloc, s, JVal::Obj(body)) {
        Ok(v) => match check(alloc, s, &v) {
            Ok(()) => Ok(fields_of(v)),
            Err(fault) => {
                drop(v);
                Err(fault)
            }
        },
        Err(_) => Err(CheckFault::NoMemory),
    }
}

// The fields of a value that is an object.
fn fields_of(v: JVal) -> JFields
    requires { (ms : Members) × (json v ≡ object ms) }
    ensures { object (members_of result) ≡ json v }
{
    match v {
        JVal::Obj(fields) => fields,
        _ => unreachable!(),
    }
}
