//! The object that a request submits, before its body is filled.
ghost use Rattle.std.specs.Prelude.{◌≡◌, ◌<◌, true, None, length, IfOk, IfErr};
ghost use Rattle.kube_meta.specs.Names.{is_namespace};
ghost use Rattle.kube_meta.specs.View.{meta_of, object_of};
ghost use Rattle.object_reading.specs.Keeping.{KeepsRules};
ghost use Rattle.object_reading.specs.Parts.{parts_in, submitted};
ghost use Rattle.api_calls.specs.Versions.{Refused, request_of};
ghost use Rattle.crd_meaning.specs.Request.{first_there, rows, placed, expected_of};
ghost use Rattle.crd_admission.specs.Steps.{plain, IsFirst};

use crate::asking::judge_path;
use crate::metadata::submitted;
use crate::numbers::judge_number;
use crate::placing::{Taken, placed};
use api_calls::{AdmitFault, Incoming};
use crd_reading::Definition;
use kj_value::JFields;
use kube_meta::Object;
use std::alloc::Global;

/// The object that a document of these fields submits in the path's namespace, with its number beside it, or the first
/// fault of the table.
pub(crate) fn taken(
    alloc: Global,
    definition: &Definition,
    input: &Incoming<'_>,
    fields: JFields,
) -> Result<Taken, AdmitFault>
    requires known { input.now.version < length definition.now.versions }
    requires ns { is_namespace input.now.ns.now ≡ true }
    ensures nothing { IfOk result (λ _. first_there (rows (plain definition.now) (request_of input.now) fields) ≡ None) }
    ensures object { IfOk result (λ p. object_of p.object ≡ placed input.now.ns.now (submitted (parts_in fields))) }
    ensures number { IfOk result (λ p. p.expected ≡ expected_of (submitted (parts_in fields))) }
    ensures rules { IfOk result (λ p. KeepsRules (meta_of p.object.meta)) }
    ensures refused { IfErr result (Refused (IsFirst (rows (plain definition.now) (request_of input.now) fields)) ⊥) }
{
    let o = judged(alloc, definition, input, fields)?;
    Ok(placed(alloc, input.ns, o)?)
}

// The object with its number, where nothing of the table is there.
fn judged(
    alloc: Global,
    definition: &Definition,
    input: &Incoming<'_>,
    fields: JFields,
) -> Result<Object, AdmitFault>
    requires { input.now.version < length definition.now.versions }
    ensures nothing { IfOk result (λ _. first_there (rows (plain definition.now) (request_of input.now) fields) ≡ None) }
    ensures object { IfOk result (λ o. object_of o ≡ submitted (parts_in fields)) }
    ensures rules { IfOk result (λ o. KeepsRules (meta_of o.meta)) }
    ensures refused { IfErr result (Refused (IsFirst (rows (plain definition.now) (request_of input.now) fields)) ⊥) }
{
    match judge_path(definition, input, &fields) {
        Ok(()) => {}
        Err(fault) => {
            drop(fields);
            return Err(fault);
        }
    }
    let o = submitted(alloc, definition.kind().as_str(), fields)?;
    match judge_number(alloc, input.name.is_some(), &o) {
        Ok(()) => Ok(o),
        Err(fault) => {
            drop(o);
            Err(fault)
        }
    }
}
