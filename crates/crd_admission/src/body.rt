//! The fields of a request's body.
ghost use Rattle.std.specs.Prelude.{◌≡◌, ◌≤◌, Some, IfOk, IfErr, MatchOption};
ghost use Rattle.kj_value.specs.Json.{object, members_of, depth};
ghost use Rattle.kj_value.specs.Reading.{Reads};
ghost use Rattle.kj_value.specs.Seen.{json};
ghost use Rattle.api_calls.specs.Cause.{not_object};
ghost use Rattle.api_calls.specs.Meaning.{Request, bad_request};
ghost use Rattle.api_calls.specs.Versions.{Refused, request_of};
ghost use Rattle.crd_meaning.specs.Definition.{Definition};
ghost use Rattle.crd_meaning.specs.Request.{early};
ghost use Rattle.crd_admission.specs.Steps.{RefusesBody};

use api_calls::{AdmitFault, Incoming, OBJECT_LEVELS, Why};
use kj_value::{JFields, JVal, JsonFault, read};
use std::alloc::Global;

/// The fields of the object that the bytes are, within the levels of an object.
pub(crate) fn read_body(alloc: Global, input: &Incoming<'_>) -> Result<JFields, AdmitFault>
    ensures reads { IfOk result (λ fs. Reads input.now.bytes.now OBJECT_LEVELS (object (members_of fs))) }
    ensures levels { IfOk result (λ fs. depth (object (members_of fs)) ≤ OBJECT_LEVELS) }
    ensures refused { (d : Definition) → IfErr result (Refused (RefusesBody d (request_of input.now)) ⊥) }
{
    match read(alloc, input.bytes, OBJECT_LEVELS) {
        Ok(v) => match fields_of(v) {
            Some(fields) => Ok(fields),
            None => Err(AdmitFault::BadRequest(Why::NotObject)),
        },
        Err(JsonFault::NotJson) => Err(AdmitFault::BadRequest(Why::NotJson)),
        Err(JsonFault::TooDeep) => Err(AdmitFault::BadRequest(Why::TooDeep)),
        Err(JsonFault::NotWhole) => Err(AdmitFault::BadRequest(Why::NotWhole)),
        Err(JsonFault::NoMemory) => Err(AdmitFault::NoMemory),
    }
}

fn fields_of(v: JVal) -> Option<JFields>
    ensures { MatchOption result ((d : Definition) (r : Request) → early d r (json v) ≡ Some (bad_request not_object))
        (λ fs. json v ≡ object (members_of fs)) }
{
    match v {
        JVal::Obj(fields) => Some(fields),
        _ => None,
    }
}
