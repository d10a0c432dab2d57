//! From a document to its object.
ghost use Rattle.std.specs.Prelude.{◌≡◌, None, IfOk, IfErr};
ghost use Rattle.kj_value.specs.Json.{object, members_of};
ghost use Rattle.kj_value.specs.Seen.{json};
ghost use Rattle.kube_meta.specs.View.{ObjectView, meta_of, object_of};
ghost use Rattle.kube_meta.specs.Document.{document};
ghost use Rattle.object_reading.specs.Refusal.{refusal, first_holding, judged, judged_unnamed, Tells};
ghost use Rattle.object_reading.specs.Parts.{meta_in, object_in, parts_in, submitted, submitted_meta};
ghost use Rattle.object_reading.specs.Written.{IsWritable, IsWritten};
ghost use Rattle.object_reading.specs.Keeping.{KeepsRules};

use crate::fault::ObjectFault;
use crate::judging::{judge, judge_unnamed};
use crate::parts::{meta_of, object_of, submitted, submitted_meta};
use kj_value::{JFields, JVal, NoMemory};
use kube_meta::{Meta, Object};
use std::alloc::Global;

/// The object of this kind that a document submits, whose parts are moved out of the document, or the first refusal in
/// the order of `ObjectFault`. The stamps, the generation and the uid are the server's and passed over, and so is any
/// field of the metadata that isn't known; a field of the metadata that is null is absent.
#[tactic(auto, using(crate::proofs::Lists::pairs_members), unfolding(crate::specs::Refusal::refusal))]
pub fn read_object(alloc: Global, doc: JVal, kind: &str) -> Result<Object, ObjectFault>
    ensures accepted { IfOk result (λ _. refusal kind.now (json doc) ≡ None) }
    ensures object { IfOk result (λ o. object_of o ≡ object_in (json doc)) }
    ensures rules { IfOk result (λ o. KeepsRules (meta_of o.meta)) }
    ensures whole { IfOk result (λ o. IsWritable (object_of o)) }
    ensures refused { IfErr result (λ e. Tells e (refusal kind.now (json doc))) }
{
    match doc {
        JVal::Obj(fields) => read_fields(alloc, fields, kind),
        _ => Err(ObjectFault::NotObject),
    }
}

fn read_fields(alloc: Global, fields: JFields, kind: &str) -> Result<Object, ObjectFault>
    ensures accepted { IfOk result (λ _. first_holding (judged kind.now fields) ≡ None) }
    ensures object { IfOk result (λ o. object_of o ≡ submitted (parts_in fields)) }
    ensures rules { IfOk result (λ o. KeepsRules (meta_of o.meta)) }
    ensures whole { IfOk result (λ o. IsWritable (object_of o)) }
    ensures refused { IfErr result (λ e. Tells e (first_holding (judged kind.now fields))) }
{
    judge(alloc, &fields, kind)?;
    let o = object_of(alloc, fields)?;
    Ok(submitted(o))
}

/// The metadata that these fields submit, whose parts are moved out of them, or the first refusal of them. Their name and
/// their namespace aren't judged; what `read_object` passes over is passed over here too.
pub fn read_unnamed(alloc: Global, fields: JFields) -> Result<Meta, ObjectFault>
    ensures accepted { IfOk result (λ _. first_holding (judged_unnamed fields) ≡ None) }
    ensures meta { IfOk result (λ m. meta_of m ≡ submitted_meta (meta_in fields)) }
    ensures refused { IfErr result (λ e. Tells e (first_holding (judged_unnamed fields))) }
{
    judge_unnamed(alloc, &fields)?;
    let m = meta_of(alloc, fields)?;
    Ok(submitted_meta(m))
}

/// The object that a document was written of, its stamps, generation and uid included. Its parts are moved out of the
/// document.
pub fn read_written(alloc: Global, doc: JVal) -> Result<Object, NoMemory>
    requires written { IsWritten (json doc) }
    ensures { (x : ObjectView) → IsWritable x → json doc ≡ document x → IfOk result (λ o. object_of o ≡ x) }
{
    match doc {
        JVal::Obj(fields) => written_fields(alloc, fields),
        JVal::Null => unreachable!(),
        JVal::Bool(_) => unreachable!(),
        JVal::Int(_) => unreachable!(),
        JVal::Text(_) => unreachable!(),
        JVal::List(_) => unreachable!(),
    }
}

fn written_fields(alloc: Global, fields: JFields) -> Result<Object, NoMemory>
    ensures { (x : ObjectView) → IsWritable x → object (members_of fields) ≡ document x
        → IfOk result (λ o. object_of o ≡ x) }
{
    object_of(alloc, fields)
}
