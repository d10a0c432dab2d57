//! The response of a review, held against what was sent.
ghost use Rattle.std.specs.Prelude.{◌≡◌, None, Some, List, ℕ, length, IfOk, IfErr, if◌then◌else◌};
ghost use Rattle.kj_value.specs.Json.{Json};
ghost use Rattle.review_forms.specs.First.{first_told};
ghost use Rattle.review_forms.specs.Response.{not_review, wrong_uid, remote_failed, message_in, refusals, object_refusals};
ghost use Rattle.review_forms.specs.Faults.{OnRefusal};
ghost use Rattle.review_forms.specs.Seen.{IsSuccess};

use crate::fault::{ResponseFault, ReviewFault};
use crate::fields::{filled_text_at, has_text, object_at, take_list, text_at};
use crate::indices::{first_changed, first_elsewhere, first_other, not_object};
use crate::reviews::not_review;
use kj_value::{JFields, JItems, NoMemory, Txt};
use std::alloc::Global;

/// The objects of a response of these fields to the request of that uid, or what is refused before its objects are looked into.
pub(crate) fn take_converted(
    alloc: Global,
    fields: JFields,
    uid: &str,
) -> Result<JItems, ResponseFault>
    ensures taken { IfOk result (λ ks. IsSuccess uid.now fields ks) }
    ensures refused { (desired : List ℕ) (sent : List Json) → IfErr result
        (OnRefusal (λ r. first_told (refusals (record { uid = uid.now; desired = desired; sent = sent }) fields) ≡ Some r)) }
{
    let Some(given) = filled_text_at(&fields, "uid") else {
        return Err(other(alloc, "response.uid"));
    };
    let answers = given == uid;
    let Some(result) = object_at(&fields, "result") else {
        return Err(other(alloc, "response.result"));
    };
    let Some(status) = text_at(result, "status") else {
        return Err(other(alloc, "response.result.status"));
    };
    let succeeded = status == "Success";
    if !succeeded {
        return Err(failed(alloc, answers, result));
    }
    let Some(objects) = take_list(fields, "convertedObjects") else {
        return Err(other(alloc, "response.convertedObjects"));
    };
    if let Some(i) = first_other(&objects) {
        return Err(ResponseFault::from(not_object(alloc, "response.convertedObjects", i)));
    }
    if !answers {
        return Err(ResponseFault::WrongUid);
    }
    Ok(objects)
}

fn other(alloc: Global, path: &str) -> ResponseFault
    ensures { OnRefusal (λ r. r ≡ not_review path.now) result }
{
    ResponseFault::from(not_review(alloc, path))
}

// The result isn't `Success`: where the response answers the request, the other side failed.
fn failed(alloc: Global, answers: bool, fields: &JFields) -> ResponseFault
    ensures { OnRefusal (λ r. r ≡ (if answers then remote_failed (message_in fields.now) else wrong_uid)) result }
{
    if !answers {
        return ResponseFault::WrongUid;
    }
    match message(alloc, fields) {
        Ok(message) => ResponseFault::RemoteFailed { message },
        Err(NoMemory) => ResponseFault::NoMemory,
    }
}

fn message(alloc: Global, fields: &JFields) -> Result<Txt, NoMemory>
    ensures { IfOk result (λ t. t.bytes ≡ message_in fields.now) }
{
    match text_at(fields, "message") {
        Some(message) => Txt::of(alloc, message),
        None => Ok(Txt::of_string(String::new(alloc))),
    }
}

/// What is refused of the objects of a response, held against the ones that were sent.
pub(crate) fn check(desired: &str, sent: &JItems, objects: &JItems) -> Result<(), ResponseFault>
    ensures nothing { IfOk result (λ _. first_told (object_refusals desired.now sent.now objects.now) ≡ None) }
    ensures count { IfOk result (λ _. length objects.now ≡ length sent.now) }
    ensures refused { IfErr result (OnRefusal (λ r. first_told (object_refusals desired.now sent.now objects.now) ≡ Some r)) }
{
    if sent.len() != objects.len() {
        let want = sent.len() as u64;
        let got = objects.len() as u64;
        return Err(ResponseFault::WrongCount { want, got });
    }
    if let Some(i) = first_elsewhere(objects, desired) {
        return Err(ResponseFault::WrongVersion { index: i as u64 });
    }
    if let Some(i) = first_changed(objects, sent) {
        return Err(ResponseFault::ChangedIdentity { index: i as u64 });
    }
    Ok(())
}
