//! The request of a review: read, and written.
ghost use Rattle.std.specs.Prelude.{◌≡◌, ◌+◌, ◌≤◌, None, Some, IfOk, IfErr};
ghost use Rattle.kj_value.specs.Json.{depth, items_depth, items_of, members_depth, members_of};
ghost use Rattle.kj_value.specs.Seen.{json};
ghost use Rattle.api_calls.specs.declared.versions.TheConstants.{OBJECT_LEVELS};
ghost use Rattle.review_forms.specs.First.{first_told};
ghost use Rattle.review_forms.specs.declared.levels.TheConstants.{REVIEW_LEVELS};
ghost use Rattle.review_forms.specs.Form.{part, no_object};
ghost use Rattle.review_forms.specs.Request.{request_part, request_fault, field_faults, objects_path, request_of};
ghost use Rattle.review_forms.specs.Seen.{view_of};
ghost use Rattle.review_forms.specs.Faults.{OnNotReview};

use crate::fault::ReviewFault;
use crate::fields::{filled_text_at, take_list, text_at};
use crate::indices::{first_other, not_object};
use crate::reviews::{not_review, take_part};
use kj_value::{JFields, JItems, JVal, NoMemory, Txt};
use std::alloc::Global;

/// The uid of a review, the version that is wanted, and the objects to be converted, in order.
#[derive(Drop)]
pub struct Request {
    pub uid: Txt,
    pub desired: Txt,
    pub objects: JItems,
}

/// The request of a review, or the path of the first place that has another form.
pub fn take_request(alloc: Global, review: JVal) -> Result<Request, ReviewFault>
    requires { depth (json review) ≤ REVIEW_LEVELS }
    ensures form { IfOk result (λ _. request_fault (json review) ≡ None) }
    ensures request { IfOk result (λ r. view_of r ≡ request_of (part request_part (json review))) }
    ensures all { IfOk result (λ r. no_object objects_path r.objects ≡ None) }
    ensures levels { IfOk result (λ r. items_depth (items_of r.objects) ≤ OBJECT_LEVELS) }
    ensures refused { IfErr result (OnNotReview (λ p. request_fault (json review) ≡ Some p)) }
{
    let fields = take_part(alloc, review, "request")?;
    take_fields(alloc, fields)
}

fn take_fields(alloc: Global, fields: JFields) -> Result<Request, ReviewFault>
    requires { 2 + members_depth (members_of fields) ≤ REVIEW_LEVELS }
    ensures form { IfOk result (λ _. first_told (field_faults fields) ≡ None) }
    ensures request { IfOk result (λ r. view_of r ≡ request_of fields) }
    ensures all { IfOk result (λ r. no_object objects_path r.objects ≡ None) }
    ensures levels { IfOk result (λ r. items_depth (items_of r.objects) ≤ OBJECT_LEVELS) }
    ensures refused { IfErr result (OnNotReview (λ p. first_told (field_faults fields) ≡ Some p)) }
{
    let Some(uid) = filled_text_at(&fields, "uid") else {
        drop(fields);
        return Err(not_review(alloc, "request.uid"));
    };
    let uid = match Txt::of(alloc, uid) {
        Ok(uid) => uid,
        Err(NoMemory) => {
            drop(fields);
            return Err(ReviewFault::NoMemory);
        }
    };
    let Some(desired) = text_at(&fields, "desiredAPIVersion") else {
        drop(fields);
        drop(uid);
        return Err(not_review(alloc, "request.desiredAPIVersion"));
    };
    let desired = match Txt::of(alloc, desired) {
        Ok(desired) => desired,
        Err(NoMemory) => {
            drop(fields);
            drop(uid);
            return Err(ReviewFault::NoMemory);
        }
    };
    let Some(objects) = take_list(fields, "objects") else {
        drop(uid);
        drop(desired);
        return Err(not_review(alloc, "request.objects"));
    };
    if let Some(i) = first_other(&objects) {
        drop(uid);
        drop(desired);
        drop(objects);
        return Err(not_object(alloc, "request.objects", i));
    }
    Ok(Request {
        uid,
        desired,
        objects,
    })
}
