//! A review's response to the objects that are taken of it.
ghost use Rattle.std.specs.Prelude.{◌≡◌, IfOk, IfErr};
ghost use Rattle.review_forms.specs.Response.{IsTakenResponse, IsRefused};
ghost use Rattle.review_forms.specs.Faults.{OnRefusal};

use crate::fault::ResponseFault;
use crate::response::{check, take_converted};
use crate::restoring::all_taken;
use crate::reviews::{read_review, take_part};
use kj_value::JItems;
use std::alloc::Global;

/// The objects of a review of a response (`ConversionReview` of apiextensions.k8s.io/v1, as JSON) to the request of that uid, which
/// wanted a version, as GROUP/VERSION, of the objects that were sent. Each has its labels and annotations of the response, and every
/// other field of its metadata as it was sent; a null there stands for nothing.
///
/// The review is read at 67 levels, and other fields than those of the form are passed over. Of several faults the answer is the first
/// in the order of `ResponseFault`, and for the objects the one of the first object. `NotReview` has the first path of `apiVersion`,
/// `kind`, `response`, `response.uid`, `response.result`, `response.result.status`, `response.convertedObjects` and
/// `response.convertedObjects[I]` at which something else stands. Every status but `Success` is a failed one, and then the objects
/// aren't looked at.
pub fn take_response(
    alloc: Global,
    bytes: &[u8],
    uid: &str,
    desired: &str,
    sent: &JItems,
) -> Result<JItems, ResponseFault>
    ensures taken { IfOk result (IsTakenResponse bytes.now (record { uid = uid.now; desired = desired.now; sent = sent.now })) }
    ensures refused { IfErr result (OnRefusal (IsRefused bytes.now (record { uid = uid.now; desired = desired.now; sent = sent.now }))) }
{
    let document = match read_review(alloc, bytes) {
        Ok(document) => document,
        Err(fault) => return Err(ResponseFault::from(fault)),
    };
    let fields = match take_part(alloc, document, "response") {
        Ok(fields) => fields,
        Err(fault) => return Err(ResponseFault::from(fault)),
    };
    let objects = take_converted(alloc, fields, uid)?;
    check(desired, sent, &objects)?;
    Ok(all_taken(alloc, objects, sent)?)
}
