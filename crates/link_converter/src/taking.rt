//! The object that is taken of an answer.
ghost use Rattle.std.specs.Prelude.{◌≡◌, ◌<◌, ◌∷◌, [], Some, length, slice_get, IfOk, IfErr};
ghost use Rattle.kj_value.specs.Seen.{json};
ghost use Rattle.review_forms.specs.Response.{IsTakenResponse};
ghost use Rattle.link_converter.specs.Asking.{TakesBody, IsLeft, IsLeftOf};

use crate::answering::body_of;
use converters::TurnFault;
use kj_value::{JItems, JVal};
use review_forms::{ResponseFault, take_response};
use std::alloc::Global;

// The first item.
fn first(items: JItems) -> JVal
    requires { 0 < length items }
    ensures { slice_get items 0 ≡ Some (json result) }
{
    let mut items = items;
    items.replace(0, JVal::Null)
}

// The object of a review's response.
#[tactic(auto, using(crate::proofs::Taken::some_taken, crate::proofs::Taken::first_taken, crate::proofs::Taken::left_review, crate::proofs::Taken::left_uid, crate::proofs::Taken::left_count, crate::proofs::Taken::left_version, crate::proofs::Taken::left_identity))]
fn taken_of(
    alloc: Global,
    body: &[u8],
    uid: &str,
    to: &str,
    sent: &JItems,
) -> Result<JVal, TurnFault>
    requires { length sent.now ≡ 1 }
    ensures taken { IfOk result (λ y. IsTakenResponse body.now (record { uid = uid.now; desired = to.now; sent = sent.now }) (json y ∷ [])) }
    ensures left { IfErr result (IsLeftOf body.now (record { uid = uid.now; desired = to.now; sent = sent.now })) }
{
    match take_response(alloc, body, uid, to, sent) {
        Ok(items) => Ok(first(items)),
        Err(ResponseFault::RemoteFailed { message }) => Err(TurnFault::Refused { message }),
        Err(ResponseFault::NoMemory) => Err(TurnFault::NoMemory),
        Err(ResponseFault::NotReview { path: _ }) => Err(TurnFault::Failed),
        Err(ResponseFault::WrongUid) => Err(TurnFault::Failed),
        Err(ResponseFault::WrongCount { want: _, got: _ }) => Err(TurnFault::Failed),
        Err(ResponseFault::WrongVersion { index: _ }) => Err(TurnFault::Failed),
        Err(ResponseFault::ChangedIdentity { index: _ }) => Err(TurnFault::Failed),
    }
}

/// The object of the review's response that an answer has, or why there is none.
pub(crate) fn taken(
    alloc: Global,
    answer: Vec<u8>,
    uid: &str,
    to: &str,
    sent: &JItems,
) -> Result<JVal, TurnFault>
    requires { length sent.now ≡ 1 }
    ensures taken { IfOk result (λ y. TakesBody (record { uid = uid.now; desired = to.now; sent = sent.now }) (json y) answer.items) }
    ensures left { IfErr result (IsLeft (record { uid = uid.now; desired = to.now; sent = sent.now }) answer.items) }
{
    match body_of(alloc, answer)? {
        Some(body) => taken_of(alloc, &body, uid, to, sent),
        None => Err(TurnFault::Failed),
    }
}
