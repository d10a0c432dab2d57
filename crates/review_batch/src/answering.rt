//! A review's request to the text of its response.
ghost use Rattle.std.specs.Prelude.{◌≡◌, ◌≤◌, ◌++◌, ℕ, None, length, IfOk, IfErr, MatchOption};
ghost use Rattle.kj_value.specs.Json.{items_depth, items_of};
ghost use Rattle.kj_value.specs.Text.{quoted};
ghost use Rattle.api_calls.specs.declared.versions.TheConstants.{OBJECT_LEVELS};
ghost use Rattle.crd_versions.specs.Set.{definition_of};
ghost use Rattle.review_forms.specs.Form.{no_object};
ghost use Rattle.review_forms.specs.Request.{objects_path};
ghost use Rattle.review_batch.specs.Answer.{IsAnswer, IsNoRequest, IsGroupVersion};
ghost use Rattle.review_forms.specs.Faults.{OnNotReview};
ghost use Rattle.review_forms.specs.Seen.{view_of};
ghost use Rattle.review_batch.specs.inner.Steps.{IsResponse};
ghost use Rattle.review_forms.specs.Spelling.{review_end};
ghost use Rattle.review_batch.specs.inner.Spelling.{success_middle, failure_front, failure_middle};

use crate::converting::converted;
use crate::levels::ANSWER_ROOM;
use api_calls::Versions;
use crd_versions::VersionSet;
use kj_value::{NoMemory, Txt};
use review_forms::{Page, Request, ReviewFault, quoted, read_review, take_request};
use std::alloc::Global;

/// The response to a review of a request (both `ConversionReview` of apiextensions.k8s.io/v1, as JSON), as its compact text of at most
/// 64 MiB. The review is read at 67 levels, and other fields than those of the form are passed over.
///
/// The result is `Success` with the converted objects in the request's order, or `Failure` exactly where the desired version isn't one
/// of the definition's (`desiredAPIVersion: Unknown`) or an object has no value at it (`object I: FIELD: RULE`, of the first, counted
/// from 0). `NotReview` comes exactly where the bytes aren't a review of a request, with the first path of `apiVersion`, `kind`,
/// `request`, `request.uid`, `request.desiredAPIVersion`, `request.objects` and `request.objects[I]` at which something else stands, or
/// the empty one for the whole. `NoMemory` may come for any review, and comes where the response would be longer than 64 MiB.
pub fn answer(alloc: Global, set: &VersionSet, review: &[u8]) -> Result<Txt, ReviewFault>
    ensures answered { IfOk result (λ t. IsAnswer (definition_of set.now) review.now t.bytes) }
    ensures room { IfOk result (λ t. length t.bytes ≤ ANSWER_ROOM) }
    ensures refused { IfErr result (OnNotReview (IsNoRequest review.now)) }
{
    let document = read_review(alloc, review)?;
    let request = take_request(alloc, document)?;
    Ok(respond(alloc, set, request, review.len())?)
}

// The response to a request, for which so many bytes of memory are taken first.
fn respond(alloc: Global, set: &VersionSet, request: Request, room: usize) -> Result<Txt, NoMemory>
    requires all { no_object objects_path request.objects ≡ None }
    requires levels { items_depth (items_of request.objects) ≤ OBJECT_LEVELS }
    ensures response { IfOk result (λ t. IsResponse (definition_of set.now) (view_of request) t.bytes) }
    ensures room { IfOk result (λ t. length t.bytes ≤ ANSWER_ROOM) }
{
    let Request {
        uid,
        desired,
        objects,
    } = request;
    let mut page = Page::new(alloc, room, ANSWER_ROOM)?;
    let Some(to) = version_of(set, desired.as_str()) else {
        let message = Txt::of(alloc, "desiredAPIVersion: Unknown")?;
        return failure(alloc, page, uid, message);
    };
    page.add(SUCCESS_FRONT)?;
    match converted(alloc, set, to, objects, &mut page)? {
        None => success_end(alloc, page, uid),
        Some(message) => {
            let page = Page::new(alloc, message.len(), ANSWER_ROOM)?;
            failure(alloc, page, uid, message)
        }
    }
}

const SUCCESS_FRONT: &str =
    "{\"apiVersion\":\"apiextensions.k8s.io/v1\",\"kind\":\"ConversionReview\",\"response\":{\"convertedObjects\":[";

const SUCCESS_MIDDLE: &str = "],\"result\":{\"status\":\"Success\"},\"uid\":";

const FAILURE_FRONT: &str =
    "{\"apiVersion\":\"apiextensions.k8s.io/v1\",\"kind\":\"ConversionReview\",\"response\":{\"result\":{\"message\":";

const FAILURE_MIDDLE: &str = ",\"status\":\"Failure\"},\"uid\":";

const REVIEW_END: &str = "}}";

// What stands behind the converted objects.
#[tactic(auto, unfolding(crate::specs::inner::Spelling::success_middle, review_forms::specs::Spelling::review_end))]
fn success_end(alloc: Global, page: Page, uid: Txt) -> Result<Txt, NoMemory>
    ensures text { IfOk result (λ t. t.bytes ≡ page.text ++ success_middle ++ quoted uid.bytes ++ review_end) }
    ensures room { IfOk result (λ t. length t.bytes ≤ page.most) }
{
    let mut page = page;
    page.add(SUCCESS_MIDDLE)?;
    page.add(quoted(alloc, uid)?.as_str())?;
    page.add(REVIEW_END)?;
    Ok(page.into_txt())
}

// The whole of a response that has no objects.
#[tactic(auto, unfolding(crate::specs::inner::Spelling::failure_front, crate::specs::inner::Spelling::failure_middle, review_forms::specs::Spelling::review_end))]
fn failure(alloc: Global, page: Page, uid: Txt, message: Txt) -> Result<Txt, NoMemory>
    ensures text { IfOk result (λ t. t.bytes
        ≡ page.text ++ failure_front ++ quoted message.bytes ++ failure_middle ++ quoted uid.bytes ++ review_end) }
    ensures room { IfOk result (λ t. length t.bytes ≤ page.most) }
{
    let mut page = page;
    page.add(FAILURE_FRONT)?;
    page.add(quoted(alloc, message)?.as_str())?;
    page.add(FAILURE_MIDDLE)?;
    page.add(quoted(alloc, uid)?.as_str())?;
    page.add(REVIEW_END)?;
    Ok(page.into_txt())
}

// The version whose group and name the text is, or `None` exactly where there is none.
fn version_of(set: &VersionSet, text: &str) -> Option<u8>
    ensures { MatchOption result ((v : ℕ) → IsGroupVersion (definition_of set.now) text.now v → ⊥)
        (λ v. IsGroupVersion (definition_of set.now) text.now v) }
{
    let group = set.group();
    match text.strip_prefix(group.as_str()) {
        Some(rest) => match rest.strip_prefix("/") {
            Some(name) => set.find(name),
            None => None,
        },
        None => None,
    }
}
