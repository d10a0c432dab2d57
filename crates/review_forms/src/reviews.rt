//! Reviews of either kind: bytes to a document, and a document to the fields of its request or response.
ghost use Rattle.std.specs.Prelude.{◌≡◌, ◌+◌, ◌≤◌, ◌++◌, [], None, Some, List, Option, IfOk, IfErr};
ghost use Rattle.kj_value.specs.Json.{object, members_of, depth, members_depth};
ghost use Rattle.kj_value.specs.Reading.{Reads};
ghost use Rattle.kj_value.specs.Seen.{json};
ghost use Rattle.review_forms.specs.First.{first_told};
ghost use Rattle.review_forms.specs.Form.{Path, part, review_faults, IsUnreadable};
ghost use Rattle.review_forms.specs.Faults.{OnNotReview};

use crate::fault::ReviewFault;
use crate::fields::{has_text, take_object};
use crate::levels::REVIEW_LEVELS;
use kj_value::{JFields, JVal, JsonFault, NoMemory, Txt, read};
use std::alloc::Global;

const REVIEW_VERSION: &str = "apiextensions.k8s.io/v1";

const REVIEW_KIND: &str = "ConversionReview";

/// Something else stands at the path.
pub(crate) fn not_review(alloc: Global, path: &str) -> ReviewFault
    ensures { OnNotReview (λ p. p ≡ path.now) result }
{
    match Txt::of(alloc, path) {
        Ok(path) => ReviewFault::NotReview { path },
        Err(NoMemory) => ReviewFault::NoMemory,
    }
}

/// The document that the bytes are, of at most 67 levels.
pub fn read_review(alloc: Global, bytes: &[u8]) -> Result<JVal, ReviewFault>
    ensures read { IfOk result (λ v. Reads bytes.now REVIEW_LEVELS (json v)) }
    ensures levels { IfOk result (λ v. depth (json v) ≤ REVIEW_LEVELS) }
    ensures refused { IfErr result (OnNotReview (λ p. (p ≡ []) × IsUnreadable bytes.now)) }
{
    match read(alloc, bytes, REVIEW_LEVELS) {
        Ok(review) => Ok(review),
        Err(JsonFault::NotJson) => Err(not_review(alloc, "")),
        Err(JsonFault::TooDeep) => Err(not_review(alloc, "")),
        Err(JsonFault::NotWhole) => Err(not_review(alloc, "")),
        Err(JsonFault::NoMemory) => Err(ReviewFault::NoMemory),
    }
}

/// The fields of the part of that name, or the path of the first place of the review that has another form.
pub(crate) fn take_part(alloc: Global, review: JVal, name: &str) -> Result<JFields, ReviewFault>
    ensures form { (rest : List (Option Path)) → IfOk result
        (λ _. first_told (review_faults name.now (json review) ++ rest) ≡ first_told rest) }
    ensures part { IfOk result (λ fs. fs ≡ part name.now (json review)) }
    ensures levels { IfOk result (λ fs. 2 + members_depth (members_of fs) ≤ depth (json review)) }
    ensures refused { (rest : List (Option Path)) → IfErr result
        (OnNotReview (λ p. first_told (review_faults name.now (json review) ++ rest) ≡ Some p)) }
{
    let Some(fields) = review.into_object() else {
        return Err(not_review(alloc, ""));
    };
    if !has_text(&fields, "apiVersion", REVIEW_VERSION) {
        drop(fields);
        return Err(not_review(alloc, "apiVersion"));
    }
    if !has_text(&fields, "kind", REVIEW_KIND) {
        drop(fields);
        return Err(not_review(alloc, "kind"));
    }
    let Some(part) = take_object(fields, name) else {
        return Err(not_review(alloc, name));
    };
    Ok(part)
}
