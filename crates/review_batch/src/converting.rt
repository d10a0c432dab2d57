//! The objects of a request, converted one after another.
ghost use Rattle.std.specs.Prelude.{◌≡◌, ◌≤◌, ◌<◌, ◌++◌, false, None, is_none, IfOk, MatchOption, MatchResult};
ghost use Rattle.kj_value.specs.Json.{depth, items_depth, items_of};
ghost use Rattle.kj_value.specs.Kinds.{as_object};
ghost use Rattle.kj_value.specs.Seen.{json};
ghost use Rattle.api_calls.specs.Cause.{cause_of};
ghost use Rattle.api_calls.specs.declared.versions.TheConstants.{OBJECT_LEVELS};
ghost use Rattle.crd_meaning.specs.Definition.{count_of};
ghost use Rattle.crd_versions.specs.Set.{definition_of};
ghost use Rattle.review_forms.specs.Form.{no_object};
ghost use Rattle.review_forms.specs.Request.{objects_path};
ghost use Rattle.review_batch.specs.Answer.{IsFirstWithout, blame};
ghost use Rattle.review_batch.specs.inner.Steps.{HasValue, HasNone, GoesOn};

use api_calls::{AdmitFault, Cause};
use crd_meaning::one_value;
use crd_versions::VersionSet;
use kj_value::{JItems, JVal, NoMemory, Txt, write};
use review_forms::{Page, comma_before};
use std::alloc::Global;

/// Adds the texts of the objects' values at a version, with commas between them, or tells the first that has no value, and why.
/// Each value is let go as soon as it is written.
pub(crate) fn converted(
    alloc: Global,
    set: &VersionSet,
    to: u8,
    objects: JItems,
    page: &mut Page,
) -> Result<Option<Txt>, NoMemory>
    requires known { to < count_of (definition_of set.now) }
    requires all { no_object objects_path objects ≡ None }
    requires levels { items_depth (items_of objects) ≤ OBJECT_LEVELS }
    ensures { IfOk result (λ o. MatchOption o (GoesOn (definition_of set.now) to objects page.old page.new)
        (λ m. IsFirstWithout (definition_of set.now) to objects m.bytes)) }
{
    let mut rest = objects;
    for i in 0..rest.len() {
        let object = rest.replace(i, JVal::Null);
        match convert_one(alloc, set, to, i, object)? {
            Ok(text) => {
                page.add(comma_before(i))?;
                page.add(text.as_str())?;
            }
            Err(message) => return Ok(Some(message)),
        }
    }
    Ok(None)
}

// The text of the object's value, or why there is none.
fn convert_one(
    alloc: Global,
    set: &VersionSet,
    to: u8,
    i: usize,
    object: JVal,
) -> Result<Result<Txt, Txt>, NoMemory>
    requires known { to < count_of (definition_of set.now) }
    requires kind { is_none (as_object (json object)) ≡ false }
    requires levels { depth (json object) ≤ OBJECT_LEVELS }
    ensures { IfOk result (λ r. MatchResult r (λ t. HasValue (definition_of set.now) to (json object) t.bytes)
        (λ m. HasNone (definition_of set.now) to (json object) i m.bytes)) }
{
    one_value();
    match set.convert(alloc, object, to) {
        Ok(document) => Ok(Ok(write(alloc, &document)?)),
        Err(AdmitFault::Invalid { name: _, cause }) => Ok(Err(blame(alloc, i, &cause)?)),
        Err(AdmitFault::BadRequest(_)) => unreachable!(),
        Err(AdmitFault::Tool) => unreachable!(),
        Err(AdmitFault::NoMemory) => Err(NoMemory),
    }
}

// Why the object at a place has no value.
#[tactic(auto, unfolding(crate::specs::Answer::blame))]
fn blame(alloc: Global, i: usize, cause: &Cause) -> Result<Txt, NoMemory>
    ensures { IfOk result (λ t. t.bytes ≡ blame i (cause_of cause.now)) }
{
    let field = cause.field.as_str();
    let word = cause.rule.word();
    Ok(Txt::of_string(format!(in alloc; "object {i}: {field}: {word}")?))
}
