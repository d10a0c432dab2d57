//! From a document of one version to the one of another.
ghost use Rattle.std.specs.Prelude.{◌≡◌, ◌≤◌, ◌<◌, Some, IfOk, IfErr, MatchOption};
ghost use Rattle.kj_value.specs.Json.{object, members_of, depth};
ghost use Rattle.kj_value.specs.Seen.{json};
ghost use Rattle.api_calls.specs.Cause.{not_object};
ghost use Rattle.api_calls.specs.Meaning.{bad_request};
ghost use Rattle.api_calls.specs.Versions.{Refused};
ghost use Rattle.api_calls.specs.declared.versions.TheConstants.{OBJECT_LEVELS};
ghost use Rattle.crd_meaning.specs.Definition.{Definition, count_of};
ghost use Rattle.crd_meaning.specs.Document.{early};
ghost use Rattle.crd_meaning.specs.Converted.{IsConverted};
ghost use Rattle.crd_meaning.specs.Unconverted.{IsUnconverted};

use crate::crossing::crossed;
use crate::document_passing::passed;
use crate::reading::Reading;
use crate::showing::document;
use api_calls::{AdmitFault, Why};
use crd_loading::LoadedVersions;
use kj_value::{JFields, JVal};
use std::alloc::Global;

/// The document at a version, counted from 0, that is one with a document of any version, with the metadata of that document
/// but for `annotations`. It is at most 64 levels deep.
///
/// `BadRequest` comes where the document is no object; `Invalid` where it is of no version of the definition or of another
/// kind, where its metadata, whose name and namespace aren't looked at, break a rule, where its filled body does, and where an
/// annotation that is read spells no entries. Of several faults the answer is the first in this order. `Tool` never comes.
pub fn convert(alloc: Global, set: &LoadedVersions, doc: JVal, to: u8) -> Result<JVal, AdmitFault>
    requires levels { depth (json doc) ≤ OBJECT_LEVELS }
    requires known { to < count_of set.now }
    ensures converted { IfOk result (λ k. IsConverted set.now (json doc) to (json k)) }
    ensures levels { IfOk result (λ k. depth (json k) ≤ OBJECT_LEVELS) }
    ensures refused { IfErr result (Refused (IsUnconverted set.now (json doc)) ⊥) }
{
    let Some(fields) = fields_of(doc) else {
        return Err(AdmitFault::BadRequest(Why::NotObject));
    };
    let whole = passed(alloc, set, fields)?;
    let Reading {
        version,
        object,
        metadata,
    } = whole;
    let form = crossed(alloc, set, version, object, to)?;
    Ok(document(alloc, metadata, form)?)
}

fn fields_of(doc: JVal) -> Option<JFields>
    ensures { MatchOption result ((d : Definition) → early d (json doc) ≡ Some (bad_request not_object))
        (λ fs. json doc ≡ object (members_of fs)) }
{
    match doc {
        JVal::Obj(fields) => Some(fields),
        _ => None,
    }
}
