//! What is refused of a document before its metadata are looked at: its version and its kind.
ghost use Rattle.std.specs.Prelude.{◌≡◌, true, false, IfOk, IfErr, MatchOption, option_map, codes};
ghost use Rattle.kj_value.specs.Fields.{field};
ghost use Rattle.kj_value.specs.Seen.{json};
ghost use Rattle.kj_value.specs.declared.rule.Rule.TheVariants as rule;
ghost use Rattle.object_reading.specs.Refusal.{is_given_text};
ghost use Rattle.api_calls.specs.Versions.{Refused};
ghost use Rattle.crd_meaning.specs.Request.{breaks, given_name};
ghost use Rattle.crd_meaning.specs.Document.{is_version, rows};
ghost use Rattle.crd_admission.specs.Steps.{IsFirst, has_kind};
ghost use Rattle.crd_admission.specs.inner.Documents.{IsNamed};

use crate::document_metadata::name_in;
use crate::naming::version_named;
use api_calls::{AdmitFault, Cause};
use crd_loading::LoadedVersions;
use kj_value::{JFields, JVal, NoMemory, Rule, Txt};
use std::alloc::Global;

/// The version of a document of these fields. `Invalid` comes with the rule `Wrong` at `apiVersion` where it isn't one of the
/// definition's, and then at `kind` where the kind isn't the definition's.
#[tactic(auto, unfolding(crd_meaning::specs::Document::version_path, crd_meaning::specs::Document::kind_path))]
pub(crate) fn judge(alloc: Global, set: &LoadedVersions, fields: &JFields) -> Result<u8, AdmitFault>
    ensures named { IfOk result (λ v. IsNamed set.now v (field (codes "apiVersion") fields.now)) }
    ensures kind { IfOk result (λ _. has_kind set.now fields.now ≡ true) }
    ensures refused { IfErr result (Refused (IsFirst (rows set.now fields.now)) ⊥) }
{
    let Some(version) = version_of(set, fields.get("apiVersion")) else {
        return Err(wrong(alloc, fields, "apiVersion")?);
    };
    if !has_kind(set, fields) {
        return Err(wrong(alloc, fields, "kind")?);
    }
    Ok(version)
}

fn version_of(set: &LoadedVersions, value: Option<&JVal>) -> Option<u8>
    ensures { MatchOption result
        (is_given_text (is_version set.now) (option_map (λ v. json v.now) value.entry) ≡ false)
        (λ v. IsNamed set.now v (option_map (λ w. json w.now) value.entry)) }
{
    match value {
        Some(JVal::Text(text)) => version_named(set, text.as_str()),
        _ => None,
    }
}

fn has_kind(set: &LoadedVersions, fields: &JFields) -> bool
    ensures { result ≡ has_kind set.now fields.now }
{
    match fields.get("kind") {
        Some(JVal::Text(text)) => text.as_str() == set.definition().kind().as_str(),
        _ => false,
    }
}

// The field is a wrong one, in a document of the name that these fields give.
fn wrong(alloc: Global, fields: &JFields, field: &str) -> Result<AdmitFault, NoMemory>
    ensures { IfOk result (Refused (λ f. f ≡ breaks (given_name fields.now) field.now rule.Wrong) ⊥) }
{
    let name = name_in(alloc, fields.get("metadata"))?;
    let field = Txt::of(alloc, field)?;
    let cause = Cause {
        field,
        rule: Rule::Wrong,
    };
    Ok(AdmitFault::Invalid { name, cause })
}
