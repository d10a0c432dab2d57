//! What is told of an object that has no hub value to be stored.
ghost use Rattle.std.specs.Prelude.{◌≡◌, ◌++◌, IfOk};
ghost use Rattle.kj_value.specs.declared.rule.Rule.TheVariants as rule;
ghost use Rattle.api_calls.specs.Versions.{Refused};
ghost use Rattle.crd_meaning.specs.Request.{breaks};
ghost use Rattle.crd_meaning.specs.Refusal.{annotation_prefix, object_path};
ghost use Rattle.crd_admission.specs.NoHub.{IsTold};

use api_calls::{AdmitFault, Cause};
use kj_value::{NoMemory, Rule, Txt};
use spoke_keep::KeepFault;
use std::alloc::Global;

fn annotation_prefix() -> &'static str
    ensures { result.now ≡ annotation_prefix }
{
    "metadata.annotations."
}

fn object_path() -> &'static str
    ensures { result.now ≡ object_path }
{
    "object"
}

fn annotation_path(alloc: Global, key: &str) -> Result<Txt, NoMemory>
    ensures { IfOk result (λ t. t.bytes ≡ annotation_prefix ++ key.now) }
{
    let mut path = String::from_str(alloc, annotation_prefix())?;
    path.push_str(key)?;
    Ok(Txt::of_string(path))
}

/// What is told of an annotation that can't be read, in an object of that name: `Invalid` at the annotation, with the rule
/// `Kept`.
pub(crate) fn badly_kept(alloc: Global, name: Txt, fault: KeepFault) -> Result<AdmitFault, NoMemory>
    ensures { IfOk result (Refused (IsTold name.bytes fault) ⊥) }
{
    match fault {
        KeepFault::BadKept { annotation } => {
            let field = annotation_path(alloc, annotation.as_str())?;
            let cause = Cause {
                field,
                rule: Rule::Kept,
            };
            Ok(AdmitFault::Invalid { name, cause })
        }
        KeepFault::NoMemory => Ok(AdmitFault::NoMemory),
    }
}

/// The same as a fault of the request, where memory may be wanted too.
pub(crate) fn unread(alloc: Global, name: Txt, fault: KeepFault) -> AdmitFault
    ensures { Refused (IsTold name.bytes fault) ⊥ result }
{
    match badly_kept(alloc, name, fault) {
        Ok(told) => told,
        Err(NoMemory) => AdmitFault::NoMemory,
    }
}

/// What is told of a measure that is too large, in an object of that name.
pub(crate) fn too_large(alloc: Global, name: Txt) -> AdmitFault
    ensures { Refused (λ f. f ≡ breaks name.bytes object_path rule.Size) ⊥ result }
{
    match Txt::of(alloc, object_path()) {
        Ok(field) => AdmitFault::Invalid {
            name,
            cause: Cause {
                field,
                rule: Rule::Size,
            },
        },
        Err(NoMemory) => AdmitFault::NoMemory,
    }
}
