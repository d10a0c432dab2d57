//! What is told of metadata that break a rule.
ghost use Rattle.std.specs.Prelude.{◌≡◌, Some, Option, IfOk, option_map};
ghost use Rattle.kj_value.specs.Json.{Json};
ghost use Rattle.object_reading.specs.Refusal.{first_holding, Tells};
ghost use Rattle.api_calls.specs.Versions.{Refused};
ghost use Rattle.crd_meaning.specs.Request.{metadata_fault};
ghost use Rattle.crd_meaning.specs.Document.{judged_metadata};

use crate::metadata::metadata_field;
use api_calls::{AdmitFault, Cause};
use kj_value::{NoMemory, Rule, Txt};
use object_reading::ObjectFault;
use std::alloc::Global;

/// The field of the metadata that breaks its rule, in a document of that name: `Invalid` at its path, with the rule `Type`.
pub(crate) fn broken(alloc: Global, name: Txt, fault: ObjectFault) -> Result<AdmitFault, NoMemory>
    requires { (m : Option Json) × Tells fault (first_holding (judged_metadata m)) }
    ensures { (m : Option Json) → Tells fault (first_holding (judged_metadata m)) → IfOk result
        (Refused (λ f. option_map (metadata_fault name.bytes) (first_holding (judged_metadata m)) ≡ Some f) ⊥) }
{
    match fault {
        ObjectFault::BadMeta { field } => {
            let field = metadata_field(alloc, field.as_str())?;
            let cause = Cause {
                field,
                rule: Rule::Kind,
            };
            Ok(AdmitFault::Invalid { name, cause })
        }
        ObjectFault::NoMemory => Ok(AdmitFault::NoMemory),
        ObjectFault::NotObject => unreachable!(),
        ObjectFault::BadVersion => unreachable!(),
        ObjectFault::WrongKind => unreachable!(),
        ObjectFault::BadName => unreachable!(),
    }
}
