//! What is told of an object that is turned to nothing, or to too much.
ghost use Rattle.std.specs.Prelude.{◌≡◌};
ghost use Rattle.kj_value.specs.declared.rule.Rule.{Rule};
ghost use Rattle.kube_meta.specs.View.{object_of};
ghost use Rattle.api_calls.specs.Versions.{Refused};
ghost use Rattle.crd_meaning.specs.Request.{breaks};
ghost use Rattle.crd_meaning.specs.Refusal.{object_path};

use api_calls::{AdmitFault, Cause};
use kj_value::{NoMemory, Rule, Txt};
use kube_meta::Object;
use std::alloc::Global;

fn object_path() -> &'static str
    ensures { result.now ≡ object_path }
{
    "object"
}

// The whole object breaks the rule, in an object of that name.
fn broken(alloc: Global, name: Txt, rule: Rule) -> AdmitFault
    ensures { Refused (λ f. f ≡ breaks name.bytes object_path rule) ⊥ result }
{
    match Txt::of(alloc, object_path()) {
        Ok(field) => AdmitFault::Invalid {
            name,
            cause: Cause { field, rule },
        },
        Err(NoMemory) => AdmitFault::NoMemory,
    }
}

/// The whole object breaks the rule.
pub(crate) fn told(alloc: Global, x: &Object, rule: Rule) -> AdmitFault
    ensures { Refused (λ f. f ≡ breaks (object_of x.now).meta.name object_path rule) ⊥ result }
{
    match Txt::of(alloc, x.meta.name.as_str()) {
        Ok(name) => broken(alloc, name, rule),
        Err(NoMemory) => AdmitFault::NoMemory,
    }
}
