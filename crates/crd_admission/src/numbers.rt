//! The number that a request gives: its `resourceVersion`.
ghost use Rattle.std.specs.Prelude.{◌≡◌, true, None, IfOk, IfErr, is_some, option_map};
ghost use Rattle.std.specs.Str.Parse.{digits_value};
ghost use Rattle.kj_value.specs.Texts.{bytes_of};
ghost use Rattle.kube_meta.specs.View.{object_of};
ghost use Rattle.object_reading.specs.Keeping.{is_none_or};
ghost use Rattle.object_reading.specs.Numbers.{is_number};
ghost use Rattle.api_calls.specs.Versions.{Refused};
ghost use Rattle.crd_meaning.specs.Request.{first_there, breaks, number_path, number_rows};
ghost use Rattle.crd_admission.specs.Steps.{IsFirst};

use api_calls::{AdmitFault, Cause};
use kj_value::{NoMemory, Rule, Txt};
use kube_meta::Object;
use object_reading::numbers;
use std::alloc::Global;

/// Nothing, where the object has a number exactly where it replaces another, or else which of both is wrong.
pub(crate) fn judge_number(alloc: Global, replaces: bool, o: &Object) -> Result<(), AdmitFault>
    ensures nothing { let x = object_of o.now in
        IfOk result (λ _. first_there (number_rows x.meta.name replaces (is_some x.meta.resource_version)) ≡ None) }
    ensures refused { let x = object_of o.now in
        IfErr result (Refused (IsFirst (number_rows x.meta.name replaces (is_some x.meta.resource_version))) ⊥) }
{
    let numbered = o.meta.resource_version.is_some();
    if !replaces && numbered {
        return Err(broken(alloc, o.meta.name.as_str(), Rule::Forbidden)?);
    }
    if replaces && !numbered {
        return Err(broken(alloc, o.meta.name.as_str(), Rule::Required)?);
    }
    Ok(())
}

// The number breaks the rule, in an object of this name.
#[tactic(auto, unfolding(crd_meaning::specs::Request::number_path))]
fn broken(alloc: Global, name: &str, rule: Rule) -> Result<AdmitFault, NoMemory>
    ensures { IfOk result (Refused (λ f. f ≡ breaks name.now number_path rule) ⊥) }
{
    let name = Txt::of(alloc, name)?;
    let field = Txt::of(alloc, "metadata.resourceVersion")?;
    Ok(AdmitFault::Invalid {
        name,
        cause: Cause { field, rule },
    })
}

/// The number that the text writes, where there is one.
pub(crate) fn number_of(number: &Option<Txt>) -> Option<u64>
    requires { is_none_or is_number (option_map bytes_of number.now) ≡ true }
    ensures { result ≡ option_map (digits_value 10) (option_map bytes_of number.now) }
{
    match number {
        Some(text) => Some(value_of(text.as_str())),
        None => None,
    }
}

fn value_of(text: &str) -> u64
    requires { is_number text.now ≡ true }
    ensures { result ≡ digits_value 10 text.now }
{
    numbers();
    match text.parse::<u64>() {
        Ok(number) => number,
        Err(_) => unreachable!(),
    }
}
