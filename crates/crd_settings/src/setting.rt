//! The flags that the body of a PUT sets.
ghost use Rattle.std.specs.Prelude.{◌≡◌, ◌≤◌, IfOk, IfErr, length, option_map};
ghost use Rattle.kj_value.specs.Seen.{json};
ghost use Rattle.api_calls.specs.Versions.{AreFlags, Refused};
ghost use Rattle.crd_settings.specs.Setting.{RefusesFlags, RefusesSpec, Sets, SetsBySpec};

use crate::body::{broken, read_document};
use crate::flags::{flags_in, kept, some_served, storages};
use crate::own::is_own;
use crate::parts::versions_in;
use api_calls::{AdmitFault, Flags};
use crd_reading::Definition;
use kj_value::{JVal, Rule};
use std::alloc::Global;

// The flags that a `spec` sets.
fn flags_by(
    alloc: Global,
    definition: &Definition,
    given: Option<&JVal>,
) -> Result<Flags, AdmitFault>
    ensures ok { IfOk result (SetsBySpec definition.now (option_map (λ w. json w.now) given.entry)) }
    ensures legal { IfOk result (AreFlags (length definition.now.versions)) }
    ensures refused { IfErr result
        (Refused (RefusesSpec definition.now (option_map (λ w. json w.now) given.entry)) ⊥) }
{
    if !is_own(definition, given) {
        return Err(broken(alloc, definition, "spec", Rule::Immutable)?);
    }
    let versions = versions_in(given);
    if storages(versions) != 1 {
        return Err(broken(alloc, definition, "spec.versions", Rule::Storage)?);
    }
    if !some_served(versions) {
        return Err(broken(alloc, definition, "spec.versions", Rule::Served)?);
    }
    kept(definition);
    Ok(flags_in(versions))
}

/// The flags that the body of a PUT of the definition sets.
///
/// The body is a CustomResourceDefinition (apiextensions.k8s.io/v1), read at 100 levels, whose `spec` is the definition's but for
/// the values of `served` and `storage` of each version. Its `metadata` and `status` aren't looked at. Refused are, in this order:
/// as a bad request what is no JSON value of these levels with whole numbers, no object, or of another `apiVersion` or `kind`;
/// as invalid, with the definition's name, another `spec` (`Immutable` at `spec`), another number of storage versions than one
/// (`Storage` at `spec.versions`), and no version that is served (`Served` there). A `served` or `storage` that is no truth
/// value makes another `spec`. `Tool` never comes, and `NoMemory` may come for any body.
pub fn read_flags(alloc: Global, definition: &Definition, bytes: &[u8]) -> Result<Flags, AdmitFault>
    ensures ok { IfOk result (Sets definition.now bytes.now) }
    ensures legal { IfOk result (AreFlags (length definition.now.versions)) }
    ensures refused { IfErr result (Refused (RefusesFlags definition.now bytes.now) ⊥) }
{
    let fields = read_document(alloc, bytes)?;
    flags_by(alloc, definition, fields.get("spec"))
}
