//! From a request to its object, filled and checked.
ghost use Rattle.std.specs.Prelude.{◌≡◌, ◌<◌, ℕ, true, length, IfOk, IfErr};
ghost use Rattle.kube_meta.specs.Names.{is_namespace};
ghost use Rattle.kube_meta.specs.View.{object_of};
ghost use Rattle.api_calls.specs.Versions.{Refused, request_of};
ghost use Rattle.crd_meaning.specs.Definition.{count_of};
ghost use Rattle.crd_meaning.specs.Admission.{Passes};
ghost use Rattle.crd_meaning.specs.Refusal.{RefusesRequest};
ghost use Rattle.crd_loading.specs.Passed.{IsPassed};
ghost use Rattle.keep_laws.specs.Spokes.{Spokes};
ghost use Rattle.crd_admission.specs.Steps.{with_rules, RefusesBody};

use crate::body::read_body;
use crate::filling::filled;
use crate::opening::{defaults_in, order_of};
use crate::placing::Taken;
use crate::taking::taken;
use crate::versions::version_at;
use api_calls::{AdmitFault, Incoming};
use crd_loading::LoadedVersions;
use crd_reading::Definition;
use kube_meta::Object;
use prune_default::filled_again;
use std::alloc::Global;

/// What a request submits.
#[derive(Drop)]
pub struct Passed {
    /// The object at the request's version, in the path's namespace and without a resourceVersion.
    pub object: Object,
    /// The request's resourceVersion.
    pub expected: Option<u64>,
}

/// The object that a request submits, its body filled and checked, and the number that the request gives.
///
/// `BadRequest` comes where the body isn't JSON of at most 64 levels whose numbers are whole, where it is no object, and where
/// its version, kind, namespace or name isn't the path's; `Invalid` where its metadata, its number or its filled body breaks
/// a rule. Of several faults the answer is the first in the order of the table of `crd_meaning`. `Tool` never comes.
pub fn pass(alloc: Global, set: &LoadedVersions, input: &Incoming<'_>) -> Result<Passed, AdmitFault>
    requires known { input.now.version < count_of set.now }
    requires ns { is_namespace input.now.ns.now ≡ true }
    ensures passes { IfOk result (λ p. Passes set.now (request_of input.now) (object_of p.object) p.expected) }
    ensures passed { IfOk result (λ p. IsPassed set.now input.now.version (object_of p.object)) }
    ensures refused { IfErr result (Refused (RefusesRequest set.now (request_of input.now)) ⊥) }
{
    pass_body(alloc, set.definition(), input)
}

/// The same, of a definition whatever its hub and its rules are: neither is looked at.
pub fn pass_body(
    alloc: Global,
    definition: &Definition,
    input: &Incoming<'_>,
) -> Result<Passed, AdmitFault>
    requires known { input.now.version < length definition.now.versions }
    requires ns { is_namespace input.now.ns.now ≡ true }
    ensures passes { (hub : ℕ) (spokes : Spokes) → IfOk result (λ p. Passes (with_rules definition.now hub spokes) (request_of input.now) (object_of p.object) p.expected) }
    ensures passed { (hub : ℕ) (spokes : Spokes) → IfOk result (λ p. IsPassed (with_rules definition.now hub spokes) input.now.version (object_of p.object)) }
    ensures refused { (hub : ℕ) (spokes : Spokes) → IfErr result (Refused (RefusesBody (with_rules definition.now hub spokes) (request_of input.now)) ⊥) }
{
    filled_again();
    defaults_in(definition, input.version);
    let fields = read_body(alloc, input)?;
    let before = taken(alloc, definition, input, fields)?;
    let Taken { object, expected } = before;
    let version = version_at(definition, input.version);
    let whole = filled(alloc, &version.schema, object)?;
    order_of(&whole);
    Ok(Passed {
        object: whole,
        expected,
    })
}
