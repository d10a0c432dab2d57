//! What a request is admitted with.
ghost use Rattle.std.specs.Prelude.{◌≡◌, ◌<◌, ◌≤◌, ◌↔◌, true, IfOk, IfErr, IfSome, IsSome, IsTrue};
ghost use Rattle.kj_value.specs.Json.{depth};
ghost use Rattle.kube_meta.specs.Document.{document};
ghost use Rattle.kube_meta.specs.Names.{is_namespace};
ghost use Rattle.kube_meta.specs.Shapes.{shaped};
ghost use Rattle.kube_meta.specs.View.{object_of};
ghost use Rattle.api_calls.specs.Meaning.{Weighs};
ghost use Rattle.api_calls.specs.Versions.{Refused, request_of};
ghost use Rattle.api_calls.specs.declared.versions.TheConstants.{OBJECT_LEVELS};
ghost use Rattle.crd_meaning.specs.Definition.{IsLoaded, count_of};
ghost use Rattle.crd_meaning.specs.Admission.{Admits};
ghost use Rattle.crd_meaning.specs.Objects.{IsFormAt};
ghost use Rattle.crd_meaning.specs.Refusal.{RefusesRequest};
ghost use Rattle.crd_meaning.specs.Meant.{meant};

use api_calls::{AdmitFault, Admitted, Incoming};
use crd_admission::{hub_value, pass};
use crd_loading::LoadedVersions;
use crd_meaning::standing;
use std::alloc::Global;

// The hub value of a request, its weight, the number that the request gives, and what the hub value becomes at the storage
// version. It is refused exactly where the definition refuses it.
pub(crate) fn admitted(
    alloc: Global,
    set: &LoadedVersions,
    input: &Incoming<'_>,
    storage: u8,
) -> Result<Admitted, AdmitFault>
    requires known { input.now.version < count_of set.now }
    requires ns { is_namespace input.now.ns.now ≡ true }
    requires creating { IsTrue input.now.creating ↔ (IsSome input.now.name → ⊥) }
    ensures ok { IfOk result (λ a. Admits set.now (request_of input.now) (object_of a.hub) a.expected) }
    ensures weighs { IfOk result (λ a. Weighs (meant set.now) (object_of a.hub) a.weight) }
    ensures shape { IfOk result (λ a. IfSome a.shape (λ p. IsFormAt set.now storage (object_of a.hub) (shaped p (object_of a.hub)))) }
    ensures levels { IfOk result (λ a. depth (document (object_of a.hub)) ≤ OBJECT_LEVELS) }
    ensures refused { IfErr result (Refused (RefusesRequest set.now (request_of input.now)) ⊥) }
    ensures loaded { IsLoaded set.now }
{
    standing();
    let _ = set.hub();
    let passed = pass(alloc, set, input)?;
    let weighed = hub_value(alloc, set, input.version, passed.object, storage)?;
    Ok(Admitted {
        hub: weighed.hub,
        weight: weighed.weight,
        expected: passed.expected,
        shape: weighed.shape,
    })
}
