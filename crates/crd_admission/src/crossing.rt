//! From an object of one version, over its hub value, to the object of another version that is one with it.
ghost use Rattle.std.specs.Prelude.{◌<◌, ◌≤◌, IfOk, IfErr};
ghost use Rattle.kj_value.specs.Json.{object, members_of, depth};
ghost use Rattle.kube_meta.specs.View.{object_of};
ghost use Rattle.api_calls.specs.Versions.{Refused};
ghost use Rattle.api_calls.specs.declared.versions.TheConstants.{OBJECT_LEVELS};
ghost use Rattle.hub_cells.specs.Level.{Name};
ghost use Rattle.crd_meaning.specs.Definition.{count_of};
ghost use Rattle.crd_meaning.specs.Converted.{IsOneWith, IsUnreadDocument};
ghost use Rattle.crd_admission.specs.NoHub.{IsUnreadAt};
ghost use Rattle.crd_admission.specs.inner.Documents.{IsOfVersion};

use crate::faults::badly_kept;
use crate::forms::form_at;
use crate::hubs::hub_of;
use api_calls::AdmitFault;
use crd_loading::LoadedVersions;
use kj_value::Txt;
use kube_meta::Object;
use std::alloc::Global;

/// The object of version `to` that is one with what is left of an object of version `v`. `Invalid` comes with the rule `Kept`
/// for the first annotation by key that is read and spells no entries.
pub(crate) fn crossed(
    alloc: Global,
    set: &LoadedVersions,
    v: u8,
    x: Object,
    to: u8,
) -> Result<Object, AdmitFault>
    requires of { IsOfVersion set.now v (object_of x) }
    requires known { to < count_of set.now }
    ensures one { IfOk result (λ y. IsOneWith set.now v (object_of x) to (object_of y)) }
    ensures read { IfOk result (λ _. (k : Name) → IsUnreadDocument set.now v (object_of x) k → ⊥) }
    ensures levels { IfOk result (λ y. depth (object (members_of y.body)) ≤ OBJECT_LEVELS) }
    ensures refused { IfErr result (Refused (IsUnreadAt set.now v (object_of x)) ⊥) }
{
    let name = Txt::of(alloc, x.meta.name.as_str())?;
    let hub = match hub_of(alloc, set, v, x) {
        Ok(hub) => hub,
        Err(fault) => return Err(badly_kept(alloc, name, fault)?),
    };
    Ok(form_at(alloc, set, to, hub)?)
}
