//! The object of a version that is one with a whole object of the hub.
ghost use Rattle.std.specs.Prelude.{◌<◌, ◌≤◌, IfOk};
ghost use Rattle.kj_value.specs.Json.{object, members_of, depth};
ghost use Rattle.kube_meta.specs.View.{object_of};
ghost use Rattle.api_calls.specs.declared.versions.TheConstants.{OBJECT_LEVELS};
ghost use Rattle.keep_laws.specs.WholeHub.{IsWholeHub};
ghost use Rattle.crd_meaning.specs.Definition.{count_of};
ghost use Rattle.crd_meaning.specs.Objects.{IsFormAt};

use crd_loading::LoadedVersions;
use kj_value::NoMemory;
use kube_meta::Object;
use spoke_keep::into_spoke;
use std::alloc::Global;

/// The object of version `v` that is one with a whole object of the hub: that one itself at the hub, and elsewhere its metadata are moved.
pub fn form_at(alloc: Global, set: &LoadedVersions, v: u8, hub: Object) -> Result<Object, NoMemory>
    requires known { v < count_of set.now }
    requires whole { IsWholeHub set.now.spokes (object_of hub) }
    ensures form { IfOk result (λ y. IsFormAt set.now v (object_of hub) (object_of y)) }
    ensures levels { IfOk result (λ y. depth (object (members_of y.body)) ≤ OBJECT_LEVELS) }
{
    let _ = set.hub();
    match set.place(v) {
        Some(p) => into_spoke(alloc, set.spokes(), p, hub),
        None => Ok(hub),
    }
}
