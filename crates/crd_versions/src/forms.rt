//! From a hub value to its form at a version.
ghost use Rattle.std.specs.Prelude.{◌≤◌, ◌<◌, IfOk};
ghost use Rattle.kj_value.specs.Json.{depth};
ghost use Rattle.kube_meta.specs.Document.{document};
ghost use Rattle.kube_meta.specs.View.{object_of};
ghost use Rattle.api_calls.specs.declared.versions.TheConstants.{OBJECT_LEVELS};
ghost use Rattle.crd_meaning.specs.Definition.{count_of};
ghost use Rattle.crd_meaning.specs.Objects.{IsWholeValue, IsFormAt};

use crd_admission::form_at;
use crd_loading::LoadedVersions;
use crd_meaning::standing;
use kj_value::NoMemory;
use kube_meta::{Object, copy_object};
use spoke_keep::from_hub;
use std::alloc::Global;

/// The object at a version, counted from 0, that is one with a hub value: a copy of it at the hub. It is at most 64 levels
/// deep.
pub fn form(alloc: Global, set: &LoadedVersions, v: u8, hub: &Object) -> Result<Object, NoMemory>
    requires known { v < count_of set.now }
    requires whole { IsWholeValue set.now (object_of hub.now) }
    ensures form { IfOk result (λ x. IsFormAt set.now v (object_of hub.now) (object_of x)) }
    ensures levels { IfOk result (λ x. depth (document (object_of x)) ≤ OBJECT_LEVELS) }
{
    standing();
    let _ = set.hub();
    match set.place(v) {
        Some(p) => from_hub(alloc, set.spokes(), p, hub),
        None => copy_object(alloc, hub),
    }
}

/// The same object, where the hub value isn't wanted any more: at the hub it is moved, and elsewhere its metadata are.
pub fn into_form(
    alloc: Global,
    set: &LoadedVersions,
    v: u8,
    hub: Object,
) -> Result<Object, NoMemory>
    requires known { v < count_of set.now }
    requires whole { IsWholeValue set.now (object_of hub) }
    ensures form { IfOk result (λ x. IsFormAt set.now v (object_of hub) (object_of x)) }
    ensures levels { IfOk result (λ x. depth (document (object_of x)) ≤ OBJECT_LEVELS) }
{
    standing();
    let _ = set.hub();
    form_at(alloc, set, v, hub)
}
