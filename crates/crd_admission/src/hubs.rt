//! The hub value of an object.
ghost use Rattle.std.specs.Prelude.{◌<◌, IfOk, IfErr, IfSome};
ghost use Rattle.kube_meta.specs.Shapes.{shaped};
ghost use Rattle.kube_meta.specs.View.{object_of};
ghost use Rattle.api_calls.specs.Meaning.{Weighs};
ghost use Rattle.api_calls.specs.Versions.{Refused};
ghost use Rattle.hub_cells.specs.Level.{Name};
ghost use Rattle.keep_laws.specs.Over.{IsFirstBad};
ghost use Rattle.spoke_keep.specs.Fault.{IsFaultOf};
ghost use Rattle.crd_meaning.specs.Definition.{count_of, seat};
ghost use Rattle.crd_meaning.specs.Admission.{own_name, IsHubOf, IsLight};
ghost use Rattle.crd_meaning.specs.Objects.{IsFormAt, IsWholeValue};
ghost use Rattle.crd_meaning.specs.Meant.{meant};
ghost use Rattle.crd_loading.specs.Passed.{IsPassed};
ghost use Rattle.crd_admission.specs.NoHub.{HasNoHub};
ghost use Rattle.crd_admission.specs.inner.Documents.{IsOfVersion, HasHub};

use crate::faults::{too_large, unread};
use crate::weighing::weigh;
use api_calls::AdmitFault;
use crd_loading::LoadedVersions;
use crd_meaning::one_hub;
use keep_laws::object_laws::{given, settling};
use kj_value::{NoMemory, Txt};
use kube_meta::{Object, Shape};
use spoke_keep::{KeepFault, settle, to_hub};
use std::alloc::Global;

/// A hub value, with what it takes at most at any version, in chunks of 256 bytes, at least 1.
#[derive(Drop)]
pub struct Weighed {
    pub hub: Object,
    pub weight: u64,
    /// What it becomes at the storage version, where that is another than the hub.
    pub shape: Option<Shape>,
}

/// The hub value of an object of version `v` that passed, its weight, and what it becomes at the version of the place
/// `storage`, which may be any number. `Invalid` comes with the rule `Kept` for the
/// first annotation by key that is read and spells no entries, and with the rule `Size` where the measure is above
/// 262,144 bytes at some version.
pub fn hub_value(
    alloc: Global,
    set: &LoadedVersions,
    v: u8,
    x: Object,
    storage: u8,
) -> Result<Weighed, AdmitFault>
    requires known { v < count_of set.now }
    requires passed { IsPassed set.now v (object_of x) }
    ensures read { IfOk result (λ _. (k : Name)
        → IsFirstBad set.now.spokes (own_name (seat set.now v)) x.meta.annotations k → ⊥) }
    ensures hub { IfOk result (λ w. IsHubOf set.now v (object_of x) (object_of w.hub)) }
    ensures light { IfOk result (λ w. IsLight set.now (object_of w.hub)) }
    ensures weighs { IfOk result (λ w. Weighs (meant set.now) (object_of w.hub) w.weight) }
    ensures some { IfOk result (λ w. 0 < w.weight) }
    ensures shape { IfOk result (λ w. IfSome w.shape (λ p. IsFormAt set.now storage (object_of w.hub) (shaped p (object_of w.hub)))) }
    ensures refused { IfErr result (Refused (HasNoHub set.now v (object_of x)) ⊥) }
{
    one_hub();
    let _ = set.hub();
    let name = match Txt::of(alloc, x.meta.name.as_str()) {
        Ok(name) => name,
        Err(NoMemory) => {
            drop(x);
            return Err(AdmitFault::NoMemory);
        }
    };
    let hub = match hub_of(alloc, set, v, x) {
        Ok(hub) => hub,
        Err(fault) => return Err(unread(alloc, name, fault)),
    };
    match weigh(alloc, set, &hub, storage) {
        Ok(Some((weight, shape))) => {
            drop(name);
            Ok(Weighed { hub, weight, shape })
        }
        Ok(None) => {
            drop(hub);
            Err(too_large(alloc, name))
        }
        Err(NoMemory) => {
            drop(hub);
            drop(name);
            Err(AdmitFault::NoMemory)
        }
    }
}

/// The object at the hub that is one with what is left of an object of version `v`. It is a hub value, where that one is an object that
/// passed; and else the first annotation by key is named that is read and spells no entries.
pub(crate) fn hub_of(
    alloc: Global,
    set: &LoadedVersions,
    v: u8,
    x: Object,
) -> Result<Object, KeepFault>
    requires { IsOfVersion set.now v (object_of x) }
    ensures hub { IfOk result (λ h. HasHub set.now v (object_of x) (object_of h)) }
    ensures value { IsPassed set.now v (object_of x) → IfOk result (λ h. IsWholeValue set.now (object_of h)) }
    ensures bad { IfErr result (IsFaultOf set.now.spokes (own_name (seat set.now v)) x.meta.annotations) }
{
    given();
    settling();
    let _ = set.hub();
    let _ = set.definition().versions();
    let _ = x.body.len();
    match set.place(v) {
        None => settle(alloc, set.spokes(), None, x),
        Some(p) => to_hub(alloc, set.spokes(), p, x),
    }
}
