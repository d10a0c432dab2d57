//! From a stored text to the hub value that is stored so.
ghost use Rattle.std.specs.Prelude.{◌≤◌, IfOk};
ghost use Rattle.kj_value.specs.Json.{depth};
ghost use Rattle.kube_meta.specs.Document.{document};
ghost use Rattle.kube_meta.specs.View.{ObjectView, object_of};
ghost use Rattle.api_calls.specs.Versions.{IsStored};
ghost use Rattle.api_calls.specs.declared.versions.TheConstants.{OBJECT_LEVELS};
ghost use Rattle.crd_meaning.specs.Meant.{meant};

use crate::going_back::taken_back;
use api_calls::read_form;
use crd_loading::LoadedVersions;
use crd_meaning::standing;
use kj_value::NoMemory;
use kube_meta::Object;
use std::alloc::Global;

/// The hub value whose stored text at a version, counted from 0, these bytes are. It is at most 64 levels deep.
pub fn hub_of(alloc: Global, set: &LoadedVersions, v: u8, stored: &[u8]) -> Result<Object, NoMemory>
    requires { (h : ObjectView) × IsStored (meant set.now) v h stored.now }
    ensures hub { IfOk result (λ h. IsStored (meant set.now) v (object_of h) stored.now) }
    ensures levels { IfOk result (λ h. depth (document (object_of h)) ≤ OBJECT_LEVELS) }
{
    standing();
    let _ = set.hub();
    let x = read_form(alloc, stored)?;
    match set.place(v) {
        Some(p) => taken_back(alloc, set.spokes(), p, x),
        None => Ok(x),
    }
}
