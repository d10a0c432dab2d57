//! From a hub value to its form at a version, and back from the stored text.
ghost use Rattle.std.specs.Prelude.{◌≡◌, ◌≤◌, ◌<◌, IfOk, IsErrOf};
ghost use Rattle.kj_value.specs.Json.{depth};
ghost use Rattle.kube_meta.specs.Document.{document};
ghost use Rattle.kube_meta.specs.View.{ObjectView, object_of};
ghost use Rattle.api_calls.specs.Versions.{IsStored};
ghost use Rattle.versions_fixture.specs.Definition.{AreOne, IsFixtureHub, two_names};

use crate::parts::{Version, made};
use crate::reading::{hub_parts, parts_in};
use api_calls::{ConvFault, OBJECT_LEVELS};
use kj_value::{JsonFault, read, text_reads};
use kube_meta::Object;
use std::alloc::Global;

/// The object at a version.
pub fn hub_form(alloc: Global, v: u8, hub: &Object) -> Result<Object, ConvFault>
    requires { IsFixtureHub (object_of hub.now) }
    ensures ok { IfOk result (λ x. AreOne v (object_of hub.now) (object_of x)) }
    ensures levels { IfOk result (λ x. depth (document (object_of x)) ≤ OBJECT_LEVELS) }
    ensures err { IsErrOf result ConvFault.Tool → ⊥ }
{
    let parts = hub_parts(hub);
    Ok(made(alloc, Version::at(v), &parts)?)
}

/// The hub value that is stored so.
pub fn stored_hub(alloc: Global, v: u8, stored: &[u8]) -> Result<Object, ConvFault>
    requires { (h : ObjectView) × IsStored two_names v h stored.now }
    ensures ok { IfOk result (λ h. IsStored two_names v (object_of h) stored.now) }
    ensures levels { IfOk result (λ h. depth (document (object_of h)) ≤ OBJECT_LEVELS) }
    ensures err { IsErrOf result ConvFault.Tool → ⊥ }
{
    // Asked for what its clause says: the stored text reads.
    text_reads();
    let value = match read(alloc, stored, OBJECT_LEVELS) {
        Ok(value) => value,
        Err(JsonFault::NoMemory) => return Err(ConvFault::NoMemory),
        Err(JsonFault::NotJson) => unreachable!(),
        Err(JsonFault::TooDeep) => unreachable!(),
        Err(JsonFault::NotWhole) => unreachable!(),
    };
    match parts_in(Version::at(v), &value) {
        Some(parts) => Ok(made(alloc, Version::V1, &parts)?),
        None => unreachable!(),
    }
}
