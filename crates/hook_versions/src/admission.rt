//! What a request is admitted with.
ghost use Rattle.std.specs.Prelude.{◌≡◌, ◌<◌, ◌≤◌, true, Some, option_map, IsTrue, IfOk, IfErr, IfSome};
ghost use Rattle.kj_value.specs.Json.{depth};
ghost use Rattle.kube_meta.specs.Document.{document};
ghost use Rattle.kube_meta.specs.Names.{is_namespace};
ghost use Rattle.kube_meta.specs.View.{object_of};
ghost use Rattle.api_calls.specs.Meaning.{Weighs};
ghost use Rattle.api_calls.specs.Versions.{Refused, request_of};
ghost use Rattle.api_calls.specs.declared.versions.TheConstants.{OBJECT_LEVELS};
ghost use Rattle.crd_meaning.specs.Definition.{count_of};
ghost use Rattle.crd_settings.specs.SettledLaws.{settings_of};
ghost use Rattle.crd_laws.specs.Hook.{Admits, Refuses, hook_meaning};
ghost use Rattle.crd_laws.specs.Turning.{AdmitsBy, OfTurns};
ghost use Rattle.hook_versions.specs.Taken.{AreFew, BlamesRequest};
ghost use Rattle.hook_versions.specs.inner.Steps.{IsStanding};
ghost use Rattle.hook_versions.specs.inner.Weighing.{IsHubObject, IsOwnOf, IsPutAt, AreBackThen, IsKept, IsNotPut, MayRefuse};
ghost use Rattle.hook_versions.specs.Facts.{hooked};

use crate::definition::HookDefinition;
use crate::faults::told;
use crate::turning::{Unturned, turned};
use crate::weighing::weighed;
use api_calls::{AdmitFault, Admitted, ConvFault, Incoming};
use converters::Converter;
use crd_admission::{Passed, pass_body};
use kj_value::Rule;
use kube_meta::Object;
use std::alloc::Global;

// The object at the hub: what passed, where it stands there, and else what it is turned to, with what passed beside it.
fn at_hub<C: Converter>(
    alloc: Global,
    set: &HookDefinition,
    tool: &mut C,
    v: u8,
    x: Object,
) -> Result<(Object, Option<Object>), AdmitFault>
    requires known { v < count_of set.now }
    requires standing { IsStanding set.now v (object_of x) }
    ensures put { IfOk result (λ r. IsPutAt (hooked set.now C.HONEST C.turned) (C.turns tool.old) (C.turns tool.new) v (object_of x) (object_of r.0) (option_map object_of r.1)) }
    ensures refused { IfErr result (IsNotPut (hooked set.now C.HONEST C.turned) (C.turns tool.old) (C.turns tool.new) v (object_of x) (C.faults tool.old < C.faults tool.new)) }
    ensures rises { C.faults tool.old ≤ C.faults tool.new }
{
    let hub = set.hub();
    if v == hub {
        return Ok((x, None));
    }
    match turned(alloc, set, tool, &x, hub) {
        Ok(h) => Ok((h, Some(x))),
        Err(Unturned::Refused) => {
            let fault = told(alloc, &x, Rule::Converted);
            drop(x);
            Err(fault)
        }
        Err(Unturned::Failed) => {
            drop(x);
            Err(AdmitFault::Tool)
        }
        Err(Unturned::NoMemory) => {
            drop(x);
            Err(AdmitFault::NoMemory)
        }
    }
}

// What a hub value is admitted with.
fn let_in<C: Converter>(
    alloc: Global,
    set: &HookDefinition,
    tool: &mut C,
    hub: Object,
    own: &Option<Object>,
    expected: Option<u64>,
    storage: u8,
) -> Result<Admitted, AdmitFault>
    requires hub { IsHubObject set.now (object_of hub) }
    requires own { IfSome own.now (λ y. IsOwnOf (hooked set.now C.HONEST C.turned) (object_of hub) (object_of y)) }
    ensures back { IfOk result (λ a. (object_of a.hub ≡ object_of hub) × (a.expected ≡ expected) × IsKept (hooked set.now C.HONEST C.turned) storage (object_of hub) a.shape
        × AreBackThen (hooked set.now C.HONEST C.turned) (C.turns tool.old) (C.turns tool.new) (option_map object_of own.now) (object_of hub) 0 (Some 0) (count_of set.now) (Some a.weight)) }
    ensures refused { IfErr result (MayRefuse (hooked set.now C.HONEST C.turned) (C.turns tool.old) (C.turns tool.new) (option_map object_of own.now) (object_of hub) (C.faults tool.old < C.faults tool.new)) }
    ensures rises { C.faults tool.old ≤ C.faults tool.new }
{
    match weighed(alloc, set, tool, &hub, own, storage) {
        Ok((Some(weight), shape)) => Ok(Admitted {
            hub,
            weight,
            expected,
            shape,
        }),
        Ok((None, shape)) => {
            drop(shape);
            let fault = told(alloc, &hub, Rule::Size);
            drop(hub);
            Err(fault)
        }
        Err(ConvFault::Tool) => {
            drop(hub);
            Err(AdmitFault::Tool)
        }
        Err(ConvFault::NoMemory) => {
            drop(hub);
            Err(AdmitFault::NoMemory)
        }
    }
}

/// The hub value of a request, its weight, the number that the request gives, and what the hub value becomes at the storage version, where
/// that was made. It is refused only where the definition refuses it, and the tool's fault comes only where its count rose.
pub(crate) fn admitted<C: Converter>(
    alloc: Global,
    set: &HookDefinition,
    tool: &mut C,
    input: &Incoming<'_>,
    storage: u8,
) -> Result<Admitted, AdmitFault>
    requires known { input.now.version < count_of set.now }
    requires ns { is_namespace input.now.ns.now ≡ true }
    ensures ok { IfOk result (λ a. Admits (hooked set.now C.HONEST C.turned) (request_of input.now) (object_of a.hub) a.expected) }
    ensures rests { IfOk result (λ a. OfTurns (C.turns tool.old) (C.turns tool.new) (λ ts. AdmitsBy set.now ts (request_of input.now) (object_of a.hub) a.expected)) }
    ensures few { IfOk result (λ a. OfTurns (C.turns tool.old) (C.turns tool.new) (AreFew set.now (request_of input.now) (object_of a.hub))) }
    ensures weighs { IfOk result (λ a. IsTrue C.HONEST → Weighs (hook_meaning (hooked set.now C.HONEST C.turned) (settings_of set.now.view)) (object_of a.hub) a.weight) }
    ensures weight { IfOk result (λ a. 0 < a.weight) }
    ensures shape { IfOk result (λ a. IsKept (hooked set.now C.HONEST C.turned) storage (object_of a.hub) a.shape) }
    ensures levels { IfOk result (λ a. depth (document (object_of a.hub)) ≤ OBJECT_LEVELS) }
    ensures refused { IfErr result (Refused (Refuses (hooked set.now C.HONEST C.turned) (request_of input.now)) (C.faults tool.old < C.faults tool.new)) }
    ensures blames { IfErr result (BlamesRequest set.now (C.turns tool.old) (C.turns tool.new) (request_of input.now)) }
    ensures rises { C.faults tool.old ≤ C.faults tool.new }
{
    let _ = set.versions();
    let _ = set.hub();
    let Passed { object, expected } = match pass_body(alloc, set.definition(), input) {
        Ok(passed) => passed,
        Err(fault) => return Err(fault),
    };
    match at_hub(alloc, set, tool, input.version, object) {
        Ok((hub, own)) => {
            let came = let_in(alloc, set, tool, hub, &own, expected, storage);
            drop(own);
            came
        }
        Err(fault) => Err(fault),
    }
}
