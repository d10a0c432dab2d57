//! Hub values and their forms.
ghost use Rattle.std.specs.Prelude.{◌≡◌, ◌<◌, ◌≤◌, Some, IsTrue, IsErrOf, IfOk, IfErr};
ghost use Rattle.kj_value.specs.Json.{depth};
ghost use Rattle.kube_meta.specs.Document.{document};
ghost use Rattle.kube_meta.specs.View.{ObjectView, object_of};
ghost use Rattle.api_calls.specs.Spelled.{IsTextOf};
ghost use Rattle.api_calls.specs.Versions.{IsStored};
ghost use Rattle.api_calls.specs.declared.versions.TheConstants.{OBJECT_LEVELS};
ghost use Rattle.crd_meaning.specs.Definition.{count_of};
ghost use Rattle.crd_settings.specs.SettledLaws.{settings_of};
ghost use Rattle.crd_laws.specs.Hook.{version_text, IsForm, IsWhole, hook_meaning};
ghost use Rattle.crd_laws.specs.Turning.{Becomes, OfTurns};
ghost use Rattle.hook_versions.specs.inner.Steps.{IsSent, Turns};
ghost use Rattle.hook_versions.specs.Taken.{BlamesTurn};
ghost use Rattle.hook_versions.specs.Facts.{hooked};

use crate::definition::HookDefinition;
use crate::turning::{Unturned, rejected, turned};
use api_calls::{ConvFault, read_form};
use converters::Converter;
use kj_value::NoMemory;
use kube_meta::{Object, copy_object};
use std::alloc::Global;

/// Counts the fault of an answer. Where the counter has its last value, that is want of memory.
pub(crate) fn rejection<C: Converter>(tool: &mut C) -> ConvFault
    ensures tool { result ≡ ConvFault.Tool → C.faults tool.old < C.faults tool.new }
    ensures rises { C.faults tool.old ≤ C.faults tool.new }
    ensures turns { C.turns tool.new ≡ C.turns tool.old }
{
    match rejected(tool) {
        Unturned::Failed => ConvFault::Tool,
        _ => ConvFault::NoMemory,
    }
}

/// What the object becomes at the version by one turn, which a refusal is a fault of.
pub(crate) fn turned_or_fault<C: Converter>(
    alloc: Global,
    set: &HookDefinition,
    tool: &mut C,
    x: &Object,
    v: u8,
) -> Result<Object, ConvFault>
    requires known { v < count_of set.now }
    requires sent { IsSent set.now (object_of x.now) }
    ensures turns { IfOk result (λ y. Turns set.now (C.turns tool.old) (C.turns tool.new) (object_of x.now) v (object_of y)) }
    ensures blames { IfErr result (BlamesTurn set.now (C.turns tool.old) (C.turns tool.new)) }
    ensures turned { IsTrue C.HONEST → IfOk result (λ y. C.turned (object_of x.now) (version_text set.now v) ≡ Some (object_of y)) }
    ensures tool { IsErrOf result ConvFault.Tool → C.faults tool.old < C.faults tool.new }
    ensures rises { C.faults tool.old ≤ C.faults tool.new }
{
    match turned(alloc, set, tool, x, v) {
        Ok(y) => Ok(y),
        Err(Unturned::Refused) => Err(rejection(tool)),
        Err(Unturned::Failed) => Err(ConvFault::Tool),
        Err(Unturned::NoMemory) => Err(ConvFault::NoMemory),
    }
}

/// The form of a hub value at a version: a copy of it at the hub, and else what it is turned to.
pub(crate) fn form<C: Converter>(
    alloc: Global,
    set: &HookDefinition,
    tool: &mut C,
    v: u8,
    hub: &Object,
) -> Result<Object, ConvFault>
    requires known { v < count_of set.now }
    requires whole { IsWhole (hooked set.now C.HONEST C.turned) (object_of hub.now) }
    ensures form { IfOk result (λ x. IsForm (hooked set.now C.HONEST C.turned) v (object_of hub.now) (object_of x)) }
    ensures becomes { IfOk result (λ x. OfTurns (C.turns tool.old) (C.turns tool.new) (λ ts. Becomes set.now ts set.now.hub (object_of hub.now) v (object_of x))) }
    ensures blames { IfErr result (BlamesTurn set.now (C.turns tool.old) (C.turns tool.new)) }
    ensures levels { IfOk result (λ x. depth (document (object_of x)) ≤ OBJECT_LEVELS) }
    ensures tool { IsErrOf result ConvFault.Tool → C.faults tool.old < C.faults tool.new }
    ensures rises { C.faults tool.old ≤ C.faults tool.new }
{
    if v == set.hub() {
        return Ok(copy_object(alloc, hub)?);
    }
    turned_or_fault(alloc, set, tool, hub, v)
}

/// The same, where the hub value isn't wanted any more: at the hub it is moved.
pub(crate) fn into_form<C: Converter>(
    alloc: Global,
    set: &HookDefinition,
    tool: &mut C,
    v: u8,
    hub: Object,
) -> Result<Object, ConvFault>
    requires known { v < count_of set.now }
    requires whole { IsWhole (hooked set.now C.HONEST C.turned) (object_of hub) }
    ensures form { IfOk result (λ x. IsForm (hooked set.now C.HONEST C.turned) v (object_of hub) (object_of x)) }
    ensures becomes { IfOk result (λ x. OfTurns (C.turns tool.old) (C.turns tool.new) (λ ts. Becomes set.now ts set.now.hub (object_of hub) v (object_of x))) }
    ensures blames { IfErr result (BlamesTurn set.now (C.turns tool.old) (C.turns tool.new)) }
    ensures levels { IfOk result (λ x. depth (document (object_of x)) ≤ OBJECT_LEVELS) }
    ensures tool { IsErrOf result ConvFault.Tool → C.faults tool.old < C.faults tool.new }
    ensures rises { C.faults tool.old ≤ C.faults tool.new }
{
    if v == set.hub() {
        return Ok(hub);
    }
    let made = form(alloc, set, tool, v, &hub);
    drop(hub);
    made
}

/// The hub value whose stored text at a version these bytes are.
pub(crate) fn hub_of<C: Converter>(
    alloc: Global,
    set: &HookDefinition,
    tool: &mut C,
    v: u8,
    stored: &[u8],
) -> Result<Object, ConvFault>
    requires { (h : ObjectView) × IsStored (hook_meaning (hooked set.now C.HONEST C.turned) (settings_of set.now.view)) v h stored.now }
    ensures hub { IfOk result (λ h. IsStored (hook_meaning (hooked set.now C.HONEST C.turned) (settings_of set.now.view)) v (object_of h) stored.now) }
    ensures becomes { IfOk result (λ h. (x : ObjectView) × IsTextOf x stored.now × OfTurns (C.turns tool.old) (C.turns tool.new) (λ ts. Becomes set.now ts v x set.now.hub (object_of h))) }
    ensures blames { IfErr result (BlamesTurn set.now (C.turns tool.old) (C.turns tool.new)) }
    ensures levels { IfOk result (λ h. depth (document (object_of h)) ≤ OBJECT_LEVELS) }
    ensures tool { IsErrOf result ConvFault.Tool → C.faults tool.old < C.faults tool.new }
    ensures rises { C.faults tool.old ≤ C.faults tool.new }
{
    let _ = set.versions();
    let hub = set.hub();
    let x = read_form(alloc, stored)?;
    if v == hub {
        return Ok(x);
    }
    let value = turned_or_fault(alloc, set, tool, &x, hub);
    drop(x);
    value
}
