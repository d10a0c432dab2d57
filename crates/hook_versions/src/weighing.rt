//! Whether a hub value comes back from each version, and what it weighs.
ghost use Rattle.std.specs.Prelude.{◌≡◌, ◌≢◌, ◌<◌, ◌≤◌, ◌+◌, ◌↔◌, ◌⊎◌, length, Some, option_map, IsTrue, IfOk, IfErr, IfSome, IsErrOf, OnOk};
ghost use Rattle.kube_meta.specs.Shapes.{shaped};
ghost use Rattle.kube_meta.specs.View.{object_of};
ghost use Rattle.object_reading.specs.Written.{IsWritable};
ghost use Rattle.api_calls.specs.Meaning.{measure};
ghost use Rattle.crd_meaning.specs.Definition.{count_of};
ghost use Rattle.crd_laws.specs.Hook.{version_text};
ghost use Rattle.crd_laws.specs.Turning.{WasTurned, OfTurns};
ghost use Rattle.hook_versions.specs.Taken.{BlamesTurn};
ghost use Rattle.hook_versions.specs.inner.Steps.{IsSent};
ghost use Rattle.hook_versions.specs.inner.Weighing.{IsHubObject, IsHeavier, IsNotBack, IsOwnOf, IsBackBy, IsBackAt, AreBackThen, IsKept};
ghost use Rattle.hook_versions.specs.Facts.{hooked};

use crate::definition::HookDefinition;
use crate::forms::{rejection, turned_or_fault};
use crate::names::count;
use crate::sameness::{is_same, same_texts};
use api_calls::ConvFault;
use converters::Converter;
use crd_admission::measure_within;
use crd_meaning::MAX_MEASURE;
use kj_value::{NoMemory, TextMap};
use kube_meta::{Object, Shape};
use std::alloc::Global;
use std::mem;

/// The bytes of a chunk.
const CHUNK: u64 = 256;

// The weight of what was weighed before and of an object more; none where one of these measures too much.
fn heavier(most: Option<u64>, x: &Object) -> Option<u64>
    ensures { IsHeavier most (measure (object_of x.now)) result }
{
    let most = most?;
    let bytes = measure_within(x, MAX_MEASURE)?;
    Some(most.max((bytes + (CHUNK - 1)) / CHUNK))
}

// Whether the form is the object that was turned to the hub value before.
fn is_own(alloc: Global, own: &Option<Object>, form: &Object) -> Result<bool, NoMemory>
    requires own { IfSome own.now (λ y. IsWritable (object_of y)) }
    requires form { IsWritable (object_of form.now) }
    ensures { IfOk result (λ b. IsTrue b ↔ (option_map object_of own.now ≡ Some (object_of form.now))) }
{
    let Some(own) = own else {
        return Ok(false);
    };
    if own.api_version.as_str() != form.api_version.as_str() {
        return Ok(false);
    }
    is_same(alloc, own, form)
}

// That the form of a hub value is turned back to it by a turn.
fn turned_back<C: Converter>(
    alloc: Global,
    set: &HookDefinition,
    tool: &mut C,
    h: &Object,
    form: &Object,
) -> Result<(), ConvFault>
    requires hub { IsHubObject set.now (object_of h.now) }
    requires sent { IsSent set.now (object_of form.now) }
    ensures back { OnOk result (OfTurns (C.turns tool.old) (C.turns tool.new) (λ ts. (length ts ≡ 1) × WasTurned set.now ts (object_of form.now) set.now.hub (object_of h.now))) }
    ensures turned { IsTrue C.HONEST → OnOk result (C.turned (object_of form.now) (version_text set.now set.now.hub) ≡ Some (object_of h.now)) }
    ensures blames { IfErr result (IsNotBack set.now (C.turns tool.old) (C.turns tool.new) (object_of form.now) (object_of h.now)) }
    ensures tool { IsErrOf result ConvFault.Tool → C.faults tool.old < C.faults tool.new }
    ensures rises { C.faults tool.old ≤ C.faults tool.new }
{
    let back = match turned_or_fault(alloc, set, tool, form, set.hub()) {
        Ok(back) => back,
        Err(fault) => return Err(fault),
    };
    let same = is_same(alloc, &back, h);
    drop(back);
    match same {
        Ok(true) => Ok(()),
        Ok(false) => Err(rejection(tool)),
        Err(NoMemory) => Err(ConvFault::NoMemory),
    }
}

// That the form of a hub value is turned back to it. Where it is the object that was turned to the hub value before, that turn is it.
fn comes_back<C: Converter>(
    alloc: Global,
    set: &HookDefinition,
    tool: &mut C,
    h: &Object,
    own: &Option<Object>,
    form: &Object,
) -> Result<(), ConvFault>
    requires hub { IsHubObject set.now (object_of h.now) }
    requires own { IfSome own.now (λ y. IsOwnOf (hooked set.now C.HONEST C.turned) (object_of h.now) (object_of y)) }
    requires sent { IsSent set.now (object_of form.now) }
    ensures back { OnOk result (IsBackBy set.now (C.turns tool.old) (C.turns tool.new) (option_map object_of own.now) (object_of form.now) (object_of h.now)) }
    ensures turned { IsTrue C.HONEST → OnOk result (C.turned (object_of form.now) (version_text set.now set.now.hub) ≡ Some (object_of h.now)) }
    ensures blames { IfErr result (IsNotBack set.now (C.turns tool.old) (C.turns tool.new) (object_of form.now) (object_of h.now)) }
    ensures tool { IsErrOf result ConvFault.Tool → C.faults tool.old < C.faults tool.new }
    ensures rises { C.faults tool.old ≤ C.faults tool.new }
{
    match is_own(alloc, own, form) {
        Ok(true) => Ok(()),
        Ok(false) => turned_back(alloc, set, tool, h, form),
        Err(NoMemory) => Err(ConvFault::NoMemory),
    }
}

// The form of a hub value at a version, which comes back from there.
fn there_and_back<C: Converter>(
    alloc: Global,
    set: &HookDefinition,
    tool: &mut C,
    h: &Object,
    own: &Option<Object>,
    v: u8,
) -> Result<Object, ConvFault>
    requires known { v < count_of set.now }
    requires spoke { v ≢ set.now.hub }
    requires hub { IsHubObject set.now (object_of h.now) }
    requires own { IfSome own.now (λ y. IsOwnOf (hooked set.now C.HONEST C.turned) (object_of h.now) (object_of y)) }
    ensures back { IfOk result (λ x. IsBackAt (hooked set.now C.HONEST C.turned) (C.turns tool.old) (C.turns tool.new) (option_map object_of own.now) (object_of h.now) v (object_of x)) }
    ensures blames { IfErr result (BlamesTurn set.now (C.turns tool.old) (C.turns tool.new)) }
    ensures tool { IsErrOf result ConvFault.Tool → C.faults tool.old < C.faults tool.new }
    ensures rises { C.faults tool.old ≤ C.faults tool.new }
{
    let form = match turned_or_fault(alloc, set, tool, h, v) {
        Ok(form) => form,
        Err(fault) => return Err(fault),
    };
    match comes_back(alloc, set, tool, h, own, &form) {
        Ok(()) => Ok(form),
        Err(fault) => {
            drop(form);
            Err(fault)
        }
    }
}

// What a hub value becomes by its form, where that is wanted, and has the labels of the hub value.
fn kept(alloc: Global, wanted: bool, h: &Object, form: Object) -> Option<Shape>
    requires kind { (object_of form).kind ≡ (object_of h.now).kind }
    requires meta { (object_of form).meta ≡ record (object_of h.now).meta { labels = (object_of form).meta.labels; annotations = (object_of form).meta.annotations } }
    ensures { IfSome result (λ p. IsTrue wanted × (shaped p (object_of h.now) ≡ object_of form)) }
{
    if !wanted || !same_texts(&h.meta.labels, &form.meta.labels) {
        drop(form);
        return None;
    }
    let Object {
        api_version,
        kind: _,
        meta,
        body,
    } = form;
    let mut rest = meta;
    let notes = mem::replace(&mut rest.annotations, TextMap::new(alloc));
    Some(Shape {
        version: api_version,
        notes,
        body,
    })
}

// The same at any version: what the hub value weighs with the form there, and what it becomes by that, where this is the storage version.
fn weighed_at<C: Converter>(
    alloc: Global,
    set: &HookDefinition,
    tool: &mut C,
    h: &Object,
    own: &Option<Object>,
    v: u8,
    storage: u8,
    most: Option<u64>,
) -> Result<(Option<u64>, Option<Shape>), ConvFault>
    requires known { v < count_of set.now }
    requires hub { IsHubObject set.now (object_of h.now) }
    requires own { IfSome own.now (λ y. IsOwnOf (hooked set.now C.HONEST C.turned) (object_of h.now) (object_of y)) }
    ensures next { IfOk result (λ m. AreBackThen (hooked set.now C.HONEST C.turned) (C.turns tool.old) (C.turns tool.new) (option_map object_of own.now) (object_of h.now) v most (v + 1) m.0) }
    ensures kept { IfOk result (λ m. IsKept (hooked set.now C.HONEST C.turned) storage (object_of h.now) m.1) }
    ensures blames { IfErr result (BlamesTurn set.now (C.turns tool.old) (C.turns tool.new)) }
    ensures tool { IsErrOf result ConvFault.Tool → C.faults tool.old < C.faults tool.new }
    ensures rises { C.faults tool.old ≤ C.faults tool.new }
{
    if v == set.hub() {
        return Ok((heavier(most, h), None));
    }
    match there_and_back(alloc, set, tool, h, own, v) {
        Ok(form) => {
            let next = heavier(most, &form);
            Ok((next, kept(alloc, v == storage, h, form)))
        }
        Err(fault) => Err(fault),
    }
}

// The first of two that is there.
fn either(first: Option<Shape>, second: Option<Shape>) -> Option<Shape>
    ensures { (result ≡ first) ⊎ (result ≡ second) }
{
    match first {
        Some(shape) => {
            drop(second);
            Some(shape)
        }
        None => second,
    }
}

/// The weight of a hub value in chunks of 256 bytes, which comes back from each other version; or none where it measures more than
/// 262,144 bytes at some version. With it what the hub value becomes at the storage version, where that form was made and has the labels of
/// the hub value. All turns are made before that is said; the object that was turned to the hub value before isn't turned once more.
pub(crate) fn weighed<C: Converter>(
    alloc: Global,
    set: &HookDefinition,
    tool: &mut C,
    h: &Object,
    own: &Option<Object>,
    storage: u8,
) -> Result<(Option<u64>, Option<Shape>), ConvFault>
    requires hub { IsHubObject set.now (object_of h.now) }
    requires own { IfSome own.now (λ y. IsOwnOf (hooked set.now C.HONEST C.turned) (object_of h.now) (object_of y)) }
    ensures back { IfOk result (λ m. AreBackThen (hooked set.now C.HONEST C.turned) (C.turns tool.old) (C.turns tool.new) (option_map object_of own.now) (object_of h.now) 0 (Some 0) (count_of set.now) m.0) }
    ensures kept { IfOk result (λ m. IsKept (hooked set.now C.HONEST C.turned) storage (object_of h.now) m.1) }
    ensures blames { IfErr result (BlamesTurn set.now (C.turns tool.old) (C.turns tool.new)) }
    ensures tool { IsErrOf result ConvFault.Tool → C.faults tool.old < C.faults tool.new }
    ensures rises { C.faults tool.old ≤ C.faults tool.new }
{
    let mut most = Some(0u64);
    let mut stored: Option<Shape> = None;
    for v in 0..count(set) {
        match weighed_at(alloc, set, tool, h, own, v, storage, most) {
            Ok((next, shape)) => {
                most = next;
                stored = either(shape, stored);
            }
            Err(fault) => {
                drop(stored);
                return Err(fault);
            }
        }
    }
    Ok((most, stored))
}
