//! One turn, and the test of its answer.
ghost use Rattle.std.specs.Prelude.{◌≡◌, ◌<◌, ◌≤◌, None, Some, IsTrue, IfOk, IfErr};
ghost use Rattle.kj_value.specs.Seen.{json};
ghost use Rattle.kube_meta.specs.Document.{document};
ghost use Rattle.kube_meta.specs.View.{object_of};
ghost use Rattle.object_reading.specs.Parts.{whole_in};
ghost use Rattle.converters.specs.Turns as turns;
ghost use Rattle.crd_meaning.specs.Definition.{count_of};
ghost use Rattle.crd_laws.specs.Hook.{version_text};
ghost use Rattle.hook_versions.specs.inner.Steps.{IsSent, Turns, NoTurn, OnRefused, OnFailed};

use crate::answers::taken;
use crate::definition::HookDefinition;
use crate::names::version_text;
use converters::{Converter, TurnFault};
use kj_value::{JVal, NoMemory};
use kube_meta::{Object, copy_object, write_object};
use std::alloc::Global;

/// Why an object wasn't turned.
#[derive(Clone, Copy)]
pub(crate) enum Unturned {
    /// There is none at the version.
    Refused,
    /// The turn failed, or its answer fails a test: the count of faults rose.
    Failed,
    /// Memory was wanted and there was none.
    NoMemory,
}

impl From<NoMemory> for Unturned {
    ghost use Rattle.std.specs.Prelude.{◌≡◌};
    ghost use Rattle.hook_versions.specs.declared.turning.Unturned.TheVariants as unturned;

    ghost from_gives = { λ _ e. e ≡ unturned.NoMemory };

    fn from(_refused: NoMemory) -> Unturned {
        Unturned::NoMemory
    }
}

// One turn of an object to a version.
fn asked<C: Converter>(
    alloc: Global,
    set: &HookDefinition,
    tool: &mut C,
    x: &Object,
    v: u8,
) -> Result<JVal, TurnFault>
    requires known { v < count_of set.now }
    requires sent { IsSent set.now (object_of x.now) }
    ensures turned { IsTrue C.HONEST → IfOk result (λ y. C.turned (object_of x.now) (version_text set.now v) ≡ Some (whole_in (json y))) }
    ensures refused { IsTrue C.HONEST → IfErr result (turns.OnRefused (C.turned (object_of x.now) (version_text set.now v) ≡ None)) }
    ensures turns { C.turns tool.new ≡ turns.after_turn json (C.turns tool.old) (document (object_of x.now)) (version_text set.now v) result }
    ensures counts { turns.Counts (C.faults tool.old) (C.faults tool.new) result }
{
    let document = write_object(alloc, copy_object(alloc, x)?)?;
    let to = version_text(alloc, set, v)?;
    tool.turn(alloc, &document, to.as_str())
}

/// Counts the fault of an answer. Where the counter has its last value, that is want of memory.
pub(crate) fn rejected<C: Converter>(tool: &mut C) -> Unturned
    ensures failed { OnFailed (C.faults tool.old < C.faults tool.new) result }
    ensures refused { OnRefused ⊥ result }
    ensures rises { C.faults tool.old ≤ C.faults tool.new }
    ensures turns { C.turns tool.new ≡ C.turns tool.old }
{
    if tool.reject() {
        Unturned::Failed
    } else {
        Unturned::NoMemory
    }
}

/// What the object becomes at the version by one turn, whose answer passes each test.
pub(crate) fn turned<C: Converter>(
    alloc: Global,
    set: &HookDefinition,
    tool: &mut C,
    x: &Object,
    v: u8,
) -> Result<Object, Unturned>
    requires known { v < count_of set.now }
    requires sent { IsSent set.now (object_of x.now) }
    ensures turns { IfOk result (λ y. Turns set.now (C.turns tool.old) (C.turns tool.new) (object_of x.now) v (object_of y)) }
    ensures none { IfErr result (NoTurn set.now (C.turns tool.old) (C.turns tool.new) (object_of x.now) v) }
    ensures turned { IsTrue C.HONEST → IfOk result (λ y. C.turned (object_of x.now) (version_text set.now v) ≡ Some (object_of y)) }
    ensures refused { IsTrue C.HONEST → IfErr result (OnRefused (C.turned (object_of x.now) (version_text set.now v) ≡ None)) }
    ensures failed { IfErr result (OnFailed (C.faults tool.old < C.faults tool.new)) }
    ensures rises { C.faults tool.old ≤ C.faults tool.new }
{
    match asked(alloc, set, tool, x, v) {
        Ok(answer) => match taken(alloc, set, v, x, answer) {
            Ok(Some(y)) => Ok(y),
            Ok(None) => Err(rejected(tool)),
            Err(NoMemory) => Err(Unturned::NoMemory),
        },
        Err(TurnFault::Refused { message: _ }) => Err(Unturned::Refused),
        Err(TurnFault::Failed) => Err(Unturned::Failed),
        Err(TurnFault::NoMemory) => Err(Unturned::NoMemory),
    }
}
