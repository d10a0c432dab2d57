//! The turns of the worker. No other calls the server beside them.
ghost use Rattle.std.specs.Prelude.{◌≡◌, ◌≢◌, IfOk, OnOk, true, false};
ghost use Rattle.api_calls.specs.Item.{items};
ghost use Rattle.turn_cell.specs.Views.{IsAlone};
ghost use Rattle.shared_api.specs.Base.{server_of};
ghost use Rattle.shared_api.specs.Passes.{IsOf};
ghost use Rattle.shared_api.specs.Steps.{IsStep};
ghost use Rattle.shared_api.specs.declared.step.TurnStep.TheVariants.{Idle};
ghost use Rattle.drill_steps.specs.inner.Drilled.{point_of};
ghost use Rattle.drill_steps.specs.Steps.{Rests, turn_at, turned};

use crate::counts::Counts;
use api_calls::{NoTool, Versions};
use kj_value::NoMemory;
use migrate_core::Worker;
use shared_api::{Pass, SharedApi, TurnStep, WorkFault};
use std::sync::Wait;

/// Where a drill stands: the state of the generator, how often the storage version was switched, its worker, and its counts.
#[derive(Drop)]
pub(crate) struct Progress {
    pub(crate) drawing: u64,
    pub(crate) switches: u64,
    pub(crate) worker: Worker,
    pub(crate) counts: Counts,
}

/// The worker takes a turn.
pub(crate) fn turn<V: Versions<Tool = NoTool> + Drop, R: Wait>(
    rt: &R,
    api: &SharedApi<V>,
    pass: &mut Pass<V>,
    progress: &mut Progress,
) -> Result<TurnStep, NoMemory>
    requires of { IsOf V.meaning api.now pass.old }
    requires alone { IsAlone pass.old.view }
    ensures of { IsOf V.meaning api.now pass.new }
    ensures alone { IsAlone pass.new.view }
    ensures step { IfOk result (λ step. IsStep step (turn_at (server_of V.meaning api.now.base) (point_of progress.old (items pass.old.view.seen))).decision.answer) }
    ensures turned { OnOk result (point_of progress.new (items pass.new.view.seen) ≡ turned (server_of V.meaning api.now.base) (point_of progress.old (items pass.old.view.seen))) }
{
    match api.worker_turn(rt, pass, &mut progress.worker) {
        Ok(step) => {
            progress.counts.turn(step);
            Ok(step)
        }
        Err(WorkFault::NoMemory) => Err(NoMemory),
        Err(WorkFault::Converter) => unreachable!(),
    }
}

// Whether there was nothing to do.
fn is_idle(step: TurnStep) -> bool
    ensures yes { result ≡ true → step ≡ Idle }
    ensures no { result ≡ false → step ≢ Idle }
{
    match step {
        TurnStep::Idle => true,
        TurnStep::Claimed
        | TurnStep::Touched
        | TurnStep::Moved
        | TurnStep::RangeDone
        | TurnStep::Finished => false,
    }
}

/// The worker takes turns until it has nothing to do.
pub(crate) fn rest<V: Versions<Tool = NoTool> + Drop, R: Wait>(
    rt: &R,
    api: &SharedApi<V>,
    pass: &mut Pass<V>,
    progress: &mut Progress,
) -> Result<(), NoMemory>
    requires of { IsOf V.meaning api.now pass.old }
    requires alone { IsAlone pass.old.view }
    ensures of { IsOf V.meaning api.now pass.new }
    ensures alone { IsAlone pass.new.view }
    ensures rests { OnOk result (Rests (server_of V.meaning api.now.base) (point_of progress.old (items pass.old.view.seen)) (point_of progress.new (items pass.new.view.seen))) }
{
    for _ in rt.forever() {
        let step = turn(rt, api, pass, progress)?;
        if is_idle(step) {
            return Ok(());
        }
    }
    unreachable!()
}
