//! The steps of a drill, and what is told of it.
ghost use Rattle.std.specs.Prelude.{◌≡◌, IfOk, OnOk};
ghost use Rattle.api_calls.specs.Item.{items};
ghost use Rattle.turn_cell.specs.Views.{IsAlone};
ghost use Rattle.shared_api.specs.Base.{server_of};
ghost use Rattle.shared_api.specs.Passes.{IsOf};
ghost use Rattle.drill_steps.specs.inner.Drilled.{point_of};
ghost use Rattle.drill_steps.specs.Drilling.{Tells, drilled};
ghost use Rattle.drill_steps.specs.Steps.{Does, TakesStep, TakesSteps};

use crate::calls::{create, delete, edit, list};
use crate::counts::{Counts, one_more};
use crate::settings::switch;
use crate::telling::summary;
use crate::worker::{Progress, rest, turn};
use api_calls::{NoTool, Versions};
use drill_requests::{HUB, SPOKE, Step, draw_step, hub_body, spoke_body, step_of};
use kj_value::{NoMemory, Txt};
use kube_meta::Limits;
use migrate_core::Worker;
use shared_api::{Pass, SharedApi};
use std::alloc::Global;
use std::sync::Wait;

// Does what is done in a step.
fn do_step<V: Versions<Tool = NoTool> + Drop, R: Wait>(
    rt: &R,
    alloc: Global,
    api: &SharedApi<V>,
    pass: &mut Pass<V>,
    progress: &mut Progress,
    step: Step,
) -> Result<(), NoMemory>
    requires of { IsOf V.meaning api.now pass.old }
    requires alone { IsAlone pass.old.view }
    ensures of { IsOf V.meaning api.now pass.new }
    ensures alone { IsAlone pass.new.view }
    ensures does { OnOk result (Does (server_of V.meaning api.now.base) step (point_of progress.old (items pass.old.view.seen)) (point_of progress.new (items pass.new.view.seen))) }
{
    match step {
        Step::CreateSpoke { object, value } => {
            let body = spoke_body(alloc, object, value)?;
            create(rt, api, pass, &mut progress.counts, SPOKE, body.as_str())
        }
        Step::CreateHub { object, value } => {
            let body = hub_body(alloc, object, value)?;
            create(rt, api, pass, &mut progress.counts, HUB, body.as_str())
        }
        Step::Edit { object, value } => {
            edit(rt, alloc, api, pass, &mut progress.counts, object, value)
        }
        Step::Delete { object } => delete(rt, alloc, api, pass, &mut progress.counts, object),
        Step::Turn => {
            let _step = turn(rt, api, pass, progress)?;
            Ok(())
        }
        Step::Switch => {
            let switches = progress.switches;
            progress.switches = one_more(switches);
            switch(rt, alloc, api, pass, &mut progress.counts, switches)
        }
    }
}

// Draws what is done in a step, and does it.
fn take_step<V: Versions<Tool = NoTool> + Drop, R: Wait>(
    rt: &R,
    alloc: Global,
    api: &SharedApi<V>,
    pass: &mut Pass<V>,
    progress: &mut Progress,
) -> Result<(), NoMemory>
    requires of { IsOf V.meaning api.now pass.old }
    requires alone { IsAlone pass.old.view }
    ensures of { IsOf V.meaning api.now pass.new }
    ensures alone { IsAlone pass.new.view }
    ensures takes { OnOk result (TakesStep (server_of V.meaning api.now.base) (point_of progress.old (items pass.old.view.seen)) (point_of progress.new (items pass.new.view.seen))) }
{
    let draw = draw_step(&mut progress.drawing);
    do_step(rt, alloc, api, pass, progress, step_of(draw))
}

// Takes so many steps.
fn take_steps<V: Versions<Tool = NoTool> + Drop, R: Wait>(
    rt: &R,
    alloc: Global,
    api: &SharedApi<V>,
    pass: &mut Pass<V>,
    progress: &mut Progress,
    count: u64,
) -> Result<(), NoMemory>
    requires of { IsOf V.meaning api.now pass.old }
    requires alone { IsAlone pass.old.view }
    ensures of { IsOf V.meaning api.now pass.new }
    ensures alone { IsAlone pass.new.view }
    ensures takes { OnOk result (TakesSteps (server_of V.meaning api.now.base) (point_of progress.old (items pass.old.view.seen)) count (point_of progress.new (items pass.new.view.seen))) }
{
    for _step in 0..count {
        take_step(rt, alloc, api, pass, progress)?;
    }
    Ok(())
}

/// Takes so many steps, which a generator draws from its first state on, on a server of a definition to which nothing has
/// happened; then turns of its worker until one has nothing to do. What is answered tells how many objects were created,
/// replaced and deleted, how many requests missed (404, or the name is taken) or were refused otherwise, how many turns touched
/// an object or finished a migration, how many objects there are in the end, and their resource version: nine lines, each a
/// word and a number, without the end of the last one. `NoMemory` comes where a call wanted memory. It may wait.
pub fn drill<V: Versions<Tool = NoTool> + Drop, R: Wait>(
    rt: &R,
    alloc: Global,
    versions: V,
    start: u64,
    count: u64,
) -> Result<Txt, NoMemory>
    ensures { IfOk result (λ t. Tells (drilled (V.meaning versions)) start count t.bytes) }
{
    let (api, mut pass) = SharedApi::open(alloc, versions, NoTool, Limits::STANDING, 0)?;
    let mut progress = Progress {
        drawing: start,
        switches: 0,
        worker: Worker { claim: None },
        counts: Counts::none(),
    };
    take_steps(rt, alloc, &api, &mut pass, &mut progress, count)?;
    rest(rt, &api, &mut pass, &mut progress)?;
    let (objects, revision) = list(rt, alloc, &api, &mut pass)?;
    summary(alloc, &progress.counts, objects, revision.as_str())
}
