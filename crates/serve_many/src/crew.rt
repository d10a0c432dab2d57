//! Workers beside the connections.
ghost use Rattle.std.specs.Prelude.{◌≡◌, ◌<◌, ◌≤◌, ◌+◌, ℕ, vec_len, vec_capacity, All, map, List, ◌∷◌, ◌++◌, [], Option, Some, IfOk, IfErr};
ghost use Rattle.edge_io.specs.Connections.{Origin, Ending};
ghost use Rattle.shared_api.specs.Passes.{IsOf, Known};
ghost use Rattle.shared_api.specs.declared.cell.CoreBase.{CoreBase};
ghost use Rattle.turn_cell.specs.Turns.{Meets};
ghost use Rattle.turn_cell.specs.declared.view.View.{View};
ghost use Rattle.serve_spans.specs.inner.Keeping.{Going, Job};
ghost use Rattle.serve_many.specs.Answered.{IsAnswered, front_of, sides};
ghost use Rattle.serve_many.specs.Helping.{Goes, Helps, turns_between};
ghost use Rattle.serve_many.specs.Jobs.{Retires, Worked};
ghost use Rattle.shared_api.specs.Base.{server_of};

use crate::gates::{OpenGate, PatientGate, RestingGate, resting_gate};
use crate::passes::make_pass;
use api_calls::{Tools, Versions};
use edge_io::Ears;
use migrate_workers::{WorkEnd, work};
use shared_api::{Pass, SharedApi};
use std::alloc::Global;
use std::sync::Wait;
use std::thread::{Scope, Threads};
use std::time;
use thread_jobs::{Flag, Runner, Running, begin};

/// So many turns a worker without a thread has after each connection.
pub const TURNS_BETWEEN: u64 = 64;

// Works for as long as the gate says yes, and begins again after any other end, where the converter failed after a rest.
fn keep_working<V: Versions + Drop, G: PatientGate, R: Wait>(
    rt: &R,
    api: &SharedApi<V>,
    pass: &mut Pass<V>,
    gate: &mut G,
)
    requires of { IsOf V.meaning api.now pass.old }
    ensures of { IsOf V.meaning api.now pass.new }
    ensures worked { Worked pass.old.view pass.new.view }
    // It works until the gate saw that its flag is up.
    ensures shut { G.shut gate.new }
    ensures flag { G.flag gate.new ≡ G.flag gate.old }
{
    for _ in rt.forever() {
        let end = work(rt, api, pass, gate, u64::MAX);
        if end == WorkEnd::Stopped {
            return;
        }
        gate.rest_after(end);
    }
    unreachable!()
}

// Takes the turns of a worker without a thread.
pub(crate) fn work_between<V: Versions + Drop, R: Wait>(
    rt: &R,
    api: &SharedApi<V>,
    pass: &mut Pass<V>,
)
    requires of { IsOf V.meaning api.now pass.old }
    ensures of { IsOf V.meaning api.now pass.new }
    ensures worked { Worked pass.old.view pass.new.view }
    ensures helps { Helps (server_of V.meaning api.now.base) turns_between (V.Tool.faults pass.old.tool) (V.Tool.faults pass.new.tool) pass.old.view pass.new.view }
{
    let mut gate = OpenGate;
    let _ = work(rt, api, pass, &mut gate, TURNS_BETWEEN);
}

/// A worker's pass and gate, as it begins or as it ended. Its parameters have no bounds, so that it may be sent.
#[derive(Drop)]
pub struct Shift<G, P> {
    pub pass: P,
    pub gate: G,
}

impl<V: Versions + Drop, G: PatientGate + Drop> Runner<Shift<G, Pass<V>>, Shift<G, Pass<V>>>
    for SharedApi<V> {
    ghost use Rattle.shared_api.specs.Passes.{IsOf};
    ghost use Rattle.serve_many.specs.Jobs.{Retires};
    ghost use Rattle.std.specs.Prelude.{◌≡◌};

    ghost ready = { λ api job. IsOf V.meaning api job.pass };

    ghost done = { λ job r. Retires V.meaning job.pass r.pass × G.shut r.gate × (G.flag r.gate ≡ G.flag job.gate) };

    fn run<R: Wait>(&self, rt: &R, job: Shift<G, Pass<V>>) -> Shift<G, Pass<V>>
        requires ready { IsOf V.meaning self.now job.pass }
        ensures done { Retires V.meaning job.pass result.pass × G.shut result.gate × (G.flag result.gate ≡ G.flag job.gate) }
    {
        let Shift { mut pass, mut gate } = job;
        keep_working(rt, self, &mut pass, &mut gate);
        Shift { pass, gate }
    }
}

/// A worker that runs, and its gate.
#[derive(Drop)]
pub struct Hired<V: Versions + Drop, G: PatientGate + Drop> {
    pub running: Running<SharedApi<V>, Shift<G, Pass<V>>, Shift<G, Pass<V>>>,
    shut: Flag,
}

impl<V: Versions + Drop, G: PatientGate + Drop> Hired<V, G> {
    // The gate says no from now on.
    fn close(&self) {
        self.shut.raise();
    }
}

/// A worker whose gate rests by the system's clock.
pub type HiredHere<'s, V, R> = Hired<V, RestingGate<'s, R>>;

// Begins a worker in a thread, if one can be made. Else it takes no turn.
fn start_work<
    's,
    E,
    V: Versions + Drop + Send + Sync + 's,
    R: Threads + Wait + time::Clock + Sync + 's,
>(
    rt: &'s R,
    alloc: Global,
    scope: &'s Scope<'s, E>,
    api: &'s SharedApi<V>,
    shift: Shift<RestingGate<'s, R>, Pass<V>>,
    shut: Flag,
) -> Result<HiredHere<'s, V, R>, Pass<V>>
where
    V::Tool: Send + 's,
    requires of { IsOf V.meaning api.now shift.pass }
    requires flag { shift.gate.shut ≡ shut }
    ensures begun { IfOk result (λ h. h.running.handle.promise.job.value ≡ shift.entry) }
    ensures flag { IfOk result (λ h. h.shut ≡ h.running.handle.promise.job.value.gate.shut) }
    ensures done { IfErr result (λ r. Retires V.meaning shift.entry.pass r) }
{
    match begin(rt, alloc, scope, api, shift, Some(&shut)) {
        Ok(running) => Ok(Hired { running, shut }),
        Err(back) => {
            let Shift { pass, gate: _ } = back;
            Err(pass)
        }
    }
}

// Makes a pass and begins a worker with it, if both can be. The first one watches. Answers how many have no thread: one or none.
fn hire_one<
    's,
    E,
    V: Versions + Drop + Send + Sync + 's,
    A: Ears,
    M: Tools<V::Tool>,
    R: Threads + Wait + time::Clock + Sync + 's,
>(
    rt: &'s R,
    alloc: Global,
    scope: &'s Scope<'s, E>,
    api: &'s SharedApi<V>,
    pass: &mut Pass<V>,
    tools: &mut M,
    crew: &mut Vec<HiredHere<'s, V, R>>,
) -> usize
where
    V::Tool: Send + 's,
    requires of { IsOf V.meaning api.now pass.old }
    requires crew { All (λ h. IsOf V.meaning api.now h.running.handle.promise.job.value.pass) crew.old.items }
    requires room { vec_len crew.old < vec_capacity crew.old }
    ensures of { IsOf V.meaning api.now pass.new }
    ensures one { result ≤ 1 }
    ensures crew { All (λ h. IsOf V.meaning api.now h.running.handle.promise.job.value.pass) crew.new.items }
    ensures room { (vec_len crew.new ≤ vec_len crew.old + 1) × (vec_capacity crew.new ≡ vec_capacity crew.old) }
    ensures goes { Goes pass.old.view pass.new.view }
    ensures going { (told : Option (List ℕ)) (n asked idle : ℕ) (v0 : View (CoreBase V)) (h0 : Option (List Origin)) (g0 : Option (List Ending)) (jobs : List (Job (CoreBase V))) (count : ℕ) (handed : Option (List Origin)) (given : Option (List Ending))
        → Going (IsAnswered V.Tool.faults (sides A.In.left A.In.most A.Out.written A.Out.flushed) (front_of V.meaning api.now.base told)) n asked idle v0 h0 g0 (map (λ h. h.running.handle.promise.job.value.pass.view) crew.old.items) jobs pass.old.view count handed given
        → Going (IsAnswered V.Tool.faults (sides A.In.left A.In.most A.Out.written A.Out.flushed) (front_of V.meaning api.now.base told)) n (asked + 1) (idle + result) v0 h0 g0 (map (λ h. h.running.handle.promise.job.value.pass.view) crew.new.items) jobs pass.new.view count handed given }
{
    let Ok((shut, gate)) = resting_gate(alloc, rt, api.bell(), crew.is_empty()) else {
        return 1;
    };
    let Some(own) = make_pass(rt, alloc, api, pass, tools) else {
        return 1;
    };
    let shift = Shift { pass: own, gate };
    match start_work(rt, alloc, scope, api, shift, shut) {
        Ok(hired) => {
            crew.push_reserved(hired);
            0
        }
        Err(back) => {
            api.meet(pass, back);
            1
        }
    }
}

// Begins so many workers, or as many as can be, and answers how many could not.
pub(crate) fn hire<
    's,
    E,
    V: Versions + Drop + Send + Sync + 's,
    A: Ears,
    M: Tools<V::Tool>,
    R: Threads + Wait + time::Clock + Sync + 's,
>(
    rt: &'s R,
    alloc: Global,
    scope: &'s Scope<'s, E>,
    api: &'s SharedApi<V>,
    pass: &mut Pass<V>,
    tools: &mut M,
    crew: &mut Vec<HiredHere<'s, V, R>>,
    workers: usize,
) -> usize
where
    V::Tool: Send + 's,
    requires of { IsOf V.meaning api.now pass.old }
    requires room { (crew.old.items ≡ []) × (workers ≤ vec_capacity crew.old) }
    ensures of { IsOf V.meaning api.now pass.new }
    ensures idle { result ≤ workers }
    ensures crew { All (λ h. IsOf V.meaning api.now h.running.handle.promise.job.value.pass) crew.new.items }
    ensures goes { Goes pass.old.view pass.new.view }
    ensures going { (told : Option (List ℕ)) (n : ℕ) (v0 : View (CoreBase V)) (h0 : Option (List Origin)) (g0 : Option (List Ending)) (jobs : List (Job (CoreBase V))) (count : ℕ) (handed : Option (List Origin)) (given : Option (List Ending))
        → Going (IsAnswered V.Tool.faults (sides A.In.left A.In.most A.Out.written A.Out.flushed) (front_of V.meaning api.now.base told)) n 0 0 v0 h0 g0 [] jobs pass.old.view count handed given
        → Going (IsAnswered V.Tool.faults (sides A.In.left A.In.most A.Out.written A.Out.flushed) (front_of V.meaning api.now.base told)) n workers result v0 h0 g0 (map (λ h. h.running.handle.promise.job.value.pass.view) crew.new.items) jobs pass.new.view count handed given }
{
    let mut idle = 0;
    for _i in 0..workers {
        idle += hire_one::<E, V, A, M, R>(rt, alloc, scope, api, pass, tools, crew);
    }
    idle
}

// Joins a worker whose gate says no, and meets its pass into `pass`.
fn dismiss_one<V: Versions + Drop, G: PatientGate + Drop, R: Threads>(
    rt: &R,
    api: &SharedApi<V>,
    pass: &mut Pass<V>,
    hired: Hired<V, G>,
)
    requires of { IsOf V.meaning api.now pass.old × IsOf V.meaning api.now hired.running.handle.promise.job.value.pass }
    ensures of { IsOf V.meaning api.now pass.new }
    ensures joined { (r : Known (CoreBase V) V.Tool) × Worked hired.running.handle.promise.job.value.pass.view r.view × Meets pass.old.view r.view pass.new.view }
{
    let Hired { running, shut: _ } = hired;
    let back = running.join(rt);
    let Shift { pass: own, gate: _ } = back;
    api.meet(pass, own);
}

// Shuts all gates, rings for those who rest, joins all workers, and meets their passes into `pass`.
pub(crate) fn dismiss<V: Versions + Drop, A: Ears, G: PatientGate + Drop, R: Threads>(
    rt: &R,
    api: &SharedApi<V>,
    pass: &mut Pass<V>,
    mut crew: Vec<Hired<V, G>>,
)
    requires of { IsOf V.meaning api.now pass.old }
    requires crew { All (λ h. IsOf V.meaning api.now h.running.handle.promise.job.value.pass) crew.items }
    ensures of { IsOf V.meaning api.now pass.new }
    ensures goes { Goes pass.old.view pass.new.view }
    ensures going { (told : Option (List ℕ)) (n asked idle : ℕ) (v0 : View (CoreBase V)) (h0 : Option (List Origin)) (g0 : Option (List Ending)) (jobs : List (Job (CoreBase V))) (count : ℕ) (handed : Option (List Origin)) (given : Option (List Ending))
        → Going (IsAnswered V.Tool.faults (sides A.In.left A.In.most A.Out.written A.Out.flushed) (front_of V.meaning api.now.base told)) n asked idle v0 h0 g0 (map (λ h. h.running.handle.promise.job.value.pass.view) crew.items) jobs pass.old.view count handed given
        → Going (IsAnswered V.Tool.faults (sides A.In.left A.In.most A.Out.written A.Out.flushed) (front_of V.meaning api.now.base told)) n asked idle v0 h0 g0 [] jobs pass.new.view count handed given }
{
    for hired in &crew {
        hired.close();
    }
    api.bell().ring();
    while let Some(hired) = crew.pop() {
        dismiss_one(rt, api, pass, hired);
    }
}

// Drops the room of workers, of whom none was hired.
pub(crate) fn disband<V: Versions + Drop, G: PatientGate + Drop>(_crew: Vec<Hired<V, G>>) {}
