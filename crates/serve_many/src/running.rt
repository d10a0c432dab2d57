//! Connections that threads serve.
ghost use Rattle.std.specs.Prelude.{◌≡◌, ◌<◌, ◌≤◌, ◌+◌, ℕ, MatchBool, vec_len, vec_capacity, All, map, List, [], Option, IfOk, IfErr};
ghost use Rattle.edge_io.specs.Connections.{Origin, Ending, AddsOne};
ghost use Rattle.shared_api.specs.Passes.{IsOf, Known};
ghost use Rattle.shared_api.specs.declared.cell.CoreBase.{CoreBase};
ghost use Rattle.turn_cell.specs.Turns.{Meets};
ghost use Rattle.turn_cell.specs.declared.view.View.{View};
ghost use Rattle.serve_spans.specs.inner.Keeping.{Going};
ghost use Rattle.serve_many.specs.Answered.{IsAnswered, front_of, sides};
ghost use Rattle.serve_many.specs.Helping.{Goes};
ghost use Rattle.serve_many.specs.Jobs.{Finishes, IsUntouched, Serves};

use crate::link_job::{LinkJob, LinkOutcome, Outcome};
use api_calls::Versions;
use edge_io::{Clock, Ears};
use shared_api::{Pass, SharedApi};
use std::alloc::Global;
use std::sync::Wait;
use std::thread::{Scope, Threads};
use thread_jobs::{Runner, Running, begin};

/// A connection that a thread serves.
pub type Link<'s, V, A, C> = Running<SharedApi<V>, LinkJob<'s, V, A, C>, LinkOutcome<V, A>>;

// Begins a connection in a thread, if one can be made. Else it is served here.
pub(crate) fn start<
    's,
    E,
    V: Versions + Drop + Send + Sync + 's,
    A: Ears + Send + 's,
    C: Clock + Sync + 's,
    R: Threads + Wait + Sync + 's,
>(
    rt: &'s R,
    alloc: Global,
    scope: &'s Scope<'s, E>,
    api: &'s SharedApi<V>,
    job: LinkJob<'s, V, A, C>,
) -> Result<Link<'s, V, A, C>, LinkOutcome<V, A>>
where
    V::Tool: Send + 's,
    A::In: 's,
    A::Out: 's,
    A::Ended: 's,
    requires of { IsOf V.meaning api.now job.pass }
    requires untouched { IsUntouched (A.In.origin job.input) (A.In.left job.input) (A.In.faults job.input) (A.Out.number job.output) (A.Out.written job.output) (A.Out.flushed job.output) (A.Out.faults job.output) }
    ensures begun { IfOk result (λ h. h.handle.promise.job.value ≡ job.entry) }
    ensures done { IfErr result (λ r. Finishes V.Tool.faults (sides A.In.left A.In.most A.Out.written A.Out.flushed) V.meaning (C.told job.entry.clock.now) job.entry.pass (A.In.origin job.entry.input) r.pass (A.ending r.ended)) }
{
    begin(rt, alloc, scope, api, job, None)
}

// Meets the pass into `pass`, and gives the connection back.
pub(crate) fn give_back<V: Versions + Drop, A: Ears>(
    api: &SharedApi<V>,
    pass: &mut Pass<V>,
    ears: &mut A,
    outcome: LinkOutcome<V, A>,
)
    requires of { IsOf V.meaning api.now pass.old × IsOf V.meaning api.now outcome.pass }
    ensures of { IsOf V.meaning api.now pass.new }
    ensures met { Meets pass.old.view outcome.pass.view pass.new.view }
    ensures hears { (place : List ℕ) → A.hears ears.old place → A.hears ears.new place }
    ensures faults { A.faults ears.new ≡ A.faults ears.old }
    ensures origins { A.origins ears.new ≡ A.origins ears.old }
    ensures returned { AddsOne (A.returned ears.old) (A.returned ears.new) (A.ending outcome.ended) }
{
    let Outcome { pass: own, ended } = outcome;
    api.meet(pass, own);
    ears.back(ended);
}

// Joins the thread, meets its pass into `pass`, and gives its connection back.
fn join_one<V: Versions + Drop, A: Ears, C: Clock, R: Threads>(
    rt: &R,
    api: &SharedApi<V>,
    pass: &mut Pass<V>,
    ears: &mut A,
    link: Link<'_, V, A, C>,
)
    requires of { IsOf V.meaning api.now pass.old × IsOf V.meaning api.now link.handle.promise.job.value.pass }
    ensures of { IsOf V.meaning api.now pass.new }
    ensures hears { (place : List ℕ) → A.hears ears.old place → A.hears ears.new place }
    ensures faults { A.faults ears.new ≡ A.faults ears.old }
    ensures origins { A.origins ears.new ≡ A.origins ears.old }
    ensures joined { (r : Known (CoreBase V) V.Tool) × (e : Ending)
        × Serves V.Tool.faults (sides A.In.left A.In.most A.Out.written A.Out.flushed) V.meaning api.now.base (C.told link.entry.handle.promise.job.value.clock.now) link.entry.handle.promise.job.value.pass.view (A.In.origin link.entry.handle.promise.job.value.input) r.view e
        × Meets pass.old.view r.view pass.new.view × AddsOne (A.returned ears.old) (A.returned ears.new) e }
{
    let outcome = link.join(rt);
    give_back(api, pass, ears, outcome);
}

// Drops the room of jobs. It knows of no lifetime, so that a caller whose jobs borrow owes no more than where it joins one.
fn let_go<W: Runner<J, D> + Drop, J: Drop, D: Drop>(_room: Vec<Running<W, J, D>>) {}

// Joins all.
pub(crate) fn join_all<V: Versions + Drop, A: Ears, C: Clock, R: Threads>(
    rt: &R,
    api: &SharedApi<V>,
    pass: &mut Pass<V>,
    ears: &mut A,
    clock: &C,
    mut running: Vec<Link<'_, V, A, C>>,
)
    requires of { IsOf V.meaning api.now pass.old }
    requires links { All (λ h. IsOf V.meaning api.now h.handle.promise.job.value.pass × (C.told h.handle.promise.job.value.clock.now ≡ C.told clock.now)) running.items }
    ensures of { IsOf V.meaning api.now pass.new }
    ensures goes { Goes pass.old.view pass.new.view }
    ensures hears { (place : List ℕ) → A.hears ears.old place → A.hears ears.new place }
    ensures faults { A.faults ears.new ≡ A.faults ears.old }
    ensures origins { A.origins ears.new ≡ A.origins ears.old }
    ensures going { (n asked idle : ℕ) (v0 : View (CoreBase V)) (h0 : Option (List Origin)) (g0 : Option (List Ending)) (crew : List (View (CoreBase V))) (count : ℕ) (handed : Option (List Origin))
        → Going (IsAnswered V.Tool.faults (sides A.In.left A.In.most A.Out.written A.Out.flushed) (front_of V.meaning api.now.base (C.told clock.now))) n asked idle v0 h0 g0 crew (map (λ h. (h.handle.promise.job.value.pass.view, A.In.origin h.handle.promise.job.value.input)) running.entry.items) pass.old.view count handed (A.returned ears.old)
        → Going (IsAnswered V.Tool.faults (sides A.In.left A.In.most A.Out.written A.Out.flushed) (front_of V.meaning api.now.base (C.told clock.now))) n asked idle v0 h0 g0 crew [] pass.new.view count handed (A.returned ears.new) }
{
    while let Some(link) = running.pop() {
        join_one(rt, api, pass, ears, link);
    }
    let_go(running);
}

// Joins the thread at this place if it is over, and says whether it was.
fn reap_at<V: Versions + Drop, A: Ears, C: Clock, R: Threads>(
    rt: &R,
    api: &SharedApi<V>,
    pass: &mut Pass<V>,
    ears: &mut A,
    clock: &C,
    running: &mut Vec<Link<'_, V, A, C>>,
    at: usize,
) -> bool
    requires of { IsOf V.meaning api.now pass.old }
    requires links { All (λ h. IsOf V.meaning api.now h.handle.promise.job.value.pass × (C.told h.handle.promise.job.value.clock.now ≡ C.told clock.now)) running.old.items }
    requires within { at < vec_len running.old }
    ensures of { IsOf V.meaning api.now pass.new }
    ensures links { All (λ h. IsOf V.meaning api.now h.handle.promise.job.value.pass × (C.told h.handle.promise.job.value.clock.now ≡ C.told clock.now)) running.new.items }
    ensures room { MatchBool result (vec_len running.new + 1 ≡ vec_len running.old) (vec_len running.new ≡ vec_len running.old) }
    ensures capacity { vec_capacity running.new ≡ vec_capacity running.old }
    ensures goes { Goes pass.old.view pass.new.view }
    ensures hears { (place : List ℕ) → A.hears ears.old place → A.hears ears.new place }
    ensures faults { A.faults ears.new ≡ A.faults ears.old }
    ensures origins { A.origins ears.new ≡ A.origins ears.old }
    ensures going { (n asked idle : ℕ) (v0 : View (CoreBase V)) (h0 : Option (List Origin)) (g0 : Option (List Ending)) (crew : List (View (CoreBase V))) (count : ℕ) (handed : Option (List Origin))
        → Going (IsAnswered V.Tool.faults (sides A.In.left A.In.most A.Out.written A.Out.flushed) (front_of V.meaning api.now.base (C.told clock.now))) n asked idle v0 h0 g0 crew (map (λ h. (h.handle.promise.job.value.pass.view, A.In.origin h.handle.promise.job.value.input)) running.old.items) pass.old.view count handed (A.returned ears.old)
        → Going (IsAnswered V.Tool.faults (sides A.In.left A.In.most A.Out.written A.Out.flushed) (front_of V.meaning api.now.base (C.told clock.now))) n asked idle v0 h0 g0 crew (map (λ h. (h.handle.promise.job.value.pass.view, A.In.origin h.handle.promise.job.value.input)) running.new.items) pass.new.view count handed (A.returned ears.new) }
{
    if running[at].is_over().is_none() {
        return false;
    }
    let link = running.remove(at);
    join_one(rt, api, pass, ears, link);
    true
}

// Joins the threads that are over, whichever they are.
pub(crate) fn reap<V: Versions + Drop, A: Ears, C: Clock, R: Threads>(
    rt: &R,
    api: &SharedApi<V>,
    pass: &mut Pass<V>,
    ears: &mut A,
    clock: &C,
    running: &mut Vec<Link<'_, V, A, C>>,
)
    requires of { IsOf V.meaning api.now pass.old }
    requires links { All (λ h. IsOf V.meaning api.now h.handle.promise.job.value.pass × (C.told h.handle.promise.job.value.clock.now ≡ C.told clock.now)) running.old.items }
    ensures of { IsOf V.meaning api.now pass.new }
    ensures links { All (λ h. IsOf V.meaning api.now h.handle.promise.job.value.pass × (C.told h.handle.promise.job.value.clock.now ≡ C.told clock.now)) running.new.items }
    ensures room { vec_len running.new ≤ vec_len running.old }
    ensures capacity { vec_capacity running.new ≡ vec_capacity running.old }
    ensures goes { Goes pass.old.view pass.new.view }
    ensures hears { (place : List ℕ) → A.hears ears.old place → A.hears ears.new place }
    ensures faults { A.faults ears.new ≡ A.faults ears.old }
    ensures origins { A.origins ears.new ≡ A.origins ears.old }
    ensures going { (n asked idle : ℕ) (v0 : View (CoreBase V)) (h0 : Option (List Origin)) (g0 : Option (List Ending)) (crew : List (View (CoreBase V))) (count : ℕ) (handed : Option (List Origin))
        → Going (IsAnswered V.Tool.faults (sides A.In.left A.In.most A.Out.written A.Out.flushed) (front_of V.meaning api.now.base (C.told clock.now))) n asked idle v0 h0 g0 crew (map (λ h. (h.handle.promise.job.value.pass.view, A.In.origin h.handle.promise.job.value.input)) running.old.items) pass.old.view count handed (A.returned ears.old)
        → Going (IsAnswered V.Tool.faults (sides A.In.left A.In.most A.Out.written A.Out.flushed) (front_of V.meaning api.now.base (C.told clock.now))) n asked idle v0 h0 g0 crew (map (λ h. (h.handle.promise.job.value.pass.view, A.In.origin h.handle.promise.job.value.input)) running.new.items) pass.new.view count handed (A.returned ears.new) }
{
    let mut at = 0;
    while at < running.len() {
        if !reap_at(rt, api, pass, ears, clock, running, at) {
            at += 1;
        }
    }
}
