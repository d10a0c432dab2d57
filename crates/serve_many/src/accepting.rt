//! The thread that accepts connections.
ghost use Rattle.std.specs.Prelude.{◌≡◌, ◌≢◌, ◌<◌, ◌≤◌, ◌+◌, ◌-◌, ℕ, true, false, MatchBool, MatchOption, MatchResult, vec_len, vec_capacity, All, map, List, Option, None, Some, IfErr, IfSome};
ghost use Rattle.edge_io.specs.Causes.{Rose};
ghost use Rattle.edge_io.specs.Connections.{Origin, Ending, AddsOne, HandsOut};
ghost use Rattle.shared_api.specs.Passes.{IsOf};
ghost use Rattle.shared_api.specs.declared.cell.CoreBase.{CoreBase};
ghost use Rattle.turn_cell.specs.declared.view.View.{View};
ghost use Rattle.serve_spans.specs.inner.Keeping.{Going, Job as GoingJob};
ghost use Rattle.serve_many.specs.Answered.{IsAnswered, front_of, sides};
ghost use Rattle.serve_many.specs.Ends.{most_running};
ghost use Rattle.serve_many.specs.Helping.{Goes, HelpsOut, Rounds, turns_between};
ghost use Rattle.serve_many.specs.Jobs.{IsUntouched, Serves};
ghost use Rattle.shared_api.specs.Base.{server_of};

use crate::crew::work_between;
use crate::link_job::Job;
use crate::passes::make_pass;
use crate::running::{Link, give_back, reap, start};
use api_calls::{Tools, Versions};
use edge_io::{Clock, Ears, Failed};
use http_front::serve_link;
use shared_api::{Pass, SharedApi};
use std::alloc::Global;
use std::marker::PhantomData;
use std::sync::Wait;
use std::thread::{Scope, Threads};

/// So many connections have a thread of their own at once. One that comes then is served by the accepting thread.
pub const MOST_RUNNING: usize = 64;

// Serves a connection here, on the pass itself, and gives it back.
fn serve_here<V: Versions + Drop, A: Ears, C: Clock, R: Wait>(
    rt: &R,
    alloc: Global,
    api: &SharedApi<V>,
    pass: &mut Pass<V>,
    ears: &mut A,
    clock: &C,
    mut input: A::In,
    mut output: A::Out,
)
    requires of { IsOf V.meaning api.now pass.old }
    requires untouched { IsUntouched (A.In.origin input) (A.In.left input) (A.In.faults input) (A.Out.number output) (A.Out.written output) (A.Out.flushed output) (A.Out.faults output) }
    ensures of { IsOf V.meaning api.now pass.new }
    ensures hears { (place : List ℕ) → A.hears ears.old place → A.hears ears.new place }
    ensures faults { A.faults ears.new ≡ A.faults ears.old }
    ensures origins { A.origins ears.new ≡ A.origins ears.old }
    ensures served { (e : Ending) × Serves V.Tool.faults (sides A.In.left A.In.most A.Out.written A.Out.flushed) V.meaning api.now.base (C.told clock.now) pass.old.view (A.In.origin input) pass.new.view e × AddsOne (A.returned ears.old) (A.returned ears.new) e }
{
    let _ = serve_link(rt, alloc, api, pass, &mut input, &mut output, clock);
    ears.back(A::shut(input, output));
}

// Begins the connection in a thread of its own. It is served here where so many run, where its pass couldn't be made, and where
// its thread isn't started.
fn take_in<
    's,
    E,
    V: Versions + Drop + Send + Sync + 's,
    A: Ears + Send + 's,
    M: Tools<V::Tool>,
    C: Clock + Sync + 's,
    R: Threads + Wait + Sync + 's,
>(
    rt: &'s R,
    alloc: Global,
    scope: &'s Scope<'s, E>,
    api: &'s SharedApi<V>,
    pass: &mut Pass<V>,
    tools: &mut M,
    ears: &mut A,
    clock: &'s C,
    running: &mut Vec<Link<'s, V, A, C>>,
    input: A::In,
    output: A::Out,
)
where
    V::Tool: Send + 's,
    A::In: 's,
    A::Out: 's,
    A::Ended: 's,
    requires of { IsOf V.meaning api.now pass.old }
    requires links { All (λ h. IsOf V.meaning api.now h.handle.promise.job.value.pass × (C.told h.handle.promise.job.value.clock.now ≡ C.told clock.now)) running.old.items }
    requires room { (vec_len running.old ≤ most_running) × (most_running ≤ vec_capacity running.old) }
    requires untouched { IsUntouched (A.In.origin input) (A.In.left input) (A.In.faults input) (A.Out.number output) (A.Out.written output) (A.Out.flushed output) (A.Out.faults output) }
    ensures of { IsOf V.meaning api.now pass.new }
    ensures links { All (λ h. IsOf V.meaning api.now h.handle.promise.job.value.pass × (C.told h.handle.promise.job.value.clock.now ≡ C.told clock.now)) running.new.items }
    ensures room { (vec_len running.new ≤ most_running) × (vec_capacity running.new ≡ vec_capacity running.old) }
    ensures goes { Goes pass.old.view pass.new.view }
    ensures hears { (place : List ℕ) → A.hears ears.old place → A.hears ears.new place }
    ensures faults { A.faults ears.new ≡ A.faults ears.old }
    ensures origins { A.origins ears.new ≡ A.origins ears.old }
    ensures going { (n asked idle : ℕ) (v0 : View (CoreBase V)) (h0 : Option (List Origin)) (g0 : Option (List Ending)) (crew : List (View (CoreBase V))) (count : ℕ) (handed : Option (List Origin)) (later : Option (List Origin))
        → HandsOut handed later (A.In.origin input)
        → Going (IsAnswered V.Tool.faults (sides A.In.left A.In.most A.Out.written A.Out.flushed) (front_of V.meaning api.now.base (C.told clock.now))) n asked idle v0 h0 g0 crew (map (λ h. (h.handle.promise.job.value.pass.view, A.In.origin h.handle.promise.job.value.input)) running.old.items) pass.old.view count handed (A.returned ears.old)
        → Going (IsAnswered V.Tool.faults (sides A.In.left A.In.most A.Out.written A.Out.flushed) (front_of V.meaning api.now.base (C.told clock.now))) n asked idle v0 h0 g0 crew (map (λ h. (h.handle.promise.job.value.pass.view, A.In.origin h.handle.promise.job.value.input)) running.new.items) pass.new.view (count + 1) later (A.returned ears.new) }
{
    if running.len() >= MOST_RUNNING {
        serve_here(rt, alloc, api, pass, ears, clock, input, output);
        return;
    }
    let Some(own) = make_pass(rt, alloc, api, pass, tools) else {
        serve_here(rt, alloc, api, pass, ears, clock, input, output);
        return;
    };
    let job = Job {
        pass: own,
        input,
        output,
        clock,
        alloc,
        of: PhantomData,
    };
    match start(rt, alloc, scope, api, job) {
        Ok(link) => {
            running.push_reserved(link);
            return;
        }
        Err(outcome) => {
            give_back(api, pass, ears, outcome);
            return;
        }
    }
}

// Takes the turns of the workers that have no thread.
fn help_out<V: Versions + Drop, A: Ears, R: Wait>(
    rt: &R,
    api: &SharedApi<V>,
    pass: &mut Pass<V>,
    idle: usize,
)
    requires of { IsOf V.meaning api.now pass.old }
    ensures of { IsOf V.meaning api.now pass.new }
    ensures helps { HelpsOut (server_of V.meaning api.now.base) turns_between (V.Tool.faults pass.old.tool) pass.old.view idle (V.Tool.faults pass.new.tool) pass.new.view }
    ensures goes { Goes pass.old.view pass.new.view }
    ensures going { (told : Option (List ℕ)) (n asked : ℕ) (v0 : View (CoreBase V)) (h0 : Option (List Origin)) (g0 : Option (List Ending)) (crew : List (View (CoreBase V))) (jobs : List (GoingJob (CoreBase V))) (count : ℕ) (handed : Option (List Origin)) (given : Option (List Ending))
        → Going (IsAnswered V.Tool.faults (sides A.In.left A.In.most A.Out.written A.Out.flushed) (front_of V.meaning api.now.base told)) n asked idle v0 h0 g0 crew jobs pass.old.view count handed given
        → Going (IsAnswered V.Tool.faults (sides A.In.left A.In.most A.Out.written A.Out.flushed) (front_of V.meaning api.now.base told)) n asked idle v0 h0 g0 crew jobs pass.new.view count handed given }
{
    for _i in 0..idle {
        work_between(rt, api, pass);
    }
}

// Takes the next connection, after it joined the threads that are over.
fn accept_one<
    's,
    E,
    V: Versions + Drop + Send + Sync + 's,
    A: Ears + Send + 's,
    M: Tools<V::Tool>,
    C: Clock + Sync + 's,
    R: Threads + Wait + Sync + 's,
>(
    rt: &'s R,
    alloc: Global,
    scope: &'s Scope<'s, E>,
    api: &'s SharedApi<V>,
    pass: &mut Pass<V>,
    tools: &mut M,
    ears: &mut A,
    clock: &'s C,
    running: &mut Vec<Link<'s, V, A, C>>,
) -> Result<(), Failed>
where
    V::Tool: Send + 's,
    A::In: 's,
    A::Out: 's,
    A::Ended: 's,
    requires of { IsOf V.meaning api.now pass.old }
    requires links { All (λ h. IsOf V.meaning api.now h.handle.promise.job.value.pass × (C.told h.handle.promise.job.value.clock.now ≡ C.told clock.now)) running.old.items }
    requires room { (vec_len running.old ≤ most_running) × (most_running ≤ vec_capacity running.old) }
    ensures of { IsOf V.meaning api.now pass.new }
    ensures links { All (λ h. IsOf V.meaning api.now h.handle.promise.job.value.pass × (C.told h.handle.promise.job.value.clock.now ≡ C.told clock.now)) running.new.items }
    ensures room { (vec_len running.new ≤ most_running) × (vec_capacity running.new ≡ vec_capacity running.old) }
    ensures goes { Goes pass.old.view pass.new.view }
    ensures hears { (place : List ℕ) → A.hears ears.old place → A.hears ears.new place }
    ensures later { A.faults ears.old ≤ A.faults ears.new }
    ensures fault { IfErr result (λ _. Rose (A.faults ears.old) (A.faults ears.new)) }
    ensures going { (n asked idle : ℕ) (v0 : View (CoreBase V)) (h0 : Option (List Origin)) (g0 : Option (List Ending)) (crew : List (View (CoreBase V))) (count : ℕ)
        → Going (IsAnswered V.Tool.faults (sides A.In.left A.In.most A.Out.written A.Out.flushed) (front_of V.meaning api.now.base (C.told clock.now))) n asked idle v0 h0 g0 crew (map (λ h. (h.handle.promise.job.value.pass.view, A.In.origin h.handle.promise.job.value.input)) running.old.items) pass.old.view count (A.origins ears.old) (A.returned ears.old)
        → MatchResult result
        (λ _. Going (IsAnswered V.Tool.faults (sides A.In.left A.In.most A.Out.written A.Out.flushed) (front_of V.meaning api.now.base (C.told clock.now))) n asked idle v0 h0 g0 crew (map (λ h. (h.handle.promise.job.value.pass.view, A.In.origin h.handle.promise.job.value.input)) running.new.items) pass.new.view (count + 1) (A.origins ears.new) (A.returned ears.new))
        (λ _. Going (IsAnswered V.Tool.faults (sides A.In.left A.In.most A.Out.written A.Out.flushed) (front_of V.meaning api.now.base (C.told clock.now))) n asked idle v0 h0 g0 crew (map (λ h. (h.handle.promise.job.value.pass.view, A.In.origin h.handle.promise.job.value.input)) running.new.items) pass.new.view count (A.origins ears.new) (A.returned ears.new)) }
{
    let (input, output) = ears.next()?;
    reap(rt, api, pass, ears, clock, running);
    take_in(
        rt, alloc, scope, api, pass, tools, ears, clock, running, input, output,
    );
    Ok(())
}

// Whether none is left to come.
fn is_done(left: Option<u64>) -> bool
    ensures { MatchBool result (left ≡ Some 0) (left ≢ Some 0) }
{
    match left {
        Some(n) => n == 0,
        None => false,
    }
}

// What is left after one more.
fn one_less(left: Option<u64>) -> Option<u64>
    requires { left ≢ Some 0 }
    ensures { MatchOption left (result ≡ None) (λ n. result ≡ Some (n - 1)) }
{
    match left {
        Some(n) => Some(n - 1),
        None => None,
    }
}

// Accepts so many connections, or as many as come, and takes the turns of the workers without a thread behind each. It answers whether they
// were so many. Where no number is given it goes on until no more can be had.
pub(crate) fn accept_all<
    's,
    E,
    V: Versions + Drop + Send + Sync + 's,
    A: Ears + Send + 's,
    M: Tools<V::Tool>,
    C: Clock + Sync + 's,
    R: Threads + Wait + Sync + 's,
>(
    rt: &'s R,
    alloc: Global,
    scope: &'s Scope<'s, E>,
    api: &'s SharedApi<V>,
    pass: &mut Pass<V>,
    tools: &mut M,
    ears: &mut A,
    clock: &'s C,
    running: &mut Vec<Link<'s, V, A, C>>,
    idle: usize,
    connections: Option<u64>,
) -> bool
where
    V::Tool: Send + 's,
    A::In: 's,
    A::Out: 's,
    A::Ended: 's,
    requires of { IsOf V.meaning api.now pass.old }
    requires links { All (λ h. IsOf V.meaning api.now h.handle.promise.job.value.pass × (C.told h.handle.promise.job.value.clock.now ≡ C.told clock.now)) running.old.items }
    requires room { (vec_len running.old ≤ most_running) × (most_running ≤ vec_capacity running.old) }
    ensures of { IsOf V.meaning api.now pass.new }
    ensures links { All (λ h. IsOf V.meaning api.now h.handle.promise.job.value.pass × (C.told h.handle.promise.job.value.clock.now ≡ C.told clock.now)) running.new.items }
    ensures hears { (place : List ℕ) → A.hears ears.old place → A.hears ears.new place }
    ensures fault { result ≡ false → Rose (A.faults ears.old) (A.faults ears.new) }
    ensures going { (n asked : ℕ) (v0 : View (CoreBase V)) (h0 : Option (List Origin)) (g0 : Option (List Ending)) (crew : List (View (CoreBase V)))
        → Going (IsAnswered V.Tool.faults (sides A.In.left A.In.most A.Out.written A.Out.flushed) (front_of V.meaning api.now.base (C.told clock.now))) n asked idle v0 h0 g0 crew (map (λ h. (h.handle.promise.job.value.pass.view, A.In.origin h.handle.promise.job.value.input)) running.old.items) pass.old.view 0 (A.origins ears.old) (A.returned ears.old)
        → (count : ℕ) × MatchBool result (connections ≡ Some count) (IfSome connections (λ k. count < k))
        × Rounds (server_of V.meaning api.now.base) turns_between idle pass.old.view count pass.new.view
        × Going (IsAnswered V.Tool.faults (sides A.In.left A.In.most A.Out.written A.Out.flushed) (front_of V.meaning api.now.base (C.told clock.now))) n asked idle v0 h0 g0 crew (map (λ h. (h.handle.promise.job.value.pass.view, A.In.origin h.handle.promise.job.value.input)) running.new.items) pass.new.view count (A.origins ears.new) (A.returned ears.new) }
{
    let mut left = connections;
    for _ in rt.forever() {
        if is_done(left) {
            return true;
        }
        if accept_one(rt, alloc, scope, api, pass, tools, ears, clock, running).is_err() {
            return false;
        }
        help_out::<V, A, R>(rt, api, pass, idle);
        left = one_less(left);
    }
    unreachable!()
}
