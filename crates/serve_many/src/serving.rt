//! Many connections.
ghost use Rattle.std.specs.Prelude.{◌≡◌, ◌<◌, ◌≤◌, ℕ, false, MatchBool, List, Option, Some, IfSome, IfOk, IfErr};
ghost use Rattle.edge_io.specs.Causes.{Rose};
ghost use Rattle.shared_api.specs.Passes.{IsOf};
ghost use Rattle.serve_spans.specs.Served.{ServedAll};
ghost use Rattle.serve_many.specs.Answered.{IsAnswered, front_of, sides};
ghost use Rattle.serve_many.specs.Helping.{Rounds, turns_between};
ghost use Rattle.shared_api.specs.Base.{server_of};
ghost use Rattle.serve_many.specs.Ends.{EndsAt, ServeBlames, UnlessNoMemory};

use crate::accepting::{MOST_RUNNING, accept_all};
use crate::crew::{HiredHere, disband, dismiss, hire};
use crate::gates::RestingGate;
use crate::running::{Link, join_all};
use api_calls::{Tools, Versions};
use edge_io::{Clock, Ears};
use shared_api::{Pass, SharedApi};
use std::alloc::{AllocError, Global};
use std::sync::Wait;
use std::thread::{Scope, Threads};
use std::{thread, time};

/// How serving many connections ended, and how many of the workers that were asked for had no thread of their own.
#[derive(Clone, Copy, PartialEq, Eq, Drop)]
pub struct Served {
    pub end: ServeEnd,
    pub idle: u64,
}

/// How serving many connections ends.
#[derive(Clone, Copy, PartialEq, Eq, Drop)]
pub enum ServeEnd {
    /// As many connections were given back as were asked for.
    Done,
    /// No further connection could be had. Those that were handed out were given back.
    EarsFault,
    /// There is no memory to begin with. No connection was asked for.
    NoMemory,
}

// Hires workers, accepts so many connections, joins all, and dismisses the workers. Answers whether they were so many, and how many
// workers have no thread.
fn serve_in<
    's,
    E,
    V: Versions + Drop + Send + Sync + 's,
    A: Ears + Send + 's,
    M: Tools<V::Tool>,
    C: Clock + Sync + 's,
    R: Threads + Wait + time::Clock + Sync + 's,
>(
    rt: &'s R,
    alloc: Global,
    scope: &'s Scope<'s, E>,
    api: &'s SharedApi<V>,
    pass: &mut Pass<V>,
    tools: &mut M,
    ears: &mut A,
    clock: &'s C,
    workers: usize,
    connections: Option<u64>,
) -> Result<(bool, usize), AllocError>
where
    V::Tool: Send + 's,
    A::In: 's,
    A::Out: 's,
    A::Ended: 's,
    requires of { IsOf V.meaning api.now pass.old }
    ensures of { IsOf V.meaning api.now pass.new }
    ensures hears { (place : List ℕ) → A.hears ears.old place → A.hears ears.new place }
    ensures fault { IfOk result (λ done. done.0 ≡ false → Rose (A.faults ears.old) (A.faults ears.new)) }
    ensures memory { IfErr result (λ _. (ears.new ≡ ears.old) × (pass.new ≡ pass.old)) }
    ensures served { IfOk result (λ done. (n : ℕ) → pass.old.view.number ≡ Some n
        → (count : ℕ) × MatchBool done.0 (connections ≡ Some count) (IfSome connections (λ k. count < k))
        × Rounds (server_of V.meaning api.now.base) turns_between done.1 pass.old.view count pass.new.view
        × ServedAll (IsAnswered V.Tool.faults (sides A.In.left A.In.most A.Out.written A.Out.flushed) (front_of V.meaning api.now.base (C.told clock.now))) workers done.1 pass.old.view pass.new.view count (A.origins ears.old) (A.origins ears.new) (A.returned ears.old) (A.returned ears.new)) }
{
    let mut crew: Vec<HiredHere<'s, V, R>> = Vec::with_capacity(alloc, workers)?;
    let mut running: Vec<Link<'s, V, A, C>> = match Vec::with_capacity(alloc, MOST_RUNNING) {
        Ok(running) => running,
        Err(fault) => {
            disband(crew);
            return Err(fault);
        }
    };
    let idle = hire::<E, V, A, M, R>(rt, alloc, scope, api, pass, tools, &mut crew, workers);
    let done = accept_all(
        rt,
        alloc,
        scope,
        api,
        pass,
        tools,
        ears,
        clock,
        &mut running,
        idle,
        connections,
    );
    join_all(rt, api, pass, ears, clock, running);
    dismiss::<V, A, RestingGate<'s, R>, R>(rt, api, pass, crew);
    Ok((done, idle))
}

// Serves in a scope of threads.
fn serve_scoped<
    'x,
    V: Versions + Drop + Send + Sync,
    A: Ears + Send,
    M: Tools<V::Tool>,
    C: Clock + Sync,
    R: Threads + Wait + time::Clock + Sync,
>(
    rt: &'x R,
    alloc: Global,
    api: &'x SharedApi<V>,
    pass: &mut Pass<V>,
    tools: &mut M,
    ears: &mut A,
    clock: &'x C,
    workers: usize,
    connections: Option<u64>,
) -> Result<(bool, usize), AllocError>
where
    V::Tool: Send,
    requires of { IsOf V.meaning api.now pass.old }
    ensures of { IsOf V.meaning api.now pass.new }
    ensures hears { (place : List ℕ) → A.hears ears.old place → A.hears ears.new place }
    ensures fault { IfOk result (λ done. done.0 ≡ false → Rose (A.faults ears.old) (A.faults ears.new)) }
    ensures memory { IfErr result (λ _. (ears.new ≡ ears.old) × (pass.new ≡ pass.old)) }
    ensures served { IfOk result (λ done. (n : ℕ) → pass.old.view.number ≡ Some n
        → (count : ℕ) × MatchBool done.0 (connections ≡ Some count) (IfSome connections (λ k. count < k))
        × Rounds (server_of V.meaning api.now.base) turns_between done.1 pass.old.view count pass.new.view
        × ServedAll (IsAnswered V.Tool.faults (sides A.In.left A.In.most A.Out.written A.Out.flushed) (front_of V.meaning api.now.base (C.told clock.now))) workers done.1 pass.old.view pass.new.view count (A.origins ears.old) (A.origins ears.new) (A.returned ears.old) (A.returned ears.new)) }
{
    let own = &mut *pass;
    let heard = &mut *ears;
    let kit = &mut *tools;
    let (end, back, ears_back, tools_back) = thread::scope(
        thread::scope_env(),
        rt,
        move |scope| -> (
            Result<(bool, usize), AllocError>,
            &mut Pass<V>,
            &mut A,
            &mut M,
        )
            requires { IsOf V.meaning api.now own.now }
            ensures names { (result.1.ghost_name ≡ own.entry.ghost_name) × (result.2.ghost_name ≡ heard.entry.ghost_name) × (result.3.ghost_name ≡ kit.entry.ghost_name) }
            ensures of { IsOf V.meaning api.entry.now result.1.now }
            ensures hears { (place : List ℕ) → A.hears heard.entry.now place → A.hears result.2.now place }
            ensures fault { IfOk result.0 (λ done. done.0 ≡ false → Rose (A.faults heard.entry.now) (A.faults result.2.now)) }
            ensures memory { IfErr result.0 (λ _. (result.2.now ≡ heard.entry.now) × (result.1.now ≡ own.entry.now)) }
            ensures served { IfOk result.0 (λ done. (n : ℕ) → own.entry.now.view.number ≡ Some n
                → (count : ℕ) × MatchBool done.0 (connections ≡ Some count) (IfSome connections (λ k. count < k))
                × Rounds (server_of V.meaning api.entry.now.base) turns_between done.1 own.entry.now.view count result.1.now.view
                × ServedAll (IsAnswered V.Tool.faults (sides A.In.left A.In.most A.Out.written A.Out.flushed) (front_of V.meaning api.entry.now.base (C.told clock.entry.now))) workers done.1 own.entry.now.view result.1.now.view count (A.origins heard.entry.now) (A.origins result.2.now) (A.returned heard.entry.now) (A.returned result.2.now)) }
        {
            let end = serve_in(
                rt,
                alloc,
                scope,
                api,
                own,
                kit,
                heard,
                clock,
                workers,
                connections,
            );
            (end, own, heard, kit)
        },
    );
    let _pass = &mut *back;
    let _ears = &mut *ears_back;
    let _tools = &mut *tools_back;
    end
}

/// Serves so many connections, or where no number is given as many as come, with so many workers beside them. Each connection
/// that is handed out has a thread and a pass of its own, and is served by one `serve_link`, closed and given back. The calling
/// thread accepts; it serves a connection itself, on `pass`, where 64 threads run, where the connection's pass couldn't be made
/// and where its thread isn't started. A worker works until all connections are joined; one without a thread has 64 turns after
/// each connection, and how many are without one is told: those for whom there was no memory or no thread. `EarsFault` comes only
/// where the count of faults of `ears` rose, and `NoMemory` only before the first connection is asked for and a worker is hired.
pub fn serve_all<
    'x,
    V: Versions + Drop + Send + Sync,
    A: Ears + Send,
    M: Tools<V::Tool>,
    C: Clock + Sync,
    R: Threads + Wait + time::Clock + Sync,
>(
    rt: &'x R,
    alloc: Global,
    api: &'x SharedApi<V>,
    pass: &mut Pass<V>,
    tools: &mut M,
    ears: &mut A,
    clock: &'x C,
    workers: u64,
    connections: Option<u64>,
) -> Served
where
    V::Tool: Send,
    requires of { IsOf V.meaning api.now pass.old }
    requires workers { workers ≤ 15 }
    ensures of { IsOf V.meaning api.now pass.new }
    // Each connection that was handed out was served in a span of the list and given back. `Done` is where they were as many as
    // were asked for, and at `EarsFault` they were fewer. The workers that aren't idle have a pass each, which serves no connection. What no
    // connection entered is of theirs, or where any are idle of one of as many further passes at most, or of the pass that accepts, which takes
    // 64 turns of each that is idle behind each connection.
    ensures served { UnlessNoMemory result.end ((n : ℕ) → pass.old.view.number ≡ Some n
        → (count : ℕ) × EndsAt result.end connections count
        × Rounds (server_of V.meaning api.now.base) turns_between result.idle pass.old.view count pass.new.view
        × ServedAll (IsAnswered V.Tool.faults (sides A.In.left A.In.most A.Out.written A.Out.flushed) (front_of V.meaning api.now.base (C.told clock.now))) workers result.idle pass.old.view pass.new.view count (A.origins ears.old) (A.origins ears.new) (A.returned ears.old) (A.returned ears.new)) }
    // It listens where it did.
    ensures hears { (place : List ℕ) → A.hears ears.old place → A.hears ears.new place }
    // A fault comes only where the ears' count rose, and without memory nothing was done.
    ensures blames { ServeBlames result.end (Rose (A.faults ears.old) (A.faults ears.new)) ((ears.new ≡ ears.old) × (pass.new ≡ pass.old)) }
{
    match serve_scoped(
        rt,
        alloc,
        api,
        pass,
        tools,
        ears,
        clock,
        workers as usize,
        connections,
    ) {
        Ok((true, idle)) => Served {
            end: ServeEnd::Done,
            idle: idle as u64,
        },
        Ok((false, idle)) => Served {
            end: ServeEnd::EarsFault,
            idle: idle as u64,
        },
        Err(_) => Served {
            end: ServeEnd::NoMemory,
            idle: workers,
        },
    }
}
