//! The turns of a worker.
ghost use Rattle.std.specs.Prelude.{◌≡◌, None};
ghost use Rattle.shared_api.specs.Base.{server_of};
ghost use Rattle.shared_api.specs.Passes.{IsOf};
ghost use Rattle.migrate_workers.specs.Works.{Ran, Works, end_of_fault};

use crate::gate::Gate;
use api_calls::Versions;
use migrate_core::Worker;
use shared_api::{Pass, SharedApi, TurnStep, WorkFault};
use std::sync::Wait;

/// How a worker ended.
#[derive(Clone, Copy, Debug, PartialEq, Eq, Drop)]
pub enum WorkEnd {
    /// The gate said no.
    Stopped,
    /// It took as many turns as it was to take.
    Spent,
    /// The converter failed in the last turn.
    Converter,
    /// Memory was wanted in the last turn and there was none.
    NoMemory,
}

// The end after a turn that failed.
fn end_of(fault: WorkFault) -> WorkEnd
    ensures { result ≡ end_of_fault fault }
{
    match fault {
        WorkFault::Converter => WorkEnd::Converter,
        WorkFault::NoMemory => WorkEnd::NoMemory,
    }
}

// Turns, each after the gate said yes.
fn take_turns<V: Versions + Drop, G: Gate, R: Wait>(
    rt: &R,
    api: &SharedApi<V>,
    pass: &mut Pass<V>,
    gate: &mut G,
    turns: u64,
    w: &mut Worker,
) -> WorkEnd
    requires of { IsOf V.meaning api.now pass.old }
    ensures of { IsOf V.meaning api.now pass.new }
    ensures ran { Ran (server_of V.meaning api.now.base) turns
        (record { view = pass.old.view; claim = w.old.claim; faults = V.Tool.faults pass.old.tool })
        (record { view = pass.new.view; claim = w.new.claim; faults = V.Tool.faults pass.new.tool })
        result G.answers gate.old gate.new }
{
    let mut last = TurnStep::Idle;
    for _i in 0..turns {
        let yes = gate.go_on(rt, last);
        if !yes {
            return WorkEnd::Stopped;
        }
        match api.worker_turn(rt, pass, w) {
            Ok(step) => last = step,
            Err(fault) => return end_of(fault),
        }
    }
    WorkEnd::Spent
}

/// Takes a worker's turns while the gate says yes, up to so many, and gives its claim back, whatever ended them, so that
/// another worker may take it. `Stopped` comes exactly where the gate said no, and `Spent` exactly after `turns` turns;
/// `Converter` and `NoMemory` come after the turn that failed so.
pub fn work<V: Versions + Drop, G: Gate, R: Wait>(
    rt: &R,
    api: &SharedApi<V>,
    pass: &mut Pass<V>,
    gate: &mut G,
    turns: u64,
) -> WorkEnd
    requires of { IsOf V.meaning api.now pass.old }
    ensures of { IsOf V.meaning api.now pass.new }
    ensures works { Works (server_of V.meaning api.now.base) turns pass.old.view pass.new.view (V.Tool.faults pass.old.tool) (V.Tool.faults pass.new.tool)
        result G.answers gate.old gate.new }
{
    let mut w = Worker { claim: None };
    let end = take_turns(rt, api, pass, gate, turns, &mut w);
    api.give_back(rt, pass, &mut w);
    end
}
