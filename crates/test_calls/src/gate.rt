//! A worker over a gate that says yes so many times.
ghost use Rattle.std.specs.Prelude.{⊤};
ghost use Rattle.shared_api.specs.Passes.{IsOf};

use crate::texts::cut;
use api_calls::Versions;
use migrate_workers::{Gate, WorkEnd, work};
use shared_api::{Pass, SharedApi, TurnStep};
use std::alloc::Global;
use std::sync::Wait;

/// A gate that says yes so many times, and then no. It keeps what it was asked with.
#[derive(Drop)]
struct Few {
    left: u64,
    asked: Vec<TurnStep>,
}

impl Gate for Few {
    ghost answers = { λ g last may h. ⊤ };

    fn go_on<R: Wait>(&mut self, _rt: &R, last: TurnStep) -> bool {
        let _kept = self.asked.push(last);
        match self.left.checked_sub(1) {
            Some(left) => {
                self.left = left;
                true
            }
            None => false,
        }
    }
}

// Adds a step. Answers whether there was room.
fn add_step(alloc: Global, step: &TurnStep, out: &mut String) -> bool {
    match format!(in alloc; ", {step:?}") {
        Ok(text) => out.push_str(text.as_str()).is_ok(),
        Err(_) => false,
    }
}

// The text, with these steps behind it.
fn with_steps(alloc: Global, front: String, asked: &[TurnStep]) -> Option<String> {
    let mut out = front;
    for step in asked {
        if !add_step(alloc, step, &mut out) {
            return None;
        }
    }
    Some(out)
}

// How a worker ended, and the steps that its gate was asked with.
fn told(alloc: Global, end: WorkEnd, asked: &[TurnStep]) -> Option<String> {
    match format!(in alloc; "{end:?}") {
        Ok(text) => with_steps(alloc, text, asked),
        Err(_) => None,
    }
}

// How a worker ends. Of it only is said whose the pass is, so that its clauses end here.
fn end_of<V: Versions + Drop, G: Gate, R: Wait>(
    rt: &R,
    api: &SharedApi<V>,
    pass: &mut Pass<V>,
    gate: &mut G,
    turns: u64,
) -> WorkEnd
    requires { IsOf V.meaning api.now pass.old }
    ensures { IsOf V.meaning api.now pass.new }
{
    work(rt, api, pass, gate, turns)
}

/// A worker of so many turns, whose gate says yes so many times: how it ended, and what its gate was asked with.
pub(crate) fn hired<V: Versions + Drop, R: Wait>(
    rt: &R,
    alloc: Global,
    api: &SharedApi<V>,
    pass: &mut Pass<V>,
    order: &str,
) -> Option<String>
    requires { IsOf V.meaning api.now pass.old }
    ensures { IsOf V.meaning api.now pass.new }
{
    let (_word, given) = cut(order);
    let (turns, yes) = cut(given);
    let Ok(turns) = turns.parse::<u64>() else {
        return None;
    };
    let Ok(left) = yes.parse::<u64>() else {
        return None;
    };
    let mut gate = Few {
        left,
        asked: Vec::new(alloc),
    };
    let end = end_of(rt, api, pass, &mut gate, turns);
    let told = told(alloc, end, gate.asked.as_slice());
    drop(gate);
    told
}
