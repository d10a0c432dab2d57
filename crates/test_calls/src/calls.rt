//! One call, by what a line gives.
ghost use Rattle.std.specs.Prelude.{IfSome, IsSome};
ghost use Rattle.shared_api.specs.Passes.{IsOf};

use crate::far::outside;
use crate::gate::hired;
use crate::links::asked;
use crate::texts::cut;
use crate::tool::Chosen;
use api_calls::Versions;
use kj_value::Txt;
use migrate_core::Worker;
use shared_api::{Pass, SharedApi, TurnStep, WorkFault};
use std::alloc::Global;
use std::mem;
use std::sync::Wait;

// What a worker's turn came to, and the claim that the worker has then.
fn worked(alloc: Global, came: Result<TurnStep, WorkFault>, w: &Worker) -> Option<String> {
    let claim = w.claim;
    match came {
        Ok(step) => format!(in alloc; "{step:?}, {claim:?}").ok(),
        Err(fault) => format!(in alloc; "failed: {fault:?}, {claim:?}").ok(),
    }
}

// A turn of the pass's worker.
fn turned<V: Versions + Drop, R: Wait>(
    rt: &R,
    alloc: Global,
    api: &SharedApi<V>,
    pass: &mut Pass<V>,
    w: &mut Worker,
) -> Option<String>
    requires { IsOf V.meaning api.now pass.old }
    ensures { IsOf V.meaning api.now pass.new }
{
    let came = api.worker_turn(rt, pass, w);
    worked(alloc, came, w)
}

// The claim of the pass's worker is given back.
fn returned<V: Versions + Drop, R: Wait>(
    rt: &R,
    alloc: Global,
    api: &SharedApi<V>,
    pass: &mut Pass<V>,
    w: &mut Worker,
) -> Option<String>
    requires { IsOf V.meaning api.now pass.old }
    ensures { IsOf V.meaning api.now pass.new }
{
    api.give_back(rt, pass, w);
    let claim = w.claim;
    format!(in alloc; "given back, {claim:?}").ok()
}

// The text that shows the definition with the flags of one body and the stored versions of another, whatever stands.
fn shown<V: Versions>(alloc: Global, versions: &V, order: &str) -> Option<String> {
    let (_word, bodies) = cut(order);
    let (flags, stored) = cut(bodies);
    let Ok(flags) = versions.read_flags(alloc, flags.as_bytes()) else {
        return None;
    };
    let Ok(stored) = versions.read_keep(alloc, stored.as_bytes()) else {
        return None;
    };
    match Txt::with_room(alloc, versions.show_room()) {
        Ok(mut told) => {
            versions.show(&flags, &stored, &mut told);
            String::from_str(alloc, told.as_str()).ok()
        }
        Err(_) => None,
    }
}

/// What an order answers, behind its pass; there is no answer where it is no order, or memory is wanted.
pub(crate) fn called<V: Versions + Drop, R: Wait>(
    rt: &R,
    alloc: Global,
    api: &SharedApi<V>,
    pass: &mut Pass<V>,
    w: &mut Worker,
    order: &str,
    input: &str,
) -> Option<String>
    requires { IsOf V.meaning api.now pass.old }
    ensures { IsOf V.meaning api.now pass.new }
{
    match order.as_bytes().first() {
        Some(b'h') => hired(rt, alloc, api, pass, order),
        Some(b'w') => turned(rt, alloc, api, pass, w),
        Some(b'b') => returned(rt, alloc, api, pass, w),
        Some(b's') => shown(alloc, api.versions(), order),
        Some(_) => asked(rt, alloc, api, pass, order, input),
        None => None,
    }
}

/// A pass that is made from another.
pub(crate) fn pass_from<V: Versions<Tool = Chosen> + Drop, R: Wait>(
    rt: &R,
    api: &SharedApi<V>,
    from: &mut Pass<V>,
    tool: Chosen,
) -> Option<Pass<V>>
    requires { IsOf V.meaning api.now from.old }
    ensures from { IsOf V.meaning api.now from.new }
    ensures made { IfSome result (λ p. IsOf V.meaning api.now p) }
    ensures numbered { IfSome result (λ p. IsSome p.view.number) }
{
    match api.new_pass(rt, from, tool) {
        Ok(pass) => Some(pass),
        Err(_) => None,
    }
}

// The pass is made anew from the other, with a tool that fails at the conversion of a number.
fn anew<V: Versions<Tool = Chosen> + Drop, R: Wait>(
    rt: &R,
    alloc: Global,
    api: &SharedApi<V>,
    pass: &mut Pass<V>,
    other: &mut Pass<V>,
    order: &str,
) -> Option<String>
    requires pass { IsOf V.meaning api.now pass.old }
    requires other { IsOf V.meaning api.now other.old }
    ensures pass { IsOf V.meaning api.now pass.new }
    ensures other { IsOf V.meaning api.now other.new }
{
    let (_word, given) = cut(order);
    let Ok(number) = given.parse::<u64>() else {
        return None;
    };
    match pass_from(rt, api, other, Chosen::at(number)) {
        Some(made) => {
            drop(mem::replace(pass, made));
            String::from_str(alloc, "a new pass").ok()
        }
        None => None,
    }
}

// The other pass is met into the pass, and is made anew from it.
fn unite<V: Versions<Tool = Chosen> + Drop, R: Wait>(
    rt: &R,
    alloc: Global,
    api: &SharedApi<V>,
    pass: &mut Pass<V>,
    other: &mut Pass<V>,
) -> Option<String>
    requires pass { IsOf V.meaning api.now pass.old }
    requires other { IsOf V.meaning api.now other.old }
    ensures pass { IsOf V.meaning api.now pass.new }
    ensures other { IsOf V.meaning api.now other.new }
{
    match pass_from(rt, api, pass, Chosen::at(0)) {
        Some(made) => {
            let gone = mem::replace(other, made);
            api.meet(pass, gone);
            String::from_str(alloc, "met").ok()
        }
        None => None,
    }
}

/// The same, or what is done with both passes.
pub(crate) fn called_beside<V: Versions<Tool = Chosen> + Drop, R: Wait>(
    rt: &R,
    alloc: Global,
    api: &SharedApi<V>,
    pass: &mut Pass<V>,
    other: &mut Pass<V>,
    w: &mut Worker,
    order: &str,
    input: &str,
) -> Option<String>
    requires pass { IsOf V.meaning api.now pass.old }
    requires other { IsOf V.meaning api.now other.old }
    ensures pass { IsOf V.meaning api.now pass.new }
    ensures other { IsOf V.meaning api.now other.new }
{
    match order.as_bytes().first() {
        Some(b'n') => anew(rt, alloc, api, pass, other, order),
        Some(b'u') => unite(rt, alloc, api, pass, other),
        Some(b'o') => outside(rt, alloc, api, pass, order),
        Some(_) => called(rt, alloc, api, pass, w, order, input),
        None => None,
    }
}
