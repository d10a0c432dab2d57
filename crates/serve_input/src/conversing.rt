//! A conversation over one input, by any definition.
ghost use Rattle.std.specs.Prelude.{◌≡◌, ℕ, [], List, Some, IfOk, OnErr};
ghost use Rattle.api_calls.specs.Item.{items};
ghost use Rattle.api_calls.specs.Legal.{legal};
ghost use Rattle.edge_io.specs.Causes.{Rose};
ghost use Rattle.http_wire.specs.declared.limits.TheConstants.{MOST_REQUESTS};
ghost use Rattle.turn_cell.specs.Views.{IsAlone};
ghost use Rattle.shared_api.specs.Base.{server_of};
ghost use Rattle.shared_api.specs.Passes.{IsOf};
ghost use Rattle.http_front.specs.Link.{Links, UnlessUnwritten};
ghost use Rattle.http_front.specs.Paced.{Paced};
ghost use Rattle.http_front.specs.Steps.{IsSameBut};
ghost use Rattle.serve_input.specs.Conversed.{At, AnswersAndWorks, Blames, Conversed, IsPaced, MayRise, TakesTurns, front_of, link_end};

use api_calls::Versions;
use edge_io::{Clock, Sink, Source};
use http_front::{OneEnd, serve_one};
use http_wire::{Inbox, MOST_REQUESTS, WireFault};
use kj_value::NoMemory;
use kube_meta::Limits;
use migrate_core::Worker;
use shared_api::{Pass, SharedApi};
use std::alloc::Global;
use std::sync::Wait;

/// How a conversation ends.
#[derive(Clone, Copy, Drop)]
pub enum PipeEnd {
    /// The input ended between two requests, or an answered request asked for closing.
    Closed,
    /// The input ended inside a request, of which so many bytes are held.
    Torn { held: u64 },
    /// The head of a request was refused.
    Refused(WireFault),
    /// As many requests were answered as are read, and the last didn't ask for closing.
    Spent,
    ReadFault,
    WriteFault,
}

// The worker takes so many turns on a pass that no other calls beside. One that wants memory to prepare an object, or whose converter fails,
// comes to nothing.
fn take_turns<V: Versions + Drop, R: Wait>(
    rt: &R,
    api: &SharedApi<V>,
    pass: &mut Pass<V>,
    worker: &mut Worker,
    turns: u64,
)
    requires of { IsOf V.meaning api.now pass.old }
    requires alone { IsAlone pass.old.view }
    ensures of { IsOf V.meaning api.now pass.new }
    ensures took { TakesTurns (server_of V.meaning api.now.base) (record { log = items pass.old.view.seen; claim = worker.old.claim }) turns
        (record { log = items pass.new.view.seen; claim = worker.new.claim }) }
    ensures same { IsSameBut pass.old.view pass.new.view }
{
    for _turn in 0..turns {
        let _came = api.worker_turn(rt, pass, worker);
    }
}

// Answers the requests of the input on a pass that no other calls beside, over an inbox that holds nothing, and lets the worker
// take so many turns after each answer.
fn converse<V: Versions + Drop, R: Wait, S: Source, K: Sink, C: Clock>(
    rt: &R,
    alloc: Global,
    api: &SharedApi<V>,
    pass: &mut Pass<V>,
    worker: &mut Worker,
    turns: u64,
    inbox: &mut Inbox,
    input: &mut S,
    output: &mut K,
    clock: &C,
) -> PipeEnd
    requires of { IsOf V.meaning api.now pass.old }
    requires number { pass.old.view.number ≡ Some 0 }
    requires alone { IsAlone pass.old.view }
    requires empty { inbox.old.bytes ≡ [] }
    ensures talk { (after : At) × legal (V.meaning api.now.base.versions) api.now.base.limits after.log × Links (AnswersAndWorks (record { server = server_of V.meaning api.now.base; told = C.told clock.now }) (MayRise V.Tool.faults) turns) MOST_REQUESTS ⊥ (link_end result)
        (record { log = items pass.old.view.seen; claim = worker.old.claim }) after (S.left input.old) (K.written output.old) (K.written output.new)
        × Paced (record { left = S.left; written = K.written; flushed = K.flushed }) (AnswersAndWorks (record { server = server_of V.meaning api.now.base; told = C.told clock.now }) (MayRise V.Tool.faults) turns) (S.most input.old) (link_end result)
        (record { log = items pass.old.view.seen; claim = worker.old.claim }) (record { held = inbox.old.bytes; input = input.old; output = output.old })
        after (record { held = inbox.new.bytes; input = input.new; output = output.new }) }
    ensures blames { Blames result (Rose (S.faults input.old) (S.faults input.new)) (Rose (K.faults output.old) (K.faults output.new)) }
    ensures flushed { UnlessUnwritten (link_end result) (K.flushed output.old ≡ K.written output.old → K.flushed output.new ≡ K.written output.new) }
{
    for count in 0..MOST_REQUESTS {
        match serve_one(rt, alloc, api, pass, inbox, input, output, clock) {
            OneEnd::Answered => take_turns(rt, api, pass, worker, turns),
            OneEnd::Last => {
                take_turns(rt, api, pass, worker, turns);
                return PipeEnd::Closed;
            }
            OneEnd::Closed => return PipeEnd::Closed,
            OneEnd::Torn { held } => return PipeEnd::Torn { held },
            OneEnd::Refused(fault) => return PipeEnd::Refused(fault),
            OneEnd::ReadFault => return PipeEnd::ReadFault,
            OneEnd::WriteFault => return PipeEnd::WriteFault,
        }
    }
    PipeEnd::Spent
}

/// Answers the requests of the input by a definition and its tool, from a server that begins with nothing entered, and which no other
/// calls. After each answer its one worker takes so many turns. Where memory is wanted for the server, nothing is read and
/// nothing is written.
pub fn serve_input<V: Versions + Drop, R: Wait, S: Source, K: Sink, C: Clock>(
    rt: &R,
    alloc: Global,
    versions: V,
    tool: V::Tool,
    input: &mut S,
    output: &mut K,
    clock: &C,
    boot: u64,
    turns: u64,
) -> Result<PipeEnd, NoMemory>
    ensures talk { (b : List ℕ) → S.left input.old ≡ Some b
        → IfOk result (Conversed (front_of (V.meaning versions) (record { boot = boot; told = C.told clock.now })) (MayRise V.Tool.faults) turns b (K.written output.old) (K.written output.new)) }
    ensures paced { IfOk result (IsPaced (record { tell = record { left = S.left; written = K.written; flushed = K.flushed }; most = S.most input.old; input_before = input.old; input = input.new; output_before = output.old; output = output.new })
        (front_of (V.meaning versions) (record { boot = boot; told = C.told clock.now })) (MayRise V.Tool.faults) turns) }
    ensures blames { IfOk result (λ end. Blames end (Rose (S.faults input.old) (S.faults input.new)) (Rose (K.faults output.old) (K.faults output.new))) }
    ensures flushed { IfOk result (λ end. UnlessUnwritten (link_end end) (K.flushed output.old ≡ K.written output.old → K.flushed output.new ≡ K.written output.new)) }
    ensures untouched { OnErr result ((input.new ≡ input.old) × (output.new ≡ output.old)) }
{
    let mut inbox = Inbox::open(alloc)?;
    let (api, mut pass) = SharedApi::open(alloc, versions, tool, Limits::STANDING, boot)?;
    let mut worker = Worker { claim: None };
    let end = converse(
        rt,
        alloc,
        &api,
        &mut pass,
        &mut worker,
        turns,
        &mut inbox,
        input,
        output,
        clock,
    );
    Ok(end)
}
