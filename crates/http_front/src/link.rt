//! One connection.
ghost use Rattle.std.specs.Prelude.{◌≡◌, ◌⊎◌, ◌≤◌, ◌<◌, ℕ, List, [], Some};
ghost use Rattle.edge_io.specs.Causes.{Rose};
ghost use Rattle.http_wire.specs.declared.limits.TheConstants.{MOST_REQUESTS};
ghost use Rattle.shared_api.specs.Base.{server_of};
ghost use Rattle.shared_api.specs.Passes.{IsOf};
ghost use Rattle.http_front.specs.Steps.{StepAnswers, IsSameBut, Quiet, point_of};
ghost use Rattle.http_front.specs.Link.{LinkBlames, Links, UnlessUnwritten};
ghost use Rattle.http_front.specs.Paced.{IsUnserved, Paced};
ghost use Rattle.http_front.specs.inner.Ends.{end_by};

use crate::one::{OneEnd, serve_one};
use crate::reply::refuse_link;
use api_calls::Versions;
use edge_io::{Clock, Sink, Source};
use http_wire::{Inbox, MOST_REQUESTS, WireFault};
use shared_api::{Pass, SharedApi};
use std::alloc::Global;
use std::sync::Wait;

/// How a connection ends.
#[derive(Clone, Copy, Debug, Drop)]
pub enum End {
    /// The input ended between two requests, or an answered request asked for closing.
    Closed,
    /// The input ended inside a request, of which so many bytes are held.
    Torn { held: u64 },
    /// The head of a request was refused, and the one response to that was written.
    Refused(WireFault),
    ReadFault,
    WriteFault,
    /// As many requests were answered as are read, and the last didn't ask for closing.
    Spent,
    /// There is no memory for the connection: nothing was read, and the one response to that was written.
    NoMemory,
}

// How the connection ends by a step of it, if it does.
fn end_of(one: OneEnd) -> Option<End>
    ensures { result ≡ end_by one }
{
    match one {
        OneEnd::Answered => None,
        OneEnd::Last => Some(End::Closed),
        OneEnd::Closed => Some(End::Closed),
        OneEnd::Torn { held } => Some(End::Torn { held }),
        OneEnd::Refused(fault) => Some(End::Refused(fault)),
        OneEnd::ReadFault => Some(End::ReadFault),
        OneEnd::WriteFault => Some(End::WriteFault),
    }
}

/// Serves one connection on a pass as `serve_link` does, over an inbox that holds nothing. It is never `NoMemory`.
pub fn serve_requests<V: Versions + Drop, S: Source, K: Sink, C: Clock, R: Wait>(
    rt: &R,
    alloc: Global,
    api: &SharedApi<V>,
    pass: &mut Pass<V>,
    inbox: &mut Inbox,
    input: &mut S,
    output: &mut K,
    clock: &C,
) -> End
    requires of { IsOf V.meaning api.now pass.old }
    requires empty { inbox.old.bytes ≡ [] }
    ensures of { IsOf V.meaning api.now pass.new }
    ensures links { (n : ℕ) → pass.old.view.number ≡ Some n
        → Links (StepAnswers (record { server = server_of V.meaning api.now.base; told = C.told clock.now }) n) MOST_REQUESTS ⊥ result
        (point_of V.Tool.faults pass.old) (point_of V.Tool.faults pass.new) (S.left input.old) (K.written output.old) (K.written output.new) }
    ensures paced { (n : ℕ) → pass.old.view.number ≡ Some n
        → Paced (record { left = S.left; written = K.written; flushed = K.flushed }) (StepAnswers (record { server = server_of V.meaning api.now.base; told = C.told clock.now }) n) (S.most input.old) result
        (point_of V.Tool.faults pass.old) (record { held = inbox.old.bytes; input = input.old; output = output.old })
        (point_of V.Tool.faults pass.new) (record { held = inbox.new.bytes; input = input.new; output = output.new }) }
    ensures same { IsSameBut pass.old.view pass.new.view }
    ensures quiet { (n : ℕ) → pass.old.view.number ≡ Some n → Quiet n pass.old.view pass.new.view }
    ensures flushed { UnlessUnwritten result (K.flushed output.old ≡ K.written output.old → K.flushed output.new ≡ K.written output.new) }
    ensures blames { LinkBlames result (Rose (S.faults input.old) (S.faults input.new)) (Rose (K.faults output.old) (K.faults output.new)) }
    ensures origin { S.origin input.new ≡ S.origin input.old }
    ensures number { K.number output.new ≡ K.number output.old }
{
    for count in 0..MOST_REQUESTS {
        let one = serve_one(rt, alloc, api, pass, inbox, input, output, clock);
        if let Some(end) = end_of(one) {
            return end;
        }
    }
    End::Spent
}

/// Serves one connection on a pass: each request is read, answered and handed on before the next is read, and at most 10,000
/// are. `NoMemory` comes only with nothing read, after its one response. `ReadFault` comes only where the count of faults of
/// `input` rose, and `WriteFault` only where that of `output` did; what the requests entered that were read stands all the
/// same.
pub fn serve_link<V: Versions + Drop, S: Source, K: Sink, C: Clock, R: Wait>(
    rt: &R,
    alloc: Global,
    api: &SharedApi<V>,
    pass: &mut Pass<V>,
    input: &mut S,
    output: &mut K,
    clock: &C,
) -> End
    requires of { IsOf V.meaning api.now pass.old }
    ensures of { IsOf V.meaning api.now pass.new }
    // The requests are those that all the input spells; each is answered at the list that the pass then sees, and what is
    // written is the responses.
    ensures links { (n : ℕ) → pass.old.view.number ≡ Some n
        → Links (StepAnswers (record { server = server_of V.meaning api.now.base; told = C.told clock.now }) n) MOST_REQUESTS (input.new ≡ input.old) result
        (point_of V.Tool.faults pass.old) (point_of V.Tool.faults pass.new) (S.left input.old) (K.written output.old) (K.written output.new) }
    // Each request was answered and its answer handed on before more was read, and nothing was read behind one that asked for closing but
    // what came with it. Only where there was no memory for the connection there is no such step, and nothing was read.
    ensures paced { (n : ℕ) → pass.old.view.number ≡ Some n → (IsUnserved result × (input.new ≡ input.old)) ⊎ ((held : List ℕ)
        × Paced (record { left = S.left; written = K.written; flushed = K.flushed }) (StepAnswers (record { server = server_of V.meaning api.now.base; told = C.told clock.now }) n) (S.most input.old) result
        (point_of V.Tool.faults pass.old) (record { held = []; input = input.old; output = output.old })
        (point_of V.Tool.faults pass.new) (record { held = held; input = input.new; output = output.new })) }
    // Of the pass only its list changes, and no item is new of a pass that was met into it; where it is alone, none of any other.
    ensures same { IsSameBut pass.old.view pass.new.view }
    ensures quiet { (n : ℕ) → pass.old.view.number ≡ Some n → Quiet n pass.old.view pass.new.view }
    // What was written is handed on before the call ends.
    ensures flushed { UnlessUnwritten result (K.flushed output.old ≡ K.written output.old → K.flushed output.new ≡ K.written output.new) }
    ensures blames { LinkBlames result (Rose (S.faults input.old) (S.faults input.new)) (Rose (K.faults output.old) (K.faults output.new)) }
    ensures origin { S.origin input.new ≡ S.origin input.old }
    ensures number { K.number output.new ≡ K.number output.old }
{
    match Inbox::open(alloc) {
        Ok(mut inbox) => { serve_requests(rt, alloc, api, pass, &mut inbox, input, output, clock) }
        Err(_) => match refuse_link(output) {
            Ok(()) => End::NoMemory,
            Err(_) => End::WriteFault,
        },
    }
}
