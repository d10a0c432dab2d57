//! One request of a connection.
ghost use Rattle.std.specs.Prelude.{◌≡◌, ◌≤◌, ◌<◌, ℕ, List, Some, length, IsUtf8};
ghost use Rattle.std.specs.Io.KnownBytes.{prepend_known};
ghost use Rattle.edge_io.specs.Causes.{Rose};
ghost use Rattle.http_wire.specs.Head.{Request, Reads, HasNoWhole};
ghost use Rattle.http_wire.specs.Response.{HasPhrase, says};
ghost use Rattle.http_wire.specs.declared.WireFault.TheVariants.{ReadFault};
ghost use Rattle.shared_api.specs.Base.{server_of};
ghost use Rattle.shared_api.specs.Passes.{IsOf};
ghost use Rattle.http_front.specs.Faults.{IsHeadFault};
ghost use Rattle.http_front.specs.Steps.{StepAnswers, IsSameBut, Quiet, point_of};
ghost use Rattle.http_front.specs.Going.{answer_of};
ghost use Rattle.http_front.specs.One.{Blames, Did, HandsOn, IfAnswered, IsRefused, RefusesHead, step_of as step_for};
ghost use Rattle.http_front.specs.inner.Ends.{Handed, Stopped};

use crate::answer::answer_request;
use crate::fault::refuse_head;
use crate::reply::{Answer, hand_on};
use api_calls::Versions;
use edge_io::{Clock, Sink, Source};
use http_wire::{Inbox, WireFault, read_request};
use shared_api::{Pass, SharedApi};
use std::alloc::Global;
use std::sync::Wait;

/// What came of reading one request and answering it.
#[derive(Clone, Copy, Drop)]
pub enum OneEnd {
    Answered,
    /// It was answered, and asked for closing.
    Last,
    /// The input ended between two requests.
    Closed,
    /// The input ended inside a request, of which so many bytes are held.
    Torn { held: u64 },
    /// The head was refused, and the one response to that was written.
    Refused(WireFault),
    ReadFault,
    WriteFault,
}

// The step of an answer to a request that asked for closing or didn't.
fn step_of(closing: bool) -> OneEnd
    ensures { result ≡ step_for closing }
{
    if closing {
        OneEnd::Last
    } else {
        OneEnd::Answered
    }
}

// The end of a head that is refused, once its response is written.
fn refused<K: Sink>(output: &mut K, fault: WireFault) -> OneEnd
    requires { IsHeadFault fault }
    ensures wrote { RefusesHead fault (K.written output.old) (K.written output.new) result }
    ensures flushed { HandsOn result (K.flushed output.new ≡ K.written output.new) (output.new ≡ output.old) }
    ensures blame { Blames result ⊥ (Rose (K.faults output.old) (K.faults output.new)) }
    ensures later { K.faults output.old ≤ K.faults output.new }
    ensures number { K.number output.new ≡ K.number output.old }
{
    match refuse_head(output, fault) {
        Ok(()) => OneEnd::Refused(fault),
        Err(_) => OneEnd::WriteFault,
    }
}

// The step where no request is read: how the input ended, or the end of a head that is refused.
fn stopped<K: Sink>(output: &mut K, fault: WireFault) -> OneEnd
    ensures stops { Stopped fault (K.written output.old) (K.written output.new) result }
    ensures flushed { HandsOn result (K.flushed output.new ≡ K.written output.new) (output.new ≡ output.old) }
    ensures blame { Blames result (fault ≡ ReadFault) (Rose (K.faults output.old) (K.faults output.new)) }
    ensures later { K.faults output.old ≤ K.faults output.new }
    ensures number { K.number output.new ≡ K.number output.old }
{
    match fault {
        WireFault::Closed => OneEnd::Closed,
        WireFault::Torn { held } => OneEnd::Torn { held },
        WireFault::ReadFault => OneEnd::ReadFault,
        _ => refused(output, fault),
    }
}

// The step of an answer that is handed on.
fn handed<K: Sink>(output: &mut K, answer: &Answer, closing: bool) -> OneEnd
    requires { HasPhrase (answer_of answer.now).code }
    ensures wrote { Handed closing (says (answer_of answer.now).code (answer_of answer.now).text closing) (K.written output.old) (K.written output.new) result }
    ensures flushed { HandsOn result (K.flushed output.new ≡ K.written output.new) (output.new ≡ output.old) }
    ensures blame { Blames result ⊥ (Rose (K.faults output.old) (K.faults output.new)) }
    ensures later { K.faults output.old ≤ K.faults output.new }
    ensures number { K.number output.new ≡ K.number output.old }
    ensures utf8 { IsUtf8 (answer_of answer.now).text }
{
    match hand_on(output, answer, closing) {
        Ok(()) => step_of(closing),
        Err(_) => OneEnd::WriteFault,
    }
}

/// Reads one request, makes its call on the pass and hands the answer on: it is written whole and flushed. A head that is
/// refused has one response, which asks for closing. `ReadFault` comes only where the count of faults of `input` rose, and
/// `WriteFault` only where that of `output` did. What the request entered stands also where its response wasn't written.
pub fn serve_one<V: Versions + Drop, S: Source, K: Sink, C: Clock, R: Wait>(
    rt: &R,
    alloc: Global,
    api: &SharedApi<V>,
    pass: &mut Pass<V>,
    inbox: &mut Inbox,
    input: &mut S,
    output: &mut K,
    clock: &C,
) -> OneEnd
    requires of { IsOf V.meaning api.now pass.old }
    ensures of { IsOf V.meaning api.now pass.new }
    // The request is the next one of all the input, and it is answered at the list that the pass sees.
    ensures did { (n : ℕ) → pass.old.view.number ≡ Some n
        → Did (StepAnswers (record { server = server_of V.meaning api.now.base; told = C.told clock.now }) n) result (point_of V.Tool.faults pass.old) (point_of V.Tool.faults pass.new)
        (prepend_known inbox.old.bytes (S.left input.old)) (prepend_known inbox.new.bytes (S.left input.new)) (K.written output.old) (K.written output.new) }
    // Of the pass only its list changes, and no item is new of a pass that was met into it; where it is alone, none of any other.
    ensures same { IsSameBut pass.old.view pass.new.view }
    ensures quiet { (n : ℕ) → pass.old.view.number ≡ Some n → Quiet n pass.old.view pass.new.view }
    // Nothing is read where a whole request is held.
    ensures ready { (r : Request) (rest : List ℕ) → Reads inbox.old.bytes r rest → input.new ≡ input.old }
    // Nothing is read once the request is whole: fewer bytes stand behind it than one read gives, also where its answer couldn't be written.
    ensures prompt { HasNoWhole inbox.old.bytes → (m : ℕ) → S.most input.old ≡ Some m
        → IfAnswered result (length inbox.new.bytes < m) (IsRefused (prepend_known inbox.old.bytes (S.left input.old))) }
    // What was written is handed on before the step ends, and so before the next step reads.
    ensures flushed { HandsOn result (K.flushed output.new ≡ K.written output.new) (output.new ≡ output.old) }
    ensures blames { Blames result (Rose (S.faults input.old) (S.faults input.new)) (Rose (K.faults output.old) (K.faults output.new)) }
    ensures read_later { S.faults input.old ≤ S.faults input.new }
    ensures write_later { K.faults output.old ≤ K.faults output.new }
    ensures origin { S.origin input.new ≡ S.origin input.old }
    ensures most { S.most input.new ≡ S.most input.old }
    ensures number { K.number output.new ≡ K.number output.old }
{
    match read_request(inbox, input) {
        Ok(parts) => {
            let answer = answer_request(rt, alloc, api, pass, clock, inbox, parts);
            inbox.used();
            handed(output, &answer, parts.closing)
        }
        Err(fault) => stopped(output, fault),
    }
}
