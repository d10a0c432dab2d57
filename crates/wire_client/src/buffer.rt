//! The memory in which answers are read, one after the other.
ghost use Rattle.std.specs.Prelude.{◌≡◌, ◌≤◌, [], IfOk, IfSome};
ghost use Rattle.kj_value.specs.Json.{depth};
ghost use Rattle.kj_value.specs.Seen.{json};
ghost use Rattle.wire_client.specs.Answers.{IsAnswer, IsValue};
ghost use Rattle.wire_client.specs.inner.Seen.{answer_of, value_of, IsLow};

use crate::answer::Answer;
use edge_io::SureSource;
use http_wire::{Inbox, WireFault, read_response};
use kj_value::{JVal, JsonFault, NoMemory, read};
use std::alloc::Global;
use std::mem;

/// The most levels of lists and objects of an answer's body: those of a page, around its items.
pub const ANSWER_LEVELS: u32 = 66;

/// The memory in which answers are read, one after the other: some 1 MiB, which is taken at the first one.
pub struct ResponseBuffer {
    inbox: Option<Inbox>,
}

impl Drop for ResponseBuffer {
    fn drop(self) {
        let ResponseBuffer { inbox: _ } = self;
    }
}

impl ResponseBuffer {
    /// A buffer without memory.
    pub fn new() -> ResponseBuffer {
        ResponseBuffer { inbox: None }
    }

    // An inbox that holds nothing: the one that is kept, where it holds nothing, and else a new one.
    fn empty_inbox(&mut self, alloc: Global) -> Result<Inbox, NoMemory>
        ensures { IfOk result (λ i. i.bytes ≡ []) }
    {
        match mem::replace(&mut self.inbox, None) {
            Some(kept) => emptied(alloc, kept),
            None => Inbox::open(alloc),
        }
    }

    /// What the bytes of an answer come to.
    pub(crate) fn read(&mut self, alloc: Global, bytes: Vec<u8>) -> Result<Answer, NoMemory>
        ensures answer { IfOk result (λ a. IsAnswer bytes.items (answer_of a)) }
        ensures low { IfOk result IsLow }
    {
        let mut inbox = self.empty_inbox(alloc)?;
        let answer = read_in(alloc, &mut inbox, bytes);
        self.inbox = Some(inbox);
        answer
    }
}

// The inbox, where it holds nothing, or else a new one.
fn emptied(alloc: Global, kept: Inbox) -> Result<Inbox, NoMemory>
    ensures { IfOk result (λ i. i.bytes ≡ []) }
{
    let mut inbox = kept;
    let mut nothing = SureSource::new(Vec::new(alloc));
    match read_response(&mut inbox, &mut nothing) {
        Err(WireFault::Closed) => Ok(inbox),
        _ => Inbox::open(alloc),
    }
}

fn read_in(alloc: Global, inbox: &mut Inbox, bytes: Vec<u8>) -> Result<Answer, NoMemory>
    requires { inbox.old.bytes ≡ [] }
    ensures answer { IfOk result (λ a. IsAnswer bytes.items (answer_of a)) }
    ensures low { IfOk result IsLow }
{
    let mut source = SureSource::new(bytes);
    match read_response(inbox, &mut source) {
        Ok(parts) => {
            let body = value_in(alloc, inbox.part(parts.body));
            inbox.used();
            let body = body?;
            Ok(Answer::Coded {
                code: parts.code,
                body,
            })
        }
        Err(WireFault::BodyTooLong { length: _ }) => Ok(Answer::TooLong),
        Err(WireFault::Closed) => Ok(Answer::NoResponse),
        Err(WireFault::Torn { held: _ }) => Ok(Answer::NoResponse),
        Err(WireFault::BadHead) => Ok(Answer::NoResponse),
        Err(WireFault::HeadTooLong) => Ok(Answer::NoResponse),
        Err(WireFault::LengthRequired) => Ok(Answer::NoResponse),
        Err(WireFault::ReadFault) => unreachable!(),
    }
}

// The value of a body, where it has one.
fn value_in(alloc: Global, body: &[u8]) -> Result<Option<JVal>, NoMemory>
    ensures value { IfOk result (λ v. IsValue body.now (value_of v)) }
    ensures low { IfOk result (λ v. IfSome v (λ j. depth (json j) ≤ ANSWER_LEVELS)) }
{
    match read(alloc, body, ANSWER_LEVELS) {
        Ok(value) => Ok(Some(value)),
        Err(JsonFault::NotJson) => Ok(None),
        Err(JsonFault::TooDeep) => Ok(None),
        Err(JsonFault::NotWhole) => Ok(None),
        Err(JsonFault::NoMemory) => Err(NoMemory),
    }
}
