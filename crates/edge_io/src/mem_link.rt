//! A link in memory.
ghost use Rattle.std.specs.Prelude.{◌≡◌, ◌↔◌, ◌≤◌, ◌∷◌, ◌++◌, [], None, Some, map, option_map, IfOk, IfErr, MatchOption, OnOk, OnErr};
ghost use Rattle.edge_io.specs.Causes.{Rose};
ghost use Rattle.edge_io.specs.Exchanges.{Exchange, after_exchange, answer_of, OnBroken};
ghost use Rattle.edge_io.specs.MemoryLink.{Breaks, GivesNext, after_call};

use crate::calls::CallCount;
use crate::{Link, LinkFault};
use kj_value::NoMemory;
use std::alloc::Global;
use std::marker::Model;

/// An exchange that a link in memory made: a request, and what it was answered, or nothing where it failed.
#[derive(Drop)]
pub struct MemExchange {
    request: Vec<u8>,
    answer: Option<Vec<u8>>,
}

impl Model for MemExchange {
    ghost use Rattle.std.specs.Prelude.{option_map};
    ghost use Rattle.edge_io.specs.Exchanges.{Exchange};

    ghost Value = { Exchange };

    ghost view = { λ e. record { request = e.request.items; answer = option_map (λ v. v.items) e.answer } };
}

impl MemExchange {
    /// What was sent.
    pub fn request(&self) -> &[u8]
        ensures { result.now ≡ self.now.request }
    {
        &self.request
    }

    /// What it was answered, or nothing where the exchange failed.
    pub fn answer(&self) -> Option<&[u8]>
        ensures { MatchOption result (self.now.answer ≡ None) (λ bytes. self.now.answer ≡ Some bytes.now) }
    {
        match &self.answer {
            Some(bytes) => Some(bytes),
            None => None,
        }
    }
}

// The same bytes again.
fn copied(alloc: Global, bytes: &[u8]) -> Result<Vec<u8>, NoMemory>
    ensures { IfOk result (λ v. v.items ≡ bytes.now) }
{
    let mut copy = Vec::with_capacity(alloc, bytes.len())?;
    copy.extend_from_slice(bytes)?;
    Ok(copy)
}

// Adds an exchange at the end.
fn note(
    alloc: Global,
    made: &mut Vec<MemExchange>,
    request: &[u8],
    answer: Option<Vec<u8>>,
) -> Result<(), NoMemory>
    ensures ok { OnOk result (made.new.items
        ≡ made.old.items ++ (record { request = request.now; answer = option_map (λ v. v.items) answer }) ∷ []) }
    ensures err { OnErr result (made.new.items ≡ made.old.items) }
{
    let request = copied(alloc, request)?;
    made.push(MemExchange { request, answer })?;
    Ok(())
}

// Adds an exchange with that answer at the end, and gives the answer again.
fn answered(
    alloc: Global,
    made: &mut Vec<MemExchange>,
    request: &[u8],
    answer: &[u8],
) -> Result<Vec<u8>, NoMemory>
    ensures given { IfOk result (λ v. v.items ≡ answer.now) }
    ensures ok { OnOk result (made.new.items
        ≡ made.old.items ++ (record { request = request.now; answer = Some answer.now }) ∷ []) }
    ensures err { OnErr result (made.new.items ≡ made.old.items) }
{
    let kept = copied(alloc, answer)?;
    let given = copied(alloc, answer)?;
    note(alloc, made, request, Some(kept))?;
    Ok(given)
}

/// A link in memory, which gives its answers in order, and fails at the calls that it is told to fail at and where no answer is
/// left.
#[derive(Drop)]
pub struct MemLink {
    answers: Vec<Vec<u8>>,
    given: usize,
    made: Vec<MemExchange>,
    calls: CallCount,
}

impl Model for MemLink {
    ghost use Rattle.std.specs.Prelude.{◌≤◌, drop, map, vec_len};
    ghost use Rattle.edge_io.specs.MemoryLink.{LinkState};

    ghost Value = { LinkState };

    ghost view = { λ l. record { waiting = map (λ v. v.items) (drop l.given l.answers.items); made = l.made.items; calls = l.calls } };

    ghost invariant = { λ l. l.given ≤ vec_len l.answers };
}

impl MemLink {
    /// A link with these answers, in order. Its calls are counted from 0, and those whose number is in `failing` fail.
    pub fn new(alloc: Global, answers: Vec<Vec<u8>>, failing: Vec<u64>) -> MemLink
        ensures { result ≡ record { waiting = map (λ v. v.items) answers.items; made = []; calls = record { made = 0; failing = failing.items; faults = 0 } } }
    {
        MemLink {
            answers,
            given: 0,
            made: Vec::new(alloc),
            calls: CallCount::new(failing),
        }
    }

    /// The exchanges that were made, in order.
    pub fn made(&self) -> &[MemExchange]
        ensures { result.now ≡ self.now.made }
    {
        &self.made
    }

    /// How many calls there were.
    pub fn calls(&self) -> u64
        ensures { result ≡ self.now.calls.made }
    {
        self.calls.made()
    }

    /// How many calls failed.
    pub fn faults(&self) -> u64
        ensures { result ≡ self.now.calls.faults }
    {
        self.calls.faults()
    }
}

impl Link for MemLink {
    ghost exchanges = { λ l. Some l.made };

    ghost faults = { λ l. l.calls.faults };

    #[tactic(auto, using(std::proofs::lemmas::List::drop_all))]
    fn exchange(&mut self, alloc: Global, request: &[u8]) -> Result<Vec<u8>, LinkFault>
        ensures exchanges { Some self.new.made ≡ after_exchange (Some self.old.made) request.now (answer_of (λ v. v.items) result) }
        ensures later { self.old.calls.faults ≤ self.new.calls.faults }
        ensures cause { IfErr result (λ fault. OnBroken fault (Rose self.old.calls.faults self.new.calls.faults)) }

        // It fails only at the listed calls and where no answer is left, and else gives the next answer.
        ensures fails { IfErr result (λ fault. OnBroken fault (Breaks self.old)) }
        ensures given { IfOk result (λ v. GivesNext self.old self.new v.items) }
        ensures quiet { IfOk result (λ _. Breaks self.old → ⊥) }
        ensures kept { OnErr result (self.new.waiting ≡ self.old.waiting) }
        ensures calls { self.new.calls ≡ after_call self.old.calls result }
    {
        let listed = self.calls.begin();
        if listed || self.given == self.answers.len() {
            return match note(alloc, &mut self.made, request, None) {
                Ok(()) => {
                    self.calls.fail();
                    Err(LinkFault::Failed)
                }
                Err(_) => Err(LinkFault::NoMemory),
            };
        }
        match answered(alloc, &mut self.made, request, &self.answers[self.given]) {
            Ok(answer) => {
                self.given += 1;
                Ok(answer)
            }
            Err(_) => Err(LinkFault::NoMemory),
        }
    }
}
