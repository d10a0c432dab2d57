//! A converter that has its answers in a list.
ghost use Rattle.std.specs.Prelude.{◌≡◌, ◌<◌, ◌≤◌, ◌+◌, ◌++◌, ◌∷◌, [], None, Some, false, map, IsTrue, IsSome, IfOk, IfErr, OnErr};
ghost use Rattle.kj_value.specs.Json.{depth};
ghost use Rattle.kj_value.specs.Kinds.{as_object};
ghost use Rattle.kj_value.specs.Seen.{json};
ghost use Rattle.kube_meta.specs.View.{ObjectView};
ghost use Rattle.object_reading.specs.Parts.{whole_in};
ghost use Rattle.api_calls.specs.declared.versions.TheConstants.{OBJECT_LEVELS};
ghost use Rattle.converters.specs.Turns.{after_turn, OnRefused, Counts};
ghost use Rattle.converters.specs.Turned.{IsDocumentOf, nothing};
ghost use Rattle.converters.specs.Answers.{Takes, TakesNext};
ghost use Rattle.converters.specs.Seen.{answer_of, turn_of, waiting_of, made_of};

use crate::{Converter, TurnFault};
use api_calls::Tool;
use kj_value::{JVal, NoMemory, Txt, copy};
use std::alloc::Global;

/// What a turn comes to.
#[derive(Drop)]
pub enum Outcome {
    Answered(JVal),
    Refused,
    Failed,
}

/// A turn that was made: the document, the version that was wanted of it, and what came of it.
#[derive(Drop)]
pub struct MadeTurn {
    pub object: JVal,
    pub to: Txt,
    pub outcome: Outcome,
}

// The same again, in memory of its own.
fn copied(alloc: Global, outcome: &Outcome) -> Result<Outcome, NoMemory>
    ensures { IfOk result (λ o. answer_of o ≡ answer_of outcome.now) }
{
    match outcome {
        Outcome::Answered(v) => Ok(Outcome::Answered(copy(alloc, v)?)),
        Outcome::Refused => Ok(Outcome::Refused),
        Outcome::Failed => Ok(Outcome::Failed),
    }
}

/// A turn, in memory of its own.
pub(crate) fn made(
    alloc: Global,
    object: &JVal,
    to: &str,
    outcome: &Outcome,
) -> Result<MadeTurn, NoMemory>
    ensures { IfOk result (λ t. turn_of t ≡ record { object = json object.now; to = to.now; answer = answer_of outcome.now }) }
{
    let object = copy(alloc, object)?;
    let to = Txt::of(alloc, to)?;
    let outcome = copied(alloc, outcome)?;
    Ok(MadeTurn {
        object,
        to,
        outcome,
    })
}

/// A converter that gives its answers in order, whatever it is asked, and fails where none is left. It is not honest, and tells its turns.
#[derive(Drop)]
pub struct ListConverter {
    answers: Vec<Outcome>,
    given: usize,
    made: Vec<MadeTurn>,
    faults: u64,
}

impl ListConverter {
    /// A converter with these answers, in order.
    pub fn new(alloc: Global, answers: Vec<Outcome>) -> ListConverter
        ensures waiting { waiting_of result ≡ map answer_of answers.items }
        ensures made { made_of result ≡ [] }
        ensures faults { ⟦<ListConverter as Tool>⟧.faults result ≡ 0 }
    {
        ListConverter {
            answers,
            given: 0,
            made: Vec::new(alloc),
            faults: 0,
        }
    }

    /// The turns that were made, in order.
    pub fn made(&self) -> &[MadeTurn]
        ensures { map turn_of result.now ≡ made_of self.now }
    {
        &self.made
    }

    // Makes a turn that comes to the next answer.
    fn take(&mut self, alloc: Global, object: &JVal, to: &str) -> Result<Outcome, NoMemory>
        ensures ok { IfOk result (λ o. Takes (waiting_of self.old) (waiting_of self.new) (answer_of o)) }
        ensures made { IfOk result (λ o. made_of self.new ≡ made_of self.old ++ (record { object = json object.now; to = to.now; answer = answer_of o }) ∷ []) }
        ensures kept { OnErr result ((waiting_of self.new ≡ waiting_of self.old) × (made_of self.new ≡ made_of self.old)) }
        ensures faults { self.new.faults ≡ self.old.faults }
    {
        let mut outcome = Outcome::Failed;
        if self.given < self.answers.len() {
            outcome = copied(alloc, &self.answers[self.given])?;
        }
        let made = made(alloc, object, to, &outcome)?;
        self.made.push(made)?;
        if self.given < self.answers.len() {
            self.given += 1;
        }
        Ok(outcome)
    }
}

impl Tool for ListConverter {
    ghost faults = { λ c. c.faults };

    fn count(&self) -> u64
        ensures { result ≡ self.now.faults }
    {
        self.faults
    }
}

impl Converter for ListConverter {
    ghost use Rattle.std.specs.Prelude.{false, Some};
    ghost use Rattle.converters.specs.Turned.{nothing};

    ghost HONEST = { false };

    const HONEST: bool = false;

    ghost turned = { nothing };

    ghost turns = { λ c. Some (made_of c) };

    fn turn(&mut self, alloc: Global, object: &JVal, to: &str) -> Result<JVal, TurnFault>
        requires object { IsSome (as_object (json object.now)) }
        requires levels { depth (json object.now) ≤ OBJECT_LEVELS }
        ensures turned { IsTrue false → (x : ObjectView) → IsDocumentOf (json object.now) x → IfOk result (λ y. nothing x to.now ≡ Some (whole_in (json y))) }
        ensures refused { IsTrue false → (x : ObjectView) → IsDocumentOf (json object.now) x → IfErr result (OnRefused (nothing x to.now ≡ None)) }
        ensures turns { Some (made_of self.new) ≡ after_turn json (Some (made_of self.old)) (json object.now) to.now result }
        ensures counts { Counts self.old.faults self.new.faults result }

        // It answers what is next. `NoMemory` comes also where the count of faults has its last value.
        ensures next { TakesNext json (waiting_of self.old) (waiting_of self.new) result }
    {
        let Some(faults) = self.faults.checked_add(1) else {
            return Err(TurnFault::NoMemory);
        };
        match self.take(alloc, object, to)? {
            Outcome::Answered(v) => Ok(v),
            Outcome::Refused => Err(TurnFault::Refused {
                message: Txt::of_string(String::new(alloc)),
            }),
            Outcome::Failed => {
                self.faults = faults;
                Err(TurnFault::Failed)
            }
        }
    }

    fn reject(&mut self) -> bool
        ensures rejects { IsTrue result → self.old.faults < self.new.faults }
        ensures turns { Some (made_of self.new) ≡ Some (made_of self.old) }
        ensures kept { result ≡ false → self.new.faults ≡ self.old.faults }
        ensures waiting { waiting_of self.new ≡ waiting_of self.old }
    {
        match self.faults.checked_add(1) {
            Some(faults) => {
                self.faults = faults;
                true
            }
            None => false,
        }
    }

    ghost use Rattle.converters.specs.Dishonest.{never};

    ghost stays = { λ honest. absurd (never honest) };

    ghost unstamped = { λ honest. absurd (never honest) };
}
