//! A converter that asks over a link.
ghost use Rattle.std.specs.Prelude.{◌≡◌, ◌<◌, ◌≤◌, ◌+◌, ◌∷◌, [], None, Some, false, codes, IsSome, IsTrue, IfOk, IfErr};
ghost use Rattle.kj_value.specs.Json.{depth, items_depth, items_of};
ghost use Rattle.kj_value.specs.Kinds.{as_object};
ghost use Rattle.kj_value.specs.Seen.{json};
ghost use Rattle.kube_meta.specs.View.{ObjectView};
ghost use Rattle.object_reading.specs.Parts.{whole_in};
ghost use Rattle.edge_io.specs.Causes.{Rose};
ghost use Rattle.edge_io.specs.Exchanges.{after_exchange, answer_of, OnBroken};
ghost use Rattle.http_wire.specs.Requesting.{asks_for};
ghost use Rattle.api_calls.specs.declared.versions.TheConstants.{OBJECT_LEVELS};
ghost use Rattle.converters.specs.Turns.{after_turn, untold, OnRefused, Counts};
ghost use Rattle.converters.specs.Turned.{IsDocumentOf, nothing};
ghost use Rattle.link_converter.specs.Asking.{ConverterState, review_of, WasAnswered, WasNotTaken, Takes};

use crate::asking::{post, uid};
use crate::taking::taken;
use api_calls::Tool;
use converters::{Converter, TurnFault};
use edge_io::{Link, LinkFault};
use kj_value::{JItems, JVal, NoMemory, Txt, copy};
use review_forms::request_text;
use std::alloc::Global;
use std::marker::Model;

/// A converter that asks another program over a link. Of it nothing is known, so it is not honest.
#[derive(Drop)]
pub struct LinkConverter<L: Link + Drop> {
    link: L,
    target: Txt,
    asked: u64,
    faults: u64,
}

impl<L: Link + Drop> Model for LinkConverter<L> {
    ghost use Rattle.link_converter.specs.Asking.{ConverterState};

    ghost Value = { ConverterState };

    ghost view = { λ c. record { exchanges = L.exchanges c.link; link_faults = L.faults c.link; target = c.target.bytes; asked = c.asked; faults = c.faults } };
}

// A list of that object, in memory of its own.
fn only(alloc: Global, object: &JVal) -> Result<JItems, NoMemory>
    ensures { IfOk result (λ js. js ≡ json object.now ∷ []) }
{
    let mut items = JItems::new(alloc);
    items.push(copy(alloc, object)?)?;
    Ok(items)
}

// One exchange of the review of that uid.
fn exchanged<L: Link>(
    alloc: Global,
    link: &mut L,
    target: &str,
    uid: &str,
    to: &str,
    sent: &JItems,
) -> Result<Vec<u8>, LinkFault>
    requires { items_depth (items_of sent.now) ≤ OBJECT_LEVELS }
    ensures exchanges { L.exchanges link.new ≡ after_exchange (L.exchanges link.old)
        (asks_for (codes "POST") target.now (review_of (record { uid = uid.now; desired = to.now; sent = sent.now })))
        (answer_of (λ v. v.items) result) }
    ensures later { L.faults link.old ≤ L.faults link.new }
    ensures cause { IfErr result (λ fault. OnBroken fault (Rose (L.faults link.old) (L.faults link.new))) }
{
    let review = request_text(alloc, uid, to, sent)?;
    let request = post(alloc, target, review.as_str())?;
    link.exchange(alloc, &request)
}

impl<L: Link + Drop> LinkConverter<L> {
    /// A converter that asks over this link by requests of this target, as `/convert`. It has asked nothing, and hasn't failed.
    pub fn open(link: L, target: Txt) -> LinkConverter<L>
        ensures { result ≡ record { exchanges = L.exchanges link; link_faults = L.faults link; target = target.bytes; asked = 0; faults = 0 } }
    {
        LinkConverter {
            link,
            target,
            asked: 0,
            faults: 0,
        }
    }

    /// The link.
    pub fn into_link(self) -> L
        ensures exchanges { L.exchanges result ≡ self.exchanges }
        ensures faults { L.faults result ≡ self.link_faults }
    {
        let LinkConverter {
            link,
            target: _,
            asked: _,
            faults: _,
        } = self;
        link
    }

    // Makes the exchange of the next review, and takes the object of its answer.
    fn ask(&mut self, alloc: Global, asked: u64, object: &JVal, to: &str) -> Result<JVal, TurnFault>
        requires number { asked ≡ self.old.asked + 1 }
        requires levels { depth (json object.now) ≤ OBJECT_LEVELS }
        ensures taken { IfOk result (λ y. WasAnswered self.old self.new (json object.now) to.now (Takes self.old (json object.now) to.now (json y))) }
        ensures untaken { IfErr result (WasNotTaken self.old self.new (json object.now) to.now (Rose self.old.link_faults self.new.link_faults)) }
        ensures same { (self.new.target ≡ self.old.target) × (self.new.faults ≡ self.old.faults) }
        ensures asked { self.new.asked ≡ self.old.asked + 1 }
    {
        self.asked = asked;
        let uid = uid(alloc, asked)?;
        let sent = only(alloc, object)?;
        match exchanged(
            alloc,
            &mut self.link,
            self.target.as_str(),
            uid.as_str(),
            to,
            &sent,
        ) {
            Ok(answer) => taken(alloc, answer, uid.as_str(), to, &sent),
            Err(LinkFault::Failed) => Err(TurnFault::Failed),
            Err(LinkFault::NoMemory) => Err(TurnFault::NoMemory),
        }
    }
}

impl<L: Link + Drop> Tool for LinkConverter<L> {
    ghost faults = { λ c. c.faults };

    fn count(&self) -> u64
        ensures { result ≡ self.now.faults }
    {
        self.faults
    }
}

impl<L: Link + Drop> Converter for LinkConverter<L> {
    ghost use Rattle.std.specs.Prelude.{false};
    ghost use Rattle.converters.specs.Turned.{nothing};
    ghost use Rattle.converters.specs.Turns.{untold};

    ghost HONEST = { false };

    const HONEST: bool = false;

    ghost turned = { nothing };

    ghost turns = { λ c. untold };

    fn turn(&mut self, alloc: Global, object: &JVal, to: &str) -> Result<JVal, TurnFault>
        requires object { IsSome (as_object (json object.now)) }
        requires levels { depth (json object.now) ≤ OBJECT_LEVELS }
        ensures turned { IsTrue false → (x : ObjectView) → IsDocumentOf (json object.now) x → IfOk result (λ y. nothing x to.now ≡ Some (whole_in (json y))) }
        ensures refused { IsTrue false → (x : ObjectView) → IsDocumentOf (json object.now) x → IfErr result (OnRefused (nothing x to.now ≡ None)) }
        ensures turns { untold ≡ after_turn json untold (json object.now) to.now result }
        ensures counts { Counts self.old.faults self.new.faults result }

        // The object is that of a response of the code 200 to the review, whose number is the next.
        ensures taken { IfOk result (λ y. WasAnswered self.old self.new (json object.now) to.now (Takes self.old (json object.now) to.now (json y))) }
        // Each fault has its cause. `NoMemory` comes also where a count has its last value.
        ensures untaken { IfErr result (WasNotTaken self.old self.new (json object.now) to.now (Rose self.old.link_faults self.new.link_faults)) }
        ensures target { self.new.target ≡ self.old.target }
    {
        let Some(faults) = self.faults.checked_add(1) else {
            return Err(TurnFault::NoMemory);
        };
        let Some(asked) = self.asked.checked_add(1) else {
            return Err(TurnFault::NoMemory);
        };
        match self.ask(alloc, asked, object, to) {
            Ok(y) => Ok(y),
            Err(TurnFault::Refused { message }) => Err(TurnFault::Refused { message }),
            Err(TurnFault::NoMemory) => Err(TurnFault::NoMemory),
            Err(TurnFault::Failed) => {
                self.faults = faults;
                Err(TurnFault::Failed)
            }
        }
    }

    fn reject(&mut self) -> bool
        ensures rejects { IsTrue result → self.old.faults < self.new.faults }
        ensures turns { untold ≡ untold }
        ensures kept { result ≡ false → self.new.faults ≡ self.old.faults }
        ensures same { self.new ≡ record self.old { faults = self.new.faults } }
    {
        match self.faults.checked_add(1) {
            Some(faults) => {
                self.faults = faults;
                true
            }
            None => false,
        }
    }

    ghost use Rattle.converters.specs.Dishonest.{never};

    ghost stays = { λ honest. absurd (never honest) };

    ghost unstamped = { λ honest. absurd (never honest) };
}
