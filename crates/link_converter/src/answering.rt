//! What an answer says.
ghost use Rattle.std.specs.Prelude.{◌≡◌, [], List, ℕ, Some, length, MatchOption, MatchResult, IfOk, IfErr};
ghost use Rattle.http_wire.specs.Inboxes.{LiesIn, OnReadFault};
ghost use Rattle.http_wire.specs.Received.{Receives, IsLack, response_at};
ghost use Rattle.link_converter.specs.Asking.{HasBody};

use edge_io::SureSource;
use http_wire::{Inbox, ResponseParts, WireFault, read_response};
use kj_value::NoMemory;
use std::alloc::Global;

// The code of an answer that is taken.
const OK: u16 = 200;

// The response at the front of what a source has.
fn response_in(inbox: &mut Inbox, source: &mut SureSource) -> Result<ResponseParts, WireFault>
    requires { inbox.old ≡ record { bytes = []; request = 0 } }
    ensures next { MatchResult result
        (λ p. (rest : List ℕ) × Receives source.old (response_at inbox.new.bytes p) rest × LiesIn (length inbox.new.bytes) p.body)
        (λ f. IsLack source.old (Some []) f) }
    ensures sure { IfErr result (λ f. OnReadFault f ⊥) }
{
    read_response(inbox, source)
}

/// The body of the response of the code 200 at the front, where there is one.
#[tactic(auto, using(crate::proofs::Lacks::has_body, crate::proofs::Lacks::other_code, crate::proofs::Lacks::none_closed, crate::proofs::Lacks::none_torn, crate::proofs::Lacks::none_bad, crate::proofs::Lacks::none_long, crate::proofs::Lacks::none_unmeasured, crate::proofs::Lacks::none_large))]
pub(crate) fn body_of(alloc: Global, answer: Vec<u8>) -> Result<Option<Vec<u8>>, NoMemory>
    ensures { IfOk result (λ found. MatchOption found
        ((body : List ℕ) → HasBody answer.items body → ⊥)
        (λ v. HasBody answer.items v.items)) }
{
    let mut source = SureSource::new(answer);
    let mut inbox = Inbox::open(alloc)?;
    match response_in(&mut inbox, &mut source) {
        Ok(parts) => {
            if parts.code == OK {
                Ok(Some(Vec::from_slice(alloc, inbox.part(parts.body))?))
            } else {
                Ok(None)
            }
        }
        Err(WireFault::Closed) => Ok(None),
        Err(WireFault::Torn { held: _ }) => Ok(None),
        Err(WireFault::BadHead) => Ok(None),
        Err(WireFault::HeadTooLong) => Ok(None),
        Err(WireFault::LengthRequired) => Ok(None),
        Err(WireFault::BodyTooLong { length: _ }) => Ok(None),
        Err(WireFault::ReadFault) => unreachable!(),
    }
}
