//! What one side of HTTP writes is what the other side reads: the request that `write_request` writes is read as that request, and
//! the response that `write_response` writes is received as that response; and what is handed on of a response in chunks is read as
//! its chunks' bytes (`chunks`).
//!
//! Each law is the contract of a function that does nothing. It speaks of the definitions that the calls of `http_wire` cite, and
//! knows nothing of how a byte is read or written.
#![tactic(auto)]

pub mod chunks;

ghost use Rattle.std.specs.Prelude.{◌≡◌, ◌∷◌, ◌++◌, ◌+◌, ◌^◌, ◌<◌, ◌≤◌, [], Bool, List, Option, Result, ℕ, length};
ghost use Rattle.http_wire.specs.declared.limits.TheConstants.{MOST_BODY_BYTES, MOST_HEAD_BYTES};
ghost use Rattle.http_wire.specs.declared.RequestParts.{RequestParts};
ghost use Rattle.http_wire.specs.declared.ResponseParts.{ResponseParts};
ghost use Rattle.http_wire.specs.declared.WireFault.{WireFault};
ghost use Rattle.http_wire.specs.declared.WireFault.TheVariants.{BodyTooLong};
ghost use Rattle.http_wire.specs.Head.{Faulty, Reads, Request};
ghost use Rattle.http_wire.specs.Inboxes.{Asked, Held};
ghost use Rattle.http_wire.specs.Received.{FaultyResponse, Received, Receives};
ghost use Rattle.http_wire.specs.Requesting.{asks_for};
ghost use Rattle.http_wire.specs.Response.{HasPhrase, says};
ghost use Rattle.http_wire.specs.Stream.{Asks, End, closing as closed_by_request};
ghost use Rattle.wire_laws.specs.Sendable.{IsGot, IsSendable, IsTaken, IsTooLong, replied, sent};

/// What `write_request` writes is read as the request of its method, target and body, which asks for closing, whatever bytes follow:
/// it is the one request of its connection. `read_request` answers it, or that its source failed. The body has at most 1 MiB.
pub fn request_is_read()
    ensures reads { (method target body rest : List ℕ) → IsSendable method target body → length body ≤ MOST_BODY_BYTES
        → Reads (asks_for method target body ++ rest) (sent method target body) rest }
    ensures spelled { (budget : ℕ) (method target body rest : List ℕ) → IsSendable method target body → length body ≤ MOST_BODY_BYTES → 0 < budget
        → Asks budget (asks_for method target body ++ rest) (sent method target body ∷ []) closed_by_request }
    ensures alone { (budget : ℕ) (method target body rest : List ℕ) (rs : List Request) (end : End) → IsSendable method target body
        → length body ≤ MOST_BODY_BYTES → 0 < budget → Asks budget (asks_for method target body ++ rest) rs end
        → (rs ≡ sent method target body ∷ []) × (end ≡ closed_by_request) }
    ensures asked { (method target body rest : List ℕ) (i : Held) (left : Option (List ℕ)) (result : Result RequestParts WireFault)
        → IsSendable method target body → length body ≤ MOST_BODY_BYTES → Asked (asks_for method target body ++ rest) i left result
        → IsTaken (sent method target body) rest i left result }
{}

/// A longer body of a request is refused by its length, up to the 18 digits that a length may have.
pub fn long_request_is_refused()
    ensures { (method target body rest : List ℕ) → IsSendable method target body → MOST_BODY_BYTES < length body → length body < 10 ^ 18
        → Faulty (asks_for method target body ++ rest) (BodyTooLong (length body)) }
{}

/// A method and a target of at most 16,278 bytes in all are short enough for the head.
pub fn request_is_short()
    ensures { (method target body : List ℕ) → length method + length target ≤ 16_278 → length body ≤ MOST_BODY_BYTES
        → length (asks_for method target body) ≤ MOST_HEAD_BYTES + length body }
{}

/// What `write_response` writes of a body of at most 1 MiB is received as the response of its code and body, whatever bytes follow.
/// `read_response` answers it, or that its source failed.
pub fn response_is_received()
    ensures receives { (code : ℕ) (body rest : List ℕ) (closing : Bool) → HasPhrase code → length body ≤ MOST_BODY_BYTES
        → Receives (says code body closing ++ rest) (replied code body) rest }
    ensures received { (code : ℕ) (body rest : List ℕ) (closing : Bool) (i : Held) (left : Option (List ℕ)) (result : Result ResponseParts WireFault)
        → HasPhrase code → length body ≤ MOST_BODY_BYTES → Received (says code body closing ++ rest) i left result
        → IsGot (replied code body) rest i left result }
{}

/// What `write_response` writes of a longer body is refused by its length, whatever bytes follow, up to the 18 digits that a length may
/// have. `read_response` answers so, or that its source failed.
pub fn long_response_is_refused()
    ensures faulty { (code : ℕ) (body rest : List ℕ) (closing : Bool) → HasPhrase code → MOST_BODY_BYTES < length body → length body < 10 ^ 18
        → FaultyResponse (says code body closing ++ rest) (BodyTooLong (length body)) }
    ensures received { (code : ℕ) (body rest : List ℕ) (closing : Bool) (i : Held) (left : Option (List ℕ)) (result : Result ResponseParts WireFault)
        → HasPhrase code → MOST_BODY_BYTES < length body → length body < 10 ^ 18 → Received (says code body closing ++ rest) i left result
        → IsTooLong (length body) result }
{}
