//! The one response to a head that is refused.
ghost use Rattle.std.specs.Prelude.{◌≡◌, true, OnOk};
ghost use Rattle.edge_io.specs.Causes.{HasCause};
ghost use Rattle.edge_io.specs.Sends.{Sends};
ghost use Rattle.http_wire.specs.Response.{HasPhrase, says};
ghost use Rattle.http_front.specs.Faults.{fault_words, IsHeadFault};

use edge_io::{Failed, Sink};
use http_wire::{WireFault, write_response};

// The fixed response to a head that is refused: its code and its text.
#[tactic(auto, using(http_wire::specs::laws::PhraseLaws::phrases))]
fn refusal_of(fault: WireFault) -> (u16, &'static str)
    requires { IsHeadFault fault }
    ensures text { fault_words fault ≡ says result.0 result.1.now true }
    ensures phrase { HasPhrase result.0 }
{
    match fault {
        WireFault::BadHead => (
            400,
            "{\"apiVersion\":\"v1\",\"code\":400,\"kind\":\"Status\",\"message\":\"bad request: BadHead\",\"metadata\":{},\"reason\":\"BadRequest\",\"status\":\"Failure\"}",
        ),
        WireFault::LengthRequired => (
            411,
            "{\"apiVersion\":\"v1\",\"code\":411,\"kind\":\"Status\",\"message\":\"a length is required\",\"metadata\":{},\"reason\":\"LengthRequired\",\"status\":\"Failure\"}",
        ),
        WireFault::BodyTooLong { length: _ } => (
            413,
            "{\"apiVersion\":\"v1\",\"code\":413,\"kind\":\"Status\",\"message\":\"the body is longer than 1048576 bytes\",\"metadata\":{},\"reason\":\"RequestEntityTooLarge\",\"status\":\"Failure\"}",
        ),
        WireFault::HeadTooLong => (
            431,
            "{\"apiVersion\":\"v1\",\"code\":431,\"kind\":\"Status\",\"message\":\"the head is longer than 16384 bytes\",\"metadata\":{},\"reason\":\"HeadTooLong\",\"status\":\"Failure\"}",
        ),
        WireFault::Closed => unreachable!(),
        WireFault::Torn { held: _ } => unreachable!(),
        WireFault::ReadFault => unreachable!(),
    }
}

/// Writes the one response to a head that is refused, and flushes.
pub fn refuse_head<K: Sink>(output: &mut K, fault: WireFault) -> Result<(), Failed>
    requires { IsHeadFault fault }
    ensures sent { Sends (K.written output.old) (K.written output.new) (fault_words fault) result }
    ensures flushed { OnOk result (K.flushed output.new ≡ K.written output.new) }
    ensures cause { HasCause (K.faults output.old) (K.faults output.new) result }
    ensures number { K.number output.new ≡ K.number output.old }
{
    let (code, text) = refusal_of(fault);
    write_response(output, code, text.as_bytes(), true)?;
    output.flush()
}
