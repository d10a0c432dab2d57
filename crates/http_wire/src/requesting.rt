//! Writing a request, piece by piece.
ghost use Rattle.std.specs.Prelude.{◌≡◌};
ghost use Rattle.edge_io.specs.Causes.{HasCause};
ghost use Rattle.edge_io.specs.Sends.{Sends};
ghost use Rattle.http_wire.specs.Requesting.{request_line, host_and_type, closing_lines, asks_for};

use crate::response::write_length;
use edge_io::{Failed, Sink, send};

const SPACE: &[u8] = b" ";

const VERSION: &[u8] = b" HTTP/1.1\r\n";

const HOST_AND_TYPE: &[u8] = b"Host: kubeconv\r\nContent-Type: application/json\r\n";

const LAST_LINES: &[u8] = b"Connection: close\r\n\r\n";

fn write_request_line<K: Sink>(out: &mut K, method: &str, target: &str) -> Result<(), Failed>
    ensures sent { Sends (K.written out.old) (K.written out.new) (request_line method.now target.now) result }
    ensures cause { HasCause (K.faults out.old) (K.faults out.new) result }
    ensures number { K.number out.new ≡ K.number out.old }
{
    send(out, method.as_bytes())?;
    send(out, SPACE)?;
    send(out, target.as_bytes())?;
    send(out, VERSION)
}

#[tactic(auto, unfolding(crate::specs::Requesting::host_and_type))]
fn write_host_and_type<K: Sink>(out: &mut K) -> Result<(), Failed>
    ensures sent { Sends (K.written out.old) (K.written out.new) host_and_type result }
    ensures cause { HasCause (K.faults out.old) (K.faults out.new) result }
    ensures number { K.number out.new ≡ K.number out.old }
{
    send(out, HOST_AND_TYPE)
}

#[tactic(auto, unfolding(crate::specs::Requesting::closing_lines))]
fn write_last_lines<K: Sink>(out: &mut K) -> Result<(), Failed>
    ensures sent { Sends (K.written out.old) (K.written out.new) closing_lines result }
    ensures cause { HasCause (K.faults out.old) (K.faults out.new) result }
    ensures number { K.number out.new ≡ K.number out.old }
{
    send(out, LAST_LINES)
}

/// Writes the request of this method, target and body, the only one of its connection: with the fields `Host`,
/// `Content-Type: application/json`, `Content-Length` and `Connection: close`. The method is to be a token, and the target
/// one of a request. At `Failed` a front of it was written. It takes no memory, and doesn't flush (RFC 9112, section 3).
pub fn write_request<K: Sink>(
    out: &mut K,
    method: &str,
    target: &str,
    body: &[u8],
) -> Result<(), Failed>
    ensures sent { Sends (K.written out.old) (K.written out.new) (asks_for method.now target.now body.now) result }
    ensures cause { HasCause (K.faults out.old) (K.faults out.new) result }
    ensures number { K.number out.new ≡ K.number out.old }
{
    write_request_line(out, method, target)?;
    write_host_and_type(out)?;
    write_length(out, body.len())?;
    write_last_lines(out)?;
    send(out, body)
}
