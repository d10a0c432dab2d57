//! Writing a response, piece by piece.
ghost use Rattle.std.specs.Prelude.{◌≡◌, decimal};
ghost use Rattle.edge_io.specs.Causes.{HasCause};
ghost use Rattle.edge_io.specs.Sends.{Sends};
ghost use Rattle.http_wire.specs.Response.{HasPhrase, phrase, status_line, type_field as type_field_of, length_field, last_lines as last_lines_of, says};

use edge_io::{Failed, Sink, send};
use http::StatusCode;
use itoa::Buffer;

// The status whose response has no type.
const METHOD_NOT_ALLOWED: u16 = 405;

const VERSION: &[u8] = b"HTTP/1.1 ";

const SPACE: &[u8] = b" ";

const LENGTH: &[u8] = b"Content-Length: ";

const LINE_END: &[u8] = b"\r\n";

// The canonical phrase of a code.
fn phrase_of(code: u16) -> &'static [u8]
    requires { HasPhrase code }
    ensures { result.now ≡ phrase code }
{
    match StatusCode::from_u16(code) {
        Ok(status) => status.canonical_reason().unwrap().as_bytes(),
        Err(_) => unreachable!(),
    }
}

#[tactic(auto, unfolding(crate::specs::Response::type_field))]
fn type_field(code: u16) -> &'static [u8]
    ensures { result.now ≡ type_field_of code }
{
    if code == METHOD_NOT_ALLOWED {
        b""
    } else {
        b"Content-Type: application/json\r\n"
    }
}

#[tactic(auto, unfolding(crate::specs::Response::last_lines))]
fn last_lines(closing: bool) -> &'static [u8]
    ensures { result.now ≡ last_lines_of closing }
{
    if closing {
        b"Connection: close\r\n\r\n"
    } else {
        b"\r\n"
    }
}

fn send_number<K: Sink>(out: &mut K, n: usize) -> Result<(), Failed>
    ensures sent { Sends (K.written out.old) (K.written out.new) (decimal n) result }
    ensures cause { HasCause (K.faults out.old) (K.faults out.new) result }
    ensures number { K.number out.new ≡ K.number out.old }
{
    let mut buffer = Buffer::new();
    send(out, buffer.format(n).as_bytes())
}

fn send_code<K: Sink>(out: &mut K, code: u16) -> Result<(), Failed>
    ensures sent { Sends (K.written out.old) (K.written out.new) (decimal code) result }
    ensures cause { HasCause (K.faults out.old) (K.faults out.new) result }
    ensures number { K.number out.new ≡ K.number out.old }
{
    send_number(out, usize::from(code))
}

fn send_phrase<K: Sink>(out: &mut K, code: u16) -> Result<(), Failed>
    requires { HasPhrase code }
    ensures sent { Sends (K.written out.old) (K.written out.new) (phrase code) result }
    ensures cause { HasCause (K.faults out.old) (K.faults out.new) result }
    ensures number { K.number out.new ≡ K.number out.old }
{
    send(out, phrase_of(code))
}

fn send_type<K: Sink>(out: &mut K, code: u16) -> Result<(), Failed>
    ensures sent { Sends (K.written out.old) (K.written out.new) (type_field_of code) result }
    ensures cause { HasCause (K.faults out.old) (K.faults out.new) result }
    ensures number { K.number out.new ≡ K.number out.old }
{
    send(out, type_field(code))
}

fn send_last_lines<K: Sink>(out: &mut K, closing: bool) -> Result<(), Failed>
    ensures sent { Sends (K.written out.old) (K.written out.new) (last_lines_of closing) result }
    ensures cause { HasCause (K.faults out.old) (K.faults out.new) result }
    ensures number { K.number out.new ≡ K.number out.old }
{
    send(out, last_lines(closing))
}

fn write_status_line<K: Sink>(out: &mut K, code: u16) -> Result<(), Failed>
    requires { HasPhrase code }
    ensures sent { Sends (K.written out.old) (K.written out.new) (status_line code) result }
    ensures cause { HasCause (K.faults out.old) (K.faults out.new) result }
    ensures number { K.number out.new ≡ K.number out.old }
{
    send(out, VERSION)?;
    send_code(out, code)?;
    send(out, SPACE)?;
    send_phrase(out, code)?;
    send(out, LINE_END)
}

pub(crate) fn write_length<K: Sink>(out: &mut K, len: usize) -> Result<(), Failed>
    ensures sent { Sends (K.written out.old) (K.written out.new) (length_field len) result }
    ensures cause { HasCause (K.faults out.old) (K.faults out.new) result }
    ensures number { K.number out.new ≡ K.number out.old }
{
    send(out, LENGTH)?;
    send_number(out, len)?;
    send(out, LINE_END)
}

/// Writes the response of this code and body; a 405's body is to be empty. It has the fields `Content-Type:
/// application/json` (but for a 405), `Content-Length`, and where it is the last one `Connection: close`. At `Failed` a
/// front of it was written. It takes no memory, and doesn't flush (RFC 9112, section 4).
pub fn write_response<K: Sink>(
    out: &mut K,
    code: u16,
    body: &[u8],
    closing: bool,
) -> Result<(), Failed>
    requires { HasPhrase code }
    ensures sent { Sends (K.written out.old) (K.written out.new) (says code body.now closing) result }
    ensures cause { HasCause (K.faults out.old) (K.faults out.new) result }
    ensures number { K.number out.new ≡ K.number out.old }
{
    write_status_line(out, code)?;
    send_type(out, code)?;
    write_length(out, body.len())?;
    send_last_lines(out, closing)?;
    send(out, body)
}
