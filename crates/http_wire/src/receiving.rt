//! Reading a response: first until its head is whole, then until its body is.
ghost use Rattle.std.specs.Prelude.{◌≡◌, ◌<◌, ◌≤◌, ◌+◌, [], List, ℕ, true, false, Some, length, IfOk, IfErr};
ghost use Rattle.std.specs.Io.KnownBytes.{prepend_known, IsAtEnd};
ghost use Rattle.httparse.specs.Grammar.{ResponseHead};
ghost use Rattle.edge_io.specs.Causes.{HasCause, Rose};
ghost use Rattle.http_wire.specs.Inboxes.{OnReadFault};
ghost use Rattle.http_wire.specs.Received.{Response, Receives, IsStatusHead, LacksHead, IsOpenStatus, IsStatusOf, IsNextResponse, IsNextStatus, IsLack, Received};

use crate::inbox::Inbox;
use crate::limits::MOST_HEAD_BYTES;
use crate::lines::has_empty_line;
use crate::response_head::{StatusParts, StatusVerdict, judge_status};
use crate::{ResponseParts, Span, WireFault};
use edge_io::{Failed, Source};

// Reads until a head may have ended, as for a request, and answers whether the input has ended.
fn fill_status<S: Source>(inbox: &mut Inbox, input: &mut S) -> Result<bool, Failed>
    requires short { length inbox.old.bytes < MOST_HEAD_BYTES }
    requires none { LacksHead inbox.old.bytes }
    ensures bytes { prepend_known inbox.new.bytes (S.left input.new) ≡ prepend_known inbox.old.bytes (S.left input.old) }
    ensures more { IfOk result (λ ended. ended ≡ false → length inbox.old.bytes < length inbox.new.bytes) }
    ensures end { IfOk result (λ ended. ended ≡ true → IsAtEnd (S.left input.new) × (length inbox.new.bytes < MOST_HEAD_BYTES)) }
    ensures cause { HasCause (S.faults input.old) (S.faults input.new) result }
    ensures origin { S.origin input.new ≡ S.origin input.old }
{
    loop {
        let held = inbox.held().len();
        let count = inbox.fill_response(input)?;
        if count == 0 {
            return Ok(true);
        }
        if held + count >= MOST_HEAD_BYTES {
            return Ok(false);
        }
        if has_empty_line(inbox.held(), held) {
            return Ok(false);
        }
    }
}

// What the end of the input comes to where these bytes are held.
fn end_of(held: &[u8]) -> WireFault
    requires open { IsOpenStatus held.now }
    requires short { length held.now < MOST_HEAD_BYTES }
    ensures end { IsLack held.now (Some []) result }
    ensures quiet { OnReadFault result ⊥ }
{
    match held.len() {
        0 => WireFault::Closed,
        len => WireFault::Torn { held: len as u64 },
    }
}

// What the bytes come to where the input has ended behind them.
fn judge_end(held: &[u8]) -> Result<StatusParts, WireFault>
    requires short { length held.now < MOST_HEAD_BYTES }
    ensures next { IsNextStatus held.now (Some []) result }
    ensures quiet { IfErr result (λ f. OnReadFault f ⊥) }
{
    match judge_status(held) {
        StatusVerdict::Whole(parts) => Ok(parts),
        StatusVerdict::Refused(fault) => Err(fault),
        StatusVerdict::Open => Err(end_of(held)),
    }
}

// Reads until the head is whole.
fn read_status<S: Source>(inbox: &mut Inbox, input: &mut S) -> Result<StatusParts, WireFault>
    ensures next { IsNextStatus inbox.new.bytes (S.left input.new) result }
    ensures same { prepend_known inbox.new.bytes (S.left input.new) ≡ prepend_known inbox.old.bytes (S.left input.old) }
    ensures ready { (h : ResponseHead) (tail : List ℕ) → IsStatusHead inbox.old.bytes h tail → (input.new ≡ input.old) × (inbox.new ≡ inbox.old) }
    ensures later { S.faults input.old ≤ S.faults input.new }
    ensures cause { IfErr result (λ f. OnReadFault f (Rose (S.faults input.old) (S.faults input.new))) }
    ensures origin { S.origin input.new ≡ S.origin input.old }
{
    loop {
        match judge_status(inbox.held()) {
            StatusVerdict::Whole(parts) => return Ok(parts),
            StatusVerdict::Refused(fault) => return Err(fault),
            StatusVerdict::Open => {}
        }
        if inbox.held().len() >= MOST_HEAD_BYTES {
            return Err(WireFault::HeadTooLong);
        }
        match fill_status(inbox, input) {
            Err(_) => return Err(WireFault::ReadFault),
            Ok(true) => return judge_end(inbox.held()),
            Ok(false) => {}
        }
    }
}

// Reads until the body of this head is whole.
fn read_content<S: Source>(
    inbox: &mut Inbox,
    input: &mut S,
    head: StatusParts,
) -> Result<ResponseParts, WireFault>
    requires { (h : ResponseHead) × (tail : List ℕ) × IsStatusOf inbox.old.bytes head h tail }
    ensures next { IsNextResponse inbox.new (S.left input.new) result }
    ensures same { prepend_known inbox.new.bytes (S.left input.new) ≡ prepend_known inbox.old.bytes (S.left input.old) }
    ensures ready { head.len + head.body ≤ length inbox.old.bytes → (input.new ≡ input.old) × (inbox.new.bytes ≡ inbox.old.bytes) }
    ensures later { S.faults input.old ≤ S.faults input.new }
    ensures cause { IfErr result (λ f. OnReadFault f (Rose (S.faults input.old) (S.faults input.new))) }
    ensures origin { S.origin input.new ≡ S.origin input.old }
{
    let len = head.len + head.body as usize;
    while inbox.held().len() < len {
        match inbox.fill_response(input) {
            Err(_) => return Err(WireFault::ReadFault),
            Ok(0) => {
                return Err(WireFault::Torn {
                    held: inbox.held().len() as u64,
                });
            }
            Ok(_) => {}
        }
    }
    inbox.note(len);
    Ok(ResponseParts {
        code: head.code,
        body: Span {
            start: head.len as u32,
            len: head.body as u32,
        },
    })
}

// Reads until the next response is whole.
fn read_next<S: Source>(inbox: &mut Inbox, input: &mut S) -> Result<ResponseParts, WireFault>
    ensures next { IsNextResponse inbox.new (S.left input.new) result }
    ensures received { (b : List ℕ) → prepend_known inbox.old.bytes (S.left input.old) ≡ Some b → Received b inbox.new (S.left input.new) result }
    ensures same { prepend_known inbox.new.bytes (S.left input.new) ≡ prepend_known inbox.old.bytes (S.left input.old) }
    ensures ready { (r : Response) (rest : List ℕ) → Receives inbox.old.bytes r rest → (input.new ≡ input.old) × (inbox.new.bytes ≡ inbox.old.bytes) }
    ensures later { S.faults input.old ≤ S.faults input.new }
    ensures cause { IfErr result (λ f. OnReadFault f (Rose (S.faults input.old) (S.faults input.new))) }
    ensures origin { S.origin input.new ≡ S.origin input.old }
{
    match read_status(inbox, input) {
        Ok(head) => read_content(inbox, input, head),
        Err(fault) => Err(fault),
    }
}

/// Reads the next response, in whatever pieces the input comes, and answers its code and where its body stands in the
/// inbox, or why there is none (`WireFault`): by the limits and in the order of `read_request`, and `LengthRequired` where
/// the head has no `Content-Length`. It stays at the front of the inbox until it is used. No read is made once a whole
/// response is held (RFC 9112, sections 4 and 6).
pub fn read_response<S: Source>(
    inbox: &mut Inbox,
    input: &mut S,
) -> Result<ResponseParts, WireFault>
    // What is held is the next response, or shows why there is none.
    ensures next { IsNextResponse inbox.new (S.left input.new) result }
    // It is the next response of all the bytes, or why they have none, whatever the pieces.
    ensures received { (b : List ℕ) → prepend_known inbox.old.bytes (S.left input.old) ≡ Some b → Received b inbox.new (S.left input.new) result }
    // What the two hold together stays.
    ensures same { prepend_known inbox.new.bytes (S.left input.new) ≡ prepend_known inbox.old.bytes (S.left input.old) }
    // Nothing is read where a whole response is there already.
    ensures ready { (r : Response) (rest : List ℕ) → Receives inbox.old.bytes r rest → (input.new ≡ input.old) × (inbox.new.bytes ≡ inbox.old.bytes) }
    // Behind a fault no response is held.
    ensures none { IfErr result (λ _. inbox.new.request ≡ 0) }
    ensures later { S.faults input.old ≤ S.faults input.new }
    ensures cause { IfErr result (λ f. OnReadFault f (Rose (S.faults input.old) (S.faults input.new))) }
    ensures origin { S.origin input.new ≡ S.origin input.old }
{
    match read_next(inbox, input) {
        Ok(parts) => Ok(parts),
        Err(fault) => {
            inbox.note(0);
            Err(fault)
        }
    }
}
