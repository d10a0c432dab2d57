//! One exchange, and what it comes to by its code.
ghost use Rattle.std.specs.Prelude.{◌≡◌, ◌≤◌, IfOk, IfErr};
ghost use Rattle.kj_value.specs.Json.{depth};
ghost use Rattle.kj_value.specs.Seen.{json};
ghost use Rattle.edge_io.specs.Causes.{Rose};
ghost use Rattle.wire_client.specs.Answers.{given, reply_by_code};
ghost use Rattle.wire_client.specs.Ends.{OnLinkFault};
ghost use Rattle.wire_client.specs.inner.Seen.{answer_of, IsLow, value_of, Asked, AskedEnd, IsRefusal, JudgedEnd};

use crate::answer::Answer;
use crate::buffer::{ANSWER_LEVELS, ResponseBuffer};
use crate::details::has_details;
use crate::end::WireEnd;
use crate::far::Far;
use crate::page_form::shape;
use edge_io::LinkFault;
use kj_value::JVal;
use std::alloc::Global;

/// Not Found (RFC 9110, section 15.5.5).
const NOT_FOUND: u16 = 404;

// Another code than that of success.
fn refused(code: u16, body: &Option<JVal>) -> WireEnd
    ensures { IsRefusal code (value_of body.now) result }
{
    if code == NOT_FOUND && has_details(body) {
        WireEnd::Gone
    } else {
        WireEnd::Code { code }
    }
}

// The body of a success, or why there is none.
fn judged(alloc: Global, answer: Answer, success: u16) -> Result<JVal, WireEnd>
    requires { IsLow answer }
    ensures given { IfOk result (λ v. reply_by_code success (answer_of answer) ≡ given (json v)) }
    ensures low { IfOk result (λ v. depth (json v) ≤ ANSWER_LEVELS) }
    ensures end { IfErr result (JudgedEnd success (answer_of answer)) }
{
    match answer {
        Answer::TooLong => Err(WireEnd::TooLong),
        Answer::NoResponse => Err(shape(alloc, "")),
        Answer::Coded { code, body } => {
            if code != success {
                return Err(refused(code, &body));
            }
            match body {
                Some(value) => Ok(value),
                None => Err(shape(alloc, "")),
            }
        }
    }
}

/// Makes an exchange of this request, and answers the body of its success, whatever its form.
pub(crate) fn ask<R: Far>(
    far: &mut R,
    alloc: Global,
    buffer: &mut ResponseBuffer,
    request: &[u8],
    success: u16,
) -> Result<JVal, WireEnd>
    ensures base { R.base far.new ≡ R.base far.old }
    ensures later { R.faults far.old ≤ R.faults far.new }
    ensures given { IfOk result (λ v. Asked (R.Of.server (R.base far.old))
        (record { exchanges = R.exchanges far.old; log = R.log far.old }) (record { exchanges = R.exchanges far.new; log = R.log far.new })
        request.now success (given (json v))) }
    ensures low { IfOk result (λ v. depth (json v) ≤ ANSWER_LEVELS) }
    ensures end { IfErr result (AskedEnd (R.Of.server (R.base far.old))
        (record { exchanges = R.exchanges far.old; log = R.log far.old }) (record { exchanges = R.exchanges far.new; log = R.log far.new })
        request.now success) }
    ensures cause { IfErr result (OnLinkFault (Rose (R.faults far.old) (R.faults far.new))) }
{
    let bytes = match far.send(alloc, request) {
        Ok(bytes) => bytes,
        Err(LinkFault::Failed) => return Err(WireEnd::LinkFault),
        Err(LinkFault::NoMemory) => return Err(WireEnd::NoMemory),
    };
    let answer = buffer.read(alloc, bytes)?;
    judged(alloc, answer, success)
}
