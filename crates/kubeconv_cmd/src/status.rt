//! The statuses of the program, and the line that each puts on the error stream.
ghost use Rattle.std.specs.Prelude.{◌≡◌, ◌++◌, Option, List, ℕ, codes};
ghost use Rattle.std.specs.Io.KnownBytes.{append_known};
ghost use Rattle.edge_io.specs.Causes.{HasCause, Rose};
ghost use Rattle.edge_io.specs.Sends.{Sends};
ghost use Rattle.far_lines.specs.declared.end.LoadEnd.TheVariants.{Restored};
ghost use Rattle.kubeconv_cmd.specs.Sources.{blame_text};
ghost use Rattle.kubeconv_cmd.specs.Status.{answer_line, bad_line as bad_line_of, dump_told, error_line as error_line_of, line_saying, line_told, load_told, migration_told, pipe_status, place_told, refusal_line, status_told};
ghost use Rattle.kubeconv_cmd.specs.inner.Ends.{dumped_told, loaded_told, pipe_told, serve_told, stop_told, task_told, why_text};

use crate::halt::Halt;
use crate::stop::{Stop, Unmet, Why};
use edge_io::{Failed, Sink, send};
use far_lines::{LoadEnd, MigrateEnd};
use itoa::Buffer;
use output_lines::Unserved;
use place::PlaceFault;
use record_dump::{DumpEnd, RestoreEnd};
use serve_input::PipeEnd;

/// Done: of `pipe` the input was read to its end between two requests, or an answered request asked for closing.
pub const DONE: u8 = 0;

/// The words aren't a line of the program.
pub const BAD_WORDS: u8 = 2;

/// A file is too long, isn't text, or something of it is refused, or no version of it has the name of the hub.
pub const REFUSED: u8 = 3;

/// The input of `convert` or `review` is too long or refused, or no version has the name that is wanted; or a line of the input of `load` is refused.
pub const BAD_INPUT: u8 = 4;

/// A file couldn't be read, or the input failed.
pub const READ_FAILED: u8 = 5;

/// The output failed.
pub const WRITE_FAILED: u8 = 6;

/// Memory was wanted: of `pipe` before anything was read of the input.
pub const NO_MEMORY: u8 = 7;

/// No address could be listened at, or no further connection could be had.
pub const LISTEN_FAILED: u8 = 8;

/// The input ended inside a request, or the head of a request was refused; or the input of `load` ended inside a line.
pub const CUT: u8 = 9;

/// As many requests were answered as are, and the last didn't ask for closing; or the input of `load` has too many lines.
pub const TOO_MANY: u8 = 10;

/// The link to a server failed.
pub const LINK_FAILED: u8 = 11;

/// A server's answer is one for which there is no rule.
pub const BAD_ANSWER: u8 = 12;

/// Some object changed at each of its puts, or a list was forgotten too often.
pub const UNSETTLED: u8 = 13;

// What stands before an error's text.
const PROGRAM: &[u8] = b"kubeconv: ";

// What stands behind a file, and behind a path.
const BEHIND: &[u8] = b": ";

const LINE_END: &[u8] = b"\n";

// The status of a conversation's end.
fn status_of(end: PipeEnd) -> u8
    ensures { result ≡ pipe_status end }
{
    match end {
        PipeEnd::Closed => DONE,
        PipeEnd::ReadFault => READ_FAILED,
        PipeEnd::WriteFault => WRITE_FAILED,
        PipeEnd::Torn { held: _ } => CUT,
        PipeEnd::Refused(_) => CUT,
        PipeEnd::Spent => TOO_MANY,
    }
}

// The line that a status but `REFUSED`, `BAD_INPUT` and `BAD_ANSWER` puts on the error stream.
#[tactic(auto, unfolding(crate::specs::Status::error_line))]
fn error_line(status: u8) -> &'static str
    ensures { result.now ≡ error_line_of status }
{
    match status {
        DONE => "",
        WRITE_FAILED => "",
        BAD_WORDS => "kubeconv: bad command line\n",
        READ_FAILED => "kubeconv: read failed\n",
        NO_MEMORY => "kubeconv: out of memory\n",
        LISTEN_FAILED => "kubeconv: listening failed\n",
        CUT => "kubeconv: request cut or refused\n",
        LINK_FAILED => "kubeconv: link failed\n",
        UNSETTLED => "kubeconv: contested\n",
        _ => "kubeconv: too many requests\n",
    }
}

// Writes the line of a status, and flushes.
fn write_error_line<E: Sink>(errors: &mut E, status: u8) -> Result<(), Failed>
    ensures sent { Sends (E.written errors.old) (E.written errors.new) (error_line_of status) result }
    ensures cause { HasCause (E.faults errors.old) (E.faults errors.new) result }
{
    send(errors, error_line(status).as_bytes())?;
    errors.flush()
}

// Writes the line that says why the input is refused.
fn send_reason<E: Sink>(errors: &mut E, why: &[u8]) -> Result<(), Failed>
    ensures sent { Sends (E.written errors.old) (E.written errors.new) (line_saying why.now) result }
    ensures cause { HasCause (E.faults errors.old) (E.faults errors.new) result }
{
    send(errors, PROGRAM)?;
    send(errors, why)?;
    send(errors, LINE_END)
}

// Writes that line, and flushes.
fn write_reason<E: Sink>(errors: &mut E, why: &str) -> Result<(), Failed>
    ensures sent { Sends (E.written errors.old) (E.written errors.new) (line_saying why.now) result }
    ensures cause { HasCause (E.faults errors.old) (E.faults errors.new) result }
{
    send_reason(errors, why.as_bytes())?;
    errors.flush()
}

// Writes the path of what is refused, and a word.
fn send_blame<E: Sink>(errors: &mut E, path: &[u8], word: &[u8]) -> Result<(), Failed>
    ensures sent { Sends (E.written errors.old) (E.written errors.new) (blame_text path.now word.now) result }
    ensures cause { HasCause (E.faults errors.old) (E.faults errors.new) result }
{
    send(errors, path)?;
    send(errors, BEHIND)?;
    send(errors, word)
}

// Writes why a file is refused.
fn send_why<E: Sink>(errors: &mut E, why: &Why) -> Result<(), Failed>
    ensures sent { Sends (E.written errors.old) (E.written errors.new) (why_text why.now) result }
    ensures cause { HasCause (E.faults errors.old) (E.faults errors.new) result }
{
    match why {
        Why::TooLong => send(errors, b"TooLong"),
        Why::NotText => send(errors, b"NotText"),
        Why::At { path, word } => {
            send_blame(errors, path.as_str().as_bytes(), word.as_str().as_bytes())
        }
    }
}

// Writes the line that names a refused file and says why.
fn send_refusal<E: Sink>(errors: &mut E, file: &[u8], why: &Why) -> Result<(), Failed>
    ensures sent { Sends (E.written errors.old) (E.written errors.new) (refusal_line file.now (why_text why.now)) result }
    ensures cause { HasCause (E.faults errors.old) (E.faults errors.new) result }
{
    send(errors, PROGRAM)?;
    send(errors, file)?;
    send(errors, BEHIND)?;
    send_why(errors, why)?;
    send(errors, LINE_END)
}

// Writes that line, and flushes.
fn write_refusal<E: Sink>(errors: &mut E, file: &str, why: &Why) -> Result<(), Failed>
    ensures sent { Sends (E.written errors.old) (E.written errors.new) (refusal_line file.now (why_text why.now)) result }
    ensures cause { HasCause (E.faults errors.old) (E.faults errors.new) result }
{
    send_refusal(errors, file.as_bytes(), why)?;
    errors.flush()
}

/// Ends with a status but `REFUSED`, `BAD_INPUT` and `BAD_ANSWER`, whose line is written: a run, or a program whose run can't begin, since a word of the
/// command line isn't UTF-8 (`BAD_WORDS`) or memory is wanted (`NO_MEMORY`). A failed write of that line changes nothing.
pub fn ended<E: Sink>(errors: &mut E, status: u8) -> u8
    ensures status { result ≡ status }
    ensures line { ¬ (Rose (E.faults errors.old) (E.faults errors.new))
        → E.written errors.new ≡ append_known (E.written errors.old) (error_line_of status) }
{
    match write_error_line(errors, status) {
        Ok(()) => status,
        Err(_) => status,
    }
}

// Ends a run at a file that is refused.
fn refused<E: Sink>(errors: &mut E, file: &str, why: &Why) -> u8
    ensures status { result ≡ REFUSED }
    ensures line { ¬ (Rose (E.faults errors.old) (E.faults errors.new))
        → E.written errors.new ≡ append_known (E.written errors.old) (refusal_line file.now (why_text why.now)) }
{
    match write_refusal(errors, file, why) {
        Ok(()) => REFUSED,
        Err(_) => REFUSED,
    }
}

/// Ends a run that has no definition.
pub(crate) fn tell_stop<E: Sink>(errors: &mut E, stop: Stop<'_>) -> u8
    ensures status { result ≡ status_told (stop_told stop.entry) }
    ensures line { ¬ (Rose (E.faults errors.old) (E.faults errors.new))
        → E.written errors.new ≡ append_known (E.written errors.old) (line_told (stop_told stop.entry)) }
{
    match stop {
        Stop::ReadFailed => ended(errors, READ_FAILED),
        Stop::Refused { file, why } => refused(errors, file, &why),
        Stop::BadAddress => ended(errors, BAD_WORDS),
        Stop::NoMemory => ended(errors, NO_MEMORY),
    }
}

/// Ends a run by how its conversation ended, or why it has none.
pub(crate) fn tell_pipe<E: Sink>(errors: &mut E, came: Result<PipeEnd, Stop<'_>>) -> u8
    ensures status { result ≡ status_told (pipe_told came.entry) }
    ensures line { ¬ (Rose (E.faults errors.old) (E.faults errors.new))
        → E.written errors.new ≡ append_known (E.written errors.old) (line_told (pipe_told came.entry)) }
{
    match came {
        Ok(end) => ended(errors, status_of(end)),
        Err(stop) => tell_stop(errors, stop),
    }
}

/// Ends a run by how serving ended, or why nothing was served.
pub(crate) fn tell_served<E: Sink>(errors: &mut E, came: Result<(), Unmet<'_>>) -> u8
    ensures status { result ≡ status_told (serve_told came.entry) }
    ensures line { ¬ (Rose (E.faults errors.old) (E.faults errors.new))
        → E.written errors.new ≡ append_known (E.written errors.old) (line_told (serve_told came.entry)) }
{
    match came {
        Ok(()) => ended(errors, DONE),
        Err(Unmet::Unserved(Unserved::NotListening)) => ended(errors, LISTEN_FAILED),
        Err(Unmet::Unserved(Unserved::WriteFailed)) => ended(errors, WRITE_FAILED),
        Err(Unmet::Unserved(Unserved::NoMemory)) => ended(errors, NO_MEMORY),
        Err(Unmet::Stopped(stop)) => tell_stop(errors, stop),
    }
}

// Ends a run at an input that is refused.
fn bad_input<E: Sink>(errors: &mut E, why: &str) -> u8
    ensures status { result ≡ BAD_INPUT }
    ensures line { ¬ (Rose (E.faults errors.old) (E.faults errors.new))
        → E.written errors.new ≡ append_known (E.written errors.old) (line_saying why.now) }
{
    match write_reason(errors, why) {
        Ok(()) => BAD_INPUT,
        Err(_) => BAD_INPUT,
    }
}

/// Ends a run by what came of its document.
pub(crate) fn tell_task<E: Sink>(errors: &mut E, came: Result<(), Halt>) -> u8
    ensures status { result ≡ status_told (task_told came) }
    ensures line { ¬ (Rose (E.faults errors.old) (E.faults errors.new))
        → E.written errors.new ≡ append_known (E.written errors.old) (line_told (task_told came)) }
{
    match came {
        Ok(()) => ended(errors, DONE),
        Err(Halt::ReadFailed) => ended(errors, READ_FAILED),
        Err(Halt::WriteFailed) => ended(errors, WRITE_FAILED),
        Err(Halt::Input { why }) => bad_input(errors, why.as_str()),
        Err(Halt::NoMemory) => ended(errors, NO_MEMORY),
    }
}

// Writes a line that ends with a number.
fn send_number<E: Sink>(errors: &mut E, front: &[u8], number: &[u8]) -> Result<(), Failed>
    ensures sent { Sends (E.written errors.old) (E.written errors.new) (front.now ++ (number.now ++ codes "\n")) result }
    ensures cause { HasCause (E.faults errors.old) (E.faults errors.new) result }
{
    send(errors, front)?;
    send(errors, number)?;
    send(errors, LINE_END)
}

// Writes the line that names a code.
fn send_answer<E: Sink>(errors: &mut E, code: &[u8]) -> Result<(), Failed>
    ensures sent { Sends (E.written errors.old) (E.written errors.new) (codes "kubeconv: answer " ++ (code.now ++ codes "\n")) result }
    ensures cause { HasCause (E.faults errors.old) (E.faults errors.new) result }
{
    send_number(errors, b"kubeconv: answer ", code)
}

// Writes the line that names a line of the input.
fn send_bad_line<E: Sink>(errors: &mut E, number: &[u8]) -> Result<(), Failed>
    ensures sent { Sends (E.written errors.old) (E.written errors.new) (codes "kubeconv: line " ++ (number.now ++ codes "\n")) result }
    ensures cause { HasCause (E.faults errors.old) (E.faults errors.new) result }
{
    send_number(errors, b"kubeconv: line ", number)
}

// Writes the line that names the code of an answer, and flushes.
#[tactic(auto, unfolding(crate::specs::Status::answer_line))]
fn write_answer<E: Sink>(errors: &mut E, code: u16) -> Result<(), Failed>
    ensures sent { Sends (E.written errors.old) (E.written errors.new) (answer_line code) result }
    ensures cause { HasCause (E.faults errors.old) (E.faults errors.new) result }
{
    let mut buffer = Buffer::new();
    let text = buffer.format(code);
    send_answer(errors, text.as_bytes())?;
    errors.flush()
}

// Writes the line that names a line of the input, and flushes.
#[tactic(auto, unfolding(crate::specs::Status::bad_line))]
fn write_bad_line<E: Sink>(errors: &mut E, number: u64) -> Result<(), Failed>
    ensures sent { Sends (E.written errors.old) (E.written errors.new) (bad_line_of number) result }
    ensures cause { HasCause (E.faults errors.old) (E.faults errors.new) result }
{
    let mut buffer = Buffer::new();
    let text = buffer.format(number);
    send_bad_line(errors, text.as_bytes())?;
    errors.flush()
}

// Ends a run at an answer for which there is no rule.
fn bad_answer<E: Sink>(errors: &mut E, code: u16) -> u8
    ensures status { result ≡ BAD_ANSWER }
    ensures line { ¬ (Rose (E.faults errors.old) (E.faults errors.new))
        → E.written errors.new ≡ append_known (E.written errors.old) (answer_line code) }
{
    match write_answer(errors, code) {
        Ok(()) => BAD_ANSWER,
        Err(_) => BAD_ANSWER,
    }
}

// Ends a run at a line of the input that is refused.
fn bad_line<E: Sink>(errors: &mut E, number: u64) -> u8
    ensures status { result ≡ BAD_INPUT }
    ensures line { ¬ (Rose (E.faults errors.old) (E.faults errors.new))
        → E.written errors.new ≡ append_known (E.written errors.old) (bad_line_of number) }
{
    match write_bad_line(errors, number) {
        Ok(()) => BAD_INPUT,
        Err(_) => BAD_INPUT,
    }
}

/// Ends a run by how its migration ended.
pub(crate) fn tell_migrated<E: Sink>(errors: &mut E, came: MigrateEnd) -> u8
    ensures status { result ≡ status_told (migration_told came) }
    ensures line { ¬ (Rose (E.faults errors.old) (E.faults errors.new))
        → E.written errors.new ≡ append_known (E.written errors.old) (line_told (migration_told came)) }
{
    match came {
        MigrateEnd::Done => ended(errors, DONE),
        MigrateEnd::Contested => ended(errors, UNSETTLED),
        MigrateEnd::BadPlace => ended(errors, BAD_WORDS),
        MigrateEnd::LinkFault => ended(errors, LINK_FAILED),
        MigrateEnd::Answer { code } => bad_answer(errors, code),
        MigrateEnd::Restarted => ended(errors, UNSETTLED),
        MigrateEnd::WriteFault => ended(errors, WRITE_FAILED),
        MigrateEnd::NoMemory => ended(errors, NO_MEMORY),
    }
}

// Ends a run that had no place.
fn tell_unplaced<E: Sink>(errors: &mut E, fault: PlaceFault) -> u8
    ensures status { result ≡ status_told (place_told fault) }
    ensures line { ¬ (Rose (E.faults errors.old) (E.faults errors.new))
        → E.written errors.new ≡ append_known (E.written errors.old) (line_told (place_told fault)) }
{
    match fault {
        PlaceFault::BadPlace => ended(errors, BAD_WORDS),
        PlaceFault::NoMemory => ended(errors, NO_MEMORY),
    }
}

/// Ends a run by how its dump ended.
pub(crate) fn tell_dumped<E: Sink>(errors: &mut E, came: Result<DumpEnd, PlaceFault>) -> u8
    ensures status { result ≡ status_told (dumped_told came) }
    ensures line { ¬ (Rose (E.faults errors.old) (E.faults errors.new))
        → E.written errors.new ≡ append_known (E.written errors.old) (line_told (dumped_told came)) }
{
    match came {
        Ok(DumpEnd::Done { lines: _ }) => ended(errors, DONE),
        Ok(DumpEnd::LinkFault) => ended(errors, LINK_FAILED),
        Ok(DumpEnd::WriteFault) => ended(errors, WRITE_FAILED),
        Ok(DumpEnd::Answer { code }) => bad_answer(errors, code),
        Ok(DumpEnd::Expired) => ended(errors, UNSETTLED),
        Ok(DumpEnd::NoMemory) => ended(errors, NO_MEMORY),
        Err(fault) => tell_unplaced(errors, fault),
    }
}

// Ends a run by how its restoring ended.
fn tell_restored<E: Sink>(errors: &mut E, end: RestoreEnd) -> u8
    ensures status { result ≡ status_told (load_told (Restored end)) }
    ensures line { ¬ (Rose (E.faults errors.old) (E.faults errors.new))
        → E.written errors.new ≡ append_known (E.written errors.old) (line_told (load_told (Restored end))) }
{
    match end {
        RestoreEnd::Done {
            created: _,
            present: _,
        } => ended(errors, DONE),
        RestoreEnd::LinkFault => ended(errors, LINK_FAILED),
        RestoreEnd::ReadFault => ended(errors, READ_FAILED),
        RestoreEnd::BadLine { line } => bad_line(errors, line),
        RestoreEnd::Cut { line: _ } => ended(errors, CUT),
        RestoreEnd::TooMany => ended(errors, TOO_MANY),
        RestoreEnd::Answer { line: _, code } => bad_answer(errors, code),
        RestoreEnd::NoMemory => ended(errors, NO_MEMORY),
    }
}

/// Ends a run by how its line ended that loads.
pub(crate) fn tell_loaded<E: Sink>(errors: &mut E, came: Result<LoadEnd, PlaceFault>) -> u8
    ensures status { result ≡ status_told (loaded_told came) }
    ensures line { ¬ (Rose (E.faults errors.old) (E.faults errors.new))
        → E.written errors.new ≡ append_known (E.written errors.old) (line_told (loaded_told came)) }
{
    match came {
        Ok(LoadEnd::Restored(end)) => tell_restored(errors, end),
        Ok(
            LoadEnd::WriteFault {
                created: _,
                present: _,
            },
        ) => ended(errors, WRITE_FAILED),
        Err(fault) => tell_unplaced(errors, fault),
    }
}
