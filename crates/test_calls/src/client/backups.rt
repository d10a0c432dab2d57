//! Dumps and restorings over a link, an output and an input in memory.
use crate::client::answers::{answered, link_of_all};
use crate::client::calls::place;
use crate::client::migrations::answers_of;
use edge_io::{MemLink, MemSink, MemSource};
use record_dump::{DumpEnd, RestoreEnd, dump, restore};
use std::alloc::Global;
use wire_client::PlainFar;

// The call that fails, by its number, where the case names one.
fn failing(alloc: Global, word: &str) -> Option<Vec<u64>> {
    if word == "-" {
        return Some(Vec::new(alloc));
    }
    match word.parse::<u64>() {
        Ok(call) => vec![in alloc; call].ok(),
        Err(_) => None,
    }
}

fn dump_end(alloc: Global, end: DumpEnd) -> Option<String> {
    match end {
        DumpEnd::Done { lines } => format!(in alloc; "done {lines}").ok(),
        DumpEnd::LinkFault => String::from_str(alloc, "link fault").ok(),
        DumpEnd::WriteFault => String::from_str(alloc, "write fault").ok(),
        DumpEnd::Answer { code } => format!(in alloc; "answer {code}").ok(),
        DumpEnd::Expired => String::from_str(alloc, "expired").ok(),
        DumpEnd::NoMemory => None,
    }
}

/// How a restoring ended.
pub(crate) fn restore_end(alloc: Global, end: RestoreEnd) -> Option<String> {
    match end {
        RestoreEnd::Done { created, present } => {
            format!(in alloc; "created {created}, present {present}").ok()
        }
        RestoreEnd::LinkFault => String::from_str(alloc, "link fault").ok(),
        RestoreEnd::ReadFault => String::from_str(alloc, "read fault").ok(),
        RestoreEnd::BadLine { line } => format!(in alloc; "bad line {line}").ok(),
        RestoreEnd::Cut { line } => format!(in alloc; "cut at line {line}").ok(),
        RestoreEnd::TooMany => String::from_str(alloc, "too many lines").ok(),
        RestoreEnd::Answer { line, code } => {
            format!(in alloc; "answer {code} at line {line}").ok()
        }
        RestoreEnd::NoMemory => None,
    }
}

// Adds a line, with `|` for its line feed. Answers whether there was room.
fn add_line(out: &mut String, line: &str) -> bool {
    match line.strip_suffix('\n') {
        Some(text) => out.push_str(text).is_ok() && out.push_str("|").is_ok(),
        None => out.push_str(line).is_ok(),
    }
}

// Adds the lines of a text, with `|` for each line feed.
fn add_lines(out: &mut String, text: &str) -> bool {
    for line in text.split_inclusive('\n') {
        if !add_line(out, line) {
            return false;
        }
    }
    true
}

// Whether the lines that were written, and a word, were added.
fn add_wrote(out: &mut String, bytes: &[u8], end: &str) -> bool {
    match str::from_utf8(bytes) {
        Ok(text) => {
            add_lines(out, text) && out.push_str(" ").is_ok() && out.push_str(end).is_ok()
        }
        Err(_) => false,
    }
}

/// The lines that a dump wrote, and how it ended.
pub(crate) fn wrote(alloc: Global, bytes: &[u8], end: DumpEnd) -> Option<String> {
    let mut out = String::new(alloc);
    let is_added = match dump_end(alloc, end) {
        Some(end) => add_wrote(&mut out, bytes, end.as_str()),
        None => false,
    };
    if is_added { Some(out) } else { None }
}

// An output, of which the call of a number fails, if one does.
fn sink_of(alloc: Global, word: &str) -> Option<MemSink> {
    match failing(alloc, word) {
        Some(failing) => MemSink::new(alloc, 10_000, failing).ok(),
        None => None,
    }
}

fn dumped_over(alloc: Global, far: &mut PlainFar<MemLink>, sink: &mut MemSink) -> Option<String> {
    match place(alloc) {
        Some(place) => {
            let end = dump(far, alloc, &place, sink);
            wrote(alloc, sink.bytes(), end)
        }
        None => None,
    }
}

fn dumped_to(alloc: Global, sink: &mut MemSink, answers: &str) -> Option<String> {
    match answers_of(alloc, answers) {
        Some(answers) => {
            let mut far = link_of_all(alloc, answers);
            let told = dumped_over(alloc, &mut far, sink);
            answered(alloc, far, told)
        }
        None => None,
    }
}

/// The requests of a dump, the lines that it wrote, and how it ended.
pub(crate) fn dumped(alloc: Global, case: &str) -> Option<String> {
    let Some((word, answers)) = case.split_once(' ') else {
        return None;
    };
    match sink_of(alloc, word) {
        Some(mut sink) => dumped_to(alloc, &mut sink, answers),
        None => None,
    }
}

fn add_spaces(bytes: &mut Vec<u8>) -> bool {
    for _ in 0..65_536 {
        if bytes.push(b' ').is_err() {
            return false;
        }
    }
    true
}

fn add_byte(bytes: &mut Vec<u8>, byte: u8) -> bool {
    match byte {
        b'|' => bytes.push(b'\n').is_ok(),
        b'^' => add_spaces(bytes),
        other => bytes.push(other).is_ok(),
    }
}

/// The bytes, where `|` stands for a line feed and `^` for 65,536 spaces.
pub(crate) fn input_of(alloc: Global, text: &str) -> Option<Vec<u8>> {
    let mut bytes = Vec::new(alloc);
    for byte in text.as_bytes() {
        if !add_byte(&mut bytes, *byte) {
            return None;
        }
    }
    Some(bytes)
}

// The input of a case, of which the call of a number fails, if one does.
fn source_of(alloc: Global, word: &str, input: &str) -> Option<MemSource> {
    let Some(bytes) = input_of(alloc, input) else {
        return None;
    };
    match failing(alloc, word) {
        Some(failing) => Some(MemSource::new(bytes, 100, failing)),
        None => None,
    }
}

fn restored_over(
    alloc: Global,
    far: &mut PlainFar<MemLink>,
    source: &mut MemSource,
) -> Option<String> {
    match place(alloc) {
        Some(place) => restore_end(alloc, restore(far, alloc, &place, source)),
        None => None,
    }
}

fn restored_from(alloc: Global, source: &mut MemSource, answers: &str) -> Option<String> {
    match answers_of(alloc, answers) {
        Some(answers) => {
            let mut far = link_of_all(alloc, answers);
            let told = restored_over(alloc, &mut far, source);
            answered(alloc, far, told)
        }
        None => None,
    }
}

/// The requests of a restoring, and how it ended.
pub(crate) fn restored(alloc: Global, case: &str) -> Option<String> {
    let Some((word, rest)) = case.split_once(' ') else {
        return None;
    };
    let Some((input, answers)) = rest.split_once(" <- ") else {
        return None;
    };
    match source_of(alloc, word, input) {
        Some(mut source) => restored_from(alloc, &mut source, answers),
        None => None,
    }
}
