//! One run of the program in memory.
ghost use Rattle.std.specs.Prelude.{IfSome};
ghost use Rattle.edge_io.specs.MemoryEars.{IsUnread, IsUnwritten};

use crate::case::{Case, Connections, Outside};
use crate::input::Input;
use crate::links::CaseLinks;
use crate::reviewing::{Rules, is_ruled};
use edge_io::{
    Ears, Files, FixedClock, MemConnection, MemEars, MemFile, MemFiles, MemLink, MemSink,
    MemSource, Sink, Source,
};
use kj_value::{Stamp, Txt};
use kubeconv_cmd::{Words, run};
use std::alloc::Global;
use std::sync::Wait;
use std::thread::Threads;
use std::time::Clock;
use tcp_ears::Place;
use tcp_links::{Links, MemLinks, MemReady};

// Whether a word was added.
fn add_word(alloc: Global, words: &mut Words, word: &str) -> bool {
    match Txt::of(alloc, word) {
        Ok(word) => words.push(word).is_ok(),
        Err(_) => false,
    }
}

// The words of a line `words WORD ..`.
fn words_of(alloc: Global, line: &str) -> Option<Words> {
    let mut words = Words::new(alloc);
    for word in line.split(' ').skip(1) {
        if !add_word(alloc, &mut words, word) {
            return None;
        }
    }
    Some(words)
}

fn bytes_of(alloc: Global, text: &str) -> Option<Vec<u8>> {
    text.as_bytes().to_vec(alloc).ok()
}

// The bytes of so many copies of a text.
fn copies_of(alloc: Global, text: &str, copies: usize) -> Option<Vec<u8>> {
    let mut bytes = Vec::new(alloc);
    for _ in 0..copies {
        if bytes.extend_from_slice(text.as_bytes()).is_err() {
            return None;
        }
    }
    Some(bytes)
}

// Whether a file was added, which has a byte that is no text at its end where it is spoilt.
fn add_file(alloc: Global, files: &mut Vec<MemFile>, path: &str, text: &str, spoilt: bool) -> bool {
    match bytes_of(alloc, text) {
        Some(mut bytes) => {
            (!spoilt || bytes.push(0xff).is_ok()) && add_bytes(alloc, files, path, bytes)
        }
        None => false,
    }
}

fn add_bytes(alloc: Global, files: &mut Vec<MemFile>, path: &str, bytes: Vec<u8>) -> bool {
    match Txt::of(alloc, path) {
        Ok(path) => files.push(MemFile::new(path, bytes)).is_ok(),
        Err(_) => false,
    }
}

fn add_files(alloc: Global, files: &mut Vec<MemFile>, case: &Case) -> bool {
    let crd = case.documents.crd.as_str();
    let rules = case.documents.rules.as_str();
    add_file(alloc, files, "crd.json", crd, case.outside.spoils_crd)
        && add_file(alloc, files, "rules.json", rules, case.outside.spoils_rules)
}

fn files_of(alloc: Global, case: &Case) -> Option<MemFiles> {
    let mut files = Vec::new(alloc);
    if add_files(alloc, &mut files, case) {
        Some(MemFiles::new(files, Vec::new(alloc)))
    } else {
        None
    }
}

// Whether the line has a converter.
fn is_converted(words: &str) -> bool {
    words.contains(" --converter")
}

// The input of the program, and the answers of the one link. Of a line of `load` and of one with a converter these stand behind the first
// `~`.
fn parts(case: &Case) -> (&str, &str) {
    let all = case.asked.input.as_str();
    if case.asked.words.starts_with("words load ") || is_converted(case.asked.words.as_str()) {
        return all.split_once('~').unwrap_or((all, ""));
    }
    (all, all)
}

// The input of the program. There is none where its reads give nothing.
fn input_of(alloc: Global, case: &Case, outside: Outside) -> Option<Input> {
    if outside.piece == 0 {
        return None;
    }
    let (input, _) = parts(case);
    match copies_of(alloc, input, outside.copies) {
        Some(mut bytes) => {
            bytes.truncate(outside.end);
            Some(Input {
                bytes,
                piece: outside.piece,
                place: outside.step,
                step: outside.step,
                fails: outside.failing_read,
                at: 0,
                reads: 0,
                faults: 0,
            })
        }
        None => None,
    }
}

fn source_of(alloc: Global, case: &Case, failing_read: u64) -> Option<MemSource>
    ensures { IfSome result IsUnread }
{
    let (input, _) = parts(case);
    let Some(bytes) = bytes_of(alloc, input) else {
        return None;
    };
    match vec![in alloc; failing_read] {
        Ok(failing) => Some(MemSource::new(bytes, 4_096, failing)),
        Err(_) => None,
    }
}

fn sink_of(alloc: Global, failing_write: u64) -> Option<MemSink>
    ensures { IfSome result IsUnwritten }
{
    match vec![in alloc; failing_write] {
        Ok(failing) => MemSink::new(alloc, 100_000, failing).ok(),
        Err(_) => None,
    }
}

// A connection, which holds the input.
fn connection_of(alloc: Global, case: &Case, which: Connections) -> Option<MemConnection> {
    let Some(source) = source_of(alloc, case, which.failing_read) else {
        return None;
    };
    match sink_of(alloc, which.failing_write) {
        Some(sink) => MemConnection::new(alloc, source, sink).ok(),
        None => None,
    }
}

fn add_connection(
    alloc: Global,
    connections: &mut Vec<MemConnection>,
    case: &Case,
    which: Connections,
) -> bool {
    match connection_of(alloc, case, which) {
        Some(connection) => connections.push(connection).is_ok(),
        None => false,
    }
}

// Ears with so many connections.
fn ears_of(alloc: Global, case: &Case, outside: Outside) -> Option<MemEars> {
    let mut connections = Vec::new(alloc);
    for _ in 0..outside.connections.count {
        if !add_connection(alloc, &mut connections, case, outside.connections) {
            return None;
        }
    }
    match vec![in alloc; outside.failing_ears] {
        Ok(failing) => MemEars::new(alloc, connections, failing).ok(),
        Err(_) => None,
    }
}

fn add_answer(alloc: Global, answers: &mut Vec<Vec<u8>>, answer: &str) -> bool {
    match bytes_of(alloc, answer) {
        Some(answer) => answers.push(answer).is_ok(),
        None => false,
    }
}

// The parts of a text between two `~`.
fn answers_of(alloc: Global, all: &str) -> Option<Vec<Vec<u8>>> {
    let mut answers = Vec::new(alloc);
    for part in all.split('~') {
        if !add_answer(alloc, &mut answers, part) {
            return None;
        }
    }
    Some(answers)
}

// A link whose answers are those parts.
fn link_of(alloc: Global, case: &Case, outside: Outside) -> Option<MemReady> {
    let (_, all) = parts(case);
    let Some(answers) = answers_of(alloc, all) else {
        return None;
    };
    match vec![in alloc; outside.failing_ears] {
        Ok(failing) => MemReady::new(alloc, MemLink::new(alloc, answers, failing)).ok(),
        Err(_) => None,
    }
}

fn add_link(alloc: Global, ready: &mut Vec<MemReady>, case: &Case, outside: Outside) -> bool {
    match link_of(alloc, case, outside) {
        Some(link) => ready.push(link).is_ok(),
        None => false,
    }
}

// Whether the line works on a server from outside, or has a converter.
fn is_linked(words: &str) -> bool {
    words.starts_with("words migrate ")
        || is_converted(words)
        || words.starts_with("words dump ")
        || words.starts_with("words load ")
}

// Links of which the first is that one, where the line asks over one, or that review by the files of the case.
fn links_of<'a>(alloc: Global, case: &'a Case, outside: Outside) -> Option<CaseLinks<'a>> {
    let words = case.asked.words.as_str();
    let mut ready = Vec::new(alloc);
    if is_linked(words) && !add_link(alloc, &mut ready, case, outside) {
        return None;
    }
    let rules = if is_ruled(words) {
        Some(Rules::of(&case.documents))
    } else {
        None
    };
    Some(CaseLinks::new(MemLinks::new(alloc, ready), rules))
}

/// What a run came to.
pub(crate) struct Outcome {
    pub(crate) output: Vec<u8>,
    pub(crate) connection: Vec<u8>,
    pub(crate) errors: Vec<u8>,
    pub(crate) status: u8,
    pub(crate) calls: u64,
    pub(crate) handed_out: usize,
}

impl Drop for Outcome {
    fn drop(self) {
        let Outcome {
            output: _,
            connection: _,
            errors: _,
            status: _,
            calls: _,
            handed_out: _,
        } = self;
    }
}

// What stands in the sinks behind a run, and what was written to the connection.
fn outcome_of(
    alloc: Global,
    output: &MemSink,
    ears: &MemEars,
    errors: &MemSink,
    status: u8,
    calls: u64,
) -> Option<Outcome> {
    let Ok(output) = output.bytes().to_vec(alloc) else {
        return None;
    };
    let Ok(connection) = ears.last_written().unwrap_or(&[]).to_vec(alloc) else {
        return None;
    };
    match errors.bytes().to_vec(alloc) {
        Ok(errors) => Some(Outcome {
            output,
            connection,
            errors,
            status,
            calls,
            handed_out: ears.handed_out(),
        }),
        Err(_) => None,
    }
}

// The output of a run, one of whose writes fails.
fn output_of(alloc: Global, outside: Outside) -> Option<MemSink> {
    match vec![in alloc; outside.failing_write] {
        Ok(failing) => MemSink::new(alloc, 4_000_000, failing).ok(),
        Err(_) => None,
    }
}

// What a run writes to: its output and its errors.
fn sinks_of(alloc: Global, outside: Outside) -> Option<(MemSink, MemSink)> {
    let Some(output) = output_of(alloc, outside) else {
        return None;
    };
    match MemSink::new(alloc, 1_000, Vec::new(alloc)) {
        Ok(errors) => Some((output, errors)),
        Err(_) => None,
    }
}

// The status of a run. Nothing is said of it, so that whoever runs the program takes over none of its clauses.
fn status_of<
    R: Threads + Wait + Clock + Sync,
    F: Files,
    S: Source,
    K: Sink,
    E: Sink,
    A: Ears + Place + Send,
    L: Links,
>(
    rt: &R,
    alloc: Global,
    words: &Words,
    files: &mut F,
    source: &mut S,
    output: &mut K,
    errors: &mut E,
    ears: &mut A,
    links: &mut L,
) -> u8
where
    L::One: Sync,
{
    let clock = FixedClock::new(Stamp {
        text: *b"2024-01-02T03:04:05Z",
    });
    run(
        rt, alloc, words, files, source, output, errors, ears, links, &clock, 0,
    )
}

// Runs the program in this outside.
fn run_in<R: Threads + Wait + Clock + Sync>(
    rt: &R,
    alloc: Global,
    words: &Words,
    files: &mut MemFiles,
    source: &mut Input,
    output: &mut MemSink,
    errors: &mut MemSink,
    ears: &mut MemEars,
    links: &mut CaseLinks<'_>,
) -> Option<Outcome> {
    let status = status_of(rt, alloc, words, files, source, output, errors, ears, links);
    outcome_of(alloc, output, ears, errors, status, files.calls())
}

// Adds what was asked over the link. Answers whether there was memory.
fn add_asked(came: &mut Outcome, links: &MemLinks) -> bool {
    let mut is_whole = true;
    for exchange in links.last_made().unwrap_or(&[]) {
        is_whole = came
            .connection
            .extend_from_slice(exchange.request())
            .is_ok()
            && came.connection.push(b'\n').is_ok()
            && is_whole;
    }
    is_whole
}

// Runs the program with what it reads, and these links.
fn run_with<R: Threads + Wait + Clock + Sync>(
    rt: &R,
    alloc: Global,
    case: &Case,
    outside: Outside,
    words: &Words,
    files: &mut MemFiles,
    source: &mut Input,
    links: &mut CaseLinks<'_>,
) -> Option<Outcome> {
    match sinks_of(alloc, outside) {
        Some((mut output, mut errors)) => match ears_of(alloc, case, outside) {
            Some(mut ears) => run_in(
                rt,
                alloc,
                words,
                files,
                source,
                &mut output,
                &mut errors,
                &mut ears,
                links,
            ),
            None => None,
        },
        None => None,
    }
}

// Runs the program by these words, over a case with these links.
fn run_words<R: Threads + Wait + Clock + Sync>(
    rt: &R,
    alloc: Global,
    case: &Case,
    outside: Outside,
    words: &Words,
    links: &mut CaseLinks<'_>,
) -> Option<Outcome> {
    match files_of(alloc, case) {
        Some(mut files) => match input_of(alloc, case, outside) {
            Some(mut source) => run_with(
                rt,
                alloc,
                case,
                outside,
                words,
                &mut files,
                &mut source,
                links,
            ),
            None => None,
        },
        None => None,
    }
}

// Runs the program over a case with these links.
fn run_over<R: Threads + Wait + Clock + Sync>(
    rt: &R,
    alloc: Global,
    case: &Case,
    outside: Outside,
    links: &mut CaseLinks<'_>,
) -> Option<Outcome> {
    match words_of(alloc, case.asked.words.as_str()) {
        Some(words) => run_words(rt, alloc, case, outside, &words, links),
        None => None,
    }
}

/// Runs the program over a case, where the outside behaves so.
pub(crate) fn run_case<R: Threads + Wait + Clock + Sync>(
    rt: &R,
    alloc: Global,
    case: &Case,
    outside: Outside,
) -> Option<Outcome> {
    let Some(mut links) = links_of(alloc, case, outside) else {
        return None;
    };
    let Some(mut came) = run_over(rt, alloc, case, outside, &mut links) else {
        return None;
    };
    if add_asked(&mut came, links.given()) {
        Some(came)
    } else {
        None
    }
}
