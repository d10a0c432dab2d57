//! What runs are told as.
use crate::again::run_again;
use crate::case::{Again, Case, Outside};
use crate::going::{Outcome, run_case};
use crate::lines::Lines;
use sha2::{Digest, Sha256};
use std::alloc::Global;
use std::sync::Wait;
use std::thread::Threads;
use std::time::Clock;

// Adds the digest of bytes, in hexadecimal digits.
fn add_digest(alloc: Global, all: &mut Lines, bytes: &[u8]) {
    let mut hasher = Sha256::new();
    hasher.update(bytes);
    for byte in hasher.finalize() {
        all.add(format!(in alloc; "{byte:02x}").ok());
    }
}

fn add_text(all: &mut Lines, bytes: &[u8]) {
    match str::from_utf8(bytes) {
        Ok(text) => {
            if !text.is_empty() {
                all.push(text);
                all.push("\n");
            }
        }
        Err(_) => all.lose(),
    }
}

// The end of the output, behind how much comes before it.
fn add_output(alloc: Global, all: &mut Lines, output: &[u8], last: usize) {
    let before = output.len().saturating_sub(last);
    let (front, end) = output.split_at(before.min(output.len()));
    if before > 0 {
        all.add(format!(in alloc; "({before} bytes, SHA-256 ").ok());
        add_digest(alloc, all, front);
        all.push(")\n");
    }
    add_text(all, end);
}

fn add_errors(all: &mut Lines, bytes: &[u8]) {
    match str::from_utf8(bytes) {
        Ok(text) => all.push(text),
        Err(_) => all.lose(),
    }
}

// What a run came to, of whose output only the last bytes are shown.
fn add_told(alloc: Global, all: &mut Lines, came: &Outcome, last: usize) {
    add_output(alloc, all, came.output.as_slice(), last);
    add_output(alloc, all, came.connection.as_slice(), last);
    add_errors(all, came.errors.as_slice());
    let (status, calls) = (came.status, came.calls);
    all.add(format!(in alloc; "= {status}, {calls} files read\n").ok());
}

// How many connections were handed out, where there are many.
fn add_connections(alloc: Global, all: &mut Lines, case: &Case, came: &Outcome) {
    if case.outside.connections.count > 1 {
        let count = came.handed_out;
        all.add(format!(in alloc; "connections handed out: {count}\n").ok());
    }
}

// What a case said of itself alone is forgotten.
fn clear(alloc: Global, case: &mut Case, all: &mut Lines) {
    match String::from_str(alloc, case.documents.base.as_str()) {
        Ok(text) => case.documents.crd = text,
        Err(_) => all.lose(),
    }
    case.asked.body.clear();
    case.asked.input.clear();
    case.outside = Outside::new();
    case.again = Again::new(alloc);
}

fn add_all<R: Threads + Wait + Clock + Sync>(
    rt: &R,
    alloc: Global,
    case: &Case,
    came: &Outcome,
    all: &mut Lines,
) {
    add_told(alloc, all, came, case.outside.last);
    add_connections(alloc, all, case, came);
    run_again(rt, alloc, case, came, all);
}

/// Runs the program over a case, once and as often as it says, and answers what it came to.
pub(crate) fn go<R: Threads + Wait + Clock + Sync>(
    rt: &R,
    alloc: Global,
    case: &mut Case,
) -> Option<String> {
    let mut all = Lines::new(alloc);
    match run_case(rt, alloc, case, case.outside) {
        Some(came) => add_all(rt, alloc, case, &came, &mut all),
        None => return None,
    }
    clear(alloc, case, &mut all);
    all.told()
}
