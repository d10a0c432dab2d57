//! A case that is run again.
use crate::case::{Case, Outside};
use crate::going::{Outcome, run_case};
use crate::lines::Lines;
use std::alloc::Global;
use std::sync::Wait;
use std::thread::Threads;
use std::time::Clock;

fn is_same(one: &Outcome, other: &Outcome) -> bool {
    one.output == other.output
        && one.connection == other.connection
        && one.errors == other.errors
        && one.status == other.status
        && one.calls == other.calls
}

// Whether a run where the outside behaves so comes to the same.
fn runs_same<R: Threads + Wait + Clock + Sync>(
    rt: &R,
    alloc: Global,
    case: &Case,
    came: &Outcome,
    outside: Outside,
) -> Option<bool> {
    match run_case(rt, alloc, case, outside) {
        Some(other) => Some(is_same(&other, came)),
        None => None,
    }
}

// What a run in pieces of this size comes to, beside the run in whole.
fn run_piece<R: Threads + Wait + Clock + Sync>(
    rt: &R,
    alloc: Global,
    case: &Case,
    came: &Outcome,
    piece: usize,
    all: &mut Lines,
) {
    match runs_same(rt, alloc, case, came, case.outside.in_pieces(piece)) {
        Some(same) => {
            all.add(format!(in alloc; "in pieces of {piece}, the same: {same}\n").ok());
        }
        None => all.lose(),
    }
}

// In pieces of each size that the case names.
fn run_pieces<R: Threads + Wait + Clock + Sync>(
    rt: &R,
    alloc: Global,
    case: &Case,
    came: &Outcome,
    all: &mut Lines,
) {
    for word in case.again.pieces.as_str().split(' ') {
        match word.parse::<usize>() {
            Ok(piece) => run_piece(rt, alloc, case, came, piece, all),
            Err(_) => all.lose(),
        }
    }
}

// How much a run wrote that ended with this status, and no more than a front of what the whole run did: nothing where it ended with another, and
// no answer where it wrote something else.
fn front_of(came: &Outcome, other: &Outcome, status: u8) -> Option<Option<usize>> {
    if other.status != status {
        return Some(None);
    }
    if came.output.starts_with(other.output.as_slice()) {
        Some(Some(other.output.len()))
    } else {
        None
    }
}

// The same of a run where the outside behaves so.
fn front_where<R: Threads + Wait + Clock + Sync>(
    rt: &R,
    alloc: Global,
    case: &Case,
    came: &Outcome,
    outside: Outside,
    status: u8,
) -> Option<Option<usize>> {
    match run_case(rt, alloc, case, outside) {
        Some(other) => front_of(came, &other, status),
        None => None,
    }
}

// How many of the first writes fail, each with a front of what was to be written. There is no answer where one has none.
fn failing_writes<R: Threads + Wait + Clock + Sync>(
    rt: &R,
    alloc: Global,
    case: &Case,
    came: &Outcome,
) -> Option<u64> {
    for write in 0..10_000 {
        let outside = case.outside.unwritten_at(write);
        match front_where(rt, alloc, case, came, outside, 6) {
            Some(Some(_)) => {}
            Some(None) => return Some(write),
            None => return None,
        }
    }
    None
}

// Adds how much was written where each of the first reads fails, until none does. Answers whether each wrote a front, and one didn't fail.
fn failing_reads<R: Threads + Wait + Clock + Sync>(
    rt: &R,
    alloc: Global,
    case: &Case,
    came: &Outcome,
    lengths: &mut Vec<usize>,
) -> bool {
    for read in 0..10_000 {
        let outside = case.outside.unread_at(read);
        match front_where(rt, alloc, case, came, outside, 5) {
            Some(Some(length)) => {
                if lengths.push(length).is_err() {
                    return false;
                }
            }
            Some(None) => return true,
            None => return false,
        }
    }
    false
}

// From which failing read on so much was written.
fn add_reads(alloc: Global, all: &mut Lines, lengths: &[usize]) {
    let mut before = usize::MAX;
    for (read, length) in lengths.iter().enumerate() {
        if *length != before {
            all.add(format!(in alloc;
                "reads from {read} on that fail: a front of {length} bytes\n"
            ).ok());
        }
        before = *length;
    }
    let reads = lengths.len();
    all.add(format!(in alloc; "reads that fail: {reads}\n").ok());
}

fn run_writes<R: Threads + Wait + Clock + Sync>(
    rt: &R,
    alloc: Global,
    case: &Case,
    came: &Outcome,
    all: &mut Lines,
) {
    match failing_writes(rt, alloc, case, came) {
        Some(writes) => {
            let enough = writes >= 12;
            all.add(format!(in alloc;
                "writes that fail, each with a front, twelve or more: {enough}\n"
            ).ok());
        }
        None => all.lose(),
    }
}

fn run_reads<R: Threads + Wait + Clock + Sync>(
    rt: &R,
    alloc: Global,
    case: &Case,
    came: &Outcome,
    all: &mut Lines,
) {
    let mut lengths = Vec::new(alloc);
    if failing_reads(rt, alloc, case, came, &mut lengths) {
        add_reads(alloc, all, lengths.as_slice());
    } else {
        all.lose();
    }
}

// Whether copies of the input, one for each of its places, come to the same in pieces of one byte more than it has, and to what begins with
// what it comes to alone. So each copy is parted in two, one byte later than the one before.
fn copies_same<R: Threads + Wait + Clock + Sync>(
    rt: &R,
    alloc: Global,
    case: &Case,
    came: &Outcome,
    places: usize,
) -> Option<bool> {
    let outside = case.outside.repeated(places);
    let Some(whole) = run_case(rt, alloc, case, outside) else {
        return None;
    };
    let parted = outside.parted_each(places.saturating_add(1));
    match runs_same(rt, alloc, case, &whole, parted) {
        Some(same) => Some(same && whole.output.starts_with(came.output.as_slice())),
        None => None,
    }
}

// Whether the input comes to the same in two pieces, parted at each place.
fn run_pairs<R: Threads + Wait + Clock + Sync>(
    rt: &R,
    alloc: Global,
    case: &Case,
    came: &Outcome,
    all: &mut Lines,
) {
    let places = case.asked.input.len();
    match copies_same(rt, alloc, case, came, places) {
        Some(same) => {
            all.add(format!(in alloc;
                "in two pieces, parted at each of {places} places, the same: {same}\n"
            ).ok());
        }
        None => all.lose(),
    }
}

// What an input comes to that ends sooner. There is no answer where what is written is no front of what the whole comes to.
fn ending(alloc: Global, came: &Outcome, other: &Outcome) -> Option<String> {
    if !came.output.starts_with(other.output.as_slice()) {
        return None;
    }
    let Ok(errors) = str::from_utf8(other.errors.as_slice()) else {
        return None;
    };
    let errors = errors.trim_end();
    let (length, status) = (other.output.len(), other.status);
    format!(in alloc; "= {status}, a front of {length} bytes, \"{errors}\"").ok()
}

fn ending_at<R: Threads + Wait + Clock + Sync>(
    rt: &R,
    alloc: Global,
    case: &Case,
    came: &Outcome,
    end: usize,
) -> Option<String> {
    match run_case(rt, alloc, case, case.outside.ended_at(end)) {
        Some(other) => ending(alloc, came, &other),
        None => None,
    }
}

// Adds what an input comes to that ends there, where that isn't what it was before.
fn add_end(alloc: Global, end: usize, told: String, before: &mut String, all: &mut Lines) {
    if told != *before {
        all.add(format!(in alloc; "ended at {end} and on: {}\n", told.as_str()).ok());
    }
    *before = told;
}

// From which place on an input that ends there comes to something else.
fn run_ends<R: Threads + Wait + Clock + Sync>(
    rt: &R,
    alloc: Global,
    case: &Case,
    came: &Outcome,
    all: &mut Lines,
) {
    let mut before = String::new(alloc);
    for end in 0..case.asked.input.len() {
        match ending_at(rt, alloc, case, came, end) {
            Some(told) => add_end(alloc, end, told, &mut before, all),
            None => all.lose(),
        }
    }
}

/// Runs a case again as it says, and adds what that comes to beside the first run.
pub(crate) fn run_again<R: Threads + Wait + Clock + Sync>(
    rt: &R,
    alloc: Global,
    case: &Case,
    came: &Outcome,
    all: &mut Lines,
) {
    if !case.again.pieces.is_empty() {
        run_pieces(rt, alloc, case, came, all);
    }
    if case.again.faults {
        run_writes(rt, alloc, case, came, all);
        run_reads(rt, alloc, case, came, all);
    }
    if case.again.places {
        run_pairs(rt, alloc, case, came, all);
        run_ends(rt, alloc, case, came, all);
    }
}
