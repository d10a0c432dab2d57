//! Cases of what no request and no line of `run` shows: the turn lock in threads (`turns`), connections for which no pass can be made
//! (`connections`), and regions of few chunks (`regions`). What connections come to over TCP `checks/connections.py` looks at.
//!
//! They are told by a script of `test_program`, of which each line behind the first names a case.
//!
//! The way from the turn lock to a call is shown by a small core. `Counter` has a contract over every list that it may stand for. `Cell` is
//! how the turn keeps it. `SharedCounter` has the calls: `total` and `numbers` read, `add` writes, `double` takes two turns, and `add_all`
//! makes a list of calls, each at its place in one list. `ticks` are threads on passes of their own. The items of a history are the
//! server's; here a claim's number is what is added.
#![tactic(auto)]

mod cell;
mod connections;
mod counter;
mod regions;
mod shared;
mod tally;
mod ticks;
mod turns;

use std::alloc::Global;
use std::sync::Wait;
use std::thread::Threads;
use std::time::Clock;

// Whether a case comes to what it is to. There is no answer where there is none of that name, or memory is wanted.
fn came<R: Threads + Wait + Clock + Sync>(rt: &R, alloc: Global, name: &str) -> Option<bool> {
    match name {
        "one_chunk" => regions::one_chunk(alloc),
        "ends_of_a_chunk" => regions::ends_of_a_chunk(alloc),
        "taken_again" => regions::taken_again(alloc),
        "met_passes_have_both_items" => turns::met_passes_have_both_items(rt, alloc),
        "calls_have_their_places" => turns::calls_have_their_places(rt, alloc),
        "two_threads_add_all" => turns::two_threads_add_all(rt, alloc),
        "eight_threads_meet" => turns::eight_threads_meet(rt, alloc),
        "a_dropped_pass_holds_nothing" => turns::a_dropped_pass_holds_nothing(rt, alloc),
        "a_value_is_dropped_once" => turns::a_value_is_dropped_once(rt, alloc),
        "no_pass_but_the_first" => connections::no_pass_but_the_first(rt, alloc),
        _ => None,
    }
}

// What stands behind the name of a case, or behind the first line.
fn end_of<R: Threads + Wait + Clock + Sync>(rt: &R, alloc: Global, line: &str) -> &'static str {
    if line.starts_with("# ") {
        return "\n";
    }
    match came(rt, alloc, line) {
        Some(true) => ": passed\n",
        Some(false) => ": failed\n",
        None => ": not told\n",
    }
}

// Adds a line. Answers whether there was room.
fn add(all: &mut String, name: &str, end: &str) -> bool {
    all.push_str(name).is_ok() && all.push_str(end).is_ok()
}

/// What a script is told as: its first line, each name behind it with how that case ended, and an empty line. There is none where memory is
/// wanted.
pub fn tell<R: Threads + Wait + Clock + Sync>(
    rt: &R,
    alloc: Global,
    script: &str,
) -> Option<String> {
    let mut all = String::new(alloc);
    for line in script.lines() {
        if !add(&mut all, line, end_of(rt, alloc, line)) {
            return None;
        }
    }
    if add(&mut all, "", "\n") {
        Some(all)
    } else {
        None
    }
}
