//! Answers the requests of standard input on standard output.
#![tactic(auto)]

use edge_io::{DiskFiles, RealClock, StdSink, StdSource};
use kj_value::Txt;
use kubeconv_cmd::{BAD_WORDS, NO_MEMORY, Words, ended, run};
use progress_links::ProgressLinks;
use std::io::{BufReader, BufWriter, IsTerminal};
use std::process::ExitCode;
use std::time::Clock;
use std::{env, io};
use tcp_ears::TcpEars;
use tcp_links::TcpLinks;

// The status where the command line can't be had: there is no memory for it, or a word isn't UTF-8.
fn status_of(fault: io::Error) -> u8 {
    if fault.kind() == io::ErrorKind::OutOfMemory {
        NO_MEMORY
    } else {
        BAD_WORDS
    }
}

// The words of the command line without the program's name, or the status where they can't be had.
fn words(rt: &HostRuntime) -> Result<Words, u8> {
    let mut words = Words::new(rt.alloc());
    for word in env::args(rt).map_err(status_of)?.skip(1) {
        words.push(Txt::of_string(word)).map_err(|_| NO_MEMORY)?;
    }
    Ok(words)
}

// The number of this start: the nanoseconds since 1970, modulo 2^64, and 0 where the system tells no time.
fn boot_number(rt: &HostRuntime) -> u64 {
    match rt.since_1970() {
        Ok(since) => since
            .as_secs()
            .wrapping_mul(1_000_000_000)
            .wrapping_add(u64::from(since.subsec_nanos())),
        Err(_) => 0,
    }
}

// Whether the line works on a server from outside, exchange by exchange.
fn is_remote(words: &Words) -> bool {
    match words.get(0) {
        Some(word) => matches!(word.as_str(), "migrate" | "dump" | "load"),
        None => false,
    }
}

fn main(rt: HostRuntime) -> ExitCode {
    let alloc = rt.alloc();
    let mut errors = StdSink::new(rt.stderr());
    let words = match words(&rt) {
        Ok(words) => words,
        Err(status) => return ExitCode::from(ended(&mut errors, status)),
    };
    let Ok(reader) = BufReader::new(alloc, rt.stdin()) else {
        return ExitCode::from(ended(&mut errors, NO_MEMORY));
    };
    let Ok(writer) = BufWriter::new(alloc, rt.stdout()) else {
        return ExitCode::from(ended(&mut errors, NO_MEMORY));
    };
    let boot = boot_number(&rt);
    let mut files = DiskFiles::new(&rt);
    let mut input = StdSource::new(reader);
    let mut output = StdSink::new(writer);
    let mut ears = TcpEars::new(&rt, alloc);
    // Who looks on at a terminal sees the number of exchanges; nothing of it comes into a file.
    let shown = if is_remote(&words) && rt.stderr().is_terminal() {
        Some(StdSink::new(rt.stderr()))
    } else {
        None
    };
    let mut links = ProgressLinks::new(&rt, TcpLinks::new(&rt), shown);
    let clock = RealClock::new(&rt);
    ExitCode::from(run(
        &rt,
        alloc,
        &words,
        &mut files,
        &mut input,
        &mut output,
        &mut errors,
        &mut ears,
        &mut links,
        &clock,
        boot,
    ))
}
