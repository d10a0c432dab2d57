//! The words of a line, read by `clap`.
ghost use Rattle.std.specs.Prelude.{◌≡◌, ℕ, List, IfErr, IfOk, IfSome, MatchOption, codes, map, string_bytes};
ghost use Rattle.clap.specs.Words.{found_of, rows_of, subcommand_of, subcommand_rows_of};
ghost use Rattle.command_lines.specs.Lines.{IsLine, Line, remote_word};
ghost use Rattle.command_lines.specs.Given.{line_of, remote_in, values_in};
ghost use Rattle.command_lines.specs.inner.Parsing.{Finds, program, values_of};

use crate::drill_words::drill_with;
use crate::list::Words;
use crate::program::program;
use crate::words::{
    Command, Given, Remote, command_named, command_of, is_drill, remote_at, remote_of,
};
use clap::ArgMatches;
use clap::error::ErrorKind;
use kj_value::NoMemory;
use std::alloc::Global;

// The matches of the words of a line, which `clap` takes.
fn matched<'a>(alloc: Global, words: &'a [String]) -> Result<ArgMatches<'a>, NoMemory>
    requires { (line : Line) × IsLine (map string_bytes words.now) line }
    ensures { IfOk result (λ m. subcommand_rows_of m ≡ subcommand_of program (map string_bytes words.entry.now)) }
{
    match program(alloc)?.try_get_matches_from(words) {
        Ok(matches) => Ok(matches),
        Err(error) => match error.kind() {
            ErrorKind::OutOfMemory => Err(NoMemory),
            _ => unreachable!(),
        },
    }
}

// The options that a command's matches have.
fn given<'a>(matches: &ArgMatches<'a>) -> Given<'a>
    ensures { values_in result ≡ values_of (rows_of (found_of matches.now)) }
{
    Given {
        crd: matches.get_str("crd"),
        rules: matches.get_str("rules"),
        hub: matches.get_str("hub"),
        converter: matches.get_str("converter"),
        to: matches.get_str("to"),
        turns: matches.get_str("turns"),
        listen: matches.get_str("listen"),
        workers: matches.get_str("workers"),
        connections: matches.get_str("connections"),
    }
}

// The line of a command that takes an address.
fn addressed<'a>(work: Remote, matches: &ArgMatches<'a>) -> Option<Command<'a>>
    ensures { Finds (remote_word (remote_in work)) (rows_of (found_of matches.now)) result }
{
    match matches.get_str("url") {
        Some(url) => Some(remote_at(work, url)),
        None => None,
    }
}

// The line of a drill.
fn drilled<'a>(matches: &ArgMatches<'a>) -> Option<Command<'a>>
    ensures { Finds (codes "drill") (rows_of (found_of matches.now)) result }
{
    match matches.get_str("start") {
        Some(start) => match matches.get_str("count") {
            Some(count) => drill_with(start, count),
            None => None,
        },
        None => None,
    }
}

// The line of the command of this name.
fn named<'a>(name: &str, matches: &ArgMatches<'a>) -> Option<Command<'a>>
    ensures { Finds name.now (rows_of (found_of matches.now)) result }
{
    match remote_of(name) {
        Some(work) => addressed(work, matches),
        None => {
            if is_drill(name) {
                drilled(matches)
            } else {
                command_named(name, given(matches))
            }
        }
    }
}

// The line that the matches are of.
fn command_in<'a>(matches: &ArgMatches<'a>) -> Option<Command<'a>>
    ensures { (words : List (List ℕ)) (line : Line) → IsLine words line → subcommand_rows_of matches.now ≡ subcommand_of program words
        → MatchOption result ⊥ (λ c. line ≡ line_of c) }
{
    match matches.subcommand() {
        Some((name, inner)) => named(name, inner),
        None => None,
    }
}

/// What the words ask for, or `None` exactly where they are no line of the program, which takes no memory to tell. The words of a line
/// are read by `clap`, for which memory may be wanting.
pub fn read_command<'a>(alloc: Global, words: &'a Words) -> Result<Option<Command<'a>>, NoMemory>
    ensures is { IfOk result (λ o. IfSome o (λ c. IsLine words.now (line_of c))) }
    ensures only { IfOk result (λ o. (line : Line) → IsLine words.now line → MatchOption o ⊥ (λ c. line ≡ line_of c)) }
    ensures wanting { IfErr result (λ _. (line : Line) × IsLine words.now line) }
{
    match command_of(words) {
        Some(_) => {
            let matches = matched(alloc, words.as_slice())?;
            Ok(command_in(&matches))
        }
        None => Ok(None),
    }
}
