//! The words of the command line.
ghost use Rattle.std.specs.Prelude.{◌≡◌, ◌≢◌, ◌≤◌, ◌<◌, ◌↔◌, ◌++◌, ◌∷◌, [], ℕ, List, None, IfSome, IsTrue, MatchOption, codes, map, length, option_map, string_bytes};
ghost use Rattle.command_lines.specs.Lines.{Line, Remote as RemoteView, remote, remote_word, Flag as FlagView, HasAddress, HasOptions, HasSource, IsLine, IsUnserved, IsValue, by_rules, crd_flag, rules_flag, hub_flag, converter_flag, to_flag, listen_flag, workers_flag, connections_flag, flag_text, value_at, with_value};
ghost use Rattle.command_lines.specs.Given.{Within, line_of, remote_in, source_of as source_in, flag_in, values_in, TakesFirst, GivesOne, IsCommand};

use crate::drill_words::drill_of;
use crate::list::Words;
use crate::serve_words::{is_unserved, serve_of};
use crate::service::Listening;
use crate::source::{Source, source_of};
use crate::turns::turns_of;

/// What is done with one document: it is converted to a version, or it is a review.
#[derive(Clone, Copy)]
pub enum Task<'a> {
    Convert { to: &'a str },
    Review,
}

/// What the words ask for.
#[derive(Clone, Copy)]
pub enum Command<'a> {
    /// To answer the requests of the input, and to take so many turns of a worker after each answer.
    Pipe {
        source: Source<'a>,
        turns: u64,
    },
    /// To read one document, and to write one line.
    Task {
        crd: &'a str,
        rules: &'a str,
        task: Task<'a>,
    },
    /// To take so many steps of a drill, drawn from the state of the first number on.
    Drill {
        start: u64,
        count: u64,
    },
    /// To answer connections.
    Serve {
        source: Source<'a>,
        listening: Listening<'a>,
    },
    /// To put each object back that a server lists at the place of this address.
    Migrate {
        url: &'a str,
    },
    /// To write each object as a line that a server lists at the place of this address.
    Dump {
        url: &'a str,
    },
    /// To post each line of the input to the place of this address.
    Load {
        url: &'a str,
    },
}

// What is done at the place of an address.
#[derive(Clone, Copy)]
pub(crate) enum Remote {
    Migrate,
    Dump,
    Load,
}

// The name of an option.
#[derive(Clone, Copy)]
enum Flag {
    Crd,
    Rules,
    Hub,
    Converter,
    To,
    Turns,
    Listen,
    Workers,
    Connections,
}

// An option with its value, and the words behind it.
#[derive(Clone, Copy)]
struct Taken<'a> {
    flag: Flag,
    value: &'a str,
    rest: &'a [String],
}

/// The options that are given.
#[derive(Clone, Copy)]
pub(crate) struct Given<'a> {
    pub(crate) crd: Option<&'a str>,
    pub(crate) rules: Option<&'a str>,
    pub(crate) hub: Option<&'a str>,
    pub(crate) converter: Option<&'a str>,
    pub(crate) to: Option<&'a str>,
    pub(crate) turns: Option<&'a str>,
    pub(crate) listen: Option<&'a str>,
    pub(crate) workers: Option<&'a str>,
    pub(crate) connections: Option<&'a str>,
}

// Nothing is given.
const NOTHING: Given<'static> = Given {
    crd: None,
    rules: None,
    hub: None,
    converter: None,
    to: None,
    turns: None,
    listen: None,
    workers: None,
    connections: None,
};

// Whether a word can be a value: it isn't empty, and doesn't begin as an option does.
fn is_value(word: &str) -> bool
    ensures { IsTrue result ↔ IsValue word.now }
{
    match word.as_bytes() {
        [] => false,
        [first, ..] => *first != b'-',
    }
}

// What stands behind the front of a word, or `None` exactly where the word begins otherwise.
fn behind<'a>(word: &'a str, front: &str) -> Option<&'a str>
    ensures { MatchOption result ((end : List ℕ) → word.now ≢ front.now ++ end) (λ end. word.now ≡ front.now ++ end.now) }
{
    word.strip_prefix(front)
}

// The option whose name stands at the front of a word, and what stands behind the name, of those that name files and a version.
fn file_flag_of(word: &str) -> Option<(Flag, &str)>
    ensures { MatchOption result
        (((end : List ℕ) → word.now ≢ flag_text crd_flag ++ end) × ((end : List ℕ) → word.now ≢ flag_text rules_flag ++ end) × ((end : List ℕ) → word.now ≢ flag_text to_flag ++ end))
        (λ p. word.now ≡ flag_text (flag_in p.0) ++ p.1.now) }
{
    match behind(word, "--crd") {
        Some(end) => Some((Flag::Crd, end)),
        None => match behind(word, "--rules") {
            Some(end) => Some((Flag::Rules, end)),
            None => match behind(word, "--to") {
                Some(end) => Some((Flag::To, end)),
                None => None,
            },
        },
    }
}

// The same of those that name a hub and a converter.
fn converter_flag_of(word: &str) -> Option<(Flag, &str)>
    ensures { MatchOption result
        (((end : List ℕ) → word.now ≢ flag_text hub_flag ++ end) × ((end : List ℕ) → word.now ≢ flag_text converter_flag ++ end))
        (λ p. word.now ≡ flag_text (flag_in p.0) ++ p.1.now) }
{
    match behind(word, "--hub") {
        Some(end) => Some((Flag::Hub, end)),
        None => match behind(word, "--converter") {
            Some(end) => Some((Flag::Converter, end)),
            None => None,
        },
    }
}

// The same of those that say where connections come, and how many.
fn service_flag_of(word: &str) -> Option<(Flag, &str)>
    ensures { MatchOption result
        (((end : List ℕ) → word.now ≢ flag_text listen_flag ++ end) × ((end : List ℕ) → word.now ≢ flag_text workers_flag ++ end) × ((end : List ℕ) → word.now ≢ flag_text connections_flag ++ end))
        (λ p. word.now ≡ flag_text (flag_in p.0) ++ p.1.now) }
{
    match behind(word, "--listen") {
        Some(end) => Some((Flag::Listen, end)),
        None => match behind(word, "--workers") {
            Some(end) => Some((Flag::Workers, end)),
            None => match behind(word, "--connections") {
                Some(end) => Some((Flag::Connections, end)),
                None => None,
            },
        },
    }
}

// The option whose name stands at the front of a word, and what stands behind the name.
fn flag_of(word: &str) -> Option<(Flag, &str)>
    ensures { MatchOption result ((f : FlagView) (end : List ℕ) → word.now ≢ flag_text f ++ end)
        (λ p. word.now ≡ flag_text (flag_in p.0) ++ p.1.now) }
{
    match behind(word, "--turns") {
        Some(end) => Some((Flag::Turns, end)),
        None => match file_flag_of(word) {
            Some((flag, end)) => Some((flag, end)),
            None => match service_flag_of(word) {
                Some((flag, end)) => Some((flag, end)),
                None => match converter_flag_of(word) {
                    Some((flag, end)) => Some((flag, end)),
                    None => None,
                },
            },
        },
    }
}

// An option whose name is a word, with its value in the next one.
fn apart<'a>(flag: Flag, rest: &'a [String]) -> Option<Taken<'a>>
    ensures first { TakesFirst (flag_text (flag_in flag) ∷ map string_bytes rest.now) result }
    ensures fewer { IfSome result (λ t. length t.rest.now ≤ length rest.now) }
{
    match rest {
        [] => None,
        [next, others @ ..] => {
            let value = next.as_str();
            if is_value(value) {
                Some(Taken {
                    flag,
                    value,
                    rest: others,
                })
            } else {
                None
            }
        }
    }
}

// An option whose name and value are one word, of which `end` stands behind the name.
fn joined<'a>(flag: Flag, end: &'a str, rest: &'a [String]) -> Option<Taken<'a>>
    requires { end.now ≢ [] }
    ensures first { TakesFirst ((flag_text (flag_in flag) ++ end.now) ∷ map string_bytes rest.now) result }
    ensures fewer { IfSome result (λ t. length t.rest.now ≤ length rest.now) }
{
    match behind(end, "=") {
        Some(value) => {
            if is_value(value) {
                Some(Taken { flag, value, rest })
            } else {
                None
            }
        }
        None => None,
    }
}

// An option whose name has `end` behind it.
fn take_value<'a>(flag: Flag, end: &'a str, rest: &'a [String]) -> Option<Taken<'a>>
    ensures first { TakesFirst ((flag_text (flag_in flag) ++ end.now) ∷ map string_bytes rest.now) result }
    ensures fewer { IfSome result (λ t. length t.rest.now ≤ length rest.now) }
{
    if end.len() == 0 {
        apart(flag, rest)
    } else {
        joined(flag, end, rest)
    }
}

// The option at the front of the words.
fn take_option<'a>(words: &'a [String]) -> Option<Taken<'a>>
    ensures first { TakesFirst (map string_bytes words.now) result }
    ensures fewer { IfSome result (λ t. length t.rest.now < length words.now) }
{
    match words {
        [] => None,
        [first, rest @ ..] => match flag_of(first.as_str()) {
            Some((flag, end)) => take_value(flag, end, rest),
            None => None,
        },
    }
}

impl<'a> Given<'a> {
    // What is given of an option.
    fn at(self, flag: Flag) -> Option<&'a str>
        ensures { option_map (λ x. x.now) result ≡ value_at (flag_in flag) (values_in self.entry) }
    {
        match flag {
            Flag::Crd => self.crd,
            Flag::Rules => self.rules,
            Flag::Hub => self.hub,
            Flag::Converter => self.converter,
            Flag::To => self.to,
            Flag::Turns => self.turns,
            Flag::Listen => self.listen,
            Flag::Workers => self.workers,
            Flag::Connections => self.connections,
        }
    }

    // The options, of which one has this value.
    fn filled(mut self, flag: Flag, value: &'a str) -> Given<'a>
        ensures { values_in result ≡ with_value (flag_in flag) value.now (values_in self.entry) }
    {
        match flag {
            Flag::Crd => self.crd = Some(value),
            Flag::Rules => self.rules = Some(value),
            Flag::Hub => self.hub = Some(value),
            Flag::Converter => self.converter = Some(value),
            Flag::To => self.to = Some(value),
            Flag::Turns => self.turns = Some(value),
            Flag::Listen => self.listen = Some(value),
            Flag::Workers => self.workers = Some(value),
            Flag::Connections => self.connections = Some(value),
        }
        self
    }

    // One more option, or `None` exactly where it is given already.
    fn with(self, flag: Flag, value: &'a str) -> Option<Given<'a>>
        ensures { MatchOption result (value_at (flag_in flag) (values_in self.entry) ≢ None)
            (λ g. (value_at (flag_in flag) (values_in self.entry) ≡ None) × (values_in g ≡ with_value (flag_in flag) value.now (values_in self.entry))) }
    {
        match self.at(flag) {
            Some(_) => None,
            None => Some(self.filled(flag, value)),
        }
    }
}

// The options that the words are, behind those that are given. Each call fills a place, so that there are few.
fn give<'a>(words: &'a [String], given: Given<'a>) -> Option<Given<'a>>
    ensures { GivesOne (map string_bytes words.now) (values_in given.entry) result }
{
    match words {
        [] => Some(given),
        [_, ..] => match take_option(words) {
            Some(taken) => match given.with(taken.flag, taken.value) {
                Some(more) => give(taken.rest, more),
                None => None,
            },
            None => None,
        },
    }
}

// The line of `pipe` by this definition, where no option of `serve` alone is given.
fn pipe_with<'a>(given: Given<'a>, source: Source<'a>) -> Option<Command<'a>>
    requires source { HasSource (source_in source) (values_in given) }
    requires unserved { IsUnserved (values_in given) }
    ensures { IsCommand (codes "pipe") (values_in given.entry) result }
{
    match given.to {
        Some(_) => None,
        None => match turns_of(given.turns) {
            Some(turns) => Some(Command::Pipe { source, turns }),
            None => None,
        },
    }
}

// The line of `convert` with these two files, where no option of `serve` alone and no number of turns is given.
fn convert_with<'a>(given: Given<'a>, crd: &'a str, rules: &'a str) -> Option<Command<'a>>
    requires source { HasSource (by_rules crd.now rules.now) (values_in given) }
    requires unserved { IsUnserved (values_in given) }
    requires turns { (values_in given).turns ≡ None }
    ensures { IsCommand (codes "convert") (values_in given.entry) result }
{
    match given.to {
        None => None,
        Some(to) => Some(Command::Task {
            crd,
            rules,
            task: Task::Convert { to },
        }),
    }
}

// The line of `review` with these two files, where no option of `serve` alone and no number of turns is given.
fn review_with<'a>(given: Given<'a>, crd: &'a str, rules: &'a str) -> Option<Command<'a>>
    requires source { HasSource (by_rules crd.now rules.now) (values_in given) }
    requires unserved { IsUnserved (values_in given) }
    requires turns { (values_in given).turns ≡ None }
    ensures { IsCommand (codes "review") (values_in given.entry) result }
{
    match given.to {
        Some(_) => None,
        None => Some(Command::Task {
            crd,
            rules,
            task: Task::Review,
        }),
    }
}

// The line of a command for one document with these two files, where no option of `serve` alone is given.
fn task_with<'a>(word: &str, given: Given<'a>, crd: &'a str, rules: &'a str) -> Option<Command<'a>>
    requires source { HasSource (by_rules crd.now rules.now) (values_in given) }
    requires unserved { IsUnserved (values_in given) }
    requires other { word.now ≢ codes "pipe" }
    requires unserving { word.now ≢ codes "serve" }
    ensures { IsCommand word.now (values_in given.entry) result }
{
    match given.turns {
        Some(_) => None,
        None => {
            if word == "convert" {
                convert_with(given, crd, rules)
            } else if word == "review" {
                review_with(given, crd, rules)
            } else {
                None
            }
        }
    }
}

// The line of a command for one document by this definition, where no option of `serve` alone is given.
fn task_of<'a>(word: &str, given: Given<'a>, source: Source<'a>) -> Option<Command<'a>>
    requires source { HasSource (source_in source) (values_in given) }
    requires unserved { IsUnserved (values_in given) }
    requires other { word.now ≢ codes "pipe" }
    requires unserving { word.now ≢ codes "serve" }
    ensures { IsCommand word.now (values_in given.entry) result }
{
    match source {
        Source::BuiltIn => None,
        Source::Rules { crd, rules } => task_with(word, given, crd, rules),
        Source::Converter {
            crd: _,
            hub: _,
            url: _,
        } => None,
    }
}

// The line of a command but `serve` by this definition, where no option of `serve` alone is given.
fn unserved<'a>(word: &str, given: Given<'a>, source: Source<'a>) -> Option<Command<'a>>
    requires source { HasSource (source_in source) (values_in given) }
    requires unserved { IsUnserved (values_in given) }
    requires unserving { word.now ≢ codes "serve" }
    ensures { IsCommand word.now (values_in given.entry) result }
{
    if word == "pipe" {
        return pipe_with(given, source);
    }
    task_of(word, given, source)
}

// The line of `serve` by this definition, unless it is the one that is built in.
fn served<'a>(given: Given<'a>, source: Source<'a>) -> Option<Command<'a>>
    requires { HasSource (source_in source) (values_in given) }
    ensures { IsCommand (codes "serve") (values_in given.entry) result }
{
    match source {
        Source::BuiltIn => None,
        Source::Rules { crd: _, rules: _ } => serve_of(given, source),
        Source::Converter {
            crd: _,
            hub: _,
            url: _,
        } => serve_of(given, source),
    }
}

fn is_serve(word: &str) -> bool
    ensures { IsTrue result ↔ (word.now ≡ codes "serve") }
{
    word == "serve"
}

// The line of a command by this definition with these options.
fn command_by<'a>(word: &str, given: Given<'a>, source: Source<'a>) -> Option<Command<'a>>
    requires { HasSource (source_in source) (values_in given) }
    ensures { IsCommand word.now (values_in given.entry) result }
{
    if is_serve(word) {
        return served(given, source);
    }
    if is_unserved(given) {
        return unserved(word, given, source);
    }
    None
}

// The line of a command with these options.
pub(crate) fn command_named<'a>(word: &str, given: Given<'a>) -> Option<Command<'a>>
    ensures { IsCommand word.now (values_in given.entry) result }
{
    match source_of(given) {
        Some(source) => command_by(word, given, source),
        None => None,
    }
}

// The line of a command with the options that the words behind it are.
fn optioned<'a>(word: &str, options: &'a [String]) -> Option<Command<'a>>
    ensures is { IfSome result (λ c. HasOptions (word.now ∷ map string_bytes options.now) (line_of c)) }
    ensures only { (line : Line) → HasOptions (word.now ∷ map string_bytes options.now) line → MatchOption result ⊥ (λ c. line ≡ line_of c) }
{
    match give(options, NOTHING) {
        Some(given) => command_named(word, given),
        None => None,
    }
}

pub(crate) fn is_drill(word: &str) -> bool
    ensures { IsTrue result ↔ (word.now ≡ codes "drill") }
{
    word == "drill"
}

// What is done at the place of an address, by the word of the command, or `None` exactly where that works on no server from outside.
pub(crate) fn remote_of(word: &str) -> Option<Remote>
    ensures { MatchOption result ((work : RemoteView) → word.now ≢ remote_word work) (λ work. word.now ≡ remote_word (remote_in work)) }
{
    if word == "migrate" {
        Some(Remote::Migrate)
    } else if word == "dump" {
        Some(Remote::Dump)
    } else if word == "load" {
        Some(Remote::Load)
    } else {
        None
    }
}

// What is done at the place of this address.
pub(crate) fn remote_at<'a>(work: Remote, url: &'a str) -> Command<'a>
    ensures { line_of result ≡ remote (remote_in work) url.now }
{
    match work {
        Remote::Migrate => Command::Migrate { url },
        Remote::Dump => Command::Dump { url },
        Remote::Load => Command::Load { url },
    }
}

// The line of such a command with one word behind it.
fn addressed<'a>(work: Remote, url: &'a str) -> Option<Command<'a>>
    ensures is { IfSome result (λ c. HasAddress (remote_word (remote_in work) ∷ url.now ∷ []) (line_of c)) }
    ensures only { (line : Line) → HasAddress (remote_word (remote_in work) ∷ url.now ∷ []) line → MatchOption result ⊥ (λ c. line ≡ line_of c) }
{
    if is_value(url) {
        Some(remote_at(work, url))
    } else {
        None
    }
}

// The line of such a command with the words behind it.
fn remote_with<'a>(work: Remote, rest: &'a [String]) -> Option<Command<'a>>
    ensures is { IfSome result (λ c. HasAddress (remote_word (remote_in work) ∷ map string_bytes rest.now) (line_of c)) }
    ensures only { (line : Line) → HasAddress (remote_word (remote_in work) ∷ map string_bytes rest.now) line → MatchOption result ⊥ (λ c. line ≡ line_of c) }
{
    match rest {
        [url] => addressed(work, url.as_str()),
        _ => None,
    }
}

// The line of a command with options, or of a drill.
fn served_with<'a>(word: &str, rest: &'a [String]) -> Option<Command<'a>>
    ensures is { IfSome result (λ c. Within (word.now ∷ map string_bytes rest.now) (line_of c)) }
    ensures only { (line : Line) → Within (word.now ∷ map string_bytes rest.now) line → MatchOption result ⊥ (λ c. line ≡ line_of c) }
{
    if is_drill(word) {
        drill_of(rest)
    } else {
        optioned(word, rest)
    }
}

// The line of a command with the words behind it.
fn line_with<'a>(word: &str, rest: &'a [String]) -> Option<Command<'a>>
    ensures is { IfSome result (λ c. IsLine (word.now ∷ map string_bytes rest.now) (line_of c)) }
    ensures only { (line : Line) → IsLine (word.now ∷ map string_bytes rest.now) line → MatchOption result ⊥ (λ c. line ≡ line_of c) }
{
    match remote_of(word) {
        Some(work) => remote_with(work, rest),
        None => served_with(word, rest),
    }
}

/// What the words ask for, or `None` exactly where they are no line of the program. It takes no memory.
pub(crate) fn command_of(words: &Words) -> Option<Command<'_>>
    ensures is { IfSome result (λ c. IsLine words.now (line_of c)) }
    ensures only { (line : Line) → IsLine words.now line → MatchOption result ⊥ (λ c. line ≡ line_of c) }
{
    match words.as_slice() {
        [] => None,
        [first, rest @ ..] => line_with(first.as_str(), rest),
    }
}
