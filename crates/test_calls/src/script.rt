//! Scripts: each line is an order, and is told with its answer.
ghost use Rattle.std.specs.Prelude.{◌<◌, ◌+◌, ◌^◌, IfSome};
ghost use Rattle.shared_api.specs.Passes.{IsOf};

use crate::beside::beside;
use crate::calls::{called, called_beside, pass_from};
use crate::client;
use crate::failing::Failing;
use crate::texts::cut;
use crate::tool::Chosen;
use api_calls::{NoTool, Versions};
use crd_versions::load;
use kube_meta::Limits;
use migrate_core::Worker;
use shared_api::{Pass, SharedApi};
use std::alloc::Global;
use std::rt::Files;
use std::sync::Wait;
use std::thread::Threads;
use versions_fixture::TwoNames;

// Room for 64 objects of two chunks.
const ROOM: Limits = Limits {
    objects: 64,
    chunks: 128,
    window_records: 1_024,
    window_chunks: 1_024,
    migrations: 4,
};

const SMALL: Limits = Limits {
    objects: 2,
    chunks: 3,
    window_records: 2,
    window_chunks: 2,
    migrations: 1,
};

fn room_of(head: &str) -> Limits
    ensures { result.chunks + result.window_chunks < 2 ^ 32 }
{
    if head.contains("small") { SMALL } else { ROOM }
}

// Puts a text in place of another. Answers whether there was memory.
fn put(alloc: Global, place: &mut String, text: &str) -> bool {
    match String::from_str(alloc, text) {
        Ok(text) => {
            *place = text;
            true
        }
        Err(_) => false,
    }
}

/// What a script has: its first line, the input of its connections, and its orders.
pub(crate) struct Case {
    pub(crate) head: String,
    input: String,
    lines: String,
}

impl Drop for Case {
    fn drop(self) {
        let Case {
            head: _,
            input: _,
            lines: _,
        } = self;
    }
}

impl Case {
    // A script that has no line yet.
    fn new(alloc: Global) -> Case {
        Case {
            head: String::new(alloc),
            input: String::new(alloc),
            lines: String::new(alloc),
        }
    }

    // Whether the script got an order more.
    fn add(&mut self, line: &str) -> bool {
        self.lines.push_str(line).is_ok() && self.lines.push_str("\n").is_ok()
    }

    // Whether the script got one line more.
    fn take(&mut self, alloc: Global, line: &str) -> bool {
        match line.as_bytes().first().copied().unwrap_or(b' ') {
            b'#' => put(alloc, &mut self.head, line),
            b'>' => put(alloc, &mut self.input, line),
            _ => self.add(line),
        }
    }
}

/// The script of these lines.
pub(crate) fn gathered(alloc: Global, lines: &str) -> Option<Case> {
    let mut case = Case::new(alloc);
    let mut is_whole = true;
    for line in lines.lines() {
        is_whole = case.take(alloc, line) && is_whole;
    }
    if is_whole { Some(case) } else { None }
}

// The workers of the two passes.
struct Team {
    first: Worker,
    second: Worker,
}

impl Drop for Team {
    fn drop(self) {
        let Team {
            first: _,
            second: _,
        } = self;
    }
}

// Adds a line with its answer, where there is one, to what was told.
fn add(out: &mut String, line: &str, answer: &Option<String>) -> Option<()> {
    match answer {
        Some(answer) => {
            out.push_str(line).ok()?;
            out.push_str(" => ").ok()?;
            out.push_str(answer.as_str()).ok()?;
            out.push_str("\n").ok()
        }
        None => None,
    }
}

// The answer of a line.
fn step<V: Versions<Tool = Chosen> + Drop + Send + Sync, R: Threads + Wait + Sync>(
    rt: &R,
    alloc: Global,
    api: &SharedApi<V>,
    first: &mut Pass<V>,
    second: &mut Pass<V>,
    team: &mut Team,
    line: &str,
    input: &str,
) -> Option<String>
    requires first { IsOf V.meaning api.now first.old }
    requires second { IsOf V.meaning api.now second.old }
    ensures first { IsOf V.meaning api.now first.new }
    ensures second { IsOf V.meaning api.now second.new }
{
    let (sign, order) = cut(line);
    match sign.as_bytes().first() {
        Some(b'A') => called_beside(rt, alloc, api, first, second, &mut team.first, order, input),
        Some(b'B') => called_beside(
            rt,
            alloc,
            api,
            second,
            first,
            &mut team.second,
            order,
            input,
        ),
        Some(b'&') => beside(rt, alloc, api, first, order),
        _ => None,
    }
}

// What the lines answer, one after another, by two passes whose workers have no claims.
fn run<V: Versions<Tool = Chosen> + Drop + Send + Sync, R: Threads + Wait + Sync>(
    rt: &R,
    alloc: Global,
    api: &SharedApi<V>,
    first: &mut Pass<V>,
    second: &mut Pass<V>,
    lines: &str,
    input: &str,
) -> Option<String>
    requires first { IsOf V.meaning api.now first.old }
    requires second { IsOf V.meaning api.now second.old }
{
    let mut team = Team {
        first: Worker { claim: None },
        second: Worker { claim: None },
    };
    let mut out = String::new(alloc);
    for line in lines.lines() {
        let answer = step(rt, alloc, api, first, second, &mut team, line, input);
        add(&mut out, line, &answer)?;
    }
    Some(out)
}

// The same, by a pass and another that is made from it.
fn by_two<V: Versions<Tool = Chosen> + Drop + Send + Sync, R: Threads + Wait + Sync>(
    rt: &R,
    alloc: Global,
    api: &SharedApi<V>,
    pass: &mut Pass<V>,
    lines: &str,
    input: &str,
) -> Option<String>
    requires { IsOf V.meaning api.now pass.old }
{
    match pass_from(rt, api, pass, Chosen::at(0)) {
        Some(mut other) => run(rt, alloc, api, pass, &mut other, lines, input),
        None => None,
    }
}

// A server that nothing has happened to, and its first pass.
fn begun<V: Versions + Drop>(
    alloc: Global,
    versions: V,
    tool: V::Tool,
    limits: Limits,
) -> Option<(SharedApi<V>, Pass<V>)>
    requires { limits.chunks + limits.window_chunks < 2 ^ 32 }
    ensures { IfSome result (λ r. IsOf V.meaning r.0 r.1) }
{
    match SharedApi::open(alloc, versions, tool, limits, 0) {
        Ok(begun) => Some(begun),
        Err(_) => None,
    }
}

// The same, over a server.
fn opened<V: Versions<Tool = Chosen> + Drop + Send + Sync, R: Threads + Wait + Sync>(
    rt: &R,
    alloc: Global,
    versions: V,
    case: &Case,
) -> Option<String> {
    let limits = room_of(case.head.as_str());
    let (_sign, input) = cut(case.input.as_str());
    match begun(alloc, versions, Chosen::at(0), limits) {
        Some((api, mut pass)) => by_two(rt, alloc, &api, &mut pass, case.lines.as_str(), input),
        None => None,
    }
}

// The same, over a definition whose calls may be made to fail and to wait.
fn over<V: Versions<Tool = NoTool> + Drop + Send + Sync, R: Threads + Wait + Sync>(
    rt: &R,
    alloc: Global,
    versions: V,
    case: &Case,
) -> Option<String> {
    opened(rt, alloc, Failing::of(versions), case)
}

fn fixture<R: Threads + Wait + Sync>(rt: &R, alloc: Global, case: &Case) -> Option<String> {
    match TwoNames::new(alloc) {
        Ok(versions) => over(rt, alloc, versions, case),
        Err(_) => None,
    }
}

fn loaded<R: Threads + Wait + Sync>(
    rt: &R,
    alloc: Global,
    definition: &str,
    rules: &str,
    case: &Case,
) -> Option<String> {
    let versions = load(alloc, definition.as_bytes(), rules.as_bytes()).ok()?;
    over(rt, alloc, versions, case)
}

// A text, and behind it another.
fn joined(alloc: Global, front: &str, end: &str) -> Option<String> {
    format!(in alloc; "{front}{end}").ok()
}

/// What a script answers over the definition that its first line names, or without any.
pub(crate) fn told<R: Threads + Wait + Sync + Files>(
    rt: &R,
    alloc: Global,
    case: &Case,
) -> Option<String> {
    let head = case.head.as_str();
    if head.starts_with("# far ") {
        return client::tell(alloc, head, case.lines.as_str());
    }
    match head.as_bytes().get(2) {
        Some(b'f') => fixture(rt, alloc, case),
        Some(b'b') => loaded(rt, alloc, built_in::definition(), built_in::rules(), case),
        Some(b's') => loaded(
            rt,
            alloc,
            built_in::example::definition(),
            built_in::example::rules(),
            case,
        ),
        Some(b'c') => test_core::tell(alloc, head, case.lines.as_str()),
        Some(b'e') => joined(
            alloc,
            built_in::example::definition(),
            built_in::example::rules(),
        ),
        Some(_) => test_values::tell(rt, alloc, head, case.lines.as_str()),
        None => None,
    }
}
