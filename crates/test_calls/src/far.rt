//! A client from outside over the server, and others' requests between its exchanges.
ghost use Rattle.std.specs.Prelude.{IsSome};
ghost use Rattle.shared_api.specs.Passes.{IsOf};

use crate::calls::pass_from;
use crate::client::{input_of, restore_end, told, wrote};
use crate::links::{clock, request_bytes};
use crate::texts::cut;
use crate::tool::Chosen;
use api_calls::Versions;
use edge_io::{MemSink, MemSource};
use far_server::{ServerFar, back_up, upgrade};
use record_dump::restore;
use shared_api::{Pass, SharedApi};
use std::alloc::Global;
use std::sync::Wait;
use wire_client::{Place, read_place};

// More than any dump writes.
const ROOM: usize = 50_000;

// Where a client comes from outside, and the inputs of others' connections.
#[derive(Drop)]
struct Visit {
    place: Place,
    others: Vec<Vec<u8>>,
}

fn input_of_order(alloc: Global, order: &str) -> Option<Vec<u8>> {
    if order == "-" {
        return Some(Vec::new(alloc));
    }
    request_bytes(alloc, order)
}

fn add_input(alloc: Global, inputs: &mut Vec<Vec<u8>>, order: &str) -> bool {
    match input_of_order(alloc, order) {
        Some(input) => inputs.push(input).is_ok(),
        None => false,
    }
}

// The inputs of the connections of others, of one request each.
fn inputs_of(alloc: Global, others: &str) -> Option<Vec<Vec<u8>>> {
    let mut inputs = Vec::new(alloc);
    for order in others.split(" || ") {
        if !add_input(alloc, &mut inputs, order) {
            return None;
        }
    }
    Some(inputs)
}

fn place_of(alloc: Global, path: &str) -> Option<Place> {
    match format!(in alloc; "http://h/apis/{path}") {
        Ok(url) => read_place(alloc, url.as_str()).ok(),
        Err(_) => None,
    }
}

fn visit_of(alloc: Global, path: &str, others: &str) -> Option<Visit> {
    match place_of(alloc, path) {
        Some(place) => match inputs_of(alloc, others) {
            Some(others) => Some(Visit { place, others }),
            None => None,
        },
        None => None,
    }
}

fn far_with<'a, V: Versions<Tool = Chosen> + Drop, R: Wait>(
    rt: &'a R,
    api: &'a SharedApi<V>,
    pass: &mut Pass<V>,
    own: Pass<V>,
    others: Vec<Vec<u8>>,
) -> Option<ServerFar<'a, R, V>>
    requires pass { IsOf V.meaning api.now pass.old }
    requires own { IsOf V.meaning api.now own }
    requires named { IsSome own.view.number }
    ensures { IsOf V.meaning api.now pass.new }
{
    match pass_from(rt, api, pass, Chosen::at(0)) {
        Some(other) => Some(ServerFar::new(rt, api, own, other, others, clock())),
        None => None,
    }
}

// The far end, on passes of its own.
fn far_of<'a, V: Versions<Tool = Chosen> + Drop, R: Wait>(
    rt: &'a R,
    api: &'a SharedApi<V>,
    pass: &mut Pass<V>,
    others: Vec<Vec<u8>>,
) -> Option<ServerFar<'a, R, V>>
    requires { IsOf V.meaning api.now pass.old }
    ensures { IsOf V.meaning api.now pass.new }
{
    match pass_from(rt, api, pass, Chosen::at(0)) {
        Some(own) => far_with(rt, api, pass, own, others),
        None => None,
    }
}

fn dumped<'a, V: Versions + Drop, R: Wait>(
    far: &mut ServerFar<'a, R, V>,
    alloc: Global,
    place: &Place,
) -> Option<String> {
    match MemSink::new(alloc, ROOM, Vec::new(alloc)) {
        Ok(mut sink) => {
            let end = back_up(far, alloc, place, &mut sink);
            wrote(alloc, sink.bytes(), end)
        }
        Err(_) => None,
    }
}

fn restored<'a, V: Versions + Drop, R: Wait>(
    far: &mut ServerFar<'a, R, V>,
    alloc: Global,
    place: &Place,
    lines: &str,
) -> Option<String> {
    match input_of(alloc, lines) {
        Some(input) => {
            let mut source = MemSource::new(input, 1_000, Vec::new(alloc));
            restore_end(alloc, restore(far, alloc, place, &mut source))
        }
        None => None,
    }
}

// What the client does by its word, and tells.
fn done<'a, V: Versions + Drop, R: Wait>(
    far: &mut ServerFar<'a, R, V>,
    alloc: Global,
    word: &str,
    place: &Place,
    lines: &str,
) -> Option<String> {
    match word {
        "migrate" => told(alloc, upgrade(far, alloc, place)),
        "dump" => dumped(far, alloc, place),
        "restore" => restored(far, alloc, place, lines),
        _ => None,
    }
}

fn visited<V: Versions<Tool = Chosen> + Drop, R: Wait>(
    rt: &R,
    alloc: Global,
    api: &SharedApi<V>,
    pass: &mut Pass<V>,
    visit: Visit,
    word: &str,
    lines: &str,
) -> Option<String>
    requires { IsOf V.meaning api.now pass.old }
    ensures { IsOf V.meaning api.now pass.new }
{
    let Visit { place, others } = visit;
    match far_of(rt, api, pass, others) {
        Some(mut far) => done(&mut far, alloc, word, &place, lines),
        None => None,
    }
}

/// What a client from outside does: `over WORD PATH LINES || OTHER || OTHER`.
pub(crate) fn outside<V: Versions<Tool = Chosen> + Drop, R: Wait>(
    rt: &R,
    alloc: Global,
    api: &SharedApi<V>,
    pass: &mut Pass<V>,
    order: &str,
) -> Option<String>
    requires { IsOf V.meaning api.now pass.old }
    ensures { IsOf V.meaning api.now pass.new }
{
    let (order, others) = order.split_once(" || ").unwrap_or((order, "-"));
    let (_over, rest) = cut(order);
    let (word, rest) = cut(rest);
    let (path, lines) = cut(rest);
    match visit_of(alloc, path, others) {
        Some(visit) => visited(rt, alloc, api, pass, visit, word, lines),
        None => None,
    }
}
