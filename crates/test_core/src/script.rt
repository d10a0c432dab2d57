//! Scripts over a core: each line is an order, and is told with its answer.
use crate::answers::{set_text, start_text, told as spelled, trim_text, turn_text};
use crate::ends::{
    create_text, created_at, delete_text, deleted_at, release_text, replace_text, replaced_at,
};
use crate::looks::looked;
use crate::order::{Order, bare, code, order_of};
use crate::random::name_of;
use crate::turns::{begin, create, delete, keep, let_go, mark, opened, replace, store};
use crate::workers::{ask, back, gone, overwritten, work};
use api_calls::Versions;
use api_core::{Core, TurnEnd};
use kube_meta::Limits;
use migrate_core::Worker;
use std::alloc::Global;
use versions_fixture::TwoNames;

// Room for 64 objects of one chunk, and for as many superseded records as the program keeps.
const ROOM: Limits = Limits {
    objects: 64,
    chunks: 64,
    window_records: 1_024,
    window_chunks: 1_024,
    migrations: 4,
};

const SMALL: Limits = Limits {
    objects: 2,
    chunks: 3,
    window_records: 2,
    window_chunks: 2,
    migrations: 1,
};

/// Two workers.
pub struct Team {
    pub first: Worker,
    pub second: Worker,
}

impl Drop for Team {
    fn drop(self) {
        let Team {
            first: _,
            second: _,
        } = self;
    }
}

impl Team {
    /// Two workers that have no claim.
    pub fn new() -> Team {
        Team {
            first: Worker { claim: None },
            second: Worker { claim: None },
        }
    }
}

/// What an order answers.
pub fn answered<V: Versions>(
    alloc: Global,
    core: &mut Core<V>,
    team: &mut Team,
    order: &Order<'_>,
) -> Option<String> {
    match order.who {
        b'1' => worked(alloc, core, &mut team.first, order),
        b'2' => worked(alloc, core, &mut team.second, order),
        b'=' => looked(alloc, core, order),
        _ => changed(alloc, core, order),
    }
}

// What an order answers that is no worker's.
fn changed<V: Versions>(alloc: Global, core: &mut Core<V>, order: &Order<'_>) -> Option<String> {
    match code(order) {
        b'c' => create_text(alloc, create(alloc, core, order)),
        b'r' => replace_text(alloc, replace(alloc, core, order)),
        b'd' => delete_text(alloc, delete(alloc, core, order)),
        b'm' => delete_text(alloc, mark(alloc, core, order)),
        b'l' => release_text(alloc, let_go(alloc, core, order)),
        _ => settled(alloc, core, order),
    }
}

// What an order answers that is of no object alone.
fn settled<V: Versions>(alloc: Global, core: &mut Core<V>, order: &Order<'_>) -> Option<String> {
    match code(order) {
        b's' => set_text(alloc, store(core, order.at)),
        b'k' => trim_text(alloc, keep(core, order.at)),
        b'b' => start_text(alloc, begin(alloc, core, order.name)),
        b'f' => fill(alloc, core, order.weight),
        b't' => thousand(alloc, core),
        _ => None,
    }
}

// What an order to a worker answers.
fn worked<V: Versions>(
    alloc: Global,
    core: &mut Core<V>,
    w: &mut Worker,
    order: &Order<'_>,
) -> Option<String> {
    match code(order) {
        b'w' => turn_text(alloc, work(alloc, core, w, order.at)),
        b't' => touch(alloc, core, w, order.weight),
        b'a' => turn_text(alloc, ask(core, w)),
        b'g' => turn_text(alloc, gone(alloc, core, w, order)),
        b'o' => turn_text(alloc, overwritten(alloc, core, w, order)),
        b'b' => spelled(alloc, &back(core, w)),
        b'f' => {
            w.claim = None;
            String::from_str(alloc, "forgotten").ok()
        }
        _ => spelled(alloc, &w.claim),
    }
}

// Whether the object of that name is created at place 1, by the number 2 behind it.
fn fill_one<V: Versions>(alloc: Global, core: &mut Core<V>, n: u64) -> bool {
    match name_of(alloc, n) {
        Some(name) => fill_named(alloc, core, name.as_str(), n.wrapping_add(2)),
        None => false,
    }
}

fn fill_named<V: Versions>(alloc: Global, core: &mut Core<V>, name: &str, rv: u64) -> bool {
    let mut order = bare(b'c', "create");
    order.name = name;
    order.text = "first";
    order.at = 1;
    created_at(create(alloc, core, &order)) == Some(rv)
}

// Creates so many objects at place 1, by the numbers from 2 on.
fn fill<V: Versions>(alloc: Global, core: &mut Core<V>, count: u64) -> Option<String> {
    for n in 0..count.min(64) {
        if !fill_one(alloc, core, n) {
            return None;
        }
    }
    String::from_str(alloc, "Done").ok()
}

// How many turns moved an object, and the end of the one that didn't.
fn touched_text(alloc: Global, touched: u64, end: Option<TurnEnd>) -> Option<String> {
    match turn_text(alloc, end) {
        Some(text) => format!(in alloc; "{touched} touched, {}", text.as_str()).ok(),
        None => None,
    }
}

// A worker's turns, at most so many, until one moves no object: how many did, and the end of the other.
fn touch<V: Versions>(
    alloc: Global,
    core: &mut Core<V>,
    w: &mut Worker,
    count: u64,
) -> Option<String> {
    for touched in 0..count {
        match work(alloc, core, w, 0) {
            Some(TurnEnd::Touched { rv: _ }) => {}
            end => return touched_text(alloc, touched, end),
        }
    }
    format!(in alloc; "{count} touched").ok()
}

// Whether the object `a` is created, replaced and deleted at this number and the two behind it.
fn round<V: Versions>(alloc: Global, core: &mut Core<V>, born: u64) -> bool {
    let next = born.wrapping_add(1);
    let last = born.wrapping_add(2);
    let mut order = bare(b'c', "create");
    order.name = "a";
    order.text = "text";
    order.at = 1;
    order.weight = 2;
    let created = create(alloc, core, &order);
    order.number = born;
    let replaced = replace(alloc, core, &order);
    order.number = next;
    let deleted = delete(alloc, core, &order);
    created_at(created) == Some(born)
        && replaced_at(replaced) == Some((next, born))
        && deleted_at(deleted) == Some((last, born))
}

// A thousand times that, by the numbers from 2 on.
fn thousand<V: Versions>(alloc: Global, core: &mut Core<V>) -> Option<String> {
    for number in 0..1_000u64 {
        let born = number.wrapping_mul(3).wrapping_add(2);
        if !round(alloc, core, born) {
            return None;
        }
    }
    String::from_str(alloc, "Done").ok()
}

fn line_text(alloc: Global, line: &str, answer: Option<String>) -> Option<String> {
    match answer {
        Some(answer) => format!(in alloc; "{line} => {}\n", answer.as_str()).ok(),
        None => None,
    }
}

// A line of a script, and what it answers.
fn step<V: Versions>(
    alloc: Global,
    core: &mut Core<V>,
    team: &mut Team,
    line: &str,
) -> Option<String> {
    match order_of(line) {
        Some(order) => line_text(alloc, line, answered(alloc, core, team, &order)),
        None => None,
    }
}

// Adds a line of a script, and what it answers. Answers whether there is an answer, and room for it.
fn add_step<V: Versions>(
    alloc: Global,
    core: &mut Core<V>,
    team: &mut Team,
    line: &str,
    out: &mut String,
) -> bool {
    match step(alloc, core, team, line) {
        Some(told) => out.push_str(told.as_str()).is_ok(),
        None => false,
    }
}

// What the lines answer.
fn run<V: Versions>(
    alloc: Global,
    core: &mut Core<V>,
    team: &mut Team,
    lines: &str,
) -> Option<String> {
    let mut out = String::new(alloc);
    for line in lines.lines() {
        if !add_step(alloc, core, team, line, &mut out) {
            return None;
        }
    }
    Some(out)
}

// The room, where the number at a place is this one.
fn with_number(limits: Limits, place: usize, number: u64) -> Limits {
    match place {
        0 => Limits {
            objects: number,
            ..limits
        },
        1 => Limits {
            chunks: number,
            ..limits
        },
        2 => Limits {
            window_records: number,
            ..limits
        },
        3 => Limits {
            window_chunks: number,
            ..limits
        },
        _ => Limits {
            migrations: number,
            ..limits
        },
    }
}

// The room that is told in numbers.
fn spelled_room(numbers: &str) -> Option<Limits> {
    let mut limits = SMALL;
    for (place, word) in numbers.split(' ').enumerate() {
        let Ok(number) = word.parse::<u64>() else {
            return None;
        };
        limits = with_number(limits, place, number);
    }
    Some(limits)
}

// The room that the first line of a script tells.
fn room_of(head: &str) -> Option<Limits> {
    let Some((front, _name)) = head.split_once(": ") else {
        return None;
    };
    if front == "# core" {
        return Some(ROOM);
    }
    match front.split_once(" of ") {
        Some((_words, numbers)) => spelled_room(numbers),
        None => Some(SMALL),
    }
}

/// A core over the small definition, that nothing has happened to.
pub fn standing(alloc: Global, limits: Limits) -> Option<Core<TwoNames>> {
    match TwoNames::new(alloc) {
        Ok(versions) => opened(alloc, versions, limits),
        Err(_) => None,
    }
}

/// What a script answers, over a core that nothing has happened to.
pub fn told(alloc: Global, head: &str, lines: &str) -> Option<String> {
    let Some(limits) = room_of(head) else {
        return None;
    };
    match standing(alloc, limits) {
        Some(mut core) => run(alloc, &mut core, &mut Team::new(), lines),
        None => None,
    }
}
