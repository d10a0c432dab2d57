//! A long run of turns that a small generator chooses, with a look from outside after each.
use crate::order::Order;
use crate::script::{Team, answered, standing};
use crate::turns::key_of;
use api_calls::{StoredList, Versions};
use api_core::{Core, Page, Seen};
use kube_meta::{Condition, Limits};
use migrate_core::MigrationItems;
use std::alloc::Global;
use std::cmp::Ordering;

// Less room than the run asks for.
const TIGHT: Limits = Limits {
    objects: 12,
    chunks: 16,
    window_records: 8,
    window_chunks: 8,
    migrations: 60,
};

const LETTERS: [&str; 8] = ["a", "b", "c", "d", "e", "f", "g", "h"];

/// A name of two letters, one of 64.
pub fn name_of(alloc: Global, n: u64) -> Option<String> {
    let first = LETTERS[(n / 8 % 8) as usize];
    let second = LETTERS[(n % 8) as usize];
    format!(in alloc; "{first}{second}").ok()
}

// ---- which turn

// What a number chooses: its low bits the turn, the next the object, and so on.
struct Draw {
    turn: u64,
    object: u64,
    coin: bool,
    // Once in eight turns.
    rare: bool,
    migration: u64,
}

impl Drop for Draw {
    fn drop(self) {
        let Draw {
            turn: _,
            object: _,
            coin: _,
            rare: _,
            migration: _,
        } = self;
    }
}

fn drawn(n: u64) -> Draw {
    Draw {
        turn: n / 0x1_0000_0000 % 32,
        object: n / 0x20_0000_0000 % 16,
        coin: n / 0x200_0000_0000 % 2 == 0,
        rare: n / 0x400_0000_0000 % 8 == 0,
        migration: n / 0x2000_0000_0000 % 64,
    }
}

// Whose turn it is, and what is to be done.
fn order_at(turn: u64) -> (u8, &'static str) {
    match turn {
        0..=6 => (b'c', "create"),
        7..=9 => (b'r', "replace"),
        10 => (b'd', "delete"),
        11 => (b'm', "mark"),
        12 => (b'l', "let_go"),
        13 => (b's', "store"),
        14 => (b'k', "keep"),
        15..=16 => (b'b', "begin"),
        17 => (b'2', "back"),
        18..=20 => (b'2', "work"),
        _ => (b'1', "work"),
    }
}

// The name of the object or of the migration.
fn chosen_name(alloc: Global, draw: &Draw) -> Option<String> {
    match draw.turn {
        15..=16 => name_of(alloc, draw.migration),
        _ => name_of(alloc, draw.object),
    }
}

// One of the first two versions: to be set, any of them; else the storage version, and seldom the other one.
fn place(draw: &Draw, storage: u8) -> u8 {
    let first = match draw.turn {
        13..=14 => draw.coin,
        _ => (storage == 0) != draw.rare,
    };
    if first { 0 } else { 1 }
}

// The version of the request.
fn asked(turn: u64) -> u8 {
    match turn {
        0..=6 => 1,
        10 => 1,
        _ => 0,
    }
}

fn number_in(found: &Option<Seen>) -> u64 {
    match found {
        Some(seen) => seen.rv,
        None => 1,
    }
}

// The number at which the object of a name stands, or 1.
fn number_of<V: Versions>(alloc: Global, core: &Core<V>, name: &str) -> Option<u64> {
    let Some(key) = key_of(alloc, name) else {
        return None;
    };
    match core.peek(alloc, &key) {
        Ok(peeked) => Some(number_in(&peeked.found)),
        Err(_) => None,
    }
}

fn order_of<'a>(draw: &Draw, storage: u8, name: &'a str, number: u64) -> Order<'a> {
    let (who, word) = order_at(draw.turn);
    Order {
        who,
        word,
        name,
        text: "text",
        at: place(draw, storage),
        number,
        asked: asked(draw.turn),
        weight: if draw.coin { 1 } else { 2 },
    }
}

// The same, on this object.
fn takes_turn_on<V: Versions>(
    alloc: Global,
    core: &mut Core<V>,
    team: &mut Team,
    draw: &Draw,
    storage: u8,
    name: &str,
) -> Option<String> {
    match number_of(alloc, core, name) {
        Some(number) => answered(alloc, core, team, &order_of(draw, storage, name, number)),
        None => None,
    }
}

// One turn, of a client or of one of two workers.
fn takes_turn<V: Versions>(
    alloc: Global,
    core: &mut Core<V>,
    team: &mut Team,
    draw: &Draw,
    storage: u8,
) -> Option<String> {
    match chosen_name(alloc, draw) {
        Some(name) => takes_turn_on(alloc, core, team, draw, storage, name.as_str()),
        None => None,
    }
}

// ---- what holds after each turn

// The numbers of a core that are seen from outside.
#[derive(Clone, Copy)]
struct Look {
    storage: u8,
    revision: u64,
    claims: u64,
}

fn looked<V: Versions>(core: &Core<V>) -> Look {
    let (flags, _stored, revision) = core.settings();
    Look {
        storage: flags.storage,
        revision,
        claims: core.last_claim(),
    }
}

// Whether a version is in a stored list.
fn is_stored(stored: &StoredList, v: u8) -> bool {
    let len = stored.len as usize;
    len <= 8 && stored.items[..len].contains(&v)
}

// An object stands at a version of the stored list. It was written at its creation or later, and no later than now.
fn object_fits(seen: &Seen, stored: &StoredList, now: u64) -> bool {
    is_stored(stored, seen.at) && seen.rv <= now && 1 < seen.born && seen.born <= seen.rv
}

// Keys rise.
fn keys_rise(items: &[Seen]) -> bool {
    for i in 1..items.len() {
        if items[i - 1].key.compare(&items[i].key) != Ordering::Less {
            return false;
        }
    }
    true
}

// How many objects have a number.
fn objects_of(items: &[Seen], rv: u64) -> usize {
    let mut count = 0usize;
    for seen in items {
        if seen.rv == rv {
            count = count.wrapping_add(1);
        }
    }
    count
}

// Each object fits, and no other has its number.
fn each_fits(items: &[Seen], stored: &StoredList, now: u64) -> bool {
    for seen in items {
        if !object_fits(seen, stored, now) || objects_of(items, seen.rv) != 1 {
            return false;
        }
    }
    true
}

fn page_fits(page: &Page, stored: &StoredList, now: u64) -> bool {
    let items = page.items.as_slice();
    page.rv == now
        && page.remaining == 0
        && items.len() <= 12
        && keys_rise(items)
        && each_fits(items, stored, now)
}

// Where a turn marks a migration, every object stands at its target.
fn objects_moved(page: &Page, storage: u8) -> bool {
    for seen in page.items.as_slice() {
        if seen.at != storage {
            return false;
        }
    }
    true
}

// What holds of the objects after each turn, and of a turn that marks a migration.
fn objects_fit<V: Versions>(alloc: Global, core: &Core<V>, is_marked: bool) -> bool {
    let (flags, stored, revision) = core.settings();
    match core.page(alloc, 0, None, None, 0) {
        Ok(page) => page_fits(&page, &stored, revision)
            && is_stored(&stored, flags.storage)
            && (!is_marked || objects_moved(&page, flags.storage)),
        Err(_) => false,
    }
}

fn stand_so(items: &MigrationItems, condition: Condition) -> usize {
    let mut count = 0usize;
    for item in items.as_slice() {
        if item.condition() == condition {
            count = count.wrapping_add(1);
        }
    }
    count
}

// At most one migration runs, to the storage version.
fn are_few(items: &MigrationItems, storage: u8) -> bool {
    let mut running = 0usize;
    for item in items.as_slice() {
        if item.condition() == Condition::Running {
            running = running.wrapping_add(1);
            if item.target() != storage {
                return false;
            }
        }
    }
    running <= 1
}

fn migrations_fit<V: Versions>(alloc: Global, core: &Core<V>, storage: u8) -> bool {
    match core.migrations(alloc) {
        Ok(items) => are_few(&items, storage),
        Err(_) => false,
    }
}

// The revision and the last claim rise by at most one in a turn.
fn numbers_fit(was: Look, now: Look) -> bool {
    now.revision >= was.revision
        && now.revision - was.revision <= 1
        && now.claims >= was.claims
        && now.claims - was.claims <= 1
}

// Whether a turn that answered so marks a migration.
fn marks(answer: Option<String>) -> Option<bool> {
    match answer {
        Some(answer) => Some(answer.as_str().starts_with("Finished")),
        None => None,
    }
}

// One turn. Answers whether what holds after each does.
fn step<V: Versions>(alloc: Global, core: &mut Core<V>, team: &mut Team, n: u64) -> bool {
    let was = looked(core);
    let Some(is_marked) = marks(takes_turn(alloc, core, team, &drawn(n), was.storage)) else {
        return false;
    };
    let now = looked(core);
    numbers_fit(was, now)
        && objects_fit(alloc, core, is_marked)
        && migrations_fit(alloc, core, now.storage)
}

fn two_thousand<V: Versions>(alloc: Global, core: &mut Core<V>) -> bool {
    let mut team = Team::new();
    let mut n = 20_261_127u64;
    for _ in 0..2_000u32 {
        n = n
            .wrapping_mul(6_364_136_223_846_793_005)
            .wrapping_add(1_442_695_040_888_963_407);
        if !step(alloc, core, &mut team, n) {
            return false;
        }
    }
    true
}

// Not all turns were refused, and migrations ended in both ways.
fn ended_well<V: Versions>(alloc: Global, core: &Core<V>) -> bool {
    match core.migrations(alloc) {
        Ok(items) => looked(core).revision > 500
            && stand_so(&items, Condition::Succeeded) > 5
            && stand_so(&items, Condition::Failed) > 5,
        Err(_) => false,
    }
}

/// That two thousand turns held what holds after each; and that they weren't all refused, and migrations ended in both ways.
pub fn random_turns(alloc: Global) -> Option<String> {
    let held = match standing(alloc, TIGHT) {
        Some(mut core) => two_thousand(alloc, &mut core) && ended_well(alloc, &core),
        None => false,
    };
    if held {
        String::from_str(alloc, "all held\n").ok()
    } else {
        None
    }
}
