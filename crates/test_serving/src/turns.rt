//! The turn lock over the small counter: passes that meet, calls at their places, threads, and what is dropped.
use crate::shared::SharedCounter;
use crate::tally::Tally;
use crate::ticks::{by_eight, two_threads};
use std::alloc::Global;
use std::sync::atomic::{AtomicU64, Ordering};
use std::sync::{Arc, Wait};
use std::thread::Threads;
use turn_cell::{Standing, Turn};

/// Two passes each add one item, and the second pass is met into the first. The next turn of the first has both.
pub(crate) fn met_passes_have_both_items<R: Wait>(rt: &R, alloc: Global) -> Option<bool> {
    let Ok((counter, mut first)) = SharedCounter::open(alloc, 100) else {
        return None;
    };
    let Ok(mut second) = counter.new_pass(rt, &mut first) else {
        return None;
    };
    counter.add(rt, &mut first, 3);
    counter.add(rt, &mut second, 4);
    counter.meet(&mut first, second);
    match counter.numbers(rt, &mut first) {
        Ok(numbers) => Some(numbers.as_slice() == [3, 4].as_slice()),
        Err(_) => None,
    }
}

/// Calls one after the other, where some have no room.
pub(crate) fn calls_have_their_places<R: Wait>(rt: &R, alloc: Global) -> Option<bool> {
    let Ok((counter, mut pass)) = SharedCounter::open(alloc, 10) else {
        return None;
    };
    let Ok(_ends) = counter.add_all(rt, alloc, &mut pass, &[3, 9, 1]) else {
        return None;
    };
    let four = counter.total(rt, &mut pass) == 4;
    counter.double(rt, &mut pass);
    let eight = counter.total(rt, &mut pass) == 8;
    counter.double(rt, &mut pass);
    match counter.numbers(rt, &mut pass) {
        Ok(numbers) => Some(four && eight && numbers.as_slice() == [3, 1, 4].as_slice()),
        Err(_) => None,
    }
}

/// Two threads make a thousand turns each.
pub(crate) fn two_threads_add_all<R: Threads + Wait + Sync>(rt: &R, alloc: Global) -> Option<bool> {
    match two_threads(rt, alloc, 1000) {
        Ok(n) => Some(n == 2000),
        Err(_) => None,
    }
}

/// Eight threads, each on a pass of its own, end, and their passes meet in one list.
pub(crate) fn eight_threads_meet<R: Threads + Wait + Sync>(rt: &R, alloc: Global) -> Option<bool> {
    let Ok((turn, pass)) = Turn::open(alloc, Tally { n: 0 }) else {
        return None;
    };
    let Ok(mut pass) = by_eight(rt, &turn, pass, 500) else {
        return None;
    };
    let Tally { n } = turn.take(rt, &mut pass);
    turn.give(&mut pass, Tally { n });
    Some(n == 4000)
}

/// A pass that is dropped between its calls leaves the turn usable.
pub(crate) fn a_dropped_pass_holds_nothing<R: Wait>(rt: &R, alloc: Global) -> Option<bool> {
    let Ok((counter, mut first)) = SharedCounter::open(alloc, 100) else {
        return None;
    };
    let Ok(mut second) = counter.new_pass(rt, &mut first) else {
        return None;
    };
    counter.add(rt, &mut second, 4);
    drop(second);
    counter.add(rt, &mut first, 5);
    let nine = counter.total(rt, &mut first) == 9;
    let Ok(mut third) = counter.new_pass(rt, &mut first) else {
        return None;
    };
    Some(nine && counter.total(rt, &mut third) == 9)
}

// Counts how often such values are dropped.
struct Dropped {
    times: Arc<AtomicU64, Global>,
}

impl Drop for Dropped {
    fn drop(self) {
        let Self { times } = self;
        times.fetch_add(1, Ordering::SeqCst);
    }
}

impl Standing for Dropped {
    type Base = ();

    ghost stands = { λ _ log. Unit {0} };

    ghost base = { λ _. tt };
}

// A turn of each of two passes over such a value, which then meet.
fn turned<R: Wait>(rt: &R, alloc: Global, value: Dropped) -> Option<Turn<Dropped>> {
    let Ok((turn, mut first)) = Turn::open(alloc, value) else {
        return None;
    };
    let Ok(mut second) = turn.new_pass(rt, &mut first) else {
        return None;
    };
    let value = turn.take(rt, &mut first);
    turn.give(&mut first, value);
    let value = turn.take(rt, &mut second);
    turn.give(&mut second, value);
    turn.meet(&mut first, second);
    drop(first);
    Some(turn)
}

/// A value that turns hand out and take back is dropped once, with the turn.
pub(crate) fn a_value_is_dropped_once<R: Wait>(rt: &R, alloc: Global) -> Option<bool> {
    let Ok(times) = Arc::new(alloc, AtomicU64::new(0)) else {
        return None;
    };
    let Ok(copy) = Arc::try_clone(&times) else {
        return None;
    };
    let Some(turn) = turned(rt, alloc, Dropped { times: copy }) else {
        return None;
    };
    let none = times.load(Ordering::SeqCst) == 0;
    drop(turn);
    Some(none && times.load(Ordering::SeqCst) == 1)
}
