//! Threads that each add items to one list, by passes of their own.
ghost use Rattle.std.specs.Prelude.{◌≡◌, ◌+◌, IfOk};
ghost use Rattle.turn_cell.specs.Turns.{IsResting};
ghost use Rattle.test_serving.specs.Ticks.{Ticked};

use crate::tally::Tally;
use kj_value::NoMemory;
use std::alloc::Global;
use std::marker::Brand;
use std::sync::Wait;
use std::thread::{Threads, join};
use turn_cell::{Turn, TurnPass};

/// Adds an item.
pub fn tick<R: Wait>(rt: &R, turn: &Turn<Tally>, pass: &mut TurnPass<Tally>)
    requires own { pass.old.seat.table_id ≡ turn.now.table.shared.table_id }
    requires rest { IsResting pass.old.seat.me.0 }
    ensures own { pass.new.seat.table_id ≡ pass.old.seat.table_id }
    ensures ticked { Ticked 1 pass.old.seat.me.0 pass.new.seat.me.0 }
{
    let Tally { n } = turn.take(rt, pass);
    turn.append::<Brand>(pass);
    turn.give(pass, Tally { n: n + 1 });
}

/// Adds so many items, each in a turn of its own.
pub fn tick_many<R: Wait>(
    rt: &R,
    turn: &Turn<Tally>,
    mut pass: TurnPass<Tally>,
    times: u64,
) -> TurnPass<Tally>
    requires own { pass.seat.table_id ≡ turn.now.table.shared.table_id }
    requires rest { IsResting pass.seat.me.0 }
    ensures own { result.seat.table_id ≡ turn.now.table.shared.table_id }
    ensures ticked { Ticked times pass.seat.me.0 result.seat.me.0 }
{
    for _i in 0..times {
        tick(rt, turn, &mut pass);
    }
    pass
}

/// Two threads each add so many items. The list then has all of them, and no others.
pub fn two_threads<R: Threads + Wait + Sync>(
    rt: &R,
    alloc: Global,
    times: u64,
) -> Result<u64, NoMemory>
    ensures { IfOk result (λ n. n ≡ times + times) }
{
    let (turn, mut first) = Turn::open(alloc, Tally { n: 0 })?;
    let second = turn.new_pass(rt, &mut first)?;
    let (mut first, second) = join(
        rt,
        || tick_many(rt, &turn, first, times),
        || tick_many(rt, &turn, second, times),
    );
    turn.meet(&mut first, second);
    let Tally { n } = turn.take(rt, &mut first);
    turn.give(&mut first, Tally { n });
    Ok(n)
}

/// Two threads each add so many items, one by the pass that is handed in and one by a new one. Then the passes meet.
pub fn by_two<R: Threads + Wait + Sync>(
    rt: &R,
    turn: &Turn<Tally>,
    mut pass: TurnPass<Tally>,
    times: u64,
) -> Result<TurnPass<Tally>, NoMemory>
    requires own { pass.seat.table_id ≡ turn.now.table.shared.table_id }
    requires rest { IsResting pass.seat.me.0 }
    ensures { IfOk result (λ p. (p.seat.table_id ≡ turn.now.table.shared.table_id) × IsResting p.seat.me.0) }
{
    let other = turn.new_pass(rt, &mut pass)?;
    let (mut pass, other) = join(
        rt,
        || tick_many(rt, turn, pass, times),
        || tick_many(rt, turn, other, times),
    );
    turn.meet(&mut pass, other);
    Ok(pass)
}

/// The same by four threads.
pub fn by_four<R: Threads + Wait + Sync>(
    rt: &R,
    turn: &Turn<Tally>,
    mut pass: TurnPass<Tally>,
    times: u64,
) -> Result<TurnPass<Tally>, NoMemory>
    requires own { pass.seat.table_id ≡ turn.now.table.shared.table_id }
    requires rest { IsResting pass.seat.me.0 }
    ensures { IfOk result (λ p. (p.seat.table_id ≡ turn.now.table.shared.table_id) × IsResting p.seat.me.0) }
{
    let other = turn.new_pass(rt, &mut pass)?;
    let (pass, other) = join(
        rt,
        || -> Result<TurnPass<Tally>, NoMemory>
            requires { (pass.seat.table_id ≡ turn.now.table.shared.table_id) × IsResting pass.seat.me.0 }
            ensures { IfOk result (λ p. (p.seat.table_id ≡ turn.entry.now.table.shared.table_id) × IsResting p.seat.me.0) }
        { by_two(rt, turn, pass, times) },
        || -> Result<TurnPass<Tally>, NoMemory>
            requires { (other.seat.table_id ≡ turn.now.table.shared.table_id) × IsResting other.seat.me.0 }
            ensures { IfOk result (λ p. (p.seat.table_id ≡ turn.entry.now.table.shared.table_id) × IsResting p.seat.me.0) }
        { by_two(rt, turn, other, times) },
    );
    let mut pass = pass?;
    turn.meet(&mut pass, other?);
    Ok(pass)
}

/// The same by eight threads.
pub fn by_eight<R: Threads + Wait + Sync>(
    rt: &R,
    turn: &Turn<Tally>,
    mut pass: TurnPass<Tally>,
    times: u64,
) -> Result<TurnPass<Tally>, NoMemory>
    requires own { pass.seat.table_id ≡ turn.now.table.shared.table_id }
    requires rest { IsResting pass.seat.me.0 }
    ensures { IfOk result (λ p. (p.seat.table_id ≡ turn.now.table.shared.table_id) × IsResting p.seat.me.0) }
{
    let other = turn.new_pass(rt, &mut pass)?;
    let (pass, other) = join(
        rt,
        || -> Result<TurnPass<Tally>, NoMemory>
            requires { (pass.seat.table_id ≡ turn.now.table.shared.table_id) × IsResting pass.seat.me.0 }
            ensures { IfOk result (λ p. (p.seat.table_id ≡ turn.entry.now.table.shared.table_id) × IsResting p.seat.me.0) }
        { by_four(rt, turn, pass, times) },
        || -> Result<TurnPass<Tally>, NoMemory>
            requires { (other.seat.table_id ≡ turn.now.table.shared.table_id) × IsResting other.seat.me.0 }
            ensures { IfOk result (λ p. (p.seat.table_id ≡ turn.entry.now.table.shared.table_id) × IsResting p.seat.me.0) }
        { by_four(rt, turn, other, times) },
    );
    let mut pass = pass?;
    turn.meet(&mut pass, other?);
    Ok(pass)
}
