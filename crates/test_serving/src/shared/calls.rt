//! The calls.
ghost use Rattle.std.specs.Prelude.{◌≡◌, ℕ, IfOk, IsOk, List, None, Some};
ghost use Rattle.turn_cell.specs.Views.{opening_view, halved, set_stage};
ghost use Rattle.turn_cell.specs.Turns.{IsNew, Meets, IsFresh, IsHolding, Enters, Turned};
ghost use Rattle.turn_cell.specs.declared.view.Stage.TheVariants.{Rest};
ghost use mathlib.Core.List.{IsPrefix};
ghost use Rattle.api_calls.specs.Item.{Logged};
ghost use Rattle.test_serving.specs.Counts.{adding, amounts, total_of, entered_by};
ghost use Rattle.test_serving.specs.Calls.{AnswersAsCounter, ServesAsCounter};

use super::{Pass, SharedCounter};
use crate::cell::Cell;
use crate::counter::{AddEnd, Counter};
use kj_value::NoMemory;
use std::alloc::Global;
use std::marker::Brand;
use std::sync::Wait;
use turn_cell::{Names, Turn, TurnPass};

// Adds the item that the answer tells of, if any.
fn enter<E: Names>(turn: &Turn<Cell>, pass: &mut TurnPass<Cell>, end: AddEnd, x: u64)
    requires names { E.item ≡ adding x }
    requires own { pass.old.seat.table_id ≡ turn.now.table.shared.table_id }
    requires fresh { IsFresh pass.old.seat.me.0 }
    ensures own { pass.new.seat.table_id ≡ pass.old.seat.table_id }
    ensures entered { Enters (entered_by end x) pass.old.seat.me.0 pass.new.seat.me.0 }
    ensures holds { IsHolding pass.new.seat.me.0 }
{
    match end {
        AddEnd::Done(_) => turn.append::<E>(pass),
        AddEnd::Full | AddEnd::NoMemory => {}
    }
}

impl SharedCounter {
    /// A counter with this limit, and its first pass.
    pub fn open(alloc: Global, limit: u64) -> Result<(SharedCounter, Pass), NoMemory>
        ensures { IfOk result (λ r. (r.1.turn.seat.table_id ≡ r.0.turn.table.shared.table_id) × (r.1.turn.seat.me.0 ≡ opening_view limit)) }
    {
        let counter = Counter::new(alloc, limit);
        let (turn, pass) = Turn::open(alloc, Cell { counter })?;
        Ok((SharedCounter { turn }, Pass { turn: pass }))
    }

    /// A pass of its own, which has seen what `from` has seen. It takes no memory.
    pub fn new_pass<R: Wait>(&self, rt: &R, from: &mut Pass) -> Result<Pass, NoMemory>
        requires own { from.old.turn.seat.table_id ≡ self.now.turn.table.shared.table_id }
        ensures own { from.new.turn.seat.table_id ≡ from.old.turn.seat.table_id }
        ensures made { IsOk result × IfOk result (λ p. p.turn.seat.table_id ≡ from.old.turn.seat.table_id) }
        ensures left { from.new.turn.seat.me.0 ≡ halved from.old.turn.seat.me.0 }
        ensures new { IfOk result (λ p. IsNew from.old.turn.seat.me.0 p.turn.seat.me.0) }
    {
        let turn = self.turn.new_pass(rt, &mut from.turn)?;
        Ok(Pass { turn })
    }

    /// Takes in what another pass had seen.
    pub fn meet(&self, into: &mut Pass, from: Pass)
        requires own { (into.old.turn.seat.table_id ≡ self.now.turn.table.shared.table_id) × (from.turn.seat.table_id ≡ self.now.turn.table.shared.table_id) }
        ensures own { into.new.turn.seat.table_id ≡ into.old.turn.seat.table_id }
        ensures met { Meets into.old.turn.seat.me.0 from.turn.seat.me.0 into.new.turn.seat.me.0 }
    {
        let Pass { turn } = from;
        self.turn.meet(&mut into.turn, turn);
    }

    /// The total as it was at one moment.
    pub fn total<R: Wait>(&self, rt: &R, pass: &mut Pass) -> u64
        requires own { pass.old.turn.seat.table_id ≡ self.now.turn.table.shared.table_id }
        ensures own { pass.new.turn.seat.table_id ≡ pass.old.turn.seat.table_id }
        ensures answer { (log : List Logged) × Turned pass.old.turn.seat.me.0 pass.new.turn.seat.me.0 log None × (result ≡ total_of log) }
    {
        let cell = self.turn.take(rt, &mut pass.turn);
        let total = cell.counter.total();
        self.turn.give(&mut pass.turn, cell);
        total
    }

    /// The numbers as they were at one moment.
    pub fn numbers<R: Wait>(&self, rt: &R, pass: &mut Pass) -> Result<Vec<u64>, NoMemory>
        requires own { pass.old.turn.seat.table_id ≡ self.now.turn.table.shared.table_id }
        ensures own { pass.new.turn.seat.table_id ≡ pass.old.turn.seat.table_id }
        ensures answer { (log : List Logged) × Turned pass.old.turn.seat.me.0 pass.new.turn.seat.me.0 log None × IfOk result (λ v. v.items ≡ amounts log) }
    {
        let cell = self.turn.take(rt, &mut pass.turn);
        let numbers = cell.counter.numbers();
        self.turn.give(&mut pass.turn, cell);
        numbers
    }

    /// Adds x where the sum stays within the limit.
    pub fn add<R: Wait>(&self, rt: &R, pass: &mut Pass, x: u64) -> AddEnd
        requires own { pass.old.turn.seat.table_id ≡ self.now.turn.table.shared.table_id }
        ensures own { pass.new.turn.seat.table_id ≡ pass.old.turn.seat.table_id }
        ensures answer { (limit : ℕ) → pass.old.turn.seat.me.0.base ≡ Some limit → AnswersAsCounter limit pass.old.turn.seat.me.0 pass.new.turn.seat.me.0 x result }
    {
        let mut cell = self.turn.take(rt, &mut pass.turn);
        let end = cell.counter.add(x);
        enter::<Brand>(&self.turn, &mut pass.turn, end, x);
        self.turn.give(&mut pass.turn, cell);
        end
    }

    /// Adds what the total was in an earlier turn.
    pub fn double<R: Wait>(&self, rt: &R, pass: &mut Pass) -> AddEnd
        requires own { pass.old.turn.seat.table_id ≡ self.now.turn.table.shared.table_id }
        ensures own { pass.new.turn.seat.table_id ≡ pass.old.turn.seat.table_id }
        ensures answer { (limit : ℕ) → pass.old.turn.seat.me.0.base ≡ Some limit → (first : List Logged) × IsPrefix pass.old.turn.seat.me.0.seen first × IsPrefix first pass.new.turn.seat.me.0.seen × AnswersAsCounter limit pass.old.turn.seat.me.0 pass.new.turn.seat.me.0 (total_of first) result }
    {
        let x = self.total(rt, pass);
        self.add(rt, pass, x)
    }

    /// Adds each, in order. All memory is taken before the first.
    pub fn add_all<R: Wait>(
        &self,
        rt: &R,
        alloc: Global,
        pass: &mut Pass,
        xs: &[u64],
    ) -> Result<Vec<AddEnd>, NoMemory>
        requires own { pass.old.turn.seat.table_id ≡ self.now.turn.table.shared.table_id }
        ensures own { pass.new.turn.seat.table_id ≡ pass.old.turn.seat.table_id }
        ensures served { IfOk result (λ ends. (limit : ℕ) → pass.old.turn.seat.me.0.base ≡ Some limit
            → (pass.new.turn.seat.me.0 ≡ set_stage pass.old.turn.seat.me.0 pass.new.turn.seat.me.0.seen Rest)
            × ServesAsCounter limit pass.old.turn.seat.me.0 pass.old.turn.seat.me.0.seen xs.now ends.items pass.new.turn.seat.me.0.seen) }
    {
        let mut ends = Vec::with_capacity(alloc, xs.len())?;
        for x in xs {
            let end = self.add(rt, pass, *x);
            ends.push_reserved(end);
        }
        Ok(ends)
    }
}
