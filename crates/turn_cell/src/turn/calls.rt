//! The calls of a turn.
ghost use Rattle.std.specs.Prelude.{◌≡◌, ℕ, ◌<◌, ◌^◌, [], ◌∷◌, IfOk, IsOk, None, Some};
ghost use Rattle.turn_cell.specs.Views.{opening_view, set_stage, halved, named};
ghost use Rattle.turn_cell.specs.Turns.{IsResting, IsFresh, IsHolding, Takes, Appends, MayGive, Gives, IsNew, Meets};
ghost use Rattle.turn_cell.specs.Steps.{Sees};
ghost use Rattle.api_calls.specs.Item.{items_of};
ghost use Rattle.turn_cell.specs.declared.view.Stage.TheVariants.{Rest, Waits};

use super::waiting::{CALLERS, COUNT, SERVING, WORDS};
use super::{PassOf, Place, Turn, TurnPass};
use crate::plays::{Append, GetNumber, Halve, Look, PassOn, Unite};
use crate::standing::{Names, Standing};
use crate::view::View;
use atomic_table::{Refused, Table};
use kj_value::NoMemory;
use std::alloc::Global;
use std::snapshot::Snapshot;
use std::sync::Wait;
use std::thread;

/// No pass has this number or a greater one.
const LAST_CALLER: u64 = 1 << 62;

impl<T: Standing> Turn<T> {
    /// A turn over a value that stands for the empty list, and its first pass, which is alone and has seen nothing. Every
    /// pass of the turn has the base of this value. `NoMemory` drops the value.
    pub fn open(alloc: Global, value: T) -> Result<(Turn<T>, TurnPass<T>), NoMemory>
        requires { T.stands value [] }
        ensures { IfOk result (λ r. (r.1.seat.table_id ≡ r.0.table.shared.table_id) × (r.1.seat.me.0 ≡ opening_view (T.base value))) }
    {
        let about = Snapshot::of(&value);
        let mut words = [0; WORDS];
        words[CALLERS] = 1;
        let mut slots = Vec::with_capacity(alloc, 1)?;
        slots.push_reserved(Some(value));
        let (table, seat) = Table::new(alloc, &words, slots, &about).map_err(|_| NoMemory)?;
        Ok((Turn { table }, PassOf { seat }))
    }

    /// Waits for the turn, and hands out the value. It stands for all that the pass then has seen, of which what it had seen
    /// is a beginning, with no further item of the pass or of those met into it. A pass that is alone has seen it all
    /// before. The list has fewer than 2^61 items: from as many turns on the call never returns. It takes no memory.
    pub fn take<R: Wait>(&self, rt: &R, pass: &mut TurnPass<T>) -> T
        requires own { pass.old.seat.table_id ≡ self.now.table.shared.table_id }
        requires rest { IsResting pass.old.seat.me.0 }
        ensures own { pass.new.seat.table_id ≡ pass.old.seat.table_id }
        ensures taken { Takes T.stands T.base pass.old.seat.me.0 pass.new.seat.me.0 result }
    {
        let ticket = self.draw(rt, &mut pass.seat);
        self.wait(rt, &mut pass.seat, ticket);
        self.table.shared.exchange(&mut pass.seat, 0, None).unwrap()
    }

    /// Adds the item that the call picks to what the pass has seen, with the pass's number and the count of the items that
    /// it had added before. The pass holds the turn, and has added nothing since it took it. It takes no memory.
    pub fn append<E: Names>(&self, pass: &mut TurnPass<T>)
        requires own { pass.old.seat.table_id ≡ self.now.table.shared.table_id }
        requires fresh { IsFresh pass.old.seat.me.0 }
        ensures own { pass.new.seat.table_id ≡ pass.old.seat.table_id }
        ensures added { Appends E.item pass.old.seat.me.0 pass.new.seat.me.0 }
    {
        self.table
            .shared
            .fetch_add::<Append<E>>(&mut pass.seat, COUNT, 1);
    }

    /// Gives the value back, and the turn to a pass that waits, if there is one. The value stands for the list as it is now,
    /// and has the pass's base. It takes no memory, and makes no system call where no pass sleeps.
    pub fn give(&self, pass: &mut TurnPass<T>, value: T)
        requires own { pass.old.seat.table_id ≡ self.now.table.shared.table_id }
        requires holds { IsHolding pass.old.seat.me.0 }
        requires stands { MayGive T.stands T.base pass.old.seat.me.0 value }
        ensures own { pass.new.seat.table_id ≡ pass.old.seat.table_id }
        ensures given { Gives pass.old.seat.me.0 pass.new.seat.me.0 }
    {
        let _emptied = self.table.shared.exchange(&mut pass.seat, 0, Some(value));
        let served = self
            .table
            .shared
            .fetch_add::<PassOn>(&mut pass.seat, SERVING, 1);
        self.call(&mut pass.seat, served + 1);
    }

    // Gives the seat a number that no pass has had.
    fn number<R: Wait>(&self, rt: &R, seat: &mut Place<T, T::Base>)
        requires own { seat.old.table_id ≡ self.now.table.shared.table_id }
        requires nameless { (seat.old.me.0.stage ≡ Rest) × (seat.old.me.0.number ≡ None) × (0 < seat.old.me.0.share.top) }
        ensures own { seat.new.table_id ≡ seat.old.table_id }
        ensures named { (n : ℕ) × (seat.new.me ≡ (named n seat.old.me.0, seat.old.me.1)) × (items_of n seat.old.me.0.seen ≡ []) }
    {
        let mut expected = self.table.shared.peek(CALLERS);
        for _ in rt.forever() {
            if expected < LAST_CALLER {
                let found = self
                    .table
                    .shared
                    .compare_exchange::<GetNumber>(seat, CALLERS, expected, expected + 1);
                if found == expected {
                    return;
                }
                expected = found;
            } else {
                thread::yield_now();
            }
        }
        unreachable!()
    }

    /// Makes a pass that has seen what `from` has seen, with half of its share and a number of its own. It takes no memory
    /// and so is never refused; the result leaves room for a turn that takes some. It may wait for another call that makes
    /// a pass, and from 2^62 passes on it never returns.
    pub fn new_pass<R: Wait>(&self, rt: &R, from: &mut TurnPass<T>) -> Result<TurnPass<T>, NoMemory>
        requires own { from.old.seat.table_id ≡ self.now.table.shared.table_id }
        requires rest { IsResting from.old.seat.me.0 }
        ensures own { from.new.seat.table_id ≡ from.old.seat.table_id }
        ensures made { IsOk result × IfOk result (λ p. p.seat.table_id ≡ from.old.seat.table_id) }
        ensures left { from.new.seat.me.0 ≡ halved from.old.seat.me.0 }
        ensures new { IfOk result (λ p. IsNew from.old.seat.me.0 p.seat.me.0) }
    {
        let mut seat = self.table.shared.split_seat::<Halve>(&mut from.seat);
        self.number(rt, &mut seat);
        Ok(PassOf { seat })
    }

    /// Takes in another pass: what it had seen, its number with those of the passes that were met into it, and its share.
    /// Afterwards `into` has seen the longer of the two lists, and each is a beginning of it. It takes no memory.
    pub fn meet(&self, into: &mut TurnPass<T>, from: TurnPass<T>)
        requires own { (into.old.seat.table_id ≡ self.now.table.shared.table_id) × (from.seat.table_id ≡ self.now.table.shared.table_id) }
        requires rest { IsResting into.old.seat.me.0 × IsResting from.seat.me.0 }
        ensures own { into.new.seat.table_id ≡ into.old.seat.table_id }
        ensures met { Meets into.old.seat.me.0 from.seat.me.0 into.new.seat.me.0 }
    {
        let PassOf { seat } = from;
        self.table.shared.join_seat::<Unite>(&mut into.seat, seat);
        self.table.shared.load::<Look>(&mut into.seat, COUNT);
    }
}
