//! The turn.
ghost use Rattle.std.specs.Prelude.{◌≡◌, ◌<◌, true};
ghost use Rattle.turn_cell.specs.Turns.{is_settled, carried_at, is_numbered};

use crate::law::Law;
use crate::standing::Standing;
use crate::view::View;
use atomic_table::{Seat, Table};
use std::alloc::Global;
use std::snapshot::Snapshot;

mod calls;
mod waiting;

pub(crate) type Place<T, B> = Seat<Option<T>, View<B>>;

/// The right to take the turn. What it knows is its seat's view. It has no bytes.
#[derive(Drop)]
pub struct PassOf<T, B> {
    pub seat: Seat<Option<T>, View<B>>,
    ghost settled: { is_settled seat.me.0.stage ≡ true },
    ghost carries: { seat.me.1 ≡ carried_at seat.me.0.stage },
    ghost numbered: { is_numbered seat.me.0.number ≡ true },
    ghost live: { 0 < seat.me.0.share.top },
}

/// The pass of a turn over such values.
pub type TurnPass<T> = PassOf<T, <T as Standing>::Base>;

/// The turn, with the value where no pass holds it. Dropping it drops the value that is home.
#[derive(Drop)]
pub struct Turn<T: Standing> {
    pub table: Table<Option<T>, View<T::Base>, Snapshot<T>, Law, Global>,
    ghost sized: { (table.shared.table_id.words ≡ 36) × (table.shared.table_id.slots ≡ 1) },
}
