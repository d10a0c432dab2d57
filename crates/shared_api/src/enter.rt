//! The end of a turn that may enter an item.
ghost use Rattle.std.specs.Prelude.{◌≡◌, ℕ, Some};
ghost use Rattle.api_calls.specs.Ends.{grown};
ghost use Rattle.api_calls.specs.Item.{items, items_of};
ghost use Rattle.api_calls.specs.Legal.{CountsFrom, IsLegal};
ghost use Rattle.api_core.specs.CoreOf.{StandsFor};
ghost use Rattle.turn_cell.specs.Turns.{Enters, IsFresh, IsHolding, IsResting};
ghost use Rattle.shared_api.specs.Base.{base_of};
ghost use Rattle.shared_api.specs.inner.Turning.{Closes, item_if};
ghost use Rattle.shared_api.specs.declared.cell.CoreBase.{CoreBase};

use crate::cell::{CoreBase, CoreCell};
use api_calls::Versions;
use turn_cell::{Names, PassOf, Turn};

// Adds the item that the call picks, where it is entered.
fn append_if<E: Names, V: Versions + Drop>(
    turn: &Turn<CoreCell<V>>,
    pass: &mut PassOf<CoreCell<V>, CoreBase<V>>,
    entered: bool,
)
    requires own { pass.old.seat.table_id ≡ turn.now.table.shared.table_id }
    requires fresh { IsFresh pass.old.seat.me.0 }
    ensures own { pass.new.seat.table_id ≡ pass.old.seat.table_id }
    ensures enters { Enters (item_if entered E.item) pass.old.seat.me.0 pass.new.seat.me.0 }
    ensures holds { IsHolding pass.new.seat.me.0 }
{
    if entered {
        turn.append::<E>(pass);
    }
}

/// Ends a turn: adds the item that the call picks, where it is entered, and gives the core back, which stands for the
/// list with it. `about` is what the item tells of; the pick may name it. It takes no memory.
pub(crate) fn finish<E: Names, V: Versions + Drop, X>(
    turn: &Turn<CoreCell<V>>,
    pass: &mut PassOf<CoreCell<V>, CoreBase<V>>,
    cell: CoreCell<V>,
    entered: bool,
    about: &X,
)
    requires own { pass.old.seat.table_id ≡ turn.now.table.shared.table_id }
    requires fresh { IsFresh pass.old.seat.me.0 }
    requires base { pass.old.seat.me.0.base ≡ Some (base_of cell.core.value) }
    requires counts { (p : ℕ) → CountsFrom 0 (items_of p pass.old.seat.me.0.seen) }
    requires stands { StandsFor V.meaning cell.core.value (grown (items pass.old.seat.me.0.seen) (item_if entered E.item)) }
    ensures own { pass.new.seat.table_id ≡ pass.old.seat.table_id }
    ensures rest { IsResting pass.new.seat.me.0 }
    ensures closes { Closes (item_if entered E.item) pass.old.seat.me.0 pass.new.seat.me.0 }
    ensures legal { IsLegal (V.meaning cell.core.value.versions) cell.core.value.view.limits pass.new.seat.me.0.seen }
{
    let _ = about;
    append_if::<E, V>(turn, pass, entered);
    turn.give(pass, cell);
}
