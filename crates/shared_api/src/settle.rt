//! A turn that looks at the flags and adds nothing.
ghost use Rattle.std.specs.Prelude.{◌≡◌, Some};
ghost use Rattle.turn_cell.specs.Turns.{IsResting};
ghost use Rattle.shared_api.specs.Base.{server_of};
ghost use Rattle.shared_api.specs.inner.Turning.{Settles};
ghost use Rattle.shared_api.specs.declared.cell.CoreBase.{CoreBase};

use crate::cell::{CoreBase, CoreCell};
use api_calls::{Flags, StoredList, Versions};
use std::sync::Wait;
use turn_cell::{PassOf, Turn};

/// The flags and the stored versions at one moment. It takes no memory.
pub(crate) fn settle<V: Versions + Drop, R: Wait>(
    rt: &R,
    turn: &Turn<CoreCell<V>>,
    pass: &mut PassOf<CoreCell<V>, CoreBase<V>>,
) -> (Flags, StoredList)
    requires own { pass.old.seat.table_id ≡ turn.now.table.shared.table_id }
    requires rest { IsResting pass.old.seat.me.0 }
    ensures own { pass.new.seat.table_id ≡ pass.old.seat.table_id }
    ensures rest { IsResting pass.new.seat.me.0 }
    ensures settles { (b : CoreBase V) → pass.old.seat.me.0.base ≡ Some b
        → Settles (server_of V.meaning b) pass.old.seat.me.0 pass.new.seat.me.0 result.0 result.1 }
{
    let cell = turn.take(rt, pass);
    let (flags, stored, _revision) = cell.core.settings();
    turn.give(pass, cell);
    (flags, stored)
}
