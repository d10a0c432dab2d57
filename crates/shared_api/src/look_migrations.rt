//! A turn that copies the migrations and adds nothing.
ghost use Rattle.std.specs.Prelude.{◌≡◌, Some};
ghost use Rattle.turn_cell.specs.Turns.{IsResting};
ghost use Rattle.shared_api.specs.Base.{server_of};
ghost use Rattle.shared_api.specs.inner.MigrationTurns.{LooksMigrations};
ghost use Rattle.shared_api.specs.declared.cell.CoreBase.{CoreBase};

use crate::cell::{CoreBase, CoreCell};
use api_calls::Versions;
use kj_value::NoMemory;
use migrate_core::MigrationItems;
use std::alloc::Global;
use std::sync::Wait;
use turn_cell::{PassOf, Turn};

/// The migrations at one moment in the order of their starts, copied.
pub(crate) fn look_migrations<V: Versions + Drop, R: Wait>(
    rt: &R,
    alloc: Global,
    turn: &Turn<CoreCell<V>>,
    pass: &mut PassOf<CoreCell<V>, CoreBase<V>>,
) -> Result<MigrationItems, NoMemory>
    requires own { pass.old.seat.table_id ≡ turn.now.table.shared.table_id }
    requires rest { IsResting pass.old.seat.me.0 }
    ensures own { pass.new.seat.table_id ≡ pass.old.seat.table_id }
    ensures rest { IsResting pass.new.seat.me.0 }
    ensures looks { (b : CoreBase V) → pass.old.seat.me.0.base ≡ Some b
        → LooksMigrations (server_of V.meaning b) pass.old.seat.me.0 pass.new.seat.me.0 result }
{
    let cell = turn.take(rt, pass);
    let migrations = cell.core.migrations(alloc);
    turn.give(pass, cell);
    migrations
}
