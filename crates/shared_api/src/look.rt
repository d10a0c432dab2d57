//! A turn that looks at a key and adds nothing.
ghost use Rattle.std.specs.Prelude.{◌≡◌, Some};
ghost use Rattle.turn_cell.specs.Turns.{IsResting};
ghost use Rattle.shared_api.specs.Base.{server_of};
ghost use Rattle.shared_api.specs.inner.Turning.{Looks};
ghost use Rattle.shared_api.specs.declared.cell.CoreBase.{CoreBase};

use crate::cell::{CoreBase, CoreCell};
use api_calls::Versions;
use api_core::Peeked;
use kj_value::NoMemory;
use kube_meta::Key;
use std::alloc::Global;
use std::sync::Wait;
use turn_cell::{PassOf, Turn};

/// What stands under a key at one moment, copied.
pub(crate) fn look<V: Versions + Drop, R: Wait>(
    rt: &R,
    alloc: Global,
    turn: &Turn<CoreCell<V>>,
    pass: &mut PassOf<CoreCell<V>, CoreBase<V>>,
    key: &Key,
) -> Result<Peeked, NoMemory>
    requires own { pass.old.seat.table_id ≡ turn.now.table.shared.table_id }
    requires rest { IsResting pass.old.seat.me.0 }
    ensures own { pass.new.seat.table_id ≡ pass.old.seat.table_id }
    ensures rest { IsResting pass.new.seat.me.0 }
    ensures looks { (b : CoreBase V) → pass.old.seat.me.0.base ≡ Some b
        → Looks (server_of V.meaning b) pass.old.seat.me.0 pass.new.seat.me.0 key.now result }
{
    let cell = turn.take(rt, pass);
    let peeked = cell.core.peek(alloc, key);
    turn.give(pass, cell);
    peeked
}
