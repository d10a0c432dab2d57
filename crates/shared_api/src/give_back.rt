//! A worker gives its claim back.
ghost use Rattle.std.specs.Prelude.{◌≡◌, [], Bool, None, Some};
ghost use Rattle.turn_cell.specs.Turns.{IsResting};
ghost use Rattle.api_calls.specs.Calls.{gave_back, give_back};
ghost use Rattle.shared_api.specs.Answered.{CallsOn};
ghost use Rattle.shared_api.specs.Base.{server_of};
ghost use Rattle.shared_api.specs.Passes.{IsOf};
ghost use Rattle.shared_api.specs.declared.cell.CoreBase.{CoreBase};

use crate::api::{Pass, SharedApi};
use crate::cell::{CoreBase, CoreCell};
use crate::enter::finish;
use api_calls::Versions;
use migrate_core::Worker;
use std::marker::Brand;
use std::sync::Wait;
use turn_cell::{PassOf, Turn};

// A turn that gives a claim back.
fn give_claim<V: Versions + Drop, R: Wait>(
    rt: &R,
    turn: &Turn<CoreCell<V>>,
    pass: &mut PassOf<CoreCell<V>, CoreBase<V>>,
    w: &mut Worker,
) -> bool
    requires own { pass.old.seat.table_id ≡ turn.now.table.shared.table_id }
    requires rest { IsResting pass.old.seat.me.0 }
    ensures own { pass.new.seat.table_id ≡ pass.old.seat.table_id }
    ensures rest { IsResting pass.new.seat.me.0 }
    ensures worker { w.new.claim ≡ None }
    ensures answer { (b : CoreBase V) → pass.old.seat.me.0.base ≡ Some b
        → CallsOn (server_of V.meaning b) ⊥ [] pass.old.seat.me.0 pass.new.seat.me.0 (give_back w.old.claim) (gave_back result) }
{
    let claim = w.claim;
    let mut cell = turn.take(rt, pass);
    let held = cell.core.give_back(w);
    finish::<Brand, V, Option<u64>>(turn, pass, cell, held, &claim);
    held
}

impl<V: Versions + Drop> SharedApi<V> {
    /// Gives a worker's claim back, so that another worker may take what is left of its range. The worker has no claim
    /// afterwards. It takes no memory.
    pub fn give_back<R: Wait>(&self, rt: &R, pass: &mut Pass<V>, w: &mut Worker)
        requires of { IsOf V.meaning self.now pass.old }
        ensures of { IsOf V.meaning self.now pass.new }
        ensures worker { w.new.claim ≡ None }
        ensures answer { (held : Bool) × CallsOn (server_of V.meaning self.now.base) ⊥ [] pass.old.view pass.new.view
            (give_back w.old.claim) (gave_back held) }
        ensures tool { pass.new.tool ≡ pass.old.tool }
    {
        let _held = give_claim(rt, &self.turn, &mut pass.turn, w);
    }
}
