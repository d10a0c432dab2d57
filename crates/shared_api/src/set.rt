//! A change of the flags.
ghost use Rattle.std.specs.Prelude.{◌≡◌, ◌<◌, ◌≤◌, [], Ok, Err, Some};
ghost use Rattle.api_calls.specs.Calls.{set_versions};
ghost use Rattle.api_calls.specs.Versions.{AreFlags};
ghost use Rattle.api_core.specs.Ends.{set_end};
ghost use Rattle.turn_cell.specs.Turns.{IsResting};
ghost use Rattle.call_texts.specs.Told.{told};
ghost use Rattle.shared_api.specs.Answered.{CallsOn};
ghost use Rattle.shared_api.specs.Base.{server_of};
ghost use Rattle.shared_api.specs.inner.ChangeTurns.{Sets, is_set};
ghost use Rattle.shared_api.specs.Passes.{IsOf};
ghost use Rattle.shared_api.specs.declared.cell.CoreBase.{CoreBase};

use crate::api::{Pass, SharedApi};
use crate::cell::{CoreBase, CoreCell};
use crate::enter::finish;
use crate::settle::settle;
use api_calls::{Flags, Refusal, Reply, StoredList, Versions};
use api_core::SetEnd;
use call_texts::Refused;
use setting_texts::{flags_in, showing};
use std::marker::Brand;
use std::sync::Wait;
use turn_cell::{PassOf, Turn};

fn is_set(end: &SetEnd) -> bool
    ensures { result ≡ is_set (set_end end.now) }
{
    match end {
        SetEnd::Done { rv: _, stored: _ } => true,
        SetEnd::Unchanged { stored: _ } => false,
    }
}

// Sets the flags, in one turn, and tells the stored list afterwards. It takes no memory.
fn set<V: Versions + Drop, R: Wait>(
    rt: &R,
    turn: &Turn<CoreCell<V>>,
    pass: &mut PassOf<CoreCell<V>, CoreBase<V>>,
    flags: Flags,
) -> StoredList
    requires own { pass.old.seat.table_id ≡ turn.now.table.shared.table_id }
    requires rest { IsResting pass.old.seat.me.0 }
    requires flags { (b : CoreBase V) → pass.old.seat.me.0.base ≡ Some b → AreFlags (V.meaning b.versions).count flags }
    ensures own { pass.new.seat.table_id ≡ pass.old.seat.table_id }
    ensures rest { IsResting pass.new.seat.me.0 }
    ensures sets { (b : CoreBase V) → pass.old.seat.me.0.base ≡ Some b
        → Sets (server_of V.meaning b) pass.old.seat.me.0 pass.new.seat.me.0 flags result }
{
    let mut cell = turn.take(rt, pass);
    let end = cell.core.set_versions(flags);
    let (_flags, stored, _revision) = cell.core.settings();
    finish::<Brand, V, Flags>(turn, pass, cell, is_set(&end), &flags);
    stored
}

impl<V: Versions + Drop> SharedApi<V> {
    /// Sets which versions are served and which one is stored, as a body says (`spec.versions` of a
    /// CustomResourceDefinition): 200 with the definition's text. Refused with `BadRequest` or `Invalid` where the
    /// definition refuses the body. Flags that stand already enter nothing.
    pub fn set_versions<R: Wait>(
        &self,
        rt: &R,
        pass: &mut Pass<V>,
        bytes: &[u8],
    ) -> Result<Reply, Refusal>
        requires of { IsOf V.meaning self.now pass.old }
        ensures of { IsOf V.meaning self.now pass.new }
        ensures answer { CallsOn (server_of V.meaning self.now.base) ⊥ [] pass.old.view pass.new.view (set_versions bytes.now) (told result) }
        ensures tool { pass.new.tool ≡ pass.old.tool }
    {
        let lent = self.given();
        let (flags, text) = match flags_in(&lent, bytes) {
            Ok(read) => read,
            Err(refused) => {
                let _settings = settle(rt, &self.turn, &mut pass.turn);
                return Err(refused.refusal);
            }
        };
        let stored = set(rt, &self.turn, &mut pass.turn, flags);
        self.bell.ring();
        Ok(showing(&lent, &flags, &stored, text))
    }
}
