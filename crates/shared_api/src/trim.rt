//! A trim of the stored versions.
ghost use Rattle.std.specs.Prelude.{◌≡◌, ◌<◌, ◌≤◌, [], false, Some, Err};
ghost use Rattle.api_calls.specs.Calls.{trim};
ghost use Rattle.api_calls.specs.Versions.{versions_of};
ghost use Rattle.api_core.specs.Ends.{trim_end};
ghost use Rattle.turn_cell.specs.Turns.{IsResting};
ghost use Rattle.call_texts.specs.Told.{told};
ghost use Rattle.shared_api.specs.Answered.{CallsOn};
ghost use Rattle.shared_api.specs.Base.{server_of};
ghost use Rattle.setting_texts.specs.Changing.{is_trimmed};
ghost use Rattle.shared_api.specs.inner.ChangeTurns.{Trims};
ghost use Rattle.shared_api.specs.Passes.{IsOf};
ghost use Rattle.shared_api.specs.declared.cell.CoreBase.{CoreBase};

use crate::api::{Pass, SharedApi};
use crate::cell::{CoreBase, CoreCell};
use crate::enter::finish;
use crate::settle::settle;
use api_calls::{Flags, Refusal, Reply, StoredList, Versions};
use api_core::TrimEnd;
use call_texts::{Refused, plain};
use setting_texts::{keep_in, trimmed};
use std::marker::Brand;
use std::sync::Wait;
use turn_cell::{PassOf, Turn};

fn is_trimmed(end: &TrimEnd) -> bool
    ensures { result ≡ is_trimmed (trim_end end.now) }
{
    match end {
        TrimEnd::Done {
            rv: _,
            flags: _,
            stored: _,
        } => true,
        TrimEnd::Unchanged {
            flags: _,
            stored: _,
        } => false,
        TrimEnd::Unknown { v: _ } => false,
        TrimEnd::StillStored { v: _, key: _ } => false,
    }
}

// Trims the stored list, in one turn, and tells the flags and the stored list afterwards. It takes no memory.
fn trim<V: Versions + Drop, R: Wait>(
    rt: &R,
    turn: &Turn<CoreCell<V>>,
    pass: &mut PassOf<CoreCell<V>, CoreBase<V>>,
    keep: &StoredList,
) -> (TrimEnd, Flags, StoredList)
    requires own { pass.old.seat.table_id ≡ turn.now.table.shared.table_id }
    requires rest { IsResting pass.old.seat.me.0 }
    requires keep { keep.now.len ≤ 8 }
    ensures own { pass.new.seat.table_id ≡ pass.old.seat.table_id }
    ensures rest { IsResting pass.new.seat.me.0 }
    ensures trims { (b : CoreBase V) → pass.old.seat.me.0.base ≡ Some b
        → Trims (server_of V.meaning b) pass.old.seat.me.0 pass.new.seat.me.0 (versions_of keep.now) (trim_end result.0) result.1 result.2 }
{
    let mut cell = turn.take(rt, pass);
    let end = cell.core.trim(keep);
    let (flags, stored, _revision) = cell.core.settings();
    finish::<Brand, V, StoredList>(turn, pass, cell, is_trimmed(&end), &stored);
    (end, flags, stored)
}

impl<V: Versions + Drop> SharedApi<V> {
    /// Keeps only the versions in the stored list that a body says (`status.storedVersions` of a
    /// CustomResourceDefinition): 200 with the definition's text. Refused with `BadRequest` or `Invalid` where the
    /// definition refuses the body, then with `Invalid` for the first version that isn't in the stored list, then with
    /// `StillStored` for the first one of it that isn't kept and is the storage version or that of an object.
    pub fn trim<R: Wait>(&self, rt: &R, pass: &mut Pass<V>, bytes: &[u8]) -> Result<Reply, Refusal>
        requires of { IsOf V.meaning self.now pass.old }
        ensures of { IsOf V.meaning self.now pass.new }
        ensures answer { CallsOn (server_of V.meaning self.now.base) ⊥ [] pass.old.view pass.new.view (trim bytes.now) (told result) }
        ensures tool { pass.new.tool ≡ pass.old.tool }
    {
        let lent = self.given();
        let (keep, text) = match keep_in(&lent, bytes) {
            Ok(read) => read,
            Err(refused) => {
                let _settings = settle(rt, &self.turn, &mut pass.turn);
                return Err(refused.refusal);
            }
        };
        let (end, flags, stored) = trim(rt, &self.turn, &mut pass.turn, &keep);
        plain(trimmed(&lent, end, &flags, &stored, text))
    }
}
