//! A start of a storage migration.
ghost use Rattle.std.specs.Prelude.{◌≡◌, ◌<◌, [], true, false, Err, Some};
ghost use Rattle.kube_meta.specs.Names.{is_name};
ghost use Rattle.kube_meta.specs.declared.limits.Condition.TheVariants.{Running};
ghost use Rattle.api_calls.specs.Bodies.{Starts};
ghost use Rattle.api_calls.specs.Calls.{start};
ghost use Rattle.api_core.specs.Ends.{start_end};
ghost use Rattle.turn_cell.specs.Turns.{IsResting};
ghost use Rattle.call_texts.specs.Told.{told};
ghost use Rattle.shared_api.specs.Answered.{CallsOn};
ghost use Rattle.shared_api.specs.Base.{server_of};
ghost use Rattle.shared_api.specs.Passes.{IsOf};
ghost use Rattle.setting_texts.specs.Starting.{is_started};
ghost use Rattle.shared_api.specs.inner.StartTurns.{BeginsStart};
ghost use Rattle.shared_api.specs.declared.cell.CoreBase.{CoreBase};

use crate::api::{Pass, SharedApi};
use crate::bell::Bell;
use crate::cell::{CoreBase, CoreCell};
use crate::enter::finish;
use crate::settle::settle;
use api_calls::{Refusal, Reply, Versions};
use call_texts::{Refused, plain};
use kj_value::Txt;
use migrate_core::StartEnd;
use setting_texts::{start_in, started};
use std::marker::Brand;
use std::sync::Wait;
use turn_cell::{PassOf, Turn};

fn is_started(end: &StartEnd) -> bool
    ensures { result ≡ is_started (start_end end.now) }
{
    match end {
        StartEnd::Done { target: _ } => true,
        StartEnd::AlreadyExists => false,
        StartEnd::Running { name: _ } => false,
        StartEnd::Full(_) => false,
    }
}

// Starts a migration of a name, given twice, in one turn. It takes no memory.
fn start<V: Versions + Drop, R: Wait>(
    rt: &R,
    turn: &Turn<CoreCell<V>>,
    pass: &mut PassOf<CoreCell<V>, CoreBase<V>>,
    name: Txt,
    copy: &Txt,
) -> StartEnd
    requires own { pass.old.seat.table_id ≡ turn.now.table.shared.table_id }
    requires rest { IsResting pass.old.seat.me.0 }
    requires name { is_name name.bytes ≡ true }
    requires copy { copy.now.bytes ≡ name.bytes }
    ensures own { pass.new.seat.table_id ≡ pass.old.seat.table_id }
    ensures rest { IsResting pass.new.seat.me.0 }
    ensures begins { (b : CoreBase V) → pass.old.seat.me.0.base ≡ Some b
        → BeginsStart (server_of V.meaning b) pass.old.seat.me.0 pass.new.seat.me.0 copy.now.bytes (start_end result) }
{
    let mut cell = turn.take(rt, pass);
    // Asked for what its clause says: the storage version is a known one.
    let (_flags, _stored, _revision) = cell.core.settings();
    let end = cell.core.start_migration(name);
    finish::<Brand, V, Txt>(turn, pass, cell, is_started(&end), copy);
    end
}

// Wakes the workers, where a migration was started.
fn tell(bell: &Bell, end: &StartEnd) {
    if is_started(end) {
        bell.ring();
    }
}

impl<V: Versions + Drop> SharedApi<V> {
    /// Starts a migration of all objects to the storage version, as a body says (storagemigration.k8s.io/v1alpha1,
    /// StorageVersionMigration): 201 with its text. Refused with `BadRequest` or `Invalid` where the body starts none, then
    /// with `AlreadyExists` where one was started under the name, with `MigrationRunning` where one runs, and with `Full`
    /// where as many were started as the limit allows.
    pub fn start_migration<R: Wait>(
        &self,
        rt: &R,
        pass: &mut Pass<V>,
        bytes: &[u8],
    ) -> Result<Reply, Refusal>
        requires of { IsOf V.meaning self.now pass.old }
        ensures of { IsOf V.meaning self.now pass.new }
        ensures answer { CallsOn (server_of V.meaning self.now.base) ⊥ [] pass.old.view pass.new.view (start bytes.now) (told result) }
        ensures tool { pass.new.tool ≡ pass.old.tool }
    {
        let lent = self.given();
        let (name, copy, texts) = match start_in(&lent, bytes) {
            Ok(read) => read,
            Err(refused) => {
                let _settings = settle(rt, &self.turn, &mut pass.turn);
                return Err(refused.refusal);
            }
        };
        let end = start(rt, &self.turn, &mut pass.turn, name, &copy);
        tell(&self.bell, &end);
        plain(started(&lent, end, copy, texts))
    }
}
