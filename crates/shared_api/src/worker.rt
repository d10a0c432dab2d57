//! A worker's turn.
ghost use Rattle.std.specs.Prelude.{◌≡◌, ◌≢◌, ◌<◌, ◌≤◌, [], List, ℕ, IfOk, OnErr, Option, Some};
ghost use Rattle.kube_meta.specs.Key.{KeyView};
ghost use Rattle.turn_cell.specs.Turns.{IsResting};
ghost use Rattle.api_calls.specs.Calls.{Told, work};
ghost use Rattle.api_calls.specs.Ends.{grown, prepare};
ghost use Rattle.api_calls.specs.Item.{Item, items};
ghost use Rattle.api_core.specs.CoreOf.{StandsFor};
ghost use Rattle.api_core.specs.Ends.{turn_end};
ghost use Rattle.api_core.specs.Prepared.{IsSized, Sees};
ghost use Rattle.api_calls.specs.Versions.{AreFlags};
ghost use Rattle.shared_api.specs.Answered.{CallsOn};
ghost use Rattle.shared_api.specs.Base.{server_of};
ghost use Rattle.shared_api.specs.Passes.{IsOf};
ghost use Rattle.shared_api.specs.Steps.{IsStep, IsTold, IsToPrepare};
ghost use Rattle.shared_api.specs.inner.Working.{BeginsTurn, IsReady, Tells, Touches, first_of, is_entered};
ghost use Rattle.shared_api.specs.declared.cell.CoreBase.{CoreBase};

use crate::api::{Pass, SharedApi};
use crate::cell::{CoreBase, CoreCell};
use crate::enter::finish;
use crate::step::{Begun, TurnStep, WorkFault};
use api_calls::Versions;
use api_core::{Core, Peeked, Prepared, TurnEnd};
use kj_value::NoMemory;
use kube_meta::KeySpot;
use migrate_core::Worker;
use std::alloc::Global;
use std::marker::Brand;
use std::snapshot::Snapshot;
use std::sync::Wait;
use turn_cell::{PassOf, Turn};
use write_texts::moved;

// Whether a turn that ended so entered an item.
fn enters(end: &TurnEnd) -> bool
    ensures { result ≡ is_entered (turn_end end.now) }
{
    match end {
        TurnEnd::Idle | TurnEnd::Prepare { key: _, rv: _ } | TurnEnd::Moved => false,
        TurnEnd::Claimed
        | TurnEnd::Touched { rv: _ }
        | TurnEnd::RangeDone
        | TurnEnd::Finished { rv: _ } => true,
    }
}

// What stands under a key, copied.
fn copied<V: Versions>(alloc: Global, core: &Core<V>, key: &KeySpot) -> Result<Peeked, NoMemory>
    ensures sees { (log : List Item) → StandsFor V.meaning core.now log → IfOk result (λ p. Sees (V.meaning core.now.versions) log key.now p) }
    ensures flags { IfOk result (λ p. AreFlags (V.meaning core.now.versions).count p.flags) }
{
    let key = key.key(alloc)?;
    core.peek(alloc, &key)
}

// What is to be prepared, where a turn told a key.
fn asked<V: Versions>(alloc: Global, core: &Core<V>, key: &KeySpot, rv: u64) -> Begun
    ensures { (log : List Item) (claim : Option ℕ) → StandsFor V.meaning core.now log
        → (first_of (V.meaning core.now.versions) log claim).decision.answer ≡ prepare key.now rv
        → Tells (V.meaning core.now.versions) log (prepare key.now rv) result }
{
    match copied(alloc, core, key) {
        Ok(peeked) => {
            let Peeked {
                flags,
                revision: _,
                found,
            } = peeked;
            match found {
                Some(seen) => Begun::Asked {
                    rv,
                    target: flags.storage,
                    seen,
                },
                None => Begun::Ended(TurnStep::Moved),
            }
        }
        Err(_) => Begun::NoMemory,
    }
}

// What is told of the end of a first turn, which left the core so.
fn told<V: Versions>(alloc: Global, core: &Core<V>, end: TurnEnd) -> Begun
    ensures { (log : List Item) (claim : Option ℕ)
        → StandsFor V.meaning core.now (grown log (first_of (V.meaning core.now.versions) log claim).decision.item)
        → turn_end end ≡ (first_of (V.meaning core.now.versions) log claim).decision.answer
        → Tells (V.meaning core.now.versions) log (turn_end end) result }
{
    match end {
        TurnEnd::Idle => Begun::Ended(TurnStep::Idle),
        TurnEnd::Claimed => Begun::Ended(TurnStep::Claimed),
        TurnEnd::Prepare { key, rv } => asked(alloc, core, &key, rv),
        TurnEnd::Touched { rv: _ } => Begun::Ended(TurnStep::Touched),
        TurnEnd::Moved => Begun::Ended(TurnStep::Moved),
        TurnEnd::RangeDone => Begun::Ended(TurnStep::RangeDone),
        TurnEnd::Finished { rv: _ } => Begun::Ended(TurnStep::Finished),
    }
}

// The step of an end that tells nothing to prepare.
fn step_of(end: &TurnEnd) -> TurnStep
    ensures { ((k : KeyView) (rv : ℕ) → turn_end end.now ≢ prepare k rv) → IsStep result (turn_end end.now) }
{
    match end {
        TurnEnd::Idle | TurnEnd::Prepare { key: _, rv: _ } => TurnStep::Idle,
        TurnEnd::Claimed => TurnStep::Claimed,
        TurnEnd::Touched { rv: _ } => TurnStep::Touched,
        TurnEnd::Moved => TurnStep::Moved,
        TurnEnd::RangeDone => TurnStep::RangeDone,
        TurnEnd::Finished { rv: _ } => TurnStep::Finished,
    }
}

// A turn with nothing prepared.
fn begin<V: Versions + Drop, R: Wait>(
    rt: &R,
    alloc: Global,
    turn: &Turn<CoreCell<V>>,
    pass: &mut PassOf<CoreCell<V>, CoreBase<V>>,
    w: &mut Worker,
) -> Begun
    requires own { pass.old.seat.table_id ≡ turn.now.table.shared.table_id }
    requires rest { IsResting pass.old.seat.me.0 }
    ensures own { pass.new.seat.table_id ≡ pass.old.seat.table_id }
    ensures rest { IsResting pass.new.seat.me.0 }
    ensures begins { (b : CoreBase V) → pass.old.seat.me.0.base ≡ Some b
        → BeginsTurn (server_of V.meaning b) pass.old.seat.me.0 pass.new.seat.me.0 w.old.claim w.new.claim result }
{
    let claim = w.claim;
    let mut cell = turn.take(rt, pass);
    let end = cell.core.migration_turn(w, None);
    let entered = enters(&end);
    let begun = told(alloc, &cell.core, end);
    finish::<Brand, V, Option<u64>>(turn, pass, cell, entered, &claim);
    begun
}

// A turn with the object that was prepared, which stood at a number.
fn touch<V: Versions + Drop, R: Wait>(
    rt: &R,
    turn: &Turn<CoreCell<V>>,
    pass: &mut PassOf<CoreCell<V>, CoreBase<V>>,
    w: &mut Worker,
    rv: u64,
    new: Prepared,
) -> TurnStep
    requires own { pass.old.seat.table_id ≡ turn.now.table.shared.table_id }
    requires rest { IsResting pass.old.seat.me.0 }
    requires sized { IsSized new }
    requires ready { (b : CoreBase V) × (pass.old.seat.me.0.base ≡ Some b)
        × IsReady (V.meaning b.versions) (items pass.old.seat.me.0.seen) w.old.claim rv new }
    ensures own { pass.new.seat.table_id ≡ pass.old.seat.table_id }
    ensures rest { IsResting pass.new.seat.me.0 }
    ensures touches { (b : CoreBase V) → pass.old.seat.me.0.base ≡ Some b
        → Touches (server_of V.meaning b) pass.old.seat.me.0 pass.new.seat.me.0 w.old.claim w.new.claim new.key rv new.at result }
{
    let about = (w.claim, rv, Snapshot::of(&new));
    let mut cell = turn.take(rt, pass);
    let end = cell.core.migration_turn(w, Some((rv, new)));
    let entered = enters(&end);
    finish::<Brand, V, (Option<u64>, u64, Snapshot<Prepared>)>(turn, pass, cell, entered, &about);
    step_of(&end)
}

impl<V: Versions + Drop> SharedApi<V> {
    /// A worker's turn: it takes a claim, or prepares an object of its claim's range for the migration's target and
    /// stores it there, or tells that the range or the migration is done. The object is converted outside the turn, and
    /// where another call changed it meanwhile nothing is written (`Moved`). A fault comes only where an object is to be
    /// prepared: every other turn takes no memory and no tool. After a fault nothing was entered, and the worker has the
    /// claim that it had.
    pub fn worker_turn<R: Wait>(
        &self,
        rt: &R,
        pass: &mut Pass<V>,
        w: &mut Worker,
    ) -> Result<TurnStep, WorkFault>
        requires of { IsOf V.meaning self.now pass.old }
        ensures of { IsOf V.meaning self.now pass.new }
        ensures answer { (t : Told) × IsTold result w.new.claim t
            × CallsOn (server_of V.meaning self.now.base) (V.Tool.faults pass.old.tool < V.Tool.faults pass.new.tool) []
            pass.old.view pass.new.view (work w.old.claim) t }
        ensures asked { OnErr result (IsToPrepare (V.meaning self.now.base.versions) (items pass.new.view.seen) w.old.claim) }
        ensures rises { V.Tool.faults pass.old.tool ≤ V.Tool.faults pass.new.tool }
    {
        let lent = self.given();
        match begin(rt, self.alloc, &self.turn, &mut pass.turn, w) {
            Begun::Ended(step) => Ok(step),
            Begun::Asked { rv, target, seen } => {
                let new = moved(&lent, &mut pass.tool, target, seen)?;
                Ok(touch(rt, &self.turn, &mut pass.turn, w, rv, new))
            }
            Begun::NoMemory => Err(WorkFault::NoMemory),
        }
    }
}
