//! Turns of the workers of migrations. None takes memory; the list of the migrations is copied.
ghost use Rattle.std.specs.Prelude.{◌≡◌, ◌+◌, ◌≤◌, ◌<◌, ◌^◌, List, ℕ, None, IfOk, IfSome, MatchOption, Some, option_map};
ghost use Rattle.kube_meta.specs.View.{ObjectView};
ghost use Rattle.migrate_core.specs.Moves.{work_of};
ghost use Rattle.record_store.specs.ByKey.{find};
ghost use Rattle.record_store.specs.View.{item_key};
ghost use Rattle.api_calls.specs.Item.{Item};
ghost use Rattle.api_calls.specs.State.{revision, state};
ghost use Rattle.api_calls.specs.Ends.{EndsAsDecided, bound};
ghost use Rattle.api_calls.specs.Work.{give_back_decision, touch_decision, turn_decision};
ghost use Rattle.api_core.specs.Changes.{after_give_back, after_turn};
ghost use Rattle.api_core.specs.Ends.{turn_end};
ghost use Rattle.api_core.specs.Prepared.{FitsAt, IsSized, KnownAt, PreparesValue};
ghost use Rattle.api_core.specs.Ready.{IfPrepare, IsNext, is_ready_item};
ghost use Rattle.api_core.specs.Turned.{WorkerTurned, revision_after_turn};
ghost use Rattle.api_core.specs.CoreOf.{SameBase, StandsFor};

use crate::ends::TurnEnd;
use crate::present::Core;
use crate::seen::Prepared;
use crate::store_rows::StoreRows;
use api_calls::Versions;
use api_calls::laws::finished;
use kj_value::NoMemory;
use kube_meta::Key;
use migrate_core::{Advance, MigrationItems, Worker};
use std::alloc::Global;

impl<V: Versions> Core<V> {
    /// A turn of a worker. Without `ready` it goes on with its claim: `Prepare` tells the first object of its range that
    /// stands elsewhere, and `RangeDone` that there is none; or, where it has no claim that is held, takes one, or marks
    /// the migration where all is done. With an object that was prepared at a number, it is `Touched` exactly where the
    /// object still has that number and stands elsewhere, and it was prepared for the target; else `Moved`, and nothing
    /// is written. It takes no memory.
    pub fn migration_turn(&mut self, w: &mut Worker, ready: Option<(u64, Prepared)>) -> TurnEnd
        requires few { self.old.view.revision ≤ 2 ^ 61 }
        requires claims { self.old.view.migrations.plan.last < 2 ^ 61 }
        requires sized { IfSome ready (λ r. IsSized r.1) }
        requires fits { IfSome ready (λ r. FitsAt r.1.key r.0 r.1 (find item_key r.1.key self.old.view.store.items)) }
        requires next { IfSome ready (λ r. IsNext (work_of w.old.claim self.old.view.migrations) r.1.key
            self.old.view.store.items (find item_key r.1.key self.old.view.store.items)) }
        ensures turn { MatchOption ready
            ((log : List Item) → StandsFor V.meaning self.old log
            → WorkerTurned (StandsFor V.meaning self.new) log
            (turn_decision (revision log + 1) (state (V.meaning self.old.versions) log) w.old.claim)
            (turn_end result) w.new.claim)
            (λ r. (log : List Item) (h : ObjectView) → StandsFor V.meaning self.old log → PreparesValue (V.meaning self.old.versions) r.1 h
            → KnownAt (V.meaning self.old.versions) log r.1.key r.0 (λ e. h ≡ e.h)
            → WorkerTurned (StandsFor V.meaning self.new) log
            (touch_decision (revision log + 1) (state (V.meaning self.old.versions) log) w.old.claim r.1.key r.0 r.1.at)
            (turn_end result) w.new.claim) }
        ensures prepared { IfPrepare result (λ k. IsNext (work_of w.new.claim self.new.view.migrations) k
            self.new.view.store.items (find item_key k self.new.view.store.items)) }
        ensures leaves { self.new ≡ record self.old { view = after_turn result w.old.claim (option_map (λ r. r.1) ready) self.old.view } }
        ensures revision { self.new.view.revision ≡ revision_after_turn result self.old.view.revision }
        ensures base { SameBase self.old self.new }
    {
        match ready {
            None => self.go_on(w),
            Some((rv, new)) => self.touch(w, rv, new),
        }
    }

    // A turn with nothing prepared.
    fn go_on(&mut self, w: &mut Worker) -> TurnEnd
        requires few { self.old.view.revision ≤ 2 ^ 61 }
        requires claims { self.old.view.migrations.plan.last < 2 ^ 61 }
        ensures turn { (log : List Item) → StandsFor V.meaning self.old log
            → WorkerTurned (StandsFor V.meaning self.new) log
            (turn_decision (revision log + 1) (state (V.meaning self.old.versions) log) w.old.claim)
            (turn_end result) w.new.claim }
        ensures prepared { IfPrepare result (λ k. IsNext (work_of w.new.claim self.new.view.migrations) k
            self.new.view.store.items (find item_key k self.new.view.store.items)) }
        ensures leaves { self.new ≡ record self.old { view = after_turn result w.old.claim None self.old.view } }
        ensures revision { self.new.view.revision ≡ revision_after_turn result self.old.view.revision }
        ensures base { SameBase self.old self.new }
    {
        // Asked for what its clause says: where all is done, the migration may be marked.
        finished::<Core<V>>();
        match self
            .migrations
            .advance(w, &StoreRows { store: &self.store })
        {
            Advance::Prepare { key, rv } => TurnEnd::Prepare { key, rv },
            Advance::Done => {
                w.claim = None;
                TurnEnd::RangeDone
            }
            Advance::Lost => {
                w.claim = None;
                self.begin(w)
            }
        }
    }

    // A turn of a worker that has no claim.
    fn begin(&mut self, w: &mut Worker) -> TurnEnd
        requires idle { w.old.claim ≡ None }
        requires few { self.old.view.revision ≤ 2 ^ 61 }
        requires claims { self.old.view.migrations.plan.last < 2 ^ 61 }
        ensures turn { (log : List Item) → StandsFor V.meaning self.old log
            → WorkerTurned (StandsFor V.meaning self.new) log
            (turn_decision (revision log + 1) (state (V.meaning self.old.versions) log) None)
            (turn_end result) w.new.claim }
        ensures prepared { IfPrepare result (λ k. IsNext (work_of w.new.claim self.new.view.migrations) k
            self.new.view.store.items (find item_key k self.new.view.store.items)) }
        ensures leaves { self.new ≡ record self.old { view = after_turn result None None self.old.view } }
        ensures revision { self.new.view.revision ≡ revision_after_turn result self.old.view.revision }
        ensures base { SameBase self.old self.new }
    {
        finished::<Core<V>>();
        if self.migrations.claim(w, &StoreRows { store: &self.store }) {
            return TurnEnd::Claimed;
        }
        if self.migrations.mark() {
            self.revision += 1;
            return TurnEnd::Finished { rv: self.revision };
        }
        TurnEnd::Idle
    }

    // Whether the record of a key stands at a number and not at the target, for which it was prepared.
    fn is_ready(&self, key: &Key, rv: u64, at: u8, target: u8) -> bool
        ensures { result ≡ is_ready_item rv at target (find item_key key.now self.now.view.store.items) }
    {
        match self.store.look(key) {
            Some(standing) => standing.rv == rv && standing.at != target && at == target,
            None => false,
        }
    }

    // A turn with what was prepared of the object that has a number.
    fn touch(&mut self, w: &mut Worker, rv: u64, new: Prepared) -> TurnEnd
        requires few { self.old.view.revision ≤ 2 ^ 61 }
        requires sized { IsSized new }
        requires fits { FitsAt new.key rv new (find item_key new.key self.old.view.store.items) }
        requires next { IsNext (work_of w.old.claim self.old.view.migrations) new.key
            self.old.view.store.items (find item_key new.key self.old.view.store.items) }
        ensures turn { (log : List Item) (h : ObjectView) → StandsFor V.meaning self.old log → PreparesValue (V.meaning self.old.versions) new h
            → KnownAt (V.meaning self.old.versions) log new.key rv (λ e. h ≡ e.h)
            → WorkerTurned (StandsFor V.meaning self.new) log
            (touch_decision (revision log + 1) (state (V.meaning self.old.versions) log) w.old.claim new.key rv new.at)
            (turn_end result) w.new.claim }
        ensures prepared { IfPrepare result (λ k. IsNext (work_of w.new.claim self.new.view.migrations) k
            self.new.view.store.items (find item_key k self.new.view.store.items)) }
        ensures leaves { self.new ≡ record self.old { view = after_turn result w.old.claim (Some new) self.old.view } }
        ensures revision { self.new.view.revision ≡ revision_after_turn result self.old.view.revision }
        ensures base { SameBase self.old self.new }
    {
        let Some(target) = self.migrations.target_of(w) else {
            w.claim = None;
            return TurnEnd::Idle;
        };
        if !self.is_ready(&new.key, rv, new.at, target) {
            return TurnEnd::Moved;
        }
        let spot = new.key.spot();
        let number = self.revision + 1;
        let _done = self.store.touch_if(rv, number, new.into_record());
        self.migrations.pass_key(w, &spot);
        self.revision = number;
        TurnEnd::Touched { rv: number }
    }

    /// The worker's claim is given back, and the worker has none afterwards. Answers whether it was held. It takes no
    /// memory.
    pub fn give_back(&mut self, w: &mut Worker) -> bool
        ensures turn { (log : List Item) → StandsFor V.meaning self.old log
            → EndsAsDecided bound (StandsFor V.meaning self.new) log (give_back_decision (state (V.meaning self.old.versions) log) w.old.claim) result }
        ensures worker { w.new.claim ≡ None }
        ensures leaves { self.new ≡ record self.old { view = after_give_back result w.old.claim self.old.view } }
        ensures revision { self.new.view.revision ≡ self.old.view.revision }
        ensures base { SameBase self.old self.new }
    {
        self.migrations.give_back(w)
    }

    /// The last claim number, 0 before the first claim. It takes no memory.
    pub fn last_claim(&self) -> u64
        ensures { result ≡ self.now.view.migrations.plan.last }
    {
        self.migrations.last_claim()
    }

    /// The migrations in the order of their starts, copied.
    pub fn migrations(&self, alloc: Global) -> Result<MigrationItems, NoMemory>
        ensures { IfOk result (λ items. items ≡ self.now.view.migrations.items) }
    {
        self.migrations.list(alloc)
    }
}
