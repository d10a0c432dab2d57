//! The commits: each is a turn with what was prepared for it. None takes memory.
ghost use Rattle.std.specs.Prelude.{◌≡◌, ◌+◌, ◌≤◌, ◌^◌, List, ℕ, None, Some, IsTrue, IfSome};
ghost use Rattle.kube_meta.specs.View.{ObjectView};
ghost use Rattle.record_store.specs.ByKey.{find};
ghost use Rattle.record_store.specs.View.{item_key};
ghost use Rattle.api_calls.specs.Item.{Item};
ghost use Rattle.api_calls.specs.State.{revision, state};
ghost use Rattle.api_calls.specs.Legal.{IsNew};
ghost use Rattle.api_calls.specs.Ends.{EndsAsDecided, bound};
ghost use Rattle.api_calls.specs.Writes.{create_commit, delete_commit, mark_commit, release_commit, replace_commit};
ghost use Rattle.api_core.specs.declared.seen.Prepared.{Prepared};
ghost use Rattle.api_core.specs.Changes.{after_create, after_delete, after_release, after_replace};
ghost use Rattle.api_core.specs.Ends.{create_end, delete_end, release_end, replace_end, revision_after};
ghost use Rattle.api_core.specs.Prepared.{FitsAt, IsEnding, IsFree, IsSized, KnownAt, Marking, PreparesValue, Replacing};
ghost use Rattle.api_core.specs.CoreOf.{SameBase, StandsFor};

use crate::ends::{CreateEnd, DeleteEnd, ReleaseEnd, ReplaceEnd};
use crate::present::Core;
use crate::seen::Prepared;
use api_calls::{Versions, is_served};
use kube_meta::Key;
use record_store::PutEnd;

impl<V: Versions> Core<V> {
    /// Stores a new object, by its place the version of the request. The refusals are tried in the order of `CreateEnd`.
    /// It takes no memory.
    pub fn commit_create(&mut self, v: u8, new: Prepared) -> CreateEnd
        requires few { self.old.view.revision ≤ 2 ^ 61 }
        requires sized { IsSized new }
        ensures turn { (log : List Item) (h : ObjectView) → StandsFor V.meaning self.old log → PreparesValue (V.meaning self.old.versions) new h
            → (IsTrue (V.meaning self.old.versions).honest → IsNew h)
            → EndsAsDecided bound (StandsFor V.meaning self.new) log
            (create_commit self.old.view.limits (revision log + 1) (state (V.meaning self.old.versions) log) v new.at new.key h new.weight)
            (create_end result) }
        ensures leaves { self.new ≡ record self.old { view = after_create result new self.old.view } }
        ensures revision { self.new.view.revision ≡ revision_after (create_end result) self.old.view.revision }
        ensures base { SameBase self.old self.new }
    {
        if !is_served(&self.flags, v) {
            return CreateEnd::Unserved;
        }
        let now = self.flags.storage;
        if new.at != now {
            let Some(_standing) = self.store.look(&new.key) else {
                return CreateEnd::StorageMoved { now };
            };
            return CreateEnd::AlreadyExists;
        }
        let number = self.revision + 1;
        match self.store.put_if(None, number, new.into_record()) {
            PutEnd::Done => {
                self.revision = number;
                CreateEnd::Done { rv: number }
            }
            PutEnd::Present => CreateEnd::AlreadyExists,
            PutEnd::Full(room) => CreateEnd::Full(room),
            PutEnd::Gone => unreachable!(),
            PutEnd::Moved { newer: _ } => unreachable!(),
        }
    }

    /// Replaces the value of the object that stands at the expected number. The refusals are tried in the order of
    /// `ReplaceEnd`. It takes no memory.
    pub fn commit_replace(&mut self, v: u8, expected: u64, new: Prepared) -> ReplaceEnd
        requires few { self.old.view.revision ≤ 2 ^ 61 }
        requires sized { IsSized new }
        ensures turn { (log : List Item) (h : ObjectView) → StandsFor V.meaning self.old log → PreparesValue (V.meaning self.old.versions) new h
            → KnownAt (V.meaning self.old.versions) log new.key expected (Replacing new h)
            → EndsAsDecided bound (StandsFor V.meaning self.new) log
            (replace_commit self.old.view.limits (revision log + 1) (state (V.meaning self.old.versions) log) v new.at new.key expected h new.weight)
            (replace_end result) }
        ensures leaves { self.new ≡ record self.old { view = after_replace result new self.old.view } }
        ensures revision { self.new.view.revision ≡ revision_after (replace_end result) self.old.view.revision }
        ensures base { SameBase self.old self.new }
    {
        if !is_served(&self.flags, v) {
            return ReplaceEnd::Unserved;
        }
        let Some(old) = self.store.look(&new.key) else {
            return ReplaceEnd::Gone;
        };
        if old.rv != expected {
            return ReplaceEnd::Moved { newer: old.rv };
        }
        let now = self.flags.storage;
        if new.at != now {
            return ReplaceEnd::StorageMoved { now };
        }
        let rv = self.revision + 1;
        match self.store.put_if(Some(expected), rv, new.into_record()) {
            PutEnd::Done => {
                self.revision = rv;
                ReplaceEnd::Done { rv, born: old.born }
            }
            PutEnd::Full(room) => ReplaceEnd::Full(room),
            PutEnd::Present => unreachable!(),
            PutEnd::Gone => unreachable!(),
            PutEnd::Moved { newer: _ } => unreachable!(),
        }
    }

    /// Removes the object that stands at the expected number; where its value with a deletion stamp was prepared, that
    /// value takes its place instead. The refusals are tried in the order of `DeleteEnd`; `StorageMoved` comes only with
    /// `ready`. It takes no memory.
    pub fn commit_delete(
        &mut self,
        v: u8,
        key: &Key,
        expected: u64,
        ready: Option<Prepared>,
    ) -> DeleteEnd
        requires few { self.old.view.revision ≤ 2 ^ 61 }
        requires sized { IfSome ready IsSized }
        requires fits { IfSome ready (λ p. FitsAt key.now expected p (find item_key key.now self.old.view.store.items)) }
        ensures turn { ready ≡ None → (log : List Item) → StandsFor V.meaning self.old log
            → KnownAt (V.meaning self.old.versions) log key.now expected IsFree
            → EndsAsDecided bound (StandsFor V.meaning self.new) log
            (delete_commit (revision log + 1) (state (V.meaning self.old.versions) log) v key.now expected)
            (delete_end result) }
        ensures marks { (p : Prepared) → ready ≡ Some p → (log : List Item) (h : ObjectView) (stamp : List ℕ) → StandsFor V.meaning self.old log
            → PreparesValue (V.meaning self.old.versions) p h → KnownAt (V.meaning self.old.versions) log key.now expected (Marking h stamp)
            → EndsAsDecided bound (StandsFor V.meaning self.new) log
            (mark_commit (revision log + 1) (state (V.meaning self.old.versions) log) v p.at key.now expected stamp)
            (delete_end result) }
        ensures leaves { self.new ≡ record self.old { view = after_delete result key.now ready self.old.view } }
        ensures revision { self.new.view.revision ≡ revision_after (delete_end result) self.old.view.revision }
        ensures base { SameBase self.old self.new }
    {
        if !is_served(&self.flags, v) {
            drop(ready);
            return DeleteEnd::Unserved;
        }
        let Some(standing) = self.store.look(key) else {
            drop(ready);
            return DeleteEnd::NotFound;
        };
        if standing.rv != expected {
            drop(ready);
            return DeleteEnd::Moved { newer: standing.rv };
        }
        let born = standing.born;
        let rv = self.revision + 1;
        let Some(marked) = ready else {
            let _removed = self.store.remove_if(key, rv);
            self.revision = rv;
            return DeleteEnd::Done { rv, born };
        };
        let now = self.flags.storage;
        if marked.at != now {
            return DeleteEnd::StorageMoved { now };
        }
        match self.store.touch_if(expected, rv, marked.into_record()) {
            PutEnd::Done => {
                self.revision = rv;
                DeleteEnd::Kept { rv, born }
            }
            PutEnd::Full(_) => unreachable!(),
            PutEnd::Present => unreachable!(),
            PutEnd::Gone => unreachable!(),
            PutEnd::Moved { newer: _ } => unreachable!(),
        }
    }

    /// Removes the object that is being deleted and stands at the expected number, when its last finalizer goes. The
    /// refusals are tried in the order of `ReleaseEnd`. It takes no memory.
    pub fn commit_release(&mut self, v: u8, key: &Key, expected: u64) -> ReleaseEnd
        requires { self.old.view.revision ≤ 2 ^ 61 }
        ensures turn { (log : List Item) → StandsFor V.meaning self.old log → KnownAt (V.meaning self.old.versions) log key.now expected IsEnding
            → EndsAsDecided bound (StandsFor V.meaning self.new) log
            (release_commit (revision log + 1) (state (V.meaning self.old.versions) log) v key.now expected)
            (release_end result) }
        ensures leaves { self.new ≡ record self.old { view = after_release result key.now self.old.view } }
        ensures revision { self.new.view.revision ≡ revision_after (release_end result) self.old.view.revision }
        ensures base { SameBase self.old self.new }
    {
        if !is_served(&self.flags, v) {
            return ReleaseEnd::Unserved;
        }
        let Some(ending) = self.store.look(key) else {
            return ReleaseEnd::Gone;
        };
        if ending.rv != expected {
            return ReleaseEnd::Moved { newer: ending.rv };
        }
        let rv = self.revision + 1;
        let _removed = self.store.remove_if(key, rv);
        self.revision = rv;
        ReleaseEnd::Done {
            rv,
            born: ending.born,
        }
    }
}
