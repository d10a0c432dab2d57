//! Changes of the flags, trims of the stored list, and starts of migrations: each is a turn. None takes memory.
ghost use Rattle.std.specs.Prelude.{◌≡◌, ◌+◌, ◌≤◌, ◌^◌, List, ℕ, true, if◌then◌else◌, nat_eq};
ghost use Rattle.kube_meta.specs.Names.{is_name};
ghost use Rattle.migrate_core.specs.Moves.{after_fail};
ghost use Rattle.record_store.specs.Standing.{first_held as first_standing, item_at};
ghost use Rattle.record_store.specs.View.{item_key};
ghost use Rattle.api_calls.specs.Item.{Item};
ghost use Rattle.api_calls.specs.State.{joined, state};
ghost use Rattle.api_calls.specs.Ends.{EndsAsDecided, bound};
ghost use Rattle.api_calls.specs.Settings.{same_flags, set_decision, start_decision, trim_decision};
ghost use Rattle.api_calls.specs.Versions.{AreFlags, versions_of};
ghost use Rattle.api_core.specs.Changes.{after_set, after_start, after_trim};
ghost use Rattle.api_core.specs.Ends.{set_end, start_end, trim_end};
ghost use Rattle.api_core.specs.inner.TrimLaws.{held_from, until};
ghost use Rattle.api_core.specs.Turned.{revision_after_set, revision_after_start, revision_after_trim};
ghost use Rattle.api_core.specs.CoreOf.{SameBase, StandsFor};

use crate::ends::{SetEnd, TrimEnd};
use crate::present::Core;
use crate::stored_versions::{
    before, contains, first_outside, joined_list, kept_of, unkept_of, versions,
};
use api_calls::laws::sound;
use api_calls::{Flags, StoredList, Versions};
use kj_value::Txt;
use kube_meta::KeySpot;
use migrate_core::StartEnd;

fn same(a: &Flags, b: &Flags) -> bool
    ensures { result ≡ same_flags a.now b.now }
{
    *a == *b
}

impl<V: Versions> Core<V> {
    /// Sets which versions are served and which one is stored. Where the storage version changes, it joins the stored
    /// list, and a running migration fails. It takes no memory.
    pub fn set_versions(&mut self, flags: Flags) -> SetEnd
        requires few { self.old.view.revision ≤ 2 ^ 61 }
        requires flags { AreFlags (V.meaning self.old.versions).count flags }
        ensures turn { (log : List Item) → StandsFor V.meaning self.old log
            → EndsAsDecided bound (StandsFor V.meaning self.new) log
            (set_decision (state (V.meaning self.old.versions) log) flags)
            (set_end result) }
        ensures leaves { self.new ≡ record self.old { view = after_set result flags self.old.view } }
        ensures revision { self.new.view.revision ≡ revision_after_set result self.old.view.revision }
        ensures base { SameBase self.old self.new }
    {
        // Asked for what its clause says: the storage version is in the stored list.
        sound::<Core<V>>();
        if same(&flags, &self.flags) {
            return SetEnd::Unchanged {
                stored: self.stored,
            };
        }
        self.leave_storage(flags.storage);
        self.stored = joined_list(self.stored, flags.storage);
        self.flags = flags;
        self.revision += 1;
        SetEnd::Done {
            rv: self.revision,
            stored: self.stored,
        }
    }

    // Where another storage version comes, a running migration fails.
    fn leave_storage(&mut self, storage: u8)
        ensures { self.new ≡ record self.old {
          view = record self.old.view {
            migrations = if nat_eq storage self.old.view.flags.storage then self.old.view.migrations else after_fail self.old.view.migrations;
          };
        } }
    {
        if storage != self.flags.storage {
            let _ran = self.migrations.fail_running();
        }
    }

    /// Takes the versions that aren't kept out of the stored list. The refusals are tried in the order of `TrimEnd`'s
    /// `Unknown` and `StillStored`, each for the first version that has it, in the kept list and in the stored one.
    /// The records are looked over once. It takes no memory.
    pub fn trim(&mut self, keep: &StoredList) -> TrimEnd
        requires few { self.old.view.revision ≤ 2 ^ 61 }
        requires keep { keep.now.len ≤ 8 }
        ensures turn { (log : List Item) → StandsFor V.meaning self.old log
            → EndsAsDecided bound (StandsFor V.meaning self.new) log
            (trim_decision (state (V.meaning self.old.versions) log) (versions_of keep.now))
            (trim_end result) }
        ensures leaves { self.new ≡ record self.old { view = after_trim result self.old.view } }
        ensures revision { self.new.view.revision ≡ revision_after_trim result self.old.view.revision }
        ensures base { SameBase self.old self.new }
    {
        // Asked for what its clause says: every object stands at a version of the stored list.
        sound::<Core<V>>();
        let kept = versions(keep);
        if let Some(v) = first_outside(versions(&self.stored), kept) {
            return TrimEnd::Unknown { v };
        }
        let unkept = unkept_of(versions(&self.stored), kept);
        if let Some((v, key)) = self.held(versions(&unkept)) {
            return TrimEnd::StillStored { v, key };
        }
        if unkept.len == 0 {
            return TrimEnd::Unchanged {
                flags: self.flags,
                stored: self.stored,
            };
        }
        self.stored = kept_of(versions(&self.stored), kept);
        self.revision += 1;
        TrimEnd::Done {
            rv: self.revision,
            flags: self.flags,
            stored: self.stored,
        }
    }

    // The first of the versions that has to be kept: the storage version, or one at which a record stands, with the key
    // of the first record there.
    fn held(&self, unkept: &[u8]) -> Option<(u8, Option<KeySpot>)>
        ensures { result ≡ held_from self.now.view.flags.storage unkept.now
            (first_standing item_at item_key (until self.now.view.flags.storage unkept.now) self.now.view.store.items) }
    {
        let storage = self.flags.storage;
        match self.store.first_held(before(unkept, storage)) {
            Some((v, key)) => Some((v, Some(key))),
            None => {
                if contains(unkept, storage) {
                    Some((storage, None))
                } else {
                    None
                }
            }
        }
    }

    /// Starts a migration of all objects to the storage version. The refusals are tried in the order of `StartEnd`. It
    /// takes no memory.
    pub fn start_migration(&mut self, name: Txt) -> StartEnd
        requires few { self.old.view.revision ≤ 2 ^ 61 }
        requires name { is_name name.bytes ≡ true }
        ensures turn { (log : List Item) → StandsFor V.meaning self.old log
            → EndsAsDecided bound (StandsFor V.meaning self.new) log
            (start_decision self.old.view.limits (state (V.meaning self.old.versions) log) name.bytes)
            (start_end result) }
        ensures leaves { self.new ≡ record self.old { view = after_start result name.bytes self.old.view } }
        ensures revision { self.new.view.revision ≡ revision_after_start result self.old.view.revision }
        ensures base { SameBase self.old self.new }
    {
        match self.migrations.start(name, self.flags.storage) {
            StartEnd::Done { target } => {
                self.revision += 1;
                StartEnd::Done { target }
            }
            StartEnd::AlreadyExists => StartEnd::AlreadyExists,
            StartEnd::Running { name } => StartEnd::Running { name },
            StartEnd::Full(room) => StartEnd::Full(room),
        }
    }
}
