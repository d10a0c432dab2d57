//! The turns that enter what was prepared.
ghost use Rattle.std.specs.Prelude.{◌≡◌, ◌<◌, ℕ, Some};
ghost use Rattle.kube_meta.specs.View.{object_of};
ghost use Rattle.turn_cell.specs.Turns.{IsResting};
ghost use Rattle.api_calls.specs.Ends.{storage_moved};
ghost use Rattle.api_calls.specs.Item.{items};
ghost use Rattle.api_calls.specs.Legal.{IsNew};
ghost use Rattle.api_core.specs.Ends.{create_end, release_end, replace_end};
ghost use Rattle.api_core.specs.Prepared.{IsEnding, IsSized, PreparesValue, Replacing};
ghost use Rattle.shared_api.specs.Base.{server_of};
ghost use Rattle.shared_api.specs.inner.WriteTurns.{Commits, SeenAt, creates, is_done, releases, replaces};
ghost use Rattle.shared_api.specs.declared.cell.CoreBase.{CoreBase};

use crate::cell::{CoreBase, CoreCell};
use crate::enter::finish;
use api_calls::Versions;
use api_core::{CreateEnd, Prepared, ReleaseEnd, ReplaceEnd};
use kube_meta::{Key, Object};
use std::marker::Brand;
use std::snapshot::Snapshot;
use std::sync::Wait;
use turn_cell::{PassOf, Turn};

// Whether a create that ended so entered an item.
fn created(end: &CreateEnd) -> bool
    ensures { result ≡ is_done (create_end end.now) }
{
    match end {
        CreateEnd::Done { rv: _ } => true,
        CreateEnd::Unserved => false,
        CreateEnd::AlreadyExists => false,
        CreateEnd::StorageMoved { now: _ } => false,
        CreateEnd::Full(_) => false,
    }
}

/// A turn that stores a new object, of this hub value, by its place the version of the request. It takes no memory.
pub(crate) fn enter_new<V: Versions + Drop, R: Wait>(
    rt: &R,
    turn: &Turn<CoreCell<V>>,
    pass: &mut PassOf<CoreCell<V>, CoreBase<V>>,
    v: u8,
    new: Prepared,
    hub: &Object,
) -> CreateEnd
    requires own { pass.old.seat.table_id ≡ turn.now.table.shared.table_id }
    requires rest { IsResting pass.old.seat.me.0 }
    requires sized { IsSized new }
    requires value { (b : CoreBase V) × (pass.old.seat.me.0.base ≡ Some b) × PreparesValue (V.meaning b.versions) new (object_of hub.now) }
    requires fresh { IsNew (object_of hub.now) }
    ensures own { pass.new.seat.table_id ≡ pass.old.seat.table_id }
    ensures rest { IsResting pass.new.seat.me.0 }
    ensures commits { (b : CoreBase V) → pass.old.seat.me.0.base ≡ Some b
        → Commits (server_of V.meaning b) pass.old.seat.me.0 pass.new.seat.me.0 (creates (server_of V.meaning b) v new (object_of hub.now)) (create_end result) }
    ensures storage { (b : CoreBase V) → pass.old.seat.me.0.base ≡ Some b → (now : ℕ) → create_end result ≡ storage_moved now → now < (V.meaning b.versions).count }
{
    let about = (Snapshot::of(&new), Snapshot::of(hub));
    let mut cell = turn.take(rt, pass);
    // Asked for what its clause says: the storage version is a version.
    let _ = cell.core.settings();
    let end = cell.core.commit_create(v, new);
    let entered = created(&end);
    finish::<Brand, V, (Snapshot<Prepared>, Snapshot<Object>)>(turn, pass, cell, entered, &about);
    end
}

// Whether a replace that ended so entered an item.
fn replaced(end: &ReplaceEnd) -> bool
    ensures { result ≡ is_done (replace_end end.now) }
{
    match end {
        ReplaceEnd::Done { rv: _, born: _ } => true,
        ReplaceEnd::Unserved => false,
        ReplaceEnd::Gone => false,
        ReplaceEnd::Moved { newer: _ } => false,
        ReplaceEnd::StorageMoved { now: _ } => false,
        ReplaceEnd::Full(_) => false,
    }
}

/// A turn that replaces the value of the object that the pass had seen at this number, by this hub value. It takes no memory.
pub(crate) fn enter_over<V: Versions + Drop, R: Wait>(
    rt: &R,
    turn: &Turn<CoreCell<V>>,
    pass: &mut PassOf<CoreCell<V>, CoreBase<V>>,
    v: u8,
    expected: u64,
    new: Prepared,
    hub: &Object,
) -> ReplaceEnd
    requires own { pass.old.seat.table_id ≡ turn.now.table.shared.table_id }
    requires rest { IsResting pass.old.seat.me.0 }
    requires sized { IsSized new }
    requires value { (b : CoreBase V) × (pass.old.seat.me.0.base ≡ Some b) × PreparesValue (V.meaning b.versions) new (object_of hub.now)
        × SeenAt (V.meaning b.versions) (items pass.old.seat.me.0.seen) new.key expected (Replacing new (object_of hub.now)) }
    ensures own { pass.new.seat.table_id ≡ pass.old.seat.table_id }
    ensures rest { IsResting pass.new.seat.me.0 }
    ensures commits { (b : CoreBase V) → pass.old.seat.me.0.base ≡ Some b
        → Commits (server_of V.meaning b) pass.old.seat.me.0 pass.new.seat.me.0 (replaces (server_of V.meaning b) v expected new (object_of hub.now)) (replace_end result) }
    ensures storage { (b : CoreBase V) → pass.old.seat.me.0.base ≡ Some b → (now : ℕ) → replace_end result ≡ storage_moved now → now < (V.meaning b.versions).count }
{
    let about = (Snapshot::of(&new), Snapshot::of(hub), expected);
    let mut cell = turn.take(rt, pass);
    // Asked for what its clause says: the storage version is a version.
    let _ = cell.core.settings();
    let end = cell.core.commit_replace(v, expected, new);
    let entered = replaced(&end);
    finish::<Brand, V, (Snapshot<Prepared>, Snapshot<Object>, u64)>(
        turn, pass, cell, entered, &about,
    );
    end
}

// Whether a release that ended so entered an item.
fn released(end: &ReleaseEnd) -> bool
    ensures { result ≡ is_done (release_end end.now) }
{
    match end {
        ReleaseEnd::Done { rv: _, born: _ } => true,
        ReleaseEnd::Unserved => false,
        ReleaseEnd::Gone => false,
        ReleaseEnd::Moved { newer: _ } => false,
    }
}

/// A turn that removes the object that the pass had seen at this number, which is being deleted and loses its last
/// finalizer. It takes no memory.
pub(crate) fn enter_release<V: Versions + Drop, R: Wait>(
    rt: &R,
    turn: &Turn<CoreCell<V>>,
    pass: &mut PassOf<CoreCell<V>, CoreBase<V>>,
    v: u8,
    key: &Key,
    expected: u64,
) -> ReleaseEnd
    requires own { pass.old.seat.table_id ≡ turn.now.table.shared.table_id }
    requires rest { IsResting pass.old.seat.me.0 }
    requires value { (b : CoreBase V) × (pass.old.seat.me.0.base ≡ Some b)
        × SeenAt (V.meaning b.versions) (items pass.old.seat.me.0.seen) key.now expected IsEnding }
    ensures own { pass.new.seat.table_id ≡ pass.old.seat.table_id }
    ensures rest { IsResting pass.new.seat.me.0 }
    ensures commits { (b : CoreBase V) → pass.old.seat.me.0.base ≡ Some b
        → Commits (server_of V.meaning b) pass.old.seat.me.0 pass.new.seat.me.0 (releases (server_of V.meaning b) v key.now expected) (release_end result) }
{
    let about = (Snapshot::of(key), expected);
    let mut cell = turn.take(rt, pass);
    let end = cell.core.commit_release(v, key, expected);
    let entered = released(&end);
    finish::<Brand, V, (Snapshot<Key>, u64)>(turn, pass, cell, entered, &about);
    end
}
