//! The turns that remove an object, or store it with a deletion stamp.
ghost use Rattle.std.specs.Prelude.{◌≡◌, Some};
ghost use Rattle.kube_meta.specs.View.{object_of};
ghost use Rattle.api_calls.specs.Item.{items};
ghost use Rattle.api_core.specs.Ends.{delete_end};
ghost use Rattle.api_core.specs.Prepared.{IsFree, IsSized, PreparesValue};
ghost use Rattle.turn_cell.specs.Turns.{IsResting};
ghost use Rattle.shared_api.specs.Base.{server_of};
ghost use Rattle.shared_api.specs.inner.WriteTurns.{Commits, is_done};
ghost use Rattle.write_texts.specs.Removing.{IsToMark, WasAt};
ghost use Rattle.shared_api.specs.inner.RemovalTurns.{marks, removes};
ghost use Rattle.shared_api.specs.declared.cell.CoreBase.{CoreBase};

use crate::cell::{CoreBase, CoreCell};
use crate::enter::finish;
use api_calls::Versions;
use api_core::{DeleteEnd, Prepared};
use kj_value::Stamp;
use kube_meta::{Key, Object};
use std::marker::Brand;
use std::snapshot::Snapshot;
use std::sync::Wait;
use turn_cell::{PassOf, Turn};

// Whether a delete that ended so entered an item.
fn entered(end: &DeleteEnd) -> bool
    ensures { result ≡ is_done (delete_end end.now) }
{
    match end {
        DeleteEnd::Done { rv: _, born: _ } => true,
        DeleteEnd::Kept { rv: _, born: _ } => true,
        DeleteEnd::Unserved => false,
        DeleteEnd::NotFound => false,
        DeleteEnd::Moved { newer: _ } => false,
        DeleteEnd::StorageMoved { now: _ } => false,
    }
}

/// A turn that removes an object, which was seen without a finalizer at a number, by its place the version of the
/// request. It takes no memory.
pub(crate) fn remove<V: Versions + Drop, R: Wait>(
    rt: &R,
    turn: &Turn<CoreCell<V>>,
    pass: &mut PassOf<CoreCell<V>, CoreBase<V>>,
    v: u8,
    key: &Key,
    number: u64,
) -> DeleteEnd
    requires own { pass.old.seat.table_id ≡ turn.now.table.shared.table_id }
    requires rest { IsResting pass.old.seat.me.0 }
    requires known { (b : CoreBase V) × (pass.old.seat.me.0.base ≡ Some b) × WasAt (V.meaning b.versions) (items pass.old.seat.me.0.seen) key.now number IsFree }
    ensures own { pass.new.seat.table_id ≡ pass.old.seat.table_id }
    ensures rest { IsResting pass.new.seat.me.0 }
    ensures commits { (b : CoreBase V) → pass.old.seat.me.0.base ≡ Some b
        → Commits (server_of V.meaning b) pass.old.seat.me.0 pass.new.seat.me.0 (removes (server_of V.meaning b) v key.now number) (delete_end result) }
{
    let about = Snapshot::of(key);
    let mut cell = turn.take(rt, pass);
    let end = cell.core.commit_delete(v, key, number, None);
    let entered = entered(&end);
    finish::<Brand, V, Snapshot<Key>>(turn, pass, cell, entered, &about);
    end
}

/// A turn that stores the value of an object with a deletion stamp, which was seen with a finalizer and without a stamp at
/// a number. `hub` is the stamped value. It takes no memory.
pub(crate) fn mark<V: Versions + Drop, R: Wait>(
    rt: &R,
    turn: &Turn<CoreCell<V>>,
    pass: &mut PassOf<CoreCell<V>, CoreBase<V>>,
    v: u8,
    key: &Key,
    number: u64,
    new: Prepared,
    hub: &Object,
    stamp: Stamp,
) -> DeleteEnd
    requires own { pass.old.seat.table_id ≡ turn.now.table.shared.table_id }
    requires rest { IsResting pass.old.seat.me.0 }
    requires sized { IsSized new }
    requires known { (b : CoreBase V) × (pass.old.seat.me.0.base ≡ Some b)
        × PreparesValue (V.meaning b.versions) new (object_of hub.now)
        × IsToMark (V.meaning b.versions) (items pass.old.seat.me.0.seen) key.now number new (object_of hub.now) stamp.text }
    ensures own { pass.new.seat.table_id ≡ pass.old.seat.table_id }
    ensures rest { IsResting pass.new.seat.me.0 }
    ensures commits { (b : CoreBase V) → pass.old.seat.me.0.base ≡ Some b
        → Commits (server_of V.meaning b) pass.old.seat.me.0 pass.new.seat.me.0 (marks (server_of V.meaning b) v new.at key.now number stamp.text) (delete_end result) }
{
    let about = (
        Snapshot::of(key),
        Snapshot::of(&number),
        Snapshot::of(&stamp),
    );
    let mut cell = turn.take(rt, pass);
    let end = cell.core.commit_delete(v, key, number, Some(new));
    let entered = entered(&end);
    finish::<Brand, V, (Snapshot<Key>, Snapshot<u64>, Snapshot<Stamp>)>(
        turn, pass, cell, entered, &about,
    );
    end
}
