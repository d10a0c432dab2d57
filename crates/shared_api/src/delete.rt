//! A delete of an object.
ghost use Rattle.std.specs.Prelude.{◌≡◌, ◌≢◌, ◌⊎◌, ◌+◌, ◌<◌, ◌≤◌, ◌^◌, Err, Some, if◌then◌else◌, ℕ};
ghost use Rattle.turn_cell.specs.Turns.{IsResting};
ghost use Rattle.api_calls.specs.Calls.{delete};
ghost use Rattle.api_calls.specs.Cause.{bad_options};
ghost use Rattle.api_calls.specs.Refusal.{bad_request, no_resource, refusal_of};
ghost use Rattle.api_calls.specs.Versions.{IsStamp};
ghost use Rattle.call_texts.specs.Told.{decided, told};
ghost use Rattle.shared_api.specs.Answered.{CallsOn};
ghost use Rattle.shared_api.specs.Base.{server_of};
ghost use Rattle.write_texts.specs.Leavings.{Deleted};
ghost use Rattle.shared_api.specs.inner.DeleteTurns.{EndsDelete, TriesDelete};
ghost use Rattle.shared_api.specs.Passes.{IsOf};
ghost use Rattle.call_texts.specs.Places.{IsPlace};
ghost use Rattle.shared_api.specs.declared.cell.CoreBase.{CoreBase};

use crate::api::{Pass, SharedApi};
use crate::cell::{CoreBase, CoreCell};
use crate::look::look;
use crate::removing::{mark, remove};
use crate::settle::settle;
use api_calls::{Refusal, Reply, Versions, Why, is_served};
use call_texts::{Context, Refused, place_of, plain};
use kj_value::{NoMemory, Stamp};
use kube_meta::Key;
use std::sync::Wait;
use turn_cell::{PassOf, Turn};
use write_texts::{DeleteTry, Leaving, is_served_delete, leaving_of, told_marked, told_removed};

// Looks at the object, makes ready what its delete takes, outside the turn, and enters it in one.
fn try_delete<V: Versions + Drop, R: Wait>(
    rt: &R,
    lent: &Context<'_, V>,
    turn: &Turn<CoreCell<V>>,
    pass: &mut PassOf<CoreCell<V>, CoreBase<V>>,
    tool: &mut V::Tool,
    v: u8,
    key: &Key,
    stamp: Stamp,
) -> DeleteTry
    requires own { pass.old.seat.table_id ≡ turn.now.table.shared.table_id }
    requires rest { IsResting pass.old.seat.me.0 }
    requires base { (b : CoreBase V) × (pass.old.seat.me.0.base ≡ Some b) × (lent.now.versions.now ≡ b.versions) × (lent.now.boot ≡ b.boot) }
    requires stamp { IsStamp stamp.text }
    ensures own { pass.new.seat.table_id ≡ pass.old.seat.table_id }
    ensures rest { IsResting pass.new.seat.me.0 }
    ensures tries { (b : CoreBase V) → pass.old.seat.me.0.base ≡ Some b
        → TriesDelete (server_of V.meaning b) (V.Tool.faults tool.old < V.Tool.faults tool.new) pass.old.seat.me.0 pass.new.seat.me.0 key.now
        (Deleted (V.meaning b.versions) b.boot v key.now stamp.text) result }
    ensures rises { V.Tool.faults tool.old ≤ V.Tool.faults tool.new }
{
    let looked = look(rt, lent.alloc, turn, pass, key);
    match leaving_of(lent, tool, v, key, stamp, looked) {
        Ok(Leaving::Told(reply)) => DeleteTry::Told(Ok(reply)),
        Ok(Leaving::Plain { number, text }) => {
            let end = remove(rt, turn, pass, v, key, number);
            told_removed(lent, end, key, text)
        }
        Ok(
            Leaving::Mark {
                number,
                born,
                new,
                sealed,
                hub,
            },
        ) => {
            let end = mark(rt, turn, pass, v, key, number, new, &hub, stamp);
            told_marked(lent, end, key, sealed, born)
        }
        Err(refused) => DeleteTry::Told(Err(refused)),
    }
}

// Deletes an object. Where another's item stands between, it is looked at again.
fn delete_with<V: Versions + Drop, R: Wait>(
    rt: &R,
    lent: &Context<'_, V>,
    turn: &Turn<CoreCell<V>>,
    pass: &mut PassOf<CoreCell<V>, CoreBase<V>>,
    tool: &mut V::Tool,
    v: u8,
    key: &Key,
    stamp: Stamp,
) -> Result<Reply, Refused>
    requires own { pass.old.seat.table_id ≡ turn.now.table.shared.table_id }
    requires rest { IsResting pass.old.seat.me.0 }
    requires base { (b : CoreBase V) × (pass.old.seat.me.0.base ≡ Some b) × (lent.now.versions.now ≡ b.versions) × (lent.now.boot ≡ b.boot) }
    requires stamp { IsStamp stamp.text }
    ensures own { pass.new.seat.table_id ≡ pass.old.seat.table_id }
    ensures rest { IsResting pass.new.seat.me.0 }
    ensures came { (b : CoreBase V) → pass.old.seat.me.0.base ≡ Some b
        → EndsDelete (server_of V.meaning b) (V.Tool.faults tool.old < V.Tool.faults tool.new) pass.old.seat.me.0 pass.new.seat.me.0 key.now
        (Deleted (V.meaning b.versions) b.boot v key.now stamp.text) (decided result) }
    ensures rises { V.Tool.faults tool.old ≤ V.Tool.faults tool.new }
{
    for _ in rt.forever() {
        match try_delete(rt, lent, turn, pass, tool, v, key, stamp) {
            DeleteTry::Told(came) => return came,
            DeleteTry::Again => {}
        }
    }
    unreachable!()
}

// A delete whose body isn't served, at a version that is served or isn't.
fn unserved_options(served: bool) -> Refusal
    ensures { refusal_of result ≡ (if served then bad_request bad_options else no_resource) }
{
    if served {
        Refusal::BadRequest {
            why: Why::BadOptions,
        }
    } else {
        Refusal::NoResource
    }
}

impl<V: Versions + Drop> SharedApi<V> {
    /// Deletes the object of a key, at a version: 200 with a Status. An object that has finalizers stays, with this stamp
    /// as its `deletionTimestamp` where it has none: 200 with its text. Refused with `NoResource` where no served version
    /// has the name, then with `BadRequest` where the body isn't served options of a delete (DeleteOptions of meta/v1),
    /// then with `NotFound` where no object has the key. Nothing is converted for an object without finalizers.
    pub fn delete<R: Wait>(
        &self,
        rt: &R,
        pass: &mut Pass<V>,
        version: &str,
        key: &Key,
        bytes: &[u8],
        stamp: Stamp,
    ) -> Result<Reply, Refusal>
        requires of { IsOf V.meaning self.now pass.old }
        requires stamp { IsStamp stamp.text }
        ensures of { IsOf V.meaning self.now pass.new }
        ensures answer { (v : ℕ) × IsPlace (V.meaning self.now.base.versions) version.now v
            × CallsOn (server_of V.meaning self.now.base) (V.Tool.faults pass.old.tool < V.Tool.faults pass.new.tool) stamp.text
            pass.old.view pass.new.view (delete v key.now bytes.now) (told result) }
        ensures rises { V.Tool.faults pass.old.tool ≤ V.Tool.faults pass.new.tool }
    {
        let lent = self.given();
        let v = place_of(lent.versions, version);
        match is_served_delete(self.alloc, bytes) {
            Ok(true) => {}
            Ok(false) => {
                let (flags, _stored) = settle(rt, &self.turn, &mut pass.turn);
                return Err(unserved_options(is_served(&flags, v)));
            }
            Err(_) => {
                let _settings = settle(rt, &self.turn, &mut pass.turn);
                return Err(Refusal::NoMemory);
            }
        }
        plain(delete_with(
            rt,
            &lent,
            &self.turn,
            &mut pass.turn,
            &mut pass.tool,
            v,
            key,
            stamp,
        ))
    }
}
