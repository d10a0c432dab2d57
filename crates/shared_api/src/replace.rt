//! A replace of an object.
ghost use Rattle.std.specs.Prelude.{◌≡◌, ◌+◌, ◌<◌, ◌≤◌, ◌^◌, ◌↔◌, [], ℕ, false, true, Some, IfSome, IsSome, IsTrue};
ghost use Rattle.kube_meta.specs.Names.{is_namespace};
ghost use Rattle.kube_meta.specs.Shapes.{shaped};
ghost use Rattle.kube_meta.specs.View.{object_of};
ghost use Rattle.turn_cell.specs.Turns.{IsResting};
ghost use Rattle.api_calls.specs.Calls.{answered, replace};
ghost use Rattle.api_calls.specs.Item.{items};
ghost use Rattle.api_calls.specs.Meaning.{Request};
ghost use Rattle.api_calls.specs.Versions.{request_of};
ghost use Rattle.call_texts.specs.Told.{decided, told};
ghost use Rattle.shared_api.specs.Answered.{CallsOn};
ghost use Rattle.shared_api.specs.Base.{server_of};
ghost use Rattle.shared_api.specs.Passes.{IsOf};
ghost use Rattle.call_texts.specs.Places.{IsPlace};
ghost use Rattle.shared_api.specs.inner.WriteTurns.{Results};
ghost use Rattle.write_texts.specs.Replacing.{GoesOver, RepliesToReplace};
ghost use Rattle.shared_api.specs.inner.ReplaceTurns.{Attempts, Settled};
ghost use Rattle.shared_api.specs.declared.cell.CoreBase.{CoreBase};

use crate::api::{Pass, SharedApi};
use crate::cell::{CoreBase, CoreCell};
use crate::look::look;
use crate::writing::{enter_over, enter_release};
use api_calls::{Incoming, Refusal, Reply, Versions, is_served, one_stored, one_weight};
use api_core::Peeked;
use call_texts::{Context, Refused, not_admitted, place_of, plain};
use kube_meta::{Key, Shape};
use std::sync::Wait;
use turn_cell::{PassOf, Turn};
use write_texts::{
    Change, Tried, changing, ready_over, ready_release, told_over, told_release, unchanged,
};

// Prepares an update for a storage version, outside the turn, and enters it in one. Where there is a shape, by which the value
// becomes the form that is stored, that form isn't converted.
fn put<V: Versions + Drop, R: Wait>(
    rt: &R,
    lent: &Context<'_, V>,
    turn: &Turn<CoreCell<V>>,
    pass: &mut PassOf<CoreCell<V>, CoreBase<V>>,
    tool: &mut V::Tool,
    storage: u8,
    key: &Key,
    change: &Change,
    shape: Option<Shape>,
) -> Tried
    requires own { pass.old.seat.table_id ≡ turn.now.table.shared.table_id }
    requires rest { IsResting pass.old.seat.me.0 }
    requires base { (b : CoreBase V) × (pass.old.seat.me.0.base ≡ Some b) × (lent.now.versions.now ≡ b.versions) × (lent.now.boot ≡ b.boot) }
    requires goes { (q : Request) × GoesOver (V.meaning lent.now.versions.now) q key.now (items pass.old.seat.me.0.seen) change.now storage }
    requires stays { change.now.release ≡ false }
    requires changes { IsTrue change.now.equal → change.now.at ≡ storage → ⊥ }
    requires shape { IfSome shape (λ p. (V.meaning lent.now.versions.now).pair storage (object_of change.now.hub) (shaped p (object_of change.now.hub))) }
    ensures own { pass.new.seat.table_id ≡ pass.old.seat.table_id }
    ensures rest { IsResting pass.new.seat.me.0 }
    ensures tries { (b : CoreBase V) (q : Request) → pass.old.seat.me.0.base ≡ Some b
        → GoesOver (V.meaning b.versions) q key.now (items pass.old.seat.me.0.seen) change.now storage
        → Attempts (server_of V.meaning b) (V.Tool.faults tool.old < V.Tool.faults tool.new) pass.old.seat.me.0 pass.new.seat.me.0 q key.now change.now result }
    ensures rises { V.Tool.faults tool.old ≤ V.Tool.faults tool.new }
{
    match ready_over(lent, tool, storage, key, change, shape) {
        Ok((prepared, sealed, name)) => {
            let end = enter_over(rt, turn, pass, change.v, change.over, prepared, &change.hub);
            told_over(lent, end, sealed, name)
        }
        Err(fault) => Tried::Told(Err(Refused::from(fault))),
    }
}

// Whether an update is the value that stands there, at the storage version.
fn is_there(change: &Change, storage: u8) -> bool
    ensures { IsTrue result ↔ (IsTrue change.now.equal × (change.now.at ≡ storage)) }
{
    change.equal && change.at == storage
}

// Enters an update for a storage version, unless it is the value that stands there.
fn attempt<V: Versions + Drop, R: Wait>(
    rt: &R,
    lent: &Context<'_, V>,
    turn: &Turn<CoreCell<V>>,
    pass: &mut PassOf<CoreCell<V>, CoreBase<V>>,
    tool: &mut V::Tool,
    storage: u8,
    key: &Key,
    change: &Change,
    shape: Option<Shape>,
) -> Tried
    requires own { pass.old.seat.table_id ≡ turn.now.table.shared.table_id }
    requires rest { IsResting pass.old.seat.me.0 }
    requires base { (b : CoreBase V) × (pass.old.seat.me.0.base ≡ Some b) × (lent.now.versions.now ≡ b.versions) × (lent.now.boot ≡ b.boot) }
    requires goes { (q : Request) × GoesOver (V.meaning lent.now.versions.now) q key.now (items pass.old.seat.me.0.seen) change.now storage }
    requires stays { change.now.release ≡ false }
    requires shape { IfSome shape (λ p. (V.meaning lent.now.versions.now).pair storage (object_of change.now.hub) (shaped p (object_of change.now.hub))) }
    ensures own { pass.new.seat.table_id ≡ pass.old.seat.table_id }
    ensures rest { IsResting pass.new.seat.me.0 }
    ensures tries { (b : CoreBase V) (q : Request) → pass.old.seat.me.0.base ≡ Some b
        → GoesOver (V.meaning b.versions) q key.now (items pass.old.seat.me.0.seen) change.now storage
        → Attempts (server_of V.meaning b) (V.Tool.faults tool.old < V.Tool.faults tool.new) pass.old.seat.me.0 pass.new.seat.me.0 q key.now change.now result }
    ensures rises { V.Tool.faults tool.old ≤ V.Tool.faults tool.new }
{
    if is_there(change, storage) {
        return Tried::Told(unchanged(lent, tool, change));
    }
    put(rt, lent, turn, pass, tool, storage, key, change, shape)
}

// Enters an update. Where another's item moved the storage version meanwhile, it is prepared again, and converted: the object
// stands as before.
fn enter<V: Versions + Drop, R: Wait>(
    rt: &R,
    lent: &Context<'_, V>,
    turn: &Turn<CoreCell<V>>,
    pass: &mut PassOf<CoreCell<V>, CoreBase<V>>,
    tool: &mut V::Tool,
    first: u8,
    key: &Key,
    change: &Change,
    shape: Option<Shape>,
) -> Result<Reply, Refused>
    requires own { pass.old.seat.table_id ≡ turn.now.table.shared.table_id }
    requires rest { IsResting pass.old.seat.me.0 }
    requires base { (b : CoreBase V) × (pass.old.seat.me.0.base ≡ Some b) × (lent.now.versions.now ≡ b.versions) × (lent.now.boot ≡ b.boot) }
    requires goes { (q : Request) × GoesOver (V.meaning lent.now.versions.now) q key.now (items pass.old.seat.me.0.seen) change.now first }
    requires stays { change.now.release ≡ false }
    requires shape { IfSome shape (λ p. (V.meaning lent.now.versions.now).pair first (object_of change.now.hub) (shaped p (object_of change.now.hub))) }
    ensures own { pass.new.seat.table_id ≡ pass.old.seat.table_id }
    ensures rest { IsResting pass.new.seat.me.0 }
    ensures came { (b : CoreBase V) (q : Request) → pass.old.seat.me.0.base ≡ Some b
        → GoesOver (V.meaning b.versions) q key.now (items pass.old.seat.me.0.seen) change.now first
        → Settled (server_of V.meaning b) (V.Tool.faults tool.old < V.Tool.faults tool.new) pass.old.seat.me.0 pass.new.seat.me.0
        (RepliesToReplace (server_of V.meaning b) q key.now) (decided result) }
    ensures rises { V.Tool.faults tool.old ≤ V.Tool.faults tool.new }
{
    let mut storage = first;
    let mut shape = shape;
    for _ in rt.forever() {
        match attempt(rt, lent, turn, pass, tool, storage, key, change, shape) {
            Tried::Told(came) => return came,
            Tried::Moved(now) => storage = now,
        }
        shape = None;
    }
    unreachable!()
}

// Removes an object that is being deleted and loses its last finalizer.
fn release<V: Versions + Drop, R: Wait>(
    rt: &R,
    lent: &Context<'_, V>,
    turn: &Turn<CoreCell<V>>,
    pass: &mut PassOf<CoreCell<V>, CoreBase<V>>,
    tool: &mut V::Tool,
    key: &Key,
    change: &Change,
) -> Result<Reply, Refused>
    requires own { pass.old.seat.table_id ≡ turn.now.table.shared.table_id }
    requires rest { IsResting pass.old.seat.me.0 }
    requires base { (b : CoreBase V) × (pass.old.seat.me.0.base ≡ Some b) × (lent.now.versions.now ≡ b.versions) × (lent.now.boot ≡ b.boot) }
    requires goes { (q : Request) × (storage : ℕ) × GoesOver (V.meaning lent.now.versions.now) q key.now (items pass.old.seat.me.0.seen) change.now storage }
    requires ends { change.now.release ≡ true }
    ensures own { pass.new.seat.table_id ≡ pass.old.seat.table_id }
    ensures rest { IsResting pass.new.seat.me.0 }
    ensures came { (b : CoreBase V) (q : Request) (storage : ℕ) → pass.old.seat.me.0.base ≡ Some b
        → GoesOver (V.meaning b.versions) q key.now (items pass.old.seat.me.0.seen) change.now storage
        → Results (server_of V.meaning b) (V.Tool.faults tool.old < V.Tool.faults tool.new) pass.old.seat.me.0 pass.new.seat.me.0
        (RepliesToReplace (server_of V.meaning b) q key.now) (decided result) }
    ensures rises { V.Tool.faults tool.old ≤ V.Tool.faults tool.new }
{
    match ready_release(lent, tool, key, change) {
        Ok((sealed, name)) => {
            let end = enter_release(rt, turn, pass, change.v, key, change.over);
            told_release(lent, end, sealed, name)
        }
        Err(fault) => Err(Refused::from(fault)),
    }
}

// Enters an update, or the removal that it is.
fn commit<V: Versions + Drop, R: Wait>(
    rt: &R,
    lent: &Context<'_, V>,
    turn: &Turn<CoreCell<V>>,
    pass: &mut PassOf<CoreCell<V>, CoreBase<V>>,
    tool: &mut V::Tool,
    storage: u8,
    key: &Key,
    change: &Change,
    shape: Option<Shape>,
) -> Result<Reply, Refused>
    requires own { pass.old.seat.table_id ≡ turn.now.table.shared.table_id }
    requires rest { IsResting pass.old.seat.me.0 }
    requires base { (b : CoreBase V) × (pass.old.seat.me.0.base ≡ Some b) × (lent.now.versions.now ≡ b.versions) × (lent.now.boot ≡ b.boot) }
    requires goes { (q : Request) × GoesOver (V.meaning lent.now.versions.now) q key.now (items pass.old.seat.me.0.seen) change.now storage }
    requires shape { IfSome shape (λ p. (V.meaning lent.now.versions.now).pair storage (object_of change.now.hub) (shaped p (object_of change.now.hub))) }
    ensures own { pass.new.seat.table_id ≡ pass.old.seat.table_id }
    ensures rest { IsResting pass.new.seat.me.0 }
    ensures came { (b : CoreBase V) (q : Request) → pass.old.seat.me.0.base ≡ Some b
        → GoesOver (V.meaning b.versions) q key.now (items pass.old.seat.me.0.seen) change.now storage
        → Settled (server_of V.meaning b) (V.Tool.faults tool.old < V.Tool.faults tool.new) pass.old.seat.me.0 pass.new.seat.me.0
        (RepliesToReplace (server_of V.meaning b) q key.now) (decided result) }
    ensures rises { V.Tool.faults tool.old ≤ V.Tool.faults tool.new }
{
    let ends = change.release;
    if ends {
        release(rt, lent, turn, pass, tool, key, change)
    } else {
        enter(rt, lent, turn, pass, tool, storage, key, change, shape)
    }
}

// The answer to a replace.
fn replace_with<V: Versions + Drop, R: Wait>(
    rt: &R,
    lent: &Context<'_, V>,
    turn: &Turn<CoreCell<V>>,
    pass: &mut PassOf<CoreCell<V>, CoreBase<V>>,
    tool: &mut V::Tool,
    input: &Incoming<'_>,
    key: &Key,
) -> Result<Reply, Refused>
    requires own { pass.old.seat.table_id ≡ turn.now.table.shared.table_id }
    requires rest { IsResting pass.old.seat.me.0 }
    requires base { (b : CoreBase V) × (pass.old.seat.me.0.base ≡ Some b) × (lent.now.versions.now ≡ b.versions) × (lent.now.boot ≡ b.boot) }
    requires ns { IsTrue (is_namespace key.now.ns) }
    requires replaces { IsTrue input.now.creating → ⊥ }
    requires named { IsSome input.now.name }
    requires key { ((request_of input.now).ns ≡ key.now.ns) × ((request_of input.now).name ≡ Some key.now.name) }
    ensures own { pass.new.seat.table_id ≡ pass.old.seat.table_id }
    ensures rest { IsResting pass.new.seat.me.0 }
    ensures answer { (b : CoreBase V) → pass.old.seat.me.0.base ≡ Some b
        → CallsOn (server_of V.meaning b) (V.Tool.faults tool.old < V.Tool.faults tool.new) [] pass.old.seat.me.0 pass.new.seat.me.0
        (replace (request_of input.now) key.now) (answered (decided result)) }
    ensures rises { V.Tool.faults tool.old ≤ V.Tool.faults tool.new }
{
    // Asked for what their clauses say: a stored text has one hub value, and a weight doesn't look at stamps.
    one_stored::<V>();
    one_weight::<V>();
    let looked = match look(rt, lent.alloc, turn, pass, key) {
        Ok(looked) => looked,
        Err(_) => {
            return Err(Refused {
                refusal: Refusal::NoMemory,
            });
        }
    };
    let Peeked {
        flags,
        revision: _,
        found,
    } = looked;
    if !is_served(&flags, input.version) {
        return Err(Refused {
            refusal: Refusal::NoResource,
        });
    }
    let mut admitted = match lent.versions.admit(lent.alloc, tool, input, flags.storage) {
        Ok(admitted) => admitted,
        Err(fault) => return Err(not_admitted(lent.alloc, lent.versions, fault)),
    };
    let shape = admitted.shape.take();
    let change = match changing(lent, tool, input.version, key, found, admitted) {
        Ok(change) => change,
        Err(refused) => return Err(refused),
    };
    commit(
        rt,
        lent,
        turn,
        pass,
        tool,
        flags.storage,
        key,
        &change,
        shape,
    )
}

impl<V: Versions + Drop> SharedApi<V> {
    /// Stores the object that a request submits in the place of the one of the key, which has to stand at the request's
    /// number: 200 with its text. The stamps stay, and the generation rises where the body differs. An update that takes the
    /// last finalizer from an object that is being deleted removes it. Refused with `NoResource` where no served version has
    /// the name, with `BadRequest` or `Invalid` where the request is refused by itself, with `NotFound` where no object has
    /// the key, with `Conflict` where it stands at another number, with `Invalid` where a finalizer is added to an object
    /// that is being deleted, and with `Full` where there is no room. It converts outside the turn, and prepares again where
    /// another call moved the storage version meanwhile. Nothing takes memory once the item is entered.
    pub fn replace<'a, R: Wait>(
        &self,
        rt: &R,
        pass: &mut Pass<V>,
        version: &str,
        key: &'a Key,
        bytes: &'a [u8],
    ) -> Result<Reply, Refusal>
        requires of { IsOf V.meaning self.now pass.old }
        requires ns { IsTrue (is_namespace key.now.ns) }
        ensures of { IsOf V.meaning self.now pass.new }
        ensures answer { (v : ℕ) × IsPlace (V.meaning self.now.base.versions) version.now v
            × CallsOn (server_of V.meaning self.now.base) (V.Tool.faults pass.old.tool < V.Tool.faults pass.new.tool) []
            pass.old.view pass.new.view (replace (record { version = v; ns = key.now.ns; name = Some key.now.name; bytes = bytes.now }) key.now) (told result) }
        ensures rises { V.Tool.faults pass.old.tool ≤ V.Tool.faults pass.new.tool }
    {
        let lent = self.given();
        let v = place_of(lent.versions, version);
        let input = Incoming {
            version: v,
            creating: false,
            ns: key.ns(),
            name: Some(key.name()),
            bytes,
        };
        let came = replace_with(
            rt,
            &lent,
            &self.turn,
            &mut pass.turn,
            &mut pass.tool,
            &input,
            key,
        );
        plain(came)
    }
}
