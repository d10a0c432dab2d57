//! A create of an object.
ghost use Rattle.std.specs.Prelude.{◌≡◌, ◌+◌, ◌<◌, ◌≤◌, ◌^◌, ℕ, None, Some, IfSome, IsTrue};
ghost use Rattle.kube_meta.specs.Names.{is_namespace};
ghost use Rattle.kube_meta.specs.Shapes.{shaped};
ghost use Rattle.kube_meta.specs.View.{object_of};
ghost use Rattle.turn_cell.specs.Turns.{IsResting};
ghost use Rattle.api_calls.specs.Calls.{answered, create};
ghost use Rattle.api_calls.specs.Versions.{IsStamp, request_of};
ghost use Rattle.call_texts.specs.Told.{decided, told};
ghost use Rattle.shared_api.specs.Answered.{CallsOn};
ghost use Rattle.shared_api.specs.Base.{server_of};
ghost use Rattle.shared_api.specs.Passes.{IsOf};
ghost use Rattle.call_texts.specs.Places.{IsPlace};
ghost use Rattle.write_texts.specs.Readying.{IsFresh};
ghost use Rattle.shared_api.specs.inner.WriteTurns.{Created, Results, Tries};
ghost use Rattle.shared_api.specs.declared.cell.CoreBase.{CoreBase};

use crate::api::{Pass, SharedApi};
use crate::cell::{CoreBase, CoreCell};
use crate::settle::settle;
use crate::writing::enter_new;
use api_calls::{Incoming, Refusal, Reply, Versions, is_served};
use call_texts::{Context, Refused, not_admitted, place_of, plain};
use kj_value::Stamp;
use kube_meta::Shape;
use std::sync::Wait;
use turn_cell::{PassOf, Turn};
use write_texts::{Fresh, Tried, fresh_of, ready_new, told_new};

// Prepares a new object for a storage version, outside the turn, and enters it in one. Where there is a shape, by which the value
// becomes the form that is stored, that form isn't converted.
fn try_new<V: Versions + Drop, R: Wait>(
    rt: &R,
    lent: &Context<'_, V>,
    turn: &Turn<CoreCell<V>>,
    pass: &mut PassOf<CoreCell<V>, CoreBase<V>>,
    tool: &mut V::Tool,
    storage: u8,
    new: &Fresh,
    shape: Option<Shape>,
) -> Tried
    requires own { pass.old.seat.table_id ≡ turn.now.table.shared.table_id }
    requires rest { IsResting pass.old.seat.me.0 }
    requires base { (b : CoreBase V) × (pass.old.seat.me.0.base ≡ Some b) × (lent.now.versions.now ≡ b.versions) × (lent.now.boot ≡ b.boot) }
    requires known { new.now.v < (V.meaning lent.now.versions.now).count }
    requires storage { storage < (V.meaning lent.now.versions.now).count }
    requires value { IsFresh (V.meaning lent.now.versions.now) new.now.key (object_of new.now.hub) new.now.weight }
    requires shape { IfSome shape (λ p. (V.meaning lent.now.versions.now).pair storage (object_of new.now.hub) (shaped p (object_of new.now.hub))) }
    ensures own { pass.new.seat.table_id ≡ pass.old.seat.table_id }
    ensures rest { IsResting pass.new.seat.me.0 }
    ensures tries { (b : CoreBase V) → pass.old.seat.me.0.base ≡ Some b
        → Tries (server_of V.meaning b) (V.Tool.faults tool.old < V.Tool.faults tool.new) pass.old.seat.me.0 pass.new.seat.me.0
        (Created (server_of V.meaning b) new.now.v (object_of new.now.hub) new.now.weight) result }
    ensures rises { V.Tool.faults tool.old ≤ V.Tool.faults tool.new }
{
    match ready_new(lent, tool, storage, new, shape) {
        Ok((prepared, sealed, name)) => {
            let end = enter_new(rt, turn, pass, new.v, prepared, &new.hub);
            told_new(lent, end, sealed, name)
        }
        Err(fault) => Tried::Told(Err(Refused::from(fault))),
    }
}

// Enters a new object. Where another's item moved the storage version meanwhile, it is prepared again, and converted.
fn enter<V: Versions + Drop, R: Wait>(
    rt: &R,
    lent: &Context<'_, V>,
    turn: &Turn<CoreCell<V>>,
    pass: &mut PassOf<CoreCell<V>, CoreBase<V>>,
    tool: &mut V::Tool,
    storage: u8,
    new: &Fresh,
    shape: Option<Shape>,
) -> Result<Reply, Refused>
    requires own { pass.old.seat.table_id ≡ turn.now.table.shared.table_id }
    requires rest { IsResting pass.old.seat.me.0 }
    requires base { (b : CoreBase V) × (pass.old.seat.me.0.base ≡ Some b) × (lent.now.versions.now ≡ b.versions) × (lent.now.boot ≡ b.boot) }
    requires known { new.now.v < (V.meaning lent.now.versions.now).count }
    requires storage { storage < (V.meaning lent.now.versions.now).count }
    requires value { IsFresh (V.meaning lent.now.versions.now) new.now.key (object_of new.now.hub) new.now.weight }
    requires shape { IfSome shape (λ p. (V.meaning lent.now.versions.now).pair storage (object_of new.now.hub) (shaped p (object_of new.now.hub))) }
    ensures own { pass.new.seat.table_id ≡ pass.old.seat.table_id }
    ensures rest { IsResting pass.new.seat.me.0 }
    ensures came { (b : CoreBase V) → pass.old.seat.me.0.base ≡ Some b
        → Results (server_of V.meaning b) (V.Tool.faults tool.old < V.Tool.faults tool.new) pass.old.seat.me.0 pass.new.seat.me.0
        (Created (server_of V.meaning b) new.now.v (object_of new.now.hub) new.now.weight) (decided result) }
    ensures rises { V.Tool.faults tool.old ≤ V.Tool.faults tool.new }
{
    let mut storage = storage;
    let mut shape = shape;
    for _ in rt.forever() {
        match try_new(rt, lent, turn, pass, tool, storage, new, shape) {
            Tried::Told(came) => return came,
            Tried::Moved(now) => storage = now,
        }
        shape = None;
    }
    unreachable!()
}

// The answer to a create.
fn create_with<V: Versions + Drop, R: Wait>(
    rt: &R,
    lent: &Context<'_, V>,
    turn: &Turn<CoreCell<V>>,
    pass: &mut PassOf<CoreCell<V>, CoreBase<V>>,
    tool: &mut V::Tool,
    input: &Incoming<'_>,
    stamp: Stamp,
) -> Result<Reply, Refused>
    requires own { pass.old.seat.table_id ≡ turn.now.table.shared.table_id }
    requires rest { IsResting pass.old.seat.me.0 }
    requires base { (b : CoreBase V) × (pass.old.seat.me.0.base ≡ Some b) × (lent.now.versions.now ≡ b.versions) × (lent.now.boot ≡ b.boot) }
    requires stamp { IsStamp stamp.text }
    requires ns { IsTrue (is_namespace input.now.ns.now) }
    requires creating { IsTrue input.now.creating }
    requires unnamed { input.now.name ≡ None }
    ensures own { pass.new.seat.table_id ≡ pass.old.seat.table_id }
    ensures rest { IsResting pass.new.seat.me.0 }
    ensures answer { (b : CoreBase V) → pass.old.seat.me.0.base ≡ Some b
        → CallsOn (server_of V.meaning b) (V.Tool.faults tool.old < V.Tool.faults tool.new) stamp.text pass.old.seat.me.0 pass.new.seat.me.0
        (create (request_of input.now)) (answered (decided result)) }
    ensures rises { V.Tool.faults tool.old ≤ V.Tool.faults tool.new }
{
    let (flags, _stored) = settle(rt, turn, pass);
    if !is_served(&flags, input.version) {
        return Err(Refused {
            refusal: Refusal::NoResource,
        });
    }
    let mut admitted = match lent.versions.admit(lent.alloc, tool, input, flags.storage) {
        Ok(admitted) => admitted,
        Err(fault) => return Err(not_admitted(lent.alloc, lent.versions, fault)),
    };
    let shape = admitted.shape.take();
    let new = fresh_of(lent, input, stamp, admitted)?;
    enter(rt, lent, turn, pass, tool, flags.storage, &new, shape)
}

impl<V: Versions + Drop> SharedApi<V> {
    /// Stores the object that a request submits, in a namespace, with the moment as its creation's: 201 with its text. Refused
    /// with `NoResource` where no served version has the name, with `BadRequest` or `Invalid` where the request is refused by
    /// itself, with `AlreadyExists` where an object has the key, and with `Full` where there is no room. It converts outside
    /// the turn, and prepares again where another call moved the storage version meanwhile. Nothing takes memory once the
    /// object is entered.
    pub fn create<'a, R: Wait>(
        &self,
        rt: &R,
        pass: &mut Pass<V>,
        version: &str,
        ns: &'a str,
        bytes: &'a [u8],
        stamp: Stamp,
    ) -> Result<Reply, Refusal>
        requires of { IsOf V.meaning self.now pass.old }
        requires ns { IsTrue (is_namespace ns.now) }
        requires stamp { IsStamp stamp.text }
        ensures of { IsOf V.meaning self.now pass.new }
        ensures answer { (v : ℕ) × IsPlace (V.meaning self.now.base.versions) version.now v
            × CallsOn (server_of V.meaning self.now.base) (V.Tool.faults pass.old.tool < V.Tool.faults pass.new.tool) stamp.text
            pass.old.view pass.new.view (create (record { version = v; ns = ns.now; name = None; bytes = bytes.now })) (told result) }
        ensures rises { V.Tool.faults pass.old.tool ≤ V.Tool.faults pass.new.tool }
    {
        let lent = self.given();
        let v = place_of(lent.versions, version);
        let input = Incoming {
            version: v,
            creating: true,
            ns,
            name: None,
            bytes,
        };
        let came = create_with(
            rt,
            &lent,
            &self.turn,
            &mut pass.turn,
            &mut pass.tool,
            &input,
            stamp,
        );
        plain(came)
    }
}
