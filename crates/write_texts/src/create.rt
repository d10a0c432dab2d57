//! A create of an object.
ghost use Rattle.std.specs.Prelude.{◌≡◌, ◌+◌, ◌<◌, ◌≤◌, ◌^◌, ℕ, None, Some, IfOk, IfSome, IsErrOf, IsTrue, length};
ghost use Rattle.kube_meta.specs.Shapes.{shaped};
ghost use Rattle.kube_meta.specs.View.{ObjectView, object_of};
ghost use Rattle.api_calls.specs.Calls.{create};
ghost use Rattle.api_calls.specs.Ends.{done};
ghost use Rattle.api_calls.specs.Meaning.{Weighs};
ghost use Rattle.api_calls.specs.Replies.{code_created};
ghost use Rattle.api_calls.specs.Values.{created_value};
ghost use Rattle.api_calls.specs.Versions.{IsRequest, IsStamp, request_of};
ghost use Rattle.api_core.specs.Ends.{create_end};
ghost use Rattle.call_texts.specs.Told.{told};
ghost use Rattle.write_texts.specs.Readying.{IsFresh, IsReady, Tells};
ghost use Rattle.write_texts.specs.Sealed.{Seals};

use crate::prepare::prepare_write;
use crate::seal::Sealed;
use crate::tried::Tried;
use api_calls::{Admitted, ConvFault, Incoming, Refusal, Reply, Versions, one_weight};
use api_core::{CreateEnd, Prepared};
use call_texts::{Context, Refused};
use kj_value::{NoMemory, Stamp, Txt};
use kube_meta::{Key, Object, Shape};

/// A new object that was admitted at a version, with its key and its weight.
#[derive(Drop)]
pub struct Fresh {
    pub v: u8,
    pub hub: Object,
    pub key: Key,
    pub weight: u64,
}

// What a create stores of an admitted value.
fn new_value(mut hub: Object, stamp: Stamp) -> Object
    ensures { object_of result ≡ created_value stamp.text (object_of hub) }
{
    hub.meta.created = Some(stamp);
    hub.meta.deleted = None;
    hub.meta.generation = 1;
    hub
}

/// What a create stores and shows, and the object's name for a refusal that tells it. Where there is a shape, by which the value
/// becomes the form that is stored, that form isn't converted.
pub fn ready_new<V: Versions>(
    lent: &Context<'_, V>,
    tool: &mut V::Tool,
    storage: u8,
    new: &Fresh,
    shape: Option<Shape>,
) -> Result<(Prepared, Sealed, Txt), ConvFault>
    requires known { new.now.v < (V.meaning lent.now.versions.now).count }
    requires storage { storage < (V.meaning lent.now.versions.now).count }
    requires value { IsFresh (V.meaning lent.now.versions.now) new.now.key (object_of new.now.hub) new.now.weight }
    requires shape { IfSome shape (λ p. (V.meaning lent.now.versions.now).pair storage (object_of new.now.hub) (shaped p (object_of new.now.hub))) }
    ensures ready { IfOk result (λ r. IsReady (V.meaning lent.now.versions.now) new.now.v storage (object_of new.now.hub) new.now.key new.now.weight r.0 r.1) }
    ensures name { IfOk result (λ r. r.2.bytes ≡ new.now.key.name) }
    ensures tool { IsErrOf result ConvFault.Tool → V.Tool.faults tool.old < V.Tool.faults tool.new }
    ensures rises { V.Tool.faults tool.old ≤ V.Tool.faults tool.new }
{
    let (prepared, sealed) = prepare_write(
        lent, tool, new.v, storage, &new.hub, &new.key, new.weight, shape,
    )?;
    let name = Txt::of(lent.alloc, new.key.name())?;
    Ok((prepared, sealed, name))
}

/// How the end of a create is told. It takes no memory.
pub fn told_new<V: Versions>(
    lent: &Context<'_, V>,
    end: CreateEnd,
    sealed: Sealed,
    name: Txt,
) -> Tried
    requires born { (rv : ℕ) → create_end end ≡ done rv rv → rv < 2 ^ 62 }
    requires room { 65 + length sealed.back.bytes ≤ sealed.front.room }
    ensures { (v : ℕ) (h : ObjectView) → Seals (V.meaning lent.now.versions.now) v h sealed
        → Tells (V.meaning lent.now.versions.now) lent.now.boot code_created v name.bytes h (create_end end) result }
{
    match end {
        CreateEnd::Done { rv } => {
            let text = sealed.open(lent.boot, rv, rv);
            Tried::Told(Ok(Reply { code: 201, text }))
        }
        CreateEnd::Unserved => Tried::Told(Err(Refused {
            refusal: Refusal::NoResource,
        })),
        CreateEnd::AlreadyExists => Tried::Told(Err(Refused {
            refusal: Refusal::AlreadyExists { name },
        })),
        CreateEnd::StorageMoved { now } => Tried::Moved(now),
        CreateEnd::Full(room) => Tried::Told(Err(Refused {
            refusal: Refusal::Full { room },
        })),
    }
}

/// What a create makes of an admitted value.
pub fn fresh_of<V: Versions>(
    lent: &Context<'_, V>,
    input: &Incoming<'_>,
    stamp: Stamp,
    admitted: Admitted,
) -> Result<Fresh, NoMemory>
    requires stamp { IsStamp stamp.text }
    requires request { IsRequest (V.meaning lent.now.versions.now) (request_of input.now) }
    requires admits { (V.meaning lent.now.versions.now).admits (request_of input.now) (object_of admitted.hub) admitted.expected }
    requires weighs { IsTrue (V.meaning lent.now.versions.now).honest → Weighs (V.meaning lent.now.versions.now) (object_of admitted.hub) admitted.weight }
    requires some { 0 < admitted.weight }
    ensures v { IfOk result (λ n. n.v ≡ input.now.version) }
    ensures hub { IfOk result (λ n. object_of n.hub ≡ created_value stamp.text (object_of admitted.hub)) }
    ensures weight { IfOk result (λ n. n.weight ≡ admitted.weight) }
    ensures value { IfOk result (λ n. IsFresh (V.meaning lent.now.versions.now) n.key (object_of n.hub) n.weight) }
{
    // Asked for what its clause says: the weight is that of the value with its stamps.
    one_weight::<V>();
    let Admitted {
        hub,
        weight,
        expected: _,
        shape,
    } = admitted;
    drop(shape);
    let hub = new_value(hub, stamp);
    let key = match Key::of(lent.alloc, input.ns, hub.meta.name.as_str()) {
        Ok(key) => key,
        Err(fault) => {
            drop(hub);
            return Err(fault);
        }
    };
    Ok(Fresh {
        v: input.version,
        hub,
        key,
        weight,
    })
}
