//! A replace of an object.
ghost use Rattle.std.specs.Prelude.{◌≡◌, ◌+◌, ◌<◌, ◌≤◌, ◌^◌, ◌↔◌, [], ℕ, None, IfOk, IfSome, IsErrOf, IsTrue, length, pos};
ghost use Rattle.kube_meta.specs.Shapes.{shaped};
ghost use Rattle.kube_meta.specs.View.{ObjectView, object_of};
ghost use Rattle.api_calls.specs.Calls.{replace};
ghost use Rattle.api_calls.specs.Ends.{done};
ghost use Rattle.api_calls.specs.Legal.{key_of};
ghost use Rattle.api_calls.specs.Meaning.{Weighs};
ghost use Rattle.api_calls.specs.Replies.{ShowsObject, Wrote, code_ok};
ghost use Rattle.api_core.specs.Ends.{release_end, replace_end};
ghost use Rattle.call_texts.specs.Told.{Came, decided, told};
ghost use Rattle.write_texts.specs.Readying.{IsReady, Tells};
ghost use Rattle.write_texts.specs.Sealed.{Seals};

use crate::change::Change;
use crate::prepare::prepare_write;
use crate::seal::{Sealed, seal};
use crate::tried::Tried;
use api_calls::{BORN_END, ConvFault, Refusal, Reply, Versions};
use api_core::{Prepared, ReleaseEnd, ReplaceEnd};
use call_texts::{Context, Refused};
use kj_value::Txt;
use kube_meta::{Key, Shape};

/// What a replace stores and shows, and the object's name for a refusal that tells it. Where there is a shape, by which the value
/// becomes the form that is stored, that form isn't converted.
pub fn ready_over<V: Versions>(
    lent: &Context<'_, V>,
    tool: &mut V::Tool,
    storage: u8,
    key: &Key,
    change: &Change,
    shape: Option<Shape>,
) -> Result<(Prepared, Sealed, Txt), ConvFault>
    requires known { change.now.v < (V.meaning lent.now.versions.now).count }
    requires storage { storage < (V.meaning lent.now.versions.now).count }
    requires whole { (V.meaning lent.now.versions.now).whole (object_of change.now.hub) }
    requires key { key_of (object_of change.now.hub) ≡ key.now }
    requires weighs { IsTrue (V.meaning lent.now.versions.now).honest → Weighs (V.meaning lent.now.versions.now) (object_of change.now.hub) change.now.weight }
    requires counts { IsTrue (V.meaning lent.now.versions.now).honest → (n : ℕ) × ((object_of change.now.hub).meta.generation ≡ pos n) }
    requires some { 0 < change.now.weight }
    requires shape { IfSome shape (λ p. (V.meaning lent.now.versions.now).pair storage (object_of change.now.hub) (shaped p (object_of change.now.hub))) }
    ensures ready { IfOk result (λ r. IsReady (V.meaning lent.now.versions.now) change.now.v storage (object_of change.now.hub) key.now change.now.weight r.0 r.1) }
    ensures name { IfOk result (λ r. r.2.bytes ≡ key.now.name) }
    ensures tool { IsErrOf result ConvFault.Tool → V.Tool.faults tool.old < V.Tool.faults tool.new }
    ensures rises { V.Tool.faults tool.old ≤ V.Tool.faults tool.new }
{
    let (prepared, sealed) = prepare_write(
        lent,
        tool,
        change.v,
        storage,
        &change.hub,
        key,
        change.weight,
        shape,
    )?;
    let name = Txt::of(lent.alloc, key.name())?;
    Ok((prepared, sealed, name))
}

/// What a replace shows that removes the object, and the object's name for a refusal that tells it.
pub fn ready_release<V: Versions>(
    lent: &Context<'_, V>,
    tool: &mut V::Tool,
    key: &Key,
    change: &Change,
) -> Result<(Sealed, Txt), ConvFault>
    requires known { change.now.v < (V.meaning lent.now.versions.now).count }
    requires whole { (V.meaning lent.now.versions.now).whole (object_of change.now.hub) }
    ensures seals { IfOk result (λ r. Seals (V.meaning lent.now.versions.now) change.now.v (object_of change.now.hub) r.0) }
    ensures name { IfOk result (λ r. r.1.bytes ≡ key.now.name) }
    ensures tool { IsErrOf result ConvFault.Tool → V.Tool.faults tool.old < V.Tool.faults tool.new }
    ensures rises { V.Tool.faults tool.old ≤ V.Tool.faults tool.new }
{
    let form = lent.versions.form(lent.alloc, tool, change.v, &change.hub)?;
    let sealed = seal(lent.alloc, &form);
    drop(form);
    let sealed = sealed?;
    let name = Txt::of(lent.alloc, key.name())?;
    Ok((sealed, name))
}

/// How the end of a replace is told. It takes no memory.
pub fn told_over<V: Versions>(
    lent: &Context<'_, V>,
    end: ReplaceEnd,
    sealed: Sealed,
    name: Txt,
) -> Tried
    requires born { (rv : ℕ) (born : ℕ) → replace_end end ≡ done rv born → born < 2 ^ 62 }
    requires room { 65 + length sealed.back.bytes ≤ sealed.front.room }
    ensures { (v : ℕ) (h : ObjectView) → Seals (V.meaning lent.now.versions.now) v h sealed
        → Tells (V.meaning lent.now.versions.now) lent.now.boot code_ok v name.bytes h (replace_end end) result }
{
    match end {
        ReplaceEnd::Done { rv, born } => {
            let text = sealed.open(lent.boot, rv, born);
            Tried::Told(Ok(Reply { code: 200, text }))
        }
        ReplaceEnd::Unserved => Tried::Told(Err(Refused {
            refusal: Refusal::NoResource,
        })),
        ReplaceEnd::Gone => Tried::Told(Err(Refused {
            refusal: Refusal::NotFound { name },
        })),
        ReplaceEnd::Moved { newer } => Tried::Told(Err(Refused {
            refusal: Refusal::Conflict { name, newer },
        })),
        ReplaceEnd::StorageMoved { now } => Tried::Moved(now),
        ReplaceEnd::Full(room) => Tried::Told(Err(Refused {
            refusal: Refusal::Full { room },
        })),
    }
}

/// How the end of a release is told. It takes no memory.
pub fn told_release<V: Versions>(
    lent: &Context<'_, V>,
    end: ReleaseEnd,
    sealed: Sealed,
    name: Txt,
) -> Result<Reply, Refused>
    requires born { (rv : ℕ) (born : ℕ) → release_end end ≡ done rv born → born < 2 ^ 62 }
    requires room { 65 + length sealed.back.bytes ≤ sealed.front.room }
    ensures { (v : ℕ) (h : ObjectView) → Seals (V.meaning lent.now.versions.now) v h sealed
        → Wrote (V.meaning lent.now.versions.now) lent.now.boot code_ok v name.bytes h (release_end end) (decided result) }
{
    match end {
        ReleaseEnd::Done { rv, born } => {
            let text = sealed.open(lent.boot, rv, born);
            Ok(Reply { code: 200, text })
        }
        ReleaseEnd::Unserved => Err(Refused {
            refusal: Refusal::NoResource,
        }),
        ReleaseEnd::Gone => Err(Refused {
            refusal: Refusal::NotFound { name },
        }),
        ReleaseEnd::Moved { newer } => Err(Refused {
            refusal: Refusal::Conflict { name, newer },
        }),
    }
}

/// The reply that shows the value which stands there.
pub fn unchanged<V: Versions>(
    lent: &Context<'_, V>,
    tool: &mut V::Tool,
    change: &Change,
) -> Result<Reply, Refused>
    requires known { change.now.v < (V.meaning lent.now.versions.now).count }
    requires whole { (V.meaning lent.now.versions.now).whole (object_of change.now.hub) }
    requires born { change.now.born < BORN_END }
    ensures came { Came (V.Tool.faults tool.old < V.Tool.faults tool.new)
        (λ a _. ShowsObject (V.meaning lent.now.versions.now) lent.now.boot code_ok change.now.v (object_of change.now.hub) change.now.over change.now.born a)
        (decided result) None }
    ensures rises { V.Tool.faults tool.old ≤ V.Tool.faults tool.new }
{
    let text = lent.shown(tool, change.v, change.over, change.born, &change.hub)?;
    Ok(Reply { code: 200, text })
}
