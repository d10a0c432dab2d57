//! What a write stores and shows, made before its turn.
ghost use Rattle.std.specs.Prelude.{◌≡◌, ◌<◌, ◌≤◌, IfOk, IfSome, IsErrOf, IsTrue, pos, ℕ};
ghost use Rattle.kube_meta.specs.Shapes.{shaped};
ghost use Rattle.kube_meta.specs.View.{object_of};
ghost use Rattle.api_calls.specs.Legal.{key_of};
ghost use Rattle.api_calls.specs.Meaning.{Weighs};
ghost use Rattle.api_calls.specs.Versions.{IsStored};
ghost use Rattle.write_texts.specs.Readying.{IsReady};
ghost use Rattle.write_texts.specs.Sealed.{Seals};

use crate::moving::within;
use crate::seal::{Sealed, both, seal};
use api_calls::{ConvFault, Versions, one_weight, stored_fits};
use api_core::Prepared;
use call_texts::{Context, stored_text};
use kj_value::Txt;
use kube_meta::{Key, Object, Shape, copy_shaped};

// The object in whose form a hub value is stored at a version: by a shape that was made for it, or converted.
fn stored_form<V: Versions>(
    lent: &Context<'_, V>,
    tool: &mut V::Tool,
    storage: u8,
    hub: &Object,
    shape: Option<Shape>,
) -> Result<Object, ConvFault>
    requires known { storage < (V.meaning lent.now.versions.now).count }
    requires whole { (V.meaning lent.now.versions.now).whole (object_of hub.now) }
    requires shape { IfSome shape (λ p. (V.meaning lent.now.versions.now).pair storage (object_of hub.now) (shaped p (object_of hub.now))) }
    ensures form { IfOk result (λ x. (V.meaning lent.now.versions.now).pair storage (object_of hub.now) (object_of x)) }
    ensures tool { IsErrOf result ConvFault.Tool → V.Tool.faults tool.old < V.Tool.faults tool.new }
    ensures rises { V.Tool.faults tool.old ≤ V.Tool.faults tool.new }
{
    let Some(shape) = shape else {
        return lent.versions.form(lent.alloc, tool, storage, hub);
    };
    let form = copy_shaped(lent.alloc, hub, shape)?;
    Ok(form)
}

// The text in which a hub value is stored at a version, and the one that shows it at another. Where the two versions are
// one, it is made once.
fn texts<V: Versions>(
    lent: &Context<'_, V>,
    tool: &mut V::Tool,
    v: u8,
    storage: u8,
    hub: &Object,
    shape: Option<Shape>,
) -> Result<(Txt, Sealed), ConvFault>
    requires known { v < (V.meaning lent.now.versions.now).count }
    requires storage { storage < (V.meaning lent.now.versions.now).count }
    requires whole { (V.meaning lent.now.versions.now).whole (object_of hub.now) }
    requires shape { IfSome shape (λ p. (V.meaning lent.now.versions.now).pair storage (object_of hub.now) (shaped p (object_of hub.now))) }
    ensures stored { IfOk result (λ r. IsStored (V.meaning lent.now.versions.now) storage (object_of hub.now) r.0.bytes) }
    ensures seals { IfOk result (λ r. Seals (V.meaning lent.now.versions.now) v (object_of hub.now) r.1) }
    ensures tool { IsErrOf result ConvFault.Tool → V.Tool.faults tool.old < V.Tool.faults tool.new }
    ensures rises { V.Tool.faults tool.old ≤ V.Tool.faults tool.new }
{
    let form = stored_form(lent, tool, storage, hub, shape)?;
    if v == storage {
        let texts = both(lent.alloc, &form);
        drop(form);
        return Ok(texts?);
    }
    let bytes = stored_text(lent.alloc, &form);
    drop(form);
    let bytes = bytes?;
    let shown = lent.versions.form(lent.alloc, tool, v, hub)?;
    let sealed = seal(lent.alloc, &shown);
    drop(shown);
    Ok((bytes, sealed?))
}

/// A hub value, ready to be stored at a version and to be shown at another. Where there is a shape, by which it becomes the
/// form that is stored, that form isn't converted. It takes no turn. `Tool` comes only where the tool's count of faults rose.
pub fn prepare_write<V: Versions>(
    lent: &Context<'_, V>,
    tool: &mut V::Tool,
    v: u8,
    storage: u8,
    hub: &Object,
    key: &Key,
    weight: u64,
    shape: Option<Shape>,
) -> Result<(Prepared, Sealed), ConvFault>
    requires known { v < (V.meaning lent.now.versions.now).count }
    requires storage { storage < (V.meaning lent.now.versions.now).count }
    requires whole { (V.meaning lent.now.versions.now).whole (object_of hub.now) }
    requires key { IsTrue (V.meaning lent.now.versions.now).honest → key_of (object_of hub.now) ≡ key.now }
    requires weighs { IsTrue (V.meaning lent.now.versions.now).honest → Weighs (V.meaning lent.now.versions.now) (object_of hub.now) weight }
    requires counts { IsTrue (V.meaning lent.now.versions.now).honest → (n : ℕ) × ((object_of hub.now).meta.generation ≡ pos n) }
    requires shape { IfSome shape (λ p. (V.meaning lent.now.versions.now).pair storage (object_of hub.now) (shaped p (object_of hub.now))) }
    ensures ready { IfOk result (λ r. IsReady (V.meaning lent.now.versions.now) v storage (object_of hub.now) key.now weight r.0 r.1) }
    ensures tool { IsErrOf result ConvFault.Tool → V.Tool.faults tool.old < V.Tool.faults tool.new }
    ensures rises { V.Tool.faults tool.old ≤ V.Tool.faults tool.new }
{
    // Asked for what their clauses say: a stored text is within its value's weight, which isn't 0.
    stored_fits::<V>();
    one_weight::<V>();
    let (bytes, sealed) = texts(lent, tool, v, storage, hub, shape)?;
    within::<V>(&bytes, weight)?;
    let key = key.shared()?;
    let prepared = Prepared {
        key,
        at: storage,
        bytes,
        weight,
    };
    Ok((prepared, sealed))
}
