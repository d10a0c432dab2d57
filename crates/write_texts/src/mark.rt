//! The value of an object that stays with a deletion stamp, made before its turn.
ghost use Rattle.std.specs.Prelude.{◌≡◌, ◌<◌, ◌≤◌, IfOk, IsErrOf, IsTrue, pos, ℕ};
ghost use Rattle.kube_meta.specs.View.{ObjectView, object_of};
ghost use Rattle.api_calls.specs.Legal.{key_of};
ghost use Rattle.api_calls.specs.Meaning.{Weighs};
ghost use Rattle.api_calls.specs.Objects.{marked};
ghost use Rattle.api_calls.specs.Values.{has_finalizer, is_marked};
ghost use Rattle.api_calls.specs.Versions.{IsStamp, IsStored};
ghost use Rattle.write_texts.specs.inner.Marking.{HoldsAs};
ghost use Rattle.write_texts.specs.Readying.{IsReady};

use crate::prepare::prepare_write;
use crate::seal::Sealed;
use api_calls::{ConvFault, Versions, one_weight, read_form};
use api_core::Prepared;
use call_texts::Context;
use kj_value::{NoMemory, Stamp};
use kube_meta::{Key, Object};

/// Whether an object has a finalizer, and whether it is being deleted.
#[derive(Clone, Copy, Drop)]
pub(crate) struct Holding {
    pub held: bool,
    pub marked: bool,
}

fn told_by(form: &Object) -> Holding
    ensures held { result.held ≡ has_finalizer (object_of form.now) }
    ensures marked { result.marked ≡ is_marked (object_of form.now) }
{
    Holding {
        held: form.meta.finalizers.len() != 0,
        marked: form.meta.deleted.is_some(),
    }
}

// A value with a deletion stamp.
fn stamped(mut hub: Object, stamp: Stamp) -> Object
    ensures { object_of result ≡ marked stamp.text (object_of hub) }
{
    hub.meta.deleted = Some(stamp);
    hub
}

/// What a stored text tells of an object's finalizers and its deletion stamp, which are the same at every version. It
/// converts nothing.
pub(crate) fn holding_of<V: Versions>(
    lent: &Context<'_, V>,
    at: u8,
    bytes: &[u8],
) -> Result<Holding, NoMemory>
    requires { (h : ObjectView) × IsStored (V.meaning lent.now.versions.now) at h bytes.now }
    ensures { (h : ObjectView) → IsStored (V.meaning lent.now.versions.now) at h bytes.now
        → IfOk result (λ r. HoldsAs (V.meaning lent.now.versions.now) h r.held r.marked) }
{
    let form = read_form(lent.alloc, bytes)?;
    let told = told_by(&form);
    drop(form);
    Ok(told)
}

/// The value of an object with a deletion stamp, ready to be stored at a version and to be shown at another, and the
/// value. It takes no turn. `Tool` comes only where the tool's count of faults rose.
pub fn prepare_mark<V: Versions>(
    lent: &Context<'_, V>,
    tool: &mut V::Tool,
    v: u8,
    storage: u8,
    old: Object,
    key: &Key,
    weight: u64,
    stamp: Stamp,
) -> Result<(Prepared, Sealed, Object), ConvFault>
    requires known { v < (V.meaning lent.now.versions.now).count }
    requires storage { storage < (V.meaning lent.now.versions.now).count }
    requires whole { (V.meaning lent.now.versions.now).whole (object_of old) }
    requires stamp { IsStamp stamp.text }
    requires key { IsTrue (V.meaning lent.now.versions.now).honest → key_of (object_of old) ≡ key.now }
    requires weighs { IsTrue (V.meaning lent.now.versions.now).honest → Weighs (V.meaning lent.now.versions.now) (object_of old) weight }
    requires counts { IsTrue (V.meaning lent.now.versions.now).honest → (n : ℕ) × ((object_of old).meta.generation ≡ pos n) }
    ensures ready { IfOk result (λ r. IsReady (V.meaning lent.now.versions.now) v storage (marked stamp.text (object_of old)) key.now weight r.0 r.1) }
    ensures value { IfOk result (λ r. object_of r.2 ≡ marked stamp.text (object_of old)) }
    ensures tool { IsErrOf result ConvFault.Tool → V.Tool.faults tool.old < V.Tool.faults tool.new }
    ensures rises { V.Tool.faults tool.old ≤ V.Tool.faults tool.new }
{
    // Asked for what its clause says: the weight is that of the value with its stamp.
    one_weight::<V>();
    let hub = stamped(old, stamp);
    let (prepared, sealed) = match prepare_write(lent, tool, v, storage, &hub, key, weight, None) {
        Ok(made) => made,
        Err(fault) => {
            drop(hub);
            return Err(fault);
        }
    };
    Ok((prepared, sealed, hub))
}
