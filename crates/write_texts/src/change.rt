//! What a replace changes, made of an admitted value and of what was seen under its key.
ghost use Rattle.std.specs.Prelude.{◌≡◌, ◌⊎◌, ◌<◌, ◌≤◌, ℕ, Some, IfErr, IfOk, IfSome, IsErrOf, IsSome};
ghost use Rattle.kube_meta.specs.View.{ObjectView, object_of};
ghost use Rattle.api_calls.specs.Refusal.{no_memory, refusal_of};
ghost use Rattle.api_calls.specs.Versions.{IsStored};
ghost use Rattle.write_texts.specs.Replacing.{Changes, Misses, RefusesReplace, Updates};

use crate::update::{Update, update_of};
use api_calls::{Admitted, ConvFault, Refusal, Versions};
use api_core::Seen;
use call_texts::{Context, Refused, no_finalizer};
use kj_value::Txt;
use kube_meta::{Key, Object};
use std::alloc::Global;

/// The update of an object that stands at a number.
#[derive(Drop)]
pub struct Change {
    /// The version of the request, by its place.
    pub v: u8,
    pub hub: Object,
    pub weight: u64,
    /// The number at which the object stands, and that of its creation.
    pub over: u64,
    pub born: u64,
    /// The version at which it is stored.
    pub at: u8,
    /// The update is the value that stands there.
    pub equal: bool,
    /// It takes the last finalizer from an object that is being deleted, which removes it.
    pub release: bool,
}

// What was seen of the object that a request replaces, where it stands at the request's number.
fn seen_at(alloc: Global, key: &Key, found: Option<Seen>, over: u64) -> Result<Seen, Refused>
    ensures seen { IfOk result (λ s. (found ≡ Some s) × (s.rv ≡ over)) }
    ensures misses { IfErr result (λ e. (refusal_of e.refusal ≡ no_memory) ⊎ Misses key.now over found (refusal_of e.refusal)) }
{
    let Some(seen) = found else {
        let name = Txt::of(alloc, key.name())?;
        return Err(Refused {
            refusal: Refusal::NotFound { name },
        });
    };
    if seen.rv == over {
        return Ok(seen);
    }
    let newer = seen.rv;
    drop(seen);
    let name = Txt::of(alloc, key.name())?;
    Err(Refused {
        refusal: Refusal::Conflict { name, newer },
    })
}

// What a replace makes of an admitted value over what was seen.
fn updated<V: Versions>(
    lent: &Context<'_, V>,
    tool: &mut V::Tool,
    seen: &Seen,
    new: Object,
) -> Result<Update, ConvFault>
    requires stored { (h : ObjectView) × IsStored (V.meaning lent.now.versions.now) seen.now.at h seen.now.bytes.bytes }
    requires whole { (V.meaning lent.now.versions.now).whole (object_of new) }
    ensures updates { IfOk result (Updates (V.meaning lent.now.versions.now) seen.now.at seen.now.bytes.bytes (object_of new)) }
    ensures tool { IsErrOf result ConvFault.Tool → V.Tool.faults tool.old < V.Tool.faults tool.new }
    ensures rises { V.Tool.faults tool.old ≤ V.Tool.faults tool.new }
{
    let bytes = seen.bytes.as_str().as_bytes();
    let old = match lent.versions.hub_of(lent.alloc, tool, seen.at, bytes) {
        Ok(old) => old,
        Err(fault) => {
            drop(new);
            return Err(fault);
        }
    };
    let update = update_of(lent.alloc, new, old)?;
    Ok(update)
}

// What was seen of the object that a request replaces, and what the replace makes of an admitted value over it.
fn seen_and_updated<V: Versions>(
    lent: &Context<'_, V>,
    tool: &mut V::Tool,
    key: &Key,
    found: Option<Seen>,
    over: u64,
    new: Object,
) -> Result<(Seen, Update), Refused>
    requires stored { IfSome found (λ s. (h : ObjectView) × IsStored (V.meaning lent.now.versions.now) s.at h s.bytes.bytes) }
    requires whole { (V.meaning lent.now.versions.now).whole (object_of new) }
    ensures seen { IfOk result (λ p. (found ≡ Some p.0) × (p.0.rv ≡ over)) }
    ensures updates { IfOk result (λ p. Updates (V.meaning lent.now.versions.now) p.0.at p.0.bytes.bytes (object_of new) p.1) }
    ensures refuses { IfErr result (λ e. RefusesReplace (V.meaning lent.now.versions.now) (V.Tool.faults tool.old < V.Tool.faults tool.new) key.now over found (object_of new) (refusal_of e.refusal)) }
    ensures rises { V.Tool.faults tool.old ≤ V.Tool.faults tool.new }
{
    let seen = match seen_at(lent.alloc, key, found, over) {
        Ok(seen) => seen,
        Err(refused) => {
            drop(new);
            return Err(refused);
        }
    };
    match updated(lent, tool, &seen, new) {
        Ok(update) => Ok((seen, update)),
        Err(fault) => {
            drop(seen);
            Err(Refused::from(fault))
        }
    }
}

/// What a replace of the object at the admitted number changes; or why it changes nothing.
pub fn changing<V: Versions>(
    lent: &Context<'_, V>,
    tool: &mut V::Tool,
    v: u8,
    key: &Key,
    found: Option<Seen>,
    admitted: Admitted,
) -> Result<Change, Refused>
    requires stored { IfSome found (λ s. (h : ObjectView) × IsStored (V.meaning lent.now.versions.now) s.at h s.bytes.bytes) }
    requires whole { (V.meaning lent.now.versions.now).whole (object_of admitted.hub) }
    requires expected { IsSome admitted.expected }
    ensures changes { IfOk result (λ c. (over : ℕ) × (admitted.expected ≡ Some over)
        × Changes (V.meaning lent.now.versions.now) v over admitted.weight found (object_of admitted.hub) c) }
    ensures refuses { IfErr result (λ e. (over : ℕ) × (admitted.expected ≡ Some over)
        × RefusesReplace (V.meaning lent.now.versions.now) (V.Tool.faults tool.old < V.Tool.faults tool.new) key.now over found (object_of admitted.hub) (refusal_of e.refusal)) }
    ensures rises { V.Tool.faults tool.old ≤ V.Tool.faults tool.new }
{
    let Admitted {
        hub: new,
        weight,
        expected,
        shape,
    } = admitted;
    drop(shape);
    let Some(over) = expected else { unreachable!() };
    let (seen, update) = seen_and_updated(lent, tool, key, found, over, new)?;
    let born = seen.born;
    let at = seen.at;
    drop(seen);
    let Update {
        hub,
        equal,
        forbidden,
        release,
    } = update;
    if forbidden {
        drop(hub);
        return Err(no_finalizer(lent.alloc, lent.versions, key.name()));
    }
    Ok(Change {
        v,
        hub,
        weight,
        over,
        born,
        at,
        equal,
        release,
    })
}
