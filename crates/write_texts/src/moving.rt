//! A stored object at another version.
ghost use Rattle.std.specs.Prelude.{◌≡◌, ◌≢◌, ◌<◌, ◌≤◌, ◌*◌, ◌↔◌, ℕ, pos, IfOk, IfErr, IsErrOf, IsOk, IsTrue, length};
ghost use Rattle.kube_meta.specs.View.{ObjectView};
ghost use Rattle.api_calls.specs.Meaning.{Weighs};
ghost use Rattle.api_calls.specs.Versions.{IsStored};
ghost use Rattle.api_core.specs.Keeps.{IsText};
ghost use Rattle.api_core.specs.Prepared.{IsSized};

use api_calls::{ConvFault, Versions, one_stored, one_weight, stored_fits};
use api_core::{Prepared, Seen};
use call_texts::Context;
use kj_value::Txt;

// Whether a text takes no more than so many chunks of 256 bytes, of which there is one at least.
fn fits(text: &Txt, chunks: u64) -> bool
    ensures { IsTrue result ↔ ((chunks ≢ 0) × (length text.now.bytes ≤ 256 * chunks)) }
{
    let bytes = text.len() as u64;
    let full = bytes / 256;
    let within = full < chunks || (full == chunks && bytes % 256 == 0);
    chunks != 0 && within
}

/// A stored text is within its weight, which isn't 0. Only where it isn't known what values mean may it be longer, and
/// then there is no room for it.
pub(crate) fn within<V: Versions>(text: &Txt, weight: u64) -> Result<(), ConvFault>
    requires known { IsTrue V.HONEST → (weight ≢ 0) × (length text.now.bytes ≤ 256 * weight) }
    ensures known { IsTrue V.HONEST → IsOk result }
    ensures within { IfOk result (λ _. (weight ≢ 0) × (length text.now.bytes ≤ 256 * weight)) }
    ensures longer { IfErr result (λ e. e ≡ ConvFault.NoMemory) }
{
    if V::HONEST || fits(text, weight) {
        Ok(())
    } else {
        Err(ConvFault::NoMemory)
    }
}

// The stored text at another version of what a stored text says.
fn restored<V: Versions>(
    lent: &Context<'_, V>,
    tool: &mut V::Tool,
    target: u8,
    at: u8,
    bytes: &[u8],
) -> Result<Txt, ConvFault>
    requires known { target < (V.meaning lent.now.versions.now).count }
    requires stored { (h : ObjectView) × IsStored (V.meaning lent.now.versions.now) at h bytes.now }
    ensures text { IfOk result (λ t. (g : ObjectView) × IsStored (V.meaning lent.now.versions.now) at g bytes.now
        × IsStored (V.meaning lent.now.versions.now) target g t.bytes) }
    ensures tool { IsErrOf result ConvFault.Tool → V.Tool.faults tool.old < V.Tool.faults tool.new }
    ensures rises { V.Tool.faults tool.old ≤ V.Tool.faults tool.new }
{
    let hub = lent.versions.hub_of(lent.alloc, tool, at, bytes)?;
    lent.into_stored(tool, target, hub)
}

/// What was seen of an object, ready to be stored at another version.
pub fn moved<V: Versions>(
    lent: &Context<'_, V>,
    tool: &mut V::Tool,
    target: u8,
    seen: Seen,
) -> Result<Prepared, ConvFault>
    requires known { target < (V.meaning lent.now.versions.now).count }
    requires stored { (h : ObjectView) × IsStored (V.meaning lent.now.versions.now) seen.at h seen.bytes.bytes
        × (IsTrue V.HONEST → Weighs (V.meaning lent.now.versions.now) h seen.weight × (n : ℕ) × (h.meta.generation ≡ pos n)) }
    ensures sized { IfOk result IsSized }
    ensures key { IfOk result (λ p. p.key ≡ seen.key) }
    ensures at { IfOk result (λ p. p.at ≡ target) }
    ensures weight { IfOk result (λ p. p.weight ≡ seen.weight) }
    ensures text { IfOk result (λ p. (h : ObjectView) → IsStored (V.meaning lent.now.versions.now) seen.at h seen.bytes.bytes
        → IsText (V.meaning lent.now.versions.now) target h p.bytes.bytes) }
    ensures tool { IsErrOf result ConvFault.Tool → V.Tool.faults tool.old < V.Tool.faults tool.new }
    ensures rises { V.Tool.faults tool.old ≤ V.Tool.faults tool.new }
{
    // Asked for what their clauses say: a stored text has one hub value, and is within its weight.
    one_stored::<V>();
    one_weight::<V>();
    stored_fits::<V>();
    let Seen {
        key,
        bytes,
        at,
        rv: _,
        born: _,
        weight,
    } = seen;
    let bytes = restored(lent, tool, target, at, bytes.as_str().as_bytes())?;
    within::<V>(&bytes, weight)?;
    Ok(Prepared {
        key,
        at: target,
        bytes,
        weight,
    })
}
