//! A delete of an object.
ghost use Rattle.std.specs.Prelude.{◌≡◌, ◌≢◌, ◌⊎◌, ◌+◌, ◌<◌, ◌≤◌, ◌^◌, Err, IfOk, IsErrOf, List, Some, if◌then◌else◌, length, ℕ};
ghost use Rattle.kube_meta.specs.View.{ObjectView, object_of};
ghost use Rattle.kube_meta.specs.declared.limits.Limits.{Limits};
ghost use Rattle.api_calls.specs.Calls.{delete};
ghost use Rattle.api_calls.specs.Ends.{done, kept};
ghost use Rattle.api_calls.specs.Item.{Item};
ghost use Rattle.api_calls.specs.Legal.{legal};
ghost use Rattle.api_calls.specs.Refusal.{no_memory, not_found};
ghost use Rattle.api_calls.specs.State.{revision};
ghost use Rattle.api_calls.specs.Versions.{AreFlags, IsStamp, IsStored};
ghost use Rattle.api_core.specs.Ends.{delete_end};
ghost use Rattle.api_core.specs.Prepared.{Sees};
ghost use Rattle.call_texts.specs.Told.{decided, told};
ghost use Rattle.write_texts.specs.Leavings.{IsLeaving, IsSaid, LeavesSeen, MarksSeen, TellsMark, TellsPlain};

use crate::deleted::deleted_text;
use crate::mark::{holding_of, prepare_mark};
use crate::seal::Sealed;
use api_calls::{BORN_END, ConvFault, Refusal, Reply, Versions, is_served, one_stored};
use api_core::{DeleteEnd, Peeked, Prepared, Seen};
use call_texts::{Context, Refused, plain};
use kj_value::{NoMemory, Stamp, Txt};
use kube_meta::{Key, Object};

/// What is ready of a delete before its turn.
#[derive(Drop)]
pub enum Leaving {
    /// The object is being deleted already: its text as it is, and nothing to enter.
    Told(Reply),
    /// The object has no finalizer, and was seen at a number: the Status of its delete.
    Plain {
        number: u64,
        text: Txt,
    },
    /// The object has a finalizer, and was seen at a number: its value with a deletion stamp.
    Mark {
        number: u64,
        born: u64,
        new: Prepared,
        sealed: Sealed,
        hub: Object,
    },
}

/// How an attempt at a delete came out: the answer, or that another's item stands between, and nothing was entered.
#[derive(Drop)]
pub enum DeleteTry {
    Told(Result<Reply, Refused>),
    Again,
}

// The value of what was seen, with a deletion stamp, ready to be stored and to be shown at a version.
fn mark_of<V: Versions>(
    lent: &Context<'_, V>,
    tool: &mut V::Tool,
    v: u8,
    storage: u8,
    key: &Key,
    seen: &Seen,
    stamp: Stamp,
) -> Result<(Prepared, Sealed, Object), ConvFault>
    requires known { v < (V.meaning lent.now.versions.now).count }
    requires storage { storage < (V.meaning lent.now.versions.now).count }
    requires stamp { IsStamp stamp.text }
    requires said { IsSaid (V.meaning lent.now.versions.now) key.now seen.now }
    ensures marks { (h : ObjectView) → IsStored (V.meaning lent.now.versions.now) seen.now.at h seen.now.bytes.bytes
        → IfOk result (λ r. MarksSeen (V.meaning lent.now.versions.now) v key.now stamp.text seen.now h r.0 r.1 (object_of r.2)) }
    ensures tool { IsErrOf result ConvFault.Tool → V.Tool.faults tool.old < V.Tool.faults tool.new }
    ensures rises { V.Tool.faults tool.old ≤ V.Tool.faults tool.new }
{
    // Asked for what its clause says: a stored text has one hub value.
    one_stored::<V>();
    let bytes = seen.bytes.as_str().as_bytes();
    let old = lent.versions.hub_of(lent.alloc, tool, seen.at, bytes)?;
    prepare_mark(lent, tool, v, storage, old, key, seen.weight, stamp)
}

// What is ready of a delete of what was seen, which a plain one converts nothing for.
fn leaving_seen<V: Versions>(
    lent: &Context<'_, V>,
    tool: &mut V::Tool,
    v: u8,
    storage: u8,
    key: &Key,
    seen: &Seen,
    stamp: Stamp,
) -> Result<Leaving, Refused>
    requires known { v < (V.meaning lent.now.versions.now).count }
    requires storage { storage < (V.meaning lent.now.versions.now).count }
    requires stamp { IsStamp stamp.text }
    requires born { seen.now.born < BORN_END }
    requires said { IsSaid (V.meaning lent.now.versions.now) key.now seen.now }
    ensures leaves { (h : ObjectView) → IsStored (V.meaning lent.now.versions.now) seen.now.at h seen.now.bytes.bytes
        → LeavesSeen (V.meaning lent.now.versions.now) lent.now.boot (V.Tool.faults tool.old < V.Tool.faults tool.new) v key.now stamp.text seen.now h result }
    ensures rises { V.Tool.faults tool.old ≤ V.Tool.faults tool.new }
{
    let holding = holding_of(lent, seen.at, seen.bytes.as_str().as_bytes())?;
    if !holding.held {
        let text = deleted_text(lent, key.name(), seen.born)?;
        return Ok(Leaving::Plain {
            number: seen.rv,
            text,
        });
    }
    if holding.marked {
        let reply = lent.show(tool, v, seen)?;
        return Ok(Leaving::Told(reply));
    }
    let (new, sealed, hub) = mark_of(lent, tool, v, storage, key, seen, stamp)?;
    Ok(Leaving::Mark {
        number: seen.rv,
        born: seen.born,
        new,
        sealed,
        hub,
    })
}

/// What is ready of a delete by a look, or why there is nothing.
pub fn leaving_of<V: Versions>(
    lent: &Context<'_, V>,
    tool: &mut V::Tool,
    v: u8,
    key: &Key,
    stamp: Stamp,
    looked: Result<Peeked, NoMemory>,
) -> Result<Leaving, Refused>
    requires stamp { IsStamp stamp.text }
    requires flags { IfOk looked (λ p. AreFlags (V.meaning lent.now.versions.now).count p.flags) }
    requires sees { (log : List Item) × (limits : Limits) × legal (V.meaning lent.now.versions.now) limits log × (revision log ≤ 2 ^ 61)
        × IfOk looked (λ p. Sees (V.meaning lent.now.versions.now) log key.now p) }
    ensures ready { (log : List Item) → (revision log ≤ 2 ^ 61) → IfOk looked (λ p. Sees (V.meaning lent.now.versions.now) log key.now p)
        → IsLeaving (V.meaning lent.now.versions.now) lent.now.boot (V.Tool.faults tool.old < V.Tool.faults tool.new) log v key.now stamp.text result }
    ensures rises { V.Tool.faults tool.old ≤ V.Tool.faults tool.new }
{
    let peeked = looked?;
    let Peeked {
        flags,
        revision: _,
        found,
    } = peeked;
    if !is_served(&flags, v) {
        return Err(Refused {
            refusal: Refusal::NoResource,
        });
    }
    let Some(seen) = found else {
        let name = Txt::of(lent.alloc, key.name())?;
        return Err(Refused {
            refusal: Refusal::NotFound { name },
        });
    };
    leaving_seen(lent, tool, v, flags.storage, key, &seen, stamp)
}

/// How the end of a plain delete is told. Where it entered an item it takes no memory.
pub fn told_removed<V: Versions>(
    lent: &Context<'_, V>,
    end: DeleteEnd,
    key: &Key,
    text: Txt,
) -> DeleteTry
    requires removes { (rv born : ℕ) → delete_end end ≢ kept rv born }
    ensures { TellsPlain key.now.name text.bytes (delete_end end) result }
{
    match end {
        DeleteEnd::Done { rv: _, born: _ } => DeleteTry::Told(Ok(Reply { code: 200, text })),
        DeleteEnd::Kept { rv: _, born: _ } => unreachable!(),
        DeleteEnd::Unserved => DeleteTry::Told(Err(Refused {
            refusal: Refusal::NoResource,
        })),
        DeleteEnd::NotFound => DeleteTry::Told(gone(lent, key)),
        DeleteEnd::Moved { newer: _ } => DeleteTry::Again,
        DeleteEnd::StorageMoved { now: _ } => DeleteTry::Again,
    }
}

/// How the end of a mark is told. Where it entered an item it takes no memory.
pub fn told_marked<V: Versions>(
    lent: &Context<'_, V>,
    end: DeleteEnd,
    key: &Key,
    sealed: Sealed,
    born: u64,
) -> DeleteTry
    requires keeps { (rv born : ℕ) → delete_end end ≢ done rv born }
    requires born { born < BORN_END }
    requires room { 65 + length sealed.back.bytes ≤ sealed.front.room }
    ensures { TellsMark lent.now.boot key.now.name sealed born (delete_end end) result }
{
    match end {
        DeleteEnd::Kept { rv, born: _ } => {
            let text = sealed.open(lent.boot, rv, born);
            DeleteTry::Told(Ok(Reply { code: 200, text }))
        }
        DeleteEnd::Done { rv: _, born: _ } => unreachable!(),
        DeleteEnd::Unserved => DeleteTry::Told(Err(Refused {
            refusal: Refusal::NoResource,
        })),
        DeleteEnd::NotFound => DeleteTry::Told(gone(lent, key)),
        DeleteEnd::Moved { newer: _ } => DeleteTry::Again,
        DeleteEnd::StorageMoved { now: _ } => DeleteTry::Again,
    }
}

// No object has the key.
fn gone<V: Versions>(lent: &Context<'_, V>, key: &Key) -> Result<Reply, Refused>
    ensures { (decided result ≡ Err (not_found key.now.name)) ⊎ (decided result ≡ Err no_memory) }
{
    let name = Txt::of(lent.alloc, key.name())?;
    Err(Refused {
        refusal: Refusal::NotFound { name },
    })
}
