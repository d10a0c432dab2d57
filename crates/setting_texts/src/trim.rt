//! A trim of the stored versions.
ghost use Rattle.std.specs.Prelude.{◌≡◌, ◌<◌, ◌≤◌, [], false, None, Some, Err, IfOk, IfErr, Option};
ghost use Rattle.api_calls.specs.Calls.{trim};
ghost use Rattle.api_calls.specs.Cause.{cause_of};
ghost use Rattle.api_calls.specs.Item.{Item};
ghost use Rattle.api_calls.specs.Refusal.{refusal_of, still_stored};
ghost use Rattle.api_calls.specs.Replies.{IsBadBody, definition_subject, stored_versions, trim_answer};
ghost use Rattle.api_calls.specs.Versions.{IsStoredList, versions_of};
ghost use Rattle.api_core.specs.Ends.{trim_end};
ghost use Rattle.kj_value.specs.declared.rule.Rule.TheVariants as rule;
ghost use Rattle.call_texts.specs.Told.{Came, decided};
ghost use Rattle.setting_texts.specs.Changing.{HasVersion, ShowsChange, is_trimmed};

use crate::set::{room_to_show, showing};
use api_calls::{Cause, Flags, Refusal, Reply, StoredList, Versions};
use api_core::TrimEnd;
use call_texts::{Context, Refused, bad_definition, not_read};
use kj_value::{NoMemory, Rule, Txt};
use kube_meta::{Key, KeySpot};
use std::alloc::Global;

// The key, copied, where there is one.
fn copied(alloc: Global, key: Option<KeySpot>) -> Result<Option<Key>, NoMemory>
    ensures { IfOk result (λ k. k ≡ key) }
{
    let Some(spot) = key else {
        return Ok(None);
    };
    let key = spot.key(alloc)?;
    Ok(Some(key))
}

// A version that isn't in the stored list.
fn unknown_version(alloc: Global) -> Result<Cause, NoMemory>
    ensures { IfOk result (λ c. cause_of c ≡ record { field = stored_versions; rule = rule.Unknown }) }
{
    let field = Txt::of(alloc, "status.storedVersions")?;
    Ok(Cause {
        field,
        rule: Rule::Unknown,
    })
}

/// The versions that a body keeps, and an empty text with room for the definition's.
pub fn keep_in<V: Versions>(
    lent: &Context<'_, V>,
    bytes: &[u8],
) -> Result<(StoredList, Txt), Refused>
    ensures keeps { IfOk result (λ r. (V.meaning lent.now.versions.now).keeps bytes.now (versions_of r.0)) }
    ensures legal { IfOk result (λ r. IsStoredList (V.meaning lent.now.versions.now).count r.0) }
    ensures empty { IfOk result (λ r. r.1.bytes ≡ []) }
    ensures room { IfOk result (λ r. (V.meaning lent.now.versions.now).show_room ≤ r.1.room) }
    ensures refused { IfErr result (λ e. Came ⊥ (IsBadBody ((V.meaning lent.now.versions.now).refuses_keep bytes.now)
        (definition_subject (V.meaning lent.now.versions.now))) (Err (refusal_of e.refusal)) None) }
{
    let keep = match lent.versions.read_keep(lent.alloc, bytes) {
        Ok(keep) => keep,
        Err(fault) => return Err(not_read(lent.alloc, lent.versions, fault)),
    };
    let text = room_to_show(lent)?;
    Ok((keep, text))
}

// A version that isn't kept and has to be: the storage version, or that of the object of a key.
fn held<V: Versions>(
    lent: &Context<'_, V>,
    v: u8,
    key: Option<KeySpot>,
) -> Result<Refusal, NoMemory>
    requires { v < (V.meaning lent.now.versions.now).count }
    ensures { IfOk result (λ r. refusal_of r ≡ still_stored ((V.meaning lent.now.versions.now).name v) key) }
{
    let version = Txt::of(lent.alloc, lent.versions.name(v).as_str())?;
    let key = copied(lent.alloc, key)?;
    Ok(Refusal::StillStored { version, key })
}

/// The answer to a trim that ended so. Where it entered an item it takes no memory.
pub fn trimmed<V: Versions>(
    lent: &Context<'_, V>,
    end: TrimEnd,
    flags: &Flags,
    stored: &StoredList,
    text: Txt,
) -> Result<Reply, Refused>
    requires empty { text.bytes ≡ [] }
    requires room { (V.meaning lent.now.versions.now).show_room ≤ text.room }
    requires flags { flags.now.storage < (V.meaning lent.now.versions.now).count }
    requires stored { IsStoredList (V.meaning lent.now.versions.now).count stored.now }
    requires held { HasVersion (V.meaning lent.now.versions.now).count (trim_end end) }
    ensures came { ShowsChange (trim_end end) flags.now (versions_of stored.now)
        → (i : Option Item) → (is_trimmed (trim_end end) ≡ false → i ≡ None)
        → Came ⊥ (λ a j. (a ≡ trim_answer (V.meaning lent.now.versions.now) (trim_end end)) × (j ≡ i)) (decided result) i }
{
    match end {
        TrimEnd::Done {
            rv: _,
            flags: _,
            stored: _,
        } => Ok(showing(lent, flags, stored, text)),
        TrimEnd::Unchanged {
            flags: _,
            stored: _,
        } => Ok(showing(lent, flags, stored, text)),
        TrimEnd::Unknown { v: _ } => {
            let cause = unknown_version(lent.alloc)?;
            Err(bad_definition(lent.alloc, lent.versions, cause))
        }
        TrimEnd::StillStored { v, key } => {
            let refusal = held(lent, v, key)?;
            Err(Refused { refusal })
        }
    }
}
