//! A change of the flags.
ghost use Rattle.std.specs.Prelude.{◌≡◌, ◌<◌, ◌≤◌, [], None, Ok, Err, IfOk, IfErr};
ghost use Rattle.api_calls.specs.Refusal.{no_memory, refusal_of};
ghost use Rattle.api_calls.specs.Replies.{IsBadBody, code_ok, definition_subject, said};
ghost use Rattle.api_calls.specs.Reply.{reply_of};
ghost use Rattle.api_calls.specs.Versions.{AreFlags, IsStoredList, versions_of};
ghost use Rattle.call_texts.specs.Told.{Came};

use api_calls::{Flags, Reply, StoredList, Versions};
use call_texts::{Context, Refused, not_read};
use kj_value::Txt;

/// An empty text with room for the definition's.
pub(crate) fn room_to_show<V: Versions>(lent: &Context<'_, V>) -> Result<Txt, Refused>
    ensures empty { IfOk result (λ t. t.bytes ≡ []) }
    ensures room { IfOk result (λ t. (V.meaning lent.now.versions.now).show_room ≤ t.room) }
    ensures refused { IfErr result (λ e. refusal_of e.refusal ≡ no_memory) }
{
    let text = Txt::with_room(lent.alloc, lent.versions.show_room())?;
    Ok(text)
}

/// The reply that shows the definition with these flags and this stored list. It takes no memory.
pub fn showing<V: Versions>(
    lent: &Context<'_, V>,
    flags: &Flags,
    stored: &StoredList,
    mut text: Txt,
) -> Reply
    requires empty { text.bytes ≡ [] }
    requires room { (V.meaning lent.now.versions.now).show_room ≤ text.room }
    requires flags { flags.now.storage < (V.meaning lent.now.versions.now).count }
    requires stored { IsStoredList (V.meaning lent.now.versions.now).count stored.now }
    ensures { Ok (reply_of result) ≡ said code_ok ((V.meaning lent.now.versions.now).shown flags.now (versions_of stored.now)) }
{
    lent.versions.show(flags, stored, &mut text);
    Reply { code: 200, text }
}

/// The flags that a body sets, and an empty text with room for the definition's.
pub fn flags_in<V: Versions>(lent: &Context<'_, V>, bytes: &[u8]) -> Result<(Flags, Txt), Refused>
    ensures sets { IfOk result (λ r. (V.meaning lent.now.versions.now).sets bytes.now r.0) }
    ensures legal { IfOk result (λ r. AreFlags (V.meaning lent.now.versions.now).count r.0) }
    ensures empty { IfOk result (λ r. r.1.bytes ≡ []) }
    ensures room { IfOk result (λ r. (V.meaning lent.now.versions.now).show_room ≤ r.1.room) }
    ensures refused { IfErr result (λ e. Came ⊥ (IsBadBody ((V.meaning lent.now.versions.now).refuses_flags bytes.now)
        (definition_subject (V.meaning lent.now.versions.now))) (Err (refusal_of e.refusal)) None) }
{
    let flags = match lent.versions.read_flags(lent.alloc, bytes) {
        Ok(flags) => flags,
        Err(fault) => return Err(not_read(lent.alloc, lent.versions, fault)),
    };
    let text = room_to_show(lent)?;
    Ok((flags, text))
}
