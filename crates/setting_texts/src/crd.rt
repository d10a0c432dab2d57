//! The definition, as it is shown.
ghost use Rattle.std.specs.Prelude.{◌≡◌, [], None};
ghost use Rattle.api_calls.specs.Replies.{CrdReply};
ghost use Rattle.api_calls.specs.State.{State};
ghost use Rattle.api_calls.specs.Versions.{AreFlags, IsStoredList, versions_of};
ghost use Rattle.call_texts.specs.Told.{Came, decided};

use api_calls::{Flags, Reply, StoredList, Versions};
use call_texts::{Context, Refused};
use kj_value::Txt;

/// The reply that shows the definition with its flags and its stored versions.
pub fn definition<V: Versions>(
    lent: &Context<'_, V>,
    flags: &Flags,
    stored: &StoredList,
) -> Result<Reply, Refused>
    requires flags { AreFlags (V.meaning lent.now.versions.now).count flags.now }
    requires stored { IsStoredList (V.meaning lent.now.versions.now).count stored.now }
    ensures came { (s : State) → flags.now ≡ s.flags → versions_of stored.now ≡ s.stored
        → Came ⊥ (CrdReply (V.meaning lent.now.versions.now) s) (decided result) None }
{
    let mut text = Txt::with_room(lent.alloc, lent.versions.show_room())?;
    lent.versions.show(flags, stored, &mut text);
    Ok(Reply { code: 200, text })
}
