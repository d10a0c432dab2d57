//! A get of an object's stored text.
ghost use Rattle.std.specs.Prelude.{◌≡◌, [], List, None, IfOk};
ghost use Rattle.api_calls.specs.Calls.{raw};
ghost use Rattle.api_calls.specs.Item.{Item};
ghost use Rattle.api_calls.specs.Replies.{RawReply};
ghost use Rattle.api_calls.specs.State.{state};
ghost use Rattle.api_core.specs.Prepared.{Sees};
ghost use Rattle.call_texts.specs.Told.{Came, decided};

use crate::context::Context;
use crate::refused::Refused;
use api_calls::{Refusal, Reply, Versions};
use api_core::{Peeked, Seen};
use kj_value::{NoMemory, Txt};
use kube_meta::Key;

impl<V: Versions> Context<'_, V> {
    /// The reply to a raw get of what a look saw.
    pub fn got_raw(&self, key: &Key, looked: Result<Peeked, NoMemory>) -> Result<Reply, Refused>
        ensures came { (log : List Item) → IfOk looked (λ p. Sees (V.meaning self.now.versions.now) log key.now p)
            → Came ⊥ (RawReply (V.meaning self.now.versions.now) (state (V.meaning self.now.versions.now) log) key.now) (decided result) None }
    {
        let peeked = looked?;
        let Peeked {
            flags: _,
            revision: _,
            found,
        } = peeked;
        let Some(seen) = found else {
            let name = Txt::of(self.alloc, key.name())?;
            return Err(Refused {
                refusal: Refusal::NotFound { name },
            });
        };
        let Seen {
            key: _,
            bytes,
            at: _,
            rv: _,
            born: _,
            weight: _,
        } = seen;
        Ok(Reply {
            code: 200,
            text: bytes,
        })
    }
}
