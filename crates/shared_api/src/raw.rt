//! A get of an object's stored text.
ghost use Rattle.std.specs.Prelude.{◌≡◌, []};
ghost use Rattle.api_calls.specs.Calls.{raw};
ghost use Rattle.call_texts.specs.Told.{told};
ghost use Rattle.shared_api.specs.Answered.{CallsOn};
ghost use Rattle.shared_api.specs.Base.{server_of};
ghost use Rattle.shared_api.specs.Passes.{IsOf};

use crate::api::{Pass, SharedApi};
use crate::look::look;
use api_calls::{Refusal, Reply, Versions};
use call_texts::plain;
use kube_meta::Key;
use std::sync::Wait;

impl<V: Versions + Drop> SharedApi<V> {
    /// The stored text of the object of a key, at the version at which it stands: 200 with it, or `NotFound` where no
    /// object has the key. It converts nothing.
    pub fn raw<R: Wait>(&self, rt: &R, pass: &mut Pass<V>, key: &Key) -> Result<Reply, Refusal>
        requires of { IsOf V.meaning self.now pass.old }
        ensures of { IsOf V.meaning self.now pass.new }
        ensures answer { CallsOn (server_of V.meaning self.now.base) ⊥ [] pass.old.view pass.new.view (raw key.now) (told result) }
        ensures tool { pass.new.tool ≡ pass.old.tool }
    {
        let lent = self.given();
        let looked = look(rt, self.alloc, &self.turn, &mut pass.turn, key);
        plain(lent.got_raw(key, looked))
    }
}
