//! The group, with the versions that are served.
ghost use Rattle.std.specs.Prelude.{◌≡◌, ◌<◌, ◌≤◌, ◌∷◌, [], if◌then◌else◌};
ghost use Rattle.api_calls.specs.Calls.{group};
ghost use Rattle.api_calls.specs.State.{served};
ghost use Rattle.call_texts.specs.Told.{told};
ghost use Rattle.shared_api.specs.Answered.{CallsOn};
ghost use Rattle.shared_api.specs.Base.{server_of};
ghost use Rattle.shared_api.specs.Passes.{IsOf};

use crate::api::{Pass, SharedApi};
use crate::settle::settle;
use api_calls::{Refusal, Reply, Versions, priority};
use call_texts::plain;
use setting_texts::group;
use std::sync::Wait;

impl<V: Versions + Drop> SharedApi<V> {
    /// The group with the versions that are served, by their priority: 200 with its text (v1, APIGroup). It is refused for
    /// want of memory alone.
    pub fn group_doc<R: Wait>(&self, rt: &R, pass: &mut Pass<V>) -> Result<Reply, Refusal>
        requires of { IsOf V.meaning self.now pass.old }
        ensures of { IsOf V.meaning self.now pass.new }
        ensures answer { CallsOn (server_of V.meaning self.now.base) ⊥ [] pass.old.view pass.new.view group (told result) }
        ensures tool { pass.new.tool ≡ pass.old.tool }
    {
        let lent = self.given();
        let (flags, _stored) = settle(rt, &self.turn, &mut pass.turn);
        plain(group(&lent, &flags))
    }
}
