//! The definition, as it is shown.
ghost use Rattle.std.specs.Prelude.{◌≡◌, []};
ghost use Rattle.api_calls.specs.Calls.{crd};
ghost use Rattle.call_texts.specs.Told.{told};
ghost use Rattle.shared_api.specs.Answered.{CallsOn};
ghost use Rattle.shared_api.specs.Base.{server_of};
ghost use Rattle.shared_api.specs.Passes.{IsOf};

use crate::api::{Pass, SharedApi};
use crate::settle::settle;
use api_calls::{Refusal, Reply, Versions};
use call_texts::plain;
use setting_texts::definition;
use std::sync::Wait;

impl<V: Versions + Drop> SharedApi<V> {
    /// The definition with its flags and its stored versions: 200 with its text (apiextensions.k8s.io/v1,
    /// CustomResourceDefinition). It is refused for want of memory alone.
    pub fn crd<R: Wait>(&self, rt: &R, pass: &mut Pass<V>) -> Result<Reply, Refusal>
        requires of { IsOf V.meaning self.now pass.old }
        ensures of { IsOf V.meaning self.now pass.new }
        ensures answer { CallsOn (server_of V.meaning self.now.base) ⊥ [] pass.old.view pass.new.view crd (told result) }
        ensures tool { pass.new.tool ≡ pass.old.tool }
    {
        let lent = self.given();
        let (flags, stored) = settle(rt, &self.turn, &mut pass.turn);
        plain(definition(&lent, &flags, &stored))
    }
}
