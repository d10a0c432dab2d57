//! A get of an object at a version.
ghost use Rattle.std.specs.Prelude.{◌≡◌, ◌<◌, ◌≤◌, ◌^◌, [], ℕ};
ghost use Rattle.api_calls.specs.Calls.{get};
ghost use Rattle.shared_api.specs.Base.{server_of};
ghost use Rattle.call_texts.specs.Told.{told};
ghost use Rattle.shared_api.specs.Answered.{CallsOn};
ghost use Rattle.shared_api.specs.Passes.{IsOf};
ghost use Rattle.call_texts.specs.Places.{IsPlace};

use crate::api::{Pass, SharedApi};
use crate::look::look;
use api_calls::{Refusal, Reply, Versions};
use call_texts::{Refused, place_of, plain};
use kube_meta::Key;
use std::sync::Wait;

impl<V: Versions + Drop> SharedApi<V> {
    /// The object of a key at a version (API Concepts, "Resource URIs"): 200 with its text. Refused with `NoResource` where
    /// no served version has the name, then with `NotFound` where no object has the key.
    pub fn get<R: Wait>(
        &self,
        rt: &R,
        pass: &mut Pass<V>,
        version: &str,
        key: &Key,
    ) -> Result<Reply, Refusal>
        requires of { IsOf V.meaning self.now pass.old }
        ensures of { IsOf V.meaning self.now pass.new }
        ensures answer { (v : ℕ) × IsPlace (V.meaning self.now.base.versions) version.now v
            × CallsOn (server_of V.meaning self.now.base) (V.Tool.faults pass.old.tool < V.Tool.faults pass.new.tool) []
            pass.old.view pass.new.view (get v key.now) (told result) }
        ensures rises { V.Tool.faults pass.old.tool ≤ V.Tool.faults pass.new.tool }
    {
        let lent = self.given();
        let v = place_of(lent.versions, version);
        let looked = look(rt, self.alloc, &self.turn, &mut pass.turn, key);
        plain(lent.got(&mut pass.tool, &mut pass.cache, v, key, looked))
    }
}
