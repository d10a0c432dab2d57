//! Lists of objects at a version, page by page.
ghost use Rattle.std.specs.Prelude.{◌≡◌, ◌<◌, ◌≤◌, ◌++◌, [], ℕ, option_copied, option_map};
ghost use Rattle.api_calls.specs.Calls.{list};
ghost use Rattle.api_core.specs.Pages.{place_of};
ghost use Rattle.call_texts.specs.Told.{told};
ghost use Rattle.shared_api.specs.Answered.{CallsOn};
ghost use Rattle.shared_api.specs.Base.{server_of};
ghost use Rattle.shared_api.specs.Passes.{IsOf};
ghost use Rattle.call_texts.specs.Places.{IsPlace};

use crate::api::{Pass, SharedApi};
use crate::look_page::look_page;
use api_calls::{Refusal, Reply, Token, Versions};
use call_texts::{Refused, place_of, plain};
use std::sync::Wait;

impl<V: Versions + Drop> SharedApi<V> {
    /// A page of the objects at a version by rising key (API Concepts, "Retrieving large results sets in chunks"): 200 with
    /// it. No namespace asks for all, limit 0 means no limit, and a token goes on behind its key, at its number. Refused
    /// with `NoResource` where no served version has the name, then with `BadRequest` where the token's number is above
    /// the revision, then with `Expired` where what stood at it isn't known any more.
    pub fn list<R: Wait>(
        &self,
        rt: &R,
        pass: &mut Pass<V>,
        version: &str,
        ns: Option<&str>,
        limit: u64,
        token: Option<&Token>,
    ) -> Result<Reply, Refusal>
        requires of { IsOf V.meaning self.now pass.old }
        ensures of { IsOf V.meaning self.now pass.new }
        ensures answer { (v : ℕ) × IsPlace (V.meaning self.now.base.versions) version.now v
            × CallsOn (server_of V.meaning self.now.base) (V.Tool.faults pass.old.tool < V.Tool.faults pass.new.tool) []
            pass.old.view pass.new.view (list v (option_copied ns.entry) limit (option_map place_of (option_copied token.entry))) (told result) }
        ensures rises { V.Tool.faults pass.old.tool ≤ V.Tool.faults pass.new.tool }
    {
        let lent = self.given();
        let v = place_of(lent.versions, version);
        let looked = look_page(
            rt,
            self.alloc,
            &self.turn,
            &mut pass.turn,
            v,
            ns,
            limit,
            token,
        );
        plain(lent.listed(&mut pass.tool, &mut pass.cache, v, looked))
    }
}
