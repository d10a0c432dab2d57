//! Storage migrations, as they are shown.
ghost use Rattle.std.specs.Prelude.{◌≡◌, ◌<◌, []};
ghost use Rattle.api_calls.specs.Calls.{migration, migrations};
ghost use Rattle.call_texts.specs.Told.{told};
ghost use Rattle.shared_api.specs.Answered.{CallsOn};
ghost use Rattle.shared_api.specs.Base.{server_of};
ghost use Rattle.shared_api.specs.Passes.{IsOf};

use crate::api::{Pass, SharedApi};
use crate::look_migrations::look_migrations;
use api_calls::{Refusal, Reply, Versions};
use call_texts::plain;
use setting_texts::{all_migrations, one_migration};
use std::sync::Wait;

impl<V: Versions + Drop> SharedApi<V> {
    /// The storage migration of a name, with its condition: 200 with its text (storagemigration.k8s.io/v1alpha1,
    /// StorageVersionMigration), or `NotFound` where none was started under the name.
    pub fn migration<R: Wait>(
        &self,
        rt: &R,
        pass: &mut Pass<V>,
        name: &str,
    ) -> Result<Reply, Refusal>
        requires of { IsOf V.meaning self.now pass.old }
        ensures of { IsOf V.meaning self.now pass.new }
        ensures answer { CallsOn (server_of V.meaning self.now.base) ⊥ [] pass.old.view pass.new.view (migration name.now) (told result) }
        ensures tool { pass.new.tool ≡ pass.old.tool }
    {
        let lent = self.given();
        let looked = look_migrations(rt, self.alloc, &self.turn, &mut pass.turn);
        plain(one_migration(&lent, name, looked))
    }

    /// All storage migrations by name: 200 with their list. It is refused for want of memory alone.
    pub fn migrations<R: Wait>(&self, rt: &R, pass: &mut Pass<V>) -> Result<Reply, Refusal>
        requires of { IsOf V.meaning self.now pass.old }
        ensures of { IsOf V.meaning self.now pass.new }
        ensures answer { CallsOn (server_of V.meaning self.now.base) ⊥ [] pass.old.view pass.new.view migrations (told result) }
        ensures tool { pass.new.tool ≡ pass.old.tool }
    {
        let lent = self.given();
        let looked = look_migrations(rt, self.alloc, &self.turn, &mut pass.turn);
        plain(all_migrations(&lent, looked))
    }
}
