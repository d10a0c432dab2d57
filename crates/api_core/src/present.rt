//! The present of the server, and looks at it.
ghost use Rattle.std.specs.Prelude.{◌≡◌, ◌+◌, ◌<◌, ◌^◌, List, [], ℕ, IfOk, option_map};
ghost use Rattle.std.specs.Arc.{arc_value};
ghost use Rattle.record_store.specs.ByKey.{find};
ghost use Rattle.record_store.specs.View.{item_key};
ghost use Rattle.api_calls.specs.Item.{Item};
ghost use Rattle.api_calls.specs.Versions.{AreFlags, IsStoredList, versions_of};
ghost use Rattle.api_core.specs.Prepared.{Sees, seen_item};
ghost use Rattle.api_core.specs.CoreOf.{StandsFor};

use crate::seen::{Peeked, Seen};
use api_calls::{Flags, StoredList, Versions};
use kj_value::NoMemory;
use kube_meta::{Key, Limits};
use migrate_core::Migrations;
use record_store::Store;
use std::alloc::Global;
use std::marker::Model;
use std::sync::Arc;

/// The present of the server of a definition.
pub struct Core<V: Versions> {
    pub(crate) versions: Arc<V>,
    pub(crate) limits: Limits,
    pub(crate) boot: u64,
    pub(crate) flags: Flags,
    pub(crate) stored: StoredList,
    pub(crate) revision: u64,
    pub(crate) store: Store,
    pub(crate) migrations: Migrations,
}

impl<V: Versions + Drop> Drop for Core<V> {
    fn drop(self) {
        let Core {
            versions: _,
            limits: _,
            boot: _,
            flags: _,
            stored: _,
            revision: _,
            store: _,
            migrations: _,
        } = self;
    }
}

impl<V: Versions> Model for Core<V> {
    ghost use Rattle.std.specs.Arc.{arc_value};
    ghost use Rattle.api_calls.specs.Versions.{versions_of};
    ghost use Rattle.api_core.specs.CoreOf.{CoreOf, IsCore};

    ghost Value = { CoreOf V };

    ghost view = { λ c. record {
      versions = arc_value c.versions;
      view = record {
        limits = c.limits;
        boot = c.boot;
        flags = c.flags;
        stored = versions_of c.stored;
        revision = c.revision;
        store = c.store;
        migrations = c.migrations;
      };
    } };

    ghost invariant = { λ c. IsCore (V.meaning (arc_value c.versions)).count c.store.last c.revision c.flags c.stored };
}

impl<V: Versions + Drop> Core<V> {
    /// The core of a server that nothing has happened to, with the definition's opening flags. It takes the memory that
    /// these limits ask for; `NoMemory` comes where there is none.
    pub fn open(
        alloc: Global,
        versions: Arc<V>,
        limits: Limits,
        boot: u64,
    ) -> Result<Core<V>, NoMemory>
        requires { limits.chunks + limits.window_chunks < 2 ^ 32 }
        ensures stands { IfOk result (λ c. StandsFor V.meaning c []) }
        ensures versions { IfOk result (λ c. c.versions ≡ arc_value versions) }
        ensures limits { IfOk result (λ c. c.view.limits ≡ limits) }
        ensures boot { IfOk result (λ c. c.view.boot ≡ boot) }
    {
        let store = Store::open(alloc, limits)?;
        let migrations = Migrations::open(alloc, limits.migrations)?;
        let flags = versions.opening();
        let mut items = [0; 8];
        items[0] = flags.storage;
        Ok(Core {
            versions,
            limits,
            boot,
            flags,
            stored: StoredList { len: 1, items },
            revision: 1,
            store,
            migrations,
        })
    }
}

impl<V: Versions> Core<V> {
    /// The flags, the stored list and the revision. It takes no memory.
    pub fn settings(&self) -> (Flags, StoredList, u64)
        ensures flags { result.0 ≡ self.now.view.flags }
        ensures stored { versions_of result.1 ≡ self.now.view.stored }
        ensures revision { result.2 ≡ self.now.view.revision }
        ensures are_flags { AreFlags (V.meaning self.now.versions).count result.0 }
        ensures is_list { IsStoredList (V.meaning self.now.versions).count result.1 }
    {
        (self.flags, self.stored, self.revision)
    }

    /// What stands under a key, copied, with the flags and the revision.
    pub fn peek(&self, alloc: Global, key: &Key) -> Result<Peeked, NoMemory>
        ensures sees { IfOk result (λ p. (log : List Item) → StandsFor V.meaning self.now log → Sees (V.meaning self.now.versions) log key.now p) }
        ensures flags { IfOk result (λ p. p.flags ≡ self.now.view.flags) }
        ensures are_flags { IfOk result (λ p. AreFlags (V.meaning self.now.versions).count p.flags) }
        ensures revision { IfOk result (λ p. p.revision ≡ self.now.view.revision) }
        ensures found { IfOk result (λ p. option_map seen_item p.found ≡ find item_key key.now self.now.view.store.items) }
    {
        let found = self.seen(alloc, key)?;
        Ok(Peeked {
            flags: self.flags,
            revision: self.revision,
            found,
        })
    }

    fn seen(&self, alloc: Global, key: &Key) -> Result<Option<Seen>, NoMemory>
        ensures { IfOk result (λ s. option_map seen_item s ≡ find item_key key.now self.now.view.store.items) }
    {
        let Some((record, bytes)) = self.store.read(alloc, key)? else {
            return Ok(None);
        };
        let key = key.shared()?;
        Ok(Some(Seen {
            key,
            bytes,
            at: record.at,
            rv: record.rv,
            born: record.born,
            weight: record.weight,
        }))
    }
}
