//! The records of the store, as a migration reads them.
ghost use Rattle.std.specs.Prelude.{◌≡◌};

use kube_meta::KeySpot;
use migrate_core::{Records, Row};
use record_store::Store;

/// The records of a store, lent.
#[derive(Drop)]
pub(crate) struct StoreRows<'a> {
    pub(crate) store: &'a Store,
}

impl Records for StoreRows<'_> {
    ghost use Rattle.std.specs.Prelude.{map};
    ghost use Rattle.api_core.specs.Steps.{item_row};

    ghost rows = { λ r. map item_row r.store.now.items };

    fn next_from(&self, after: Option<&KeySpot>) -> Option<Row> {
        // Asked for what its clause says: the keys rise.
        let _count = self.store.len();
        match self.store.next_from(after) {
            Some((key, record)) => Some(Row {
                key,
                at: record.at,
                rv: record.rv,
            }),
            None => None,
        }
    }
}
