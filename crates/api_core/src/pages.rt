//! Pages of the objects, as they stand or as they stood at a number that is still known.
ghost use Rattle.std.specs.Prelude.{◌≡◌, ◌≤◌, List, IfErr, IfOk, map, option_copied, option_map};
ghost use Rattle.kube_meta.specs.Page.{listed, page_of};
ghost use Rattle.record_store.specs.Copies.{copied};
ghost use Rattle.record_store.specs.View.{item_key, items_at};
ghost use Rattle.api_calls.specs.Item.{Item};
ghost use Rattle.api_calls.specs.Pages.{page_decision};
ghost use Rattle.api_core.specs.Pages.{IsPageOf, RefusesPage, ShowsPage, place_of};
ghost use Rattle.api_core.specs.Prepared.{seen_item};
ghost use Rattle.api_core.specs.CoreOf.{StandsFor};

use crate::page_ends::{Page, PageFault, SeenItems};
use crate::present::Core;
use crate::seen::Seen;
use api_calls::{Token, Versions, is_served};
use kj_value::NoMemory;
use kube_meta::Key;
use record_store::{StoredRecord, page_of_history};
use std::alloc::Global;

fn seen_of(stored: StoredRecord) -> Seen
    ensures { seen_item result ≡ copied stored }
{
    let StoredRecord { key, record, text } = stored;
    Seen {
        key,
        bytes: text,
        at: record.at,
        rv: record.rv,
        born: record.born,
        weight: record.weight,
    }
}

fn seen_items(alloc: Global, records: Vec<StoredRecord>) -> Result<SeenItems, NoMemory>
    ensures { IfOk result (λ seen. map seen_item seen ≡ map copied records.items) }
{
    let mut items = Vec::with_capacity(alloc, records.len())?;
    for stored in records {
        items.push(seen_of(stored))?;
    }
    Ok(SeenItems::of(items))
}

impl<V: Versions> Core<V> {
    /// A page of the objects of a namespace by rising key, up to a limit, where limit 0 means none, and how many are left
    /// behind them. No namespace asks for all. Without a token the page is of the revision, from the first key on; with
    /// one it goes on behind the token's key, at the token's number. The faults are tried in the order of `PageFault`;
    /// `NoMemory` comes where there is no memory for the copies.
    pub fn page(
        &self,
        alloc: Global,
        v: u8,
        ns: Option<&str>,
        token: Option<&Token>,
        limit: u64,
    ) -> Result<Page, PageFault>
        ensures shows { IfOk result (λ p. (log : List Item) → StandsFor V.meaning self.now log
            → ShowsPage (V.meaning self.now.versions) p
            (page_decision self.now.view.limits (V.meaning self.now.versions) log v (option_copied ns.entry) limit (option_map place_of (option_copied token.entry)))) }
        ensures refuses { IfErr result (λ f. (log : List Item) → StandsFor V.meaning self.now log
            → RefusesPage f
            (page_decision self.now.view.limits (V.meaning self.now.versions) log v (option_copied ns.entry) limit (option_map place_of (option_copied token.entry)))) }
    {
        // Asked for what its clause says: a page of the store is one of the history.
        page_of_history::<Core<V>>();
        if !is_served(&self.flags, v) {
            return Err(PageFault::Unserved);
        }
        let Some(token) = token else {
            let number = self.present_number();
            let page = self.page_at(alloc, ns, None, number, limit)?;
            return Ok(page);
        };
        let revision = self.revision;
        if revision < token.rv {
            return Err(PageFault::Ahead { revision });
        }
        let floor = self.store.floor();
        if token.rv < floor {
            return Err(PageFault::Expired { floor });
        }
        let page = self.page_at(alloc, ns, Some(&token.key), token.rv, limit)?;
        Ok(page)
    }

    // The revision, which is never below the floor.
    fn present_number(&self) -> u64
        ensures revision { result ≡ self.now.view.revision }
        ensures known { self.now.view.store.floor ≤ result }
    {
        // Asked for what its clause says: the floor is at most the last change, or 1.
        let _count = self.store.len();
        self.revision
    }

    // The page at a number that is still known.
    fn page_at(
        &self,
        alloc: Global,
        ns: Option<&str>,
        after: Option<&Key>,
        rv: u64,
        limit: u64,
    ) -> Result<Page, NoMemory>
        requires { self.now.view.store.floor ≤ rv }
        ensures { IfOk result (λ p. IsPageOf p
            (page_of rv limit (listed item_key (option_copied ns.entry) (option_copied after.entry) (items_at rv self.now.view.store)))) }
    {
        let found = self.store.page_at(alloc, ns, after, rv, limit)?;
        let remaining = found.remaining;
        let items = seen_items(alloc, found.items)?;
        Ok(Page {
            rv,
            items,
            remaining,
        })
    }
}
