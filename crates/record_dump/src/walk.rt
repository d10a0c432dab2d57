//! Where a dump stands between two pages.
ghost use Rattle.std.specs.Prelude.{◌≡◌, ◌<◌, ◌≤◌, ◌/◌, IsTrue, false, option_map};
ghost use Rattle.wire_client.specs.Keys.{texts_key};
ghost use Rattle.record_dump.specs.Dumps.{at_first};
ghost use Rattle.record_dump.specs.inner.Seen.{walk_of, IsWalking};

use far_migrate::FIRST_LIMIT;
use kj_value::Txt;
use kube_meta::Key;
use std::alloc::Global;
use wire_client::KeyTexts;

/// Where a dump stands between two pages.
#[derive(Drop)]
pub(crate) struct Walk {
    pub limit: u64,
    pub token: Txt,
    pub last: Option<Key>,
    pub listed: u64,
}

impl Walk {
    /// At the first page.
    pub(crate) fn new(alloc: Global) -> Walk
        ensures start { walk_of result ≡ at_first }
        ensures walking { IsWalking result }
    {
        Walk {
            limit: FIRST_LIMIT,
            token: Txt::of_string(String::new(alloc)),
            last: None,
            listed: 0,
        }
    }

    /// The last key of the pages so far, lent.
    pub(crate) fn last_key(&self) -> Option<KeyTexts<'_>>
        ensures { option_map texts_key result ≡ (walk_of self.now).last }
    {
        match &self.last {
            Some(key) => Some(KeyTexts {
                ns: key.ns(),
                name: key.name(),
            }),
            None => None,
        }
    }

    /// Halves the objects of a page, where there are two at least, and answers whether it did.
    pub(crate) fn halve(&mut self) -> bool
        requires { IsWalking self.old }
        ensures walking { IsWalking self.new }
        ensures yes { IsTrue result → (1 < self.old.limit) × (walk_of self.new ≡ record (walk_of self.old) { limit = self.old.limit / 2 }) }
        ensures no { result ≡ false → self.old.limit ≤ 1 }
    {
        if self.limit <= 1 {
            return false;
        }
        self.limit = self.limit / 2;
        true
    }
}
