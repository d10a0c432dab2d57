//! Where a migration stands between two pages.
ghost use Rattle.std.specs.Prelude.{◌≡◌, ◌<◌, ◌+◌, ◌-◌, ◌/◌, option_map};
ghost use Rattle.wire_client.specs.Keys.{texts_key};
ghost use Rattle.far_migrate.specs.Pages.{at_first};
ghost use Rattle.far_migrate.specs.inner.Runs.{run_of, Halved, Restarts, IsRunning};

use crate::ending::OTHER;
use crate::tally::{FarFault, Tally};
use kj_value::Txt;
use kube_meta::Key;
use std::alloc::Global;
use wire_client::KeyTexts;

/// The most objects of a page at first.
pub const FIRST_LIMIT: u64 = 500;

/// The most objects of one list.
pub const MOST_OBJECTS: u64 = 1_000_000;

/// How often a list begins again.
pub const MOST_RESTARTS: u32 = 16;

/// The most puts of an object.
pub const MOST_PUTS: u32 = 4;

/// Where a migration stands between two pages.
#[derive(Drop)]
pub(crate) struct Run {
    pub limit: u64,
    pub expired: u32,
    pub token: Txt,
    pub last: Option<Key>,
    pub counts: Tally,
}

// No object yet.
const NOTHING: Tally = Tally {
    listed: 0,
    written: 0,
    unchanged: 0,
    gone: 0,
    contested: 0,
};

impl Run {
    /// At the first page of the first list.
    pub(crate) fn new(alloc: Global) -> Run
        ensures start { run_of result ≡ at_first FIRST_LIMIT 0 }
        ensures running { IsRunning result }
    {
        Run {
            limit: FIRST_LIMIT,
            expired: 0,
            token: Txt::of_string(String::new(alloc)),
            last: None,
            counts: NOTHING,
        }
    }

    /// The last key of the pages of this list, lent.
    pub(crate) fn last_key(&self) -> Option<KeyTexts<'_>>
        ensures { option_map texts_key result ≡ (run_of self.now).last }
    {
        match &self.last {
            Some(key) => Some(KeyTexts {
                ns: key.ns(),
                name: key.name(),
            }),
            None => None,
        }
    }

    /// Halves the objects of a page, where there are two at least.
    pub(crate) fn halve(&mut self) -> Result<(), FarFault>
        requires { IsRunning self.old }
        ensures halved { Halved self.old self.new result }
        ensures running { IsRunning self.new }
    {
        if self.limit <= 1 {
            return Err(OTHER);
        }
        self.limit = self.limit / 2;
        Ok(())
    }

    /// Begins the list again, where it may.
    pub(crate) fn restart(&mut self, alloc: Global) -> Result<(), FarFault>
        requires { IsRunning self.old }
        ensures restarts { Restarts self.old self.new result }
        ensures running { IsRunning self.new }
    {
        if self.expired >= MOST_RESTARTS {
            return Err(FarFault::Restarted);
        }
        self.expired += 1;
        self.token = Txt::of_string(String::new(alloc));
        self.last = None;
        self.counts = NOTHING;
        Ok(())
    }
}
