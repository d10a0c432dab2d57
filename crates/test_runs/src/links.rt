//! The links of a case: one kind, so that the program stands in the tests once.
use crate::reviewing::{Reviewer, Rules};
use edge_io::{Link, LinkFault};
use kj_value::NoMemory;
use std::alloc::Global;
use tcp_links::{Links, MemLent, MemLinks};

/// A link to a converter by rules, or one that has its answers. It tells no exchanges.
pub(crate) struct CaseLink<'a> {
    given: MemLent,
    reviewer: Option<Reviewer<'a>>,
}

impl<'a> Drop for CaseLink<'a> {
    fn drop(self) {
        let CaseLink {
            given: _,
            reviewer: _,
        } = self;
    }
}

impl<'a> CaseLink<'a> {
    fn given(self) -> MemLent {
        let CaseLink { given, reviewer: _ } = self;
        given
    }
}

impl<'a> Link for CaseLink<'a> {
    ghost use Rattle.std.specs.Prelude.{None};

    ghost exchanges = { λ l. None };

    ghost faults = { λ l. l.given.calls.faults };

    fn exchange(&mut self, alloc: Global, request: &[u8]) -> Result<Vec<u8>, LinkFault> {
        match &self.reviewer {
            Some(reviewer) => Ok(reviewer.respond(alloc, request)?),
            None => self.given.exchange(alloc, request),
        }
    }
}

/// Makes such links.
pub(crate) struct CaseLinks<'a> {
    given: MemLinks,
    rules: Option<Rules<'a>>,
}

impl<'a> Drop for CaseLinks<'a> {
    fn drop(self) {
        let CaseLinks { given: _, rules: _ } = self;
    }
}

impl<'a> CaseLinks<'a> {
    /// Links that have their answers, or, with rules, that review by these.
    pub(crate) fn new(given: MemLinks, rules: Option<Rules<'a>>) -> CaseLinks<'a> {
        CaseLinks { given, rules }
    }

    /// Those that have their answers, which tell what was asked of them.
    pub(crate) fn given(&self) -> &MemLinks {
        &self.given
    }
}

impl<'a> Links for CaseLinks<'a> {
    type One = CaseLink<'a>;

    ghost use Rattle.std.specs.Prelude.{None};

    ghost asked = { λ s. None };

    ghost peer = { λ l. None };

    ghost returned = { λ s. None };

    fn make(&mut self, alloc: Global, host: &str, port: u16) -> Result<CaseLink<'a>, NoMemory> {
        let given = self.given.make(alloc, host, port)?;
        let reviewer = match self.rules {
            Some(rules) => Some(rules.at(host, port)),
            None => None,
        };
        Ok(CaseLink { given, reviewer })
    }

    fn back(&mut self, link: CaseLink<'a>) {
        self.given.back(link.given())
    }
}
