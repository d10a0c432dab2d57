//! Any link as the other end of a client's exchanges.
ghost use Rattle.std.specs.Prelude.{◌≡◌, None};
ghost use Rattle.wire_client.specs.Far.{NoAnswers};

use crate::far::{Far, Serving};
use edge_io::{Link, LinkFault};
use std::alloc::Global;

/// What is known of no server.
#[derive(Clone, Copy, Drop)]
pub struct NoServer;

impl Serving for NoServer {
    ghost server = { λ _. NoAnswers };
}

/// A link of which nothing more is known than of any: it tells no history.
#[derive(Drop)]
pub struct PlainFar<L> {
    link: L,
}

impl<L: Link> PlainFar<L> {
    /// The link as another end.
    pub fn new(link: L) -> PlainFar<L>
        ensures exchanges { ⟦<PlainFar<L> as Link>⟧.exchanges result ≡ L.exchanges link }
        ensures faults { ⟦<PlainFar<L> as Link>⟧.faults result ≡ L.faults link }
    {
        PlainFar { link }
    }

    /// The link again.
    pub fn into_link(self) -> L
        ensures exchanges { L.exchanges result ≡ ⟦<PlainFar<L> as Link>⟧.exchanges self }
        ensures faults { L.faults result ≡ ⟦<PlainFar<L> as Link>⟧.faults self }
    {
        let PlainFar { link } = self;
        link
    }
}

impl<L: Link> Link for PlainFar<L> {
    ghost exchanges = { λ f. L.exchanges f.link };

    ghost faults = { λ f. L.faults f.link };

    fn exchange(&mut self, alloc: Global, request: &[u8]) -> Result<Vec<u8>, LinkFault> {
        self.link.exchange(alloc, request)
    }
}

impl<L: Link> Far for PlainFar<L> {
    type Of = NoServer;

    ghost base = { λ _. record {} };

    ghost log = { λ _. None };

    fn send(&mut self, alloc: Global, request: &[u8]) -> Result<Vec<u8>, LinkFault> {
        self.link.exchange(alloc, request)
    }
}
