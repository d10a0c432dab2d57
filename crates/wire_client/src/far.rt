//! The other end of a client's exchanges.
ghost use Rattle.std.specs.Prelude.{◌≡◌, ◌≤◌, ℕ, List, Option, IfErr};
ghost use Rattle.edge_io.specs.Causes.{Rose};
ghost use Rattle.edge_io.specs.Exchanges.{Exchange, after_exchange, answer_of, OnBroken};
ghost use Rattle.api_calls.specs.Item.{Item};
ghost use Rattle.wire_client.specs.Far.{Server, ServesTold, answered};

use edge_io::{Link, LinkFault};
use std::alloc::Global;

/// What a server is of.
pub trait Serving {
    /// Which bytes it answers to a request, and which items it then adds to its history.
    ghost server: { Self → Server };
}

/// A link that may tell that a server is behind it, whose history is known.
pub trait Far: Link {
    /// What the server is of.
    type Of: Serving;

    /// What the server is of. No call changes it.
    ghost base: { Self → Self.Of };

    /// The history, where the object tells that it is the server.
    ghost log: { Self → Option (List Item) };

    /// Sends a request, and hands out its answer. This is one exchange, but none where memory was wanted.
    fn send(&mut self, alloc: Global, request: &[u8]) -> Result<Vec<u8>, LinkFault>
        ensures exchanges { Self.exchanges self.new ≡ after_exchange (Self.exchanges self.old) request.now (answer_of (λ v. v.items) result) }
        ensures later { Self.faults self.old ≤ Self.faults self.new }
        ensures cause { IfErr result (λ fault. OnBroken fault (Rose (Self.faults self.old) (Self.faults self.new))) }
        ensures base { base self.new ≡ base self.old }
        ensures serves { ServesTold (Self.Of.server (base self.old)) (log self.old) request.now (answered (λ v. v.items) result) (log self.new) };
}
