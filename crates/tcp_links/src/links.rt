//! What makes links.
ghost use Rattle.std.specs.Prelude.{◌≡◌, List, [], Option, IfOk, IfSome};
ghost use Rattle.edge_io.specs.Connections.{AddsOne};
ghost use Rattle.tcp_links.specs.Links.{AsksOne, Ending, Peer};

use edge_io::Link;
use kj_value::NoMemory;
use std::alloc::Global;

/// What makes links to servers, and takes them back.
pub trait Links {
    /// Where the requests of one place go.
    type One: Link + Send + Drop;

    /// The addresses that links were made to, in order, where the object tells them.
    ghost asked: { Self → Option (List Peer) };

    /// The address that the requests of a link go to, where the link tells it.
    ghost peer: { Self.One → Option Peer };

    /// What the links tell that were given back, in order, where the object tells it.
    ghost returned: { Self → Option (List Ending) };

    /// A link to the host of that name or IP address and that port. It hasn't failed, and made no exchange.
    fn make(&mut self, alloc: Global, host: &str, port: u16) -> Result<Self::One, NoMemory>
        ensures unused { IfOk result (λ l. Self.One.faults l ≡ 0) }
        ensures none { IfOk result (λ l. IfSome (Self.One.exchanges l) (λ es. es ≡ [])) }
        ensures asked { AsksOne (asked self.old) (asked self.new) (record { host = host.now; port = port }) result }
        ensures peer { IfOk result (λ l. IfSome (peer l) (λ p. p ≡ record { host = host.now; port = port })) }
        ensures returned { returned self.new ≡ returned self.old };

    /// Takes a link back. It takes no memory and never fails.
    fn back(&mut self, link: Self::One)
        ensures asked { asked self.new ≡ asked self.old }
        ensures returned { AddsOne (returned self.old) (returned self.new) (record { exchanges = Self.One.exchanges link; faults = Self.One.faults link }) };
}
