//! Links in memory.
ghost use Rattle.std.specs.Prelude.{◌≡◌, ◌≤◌, ◌++◌, ◌∷◌, [], None, Some, List, IfOk, IfErr, IfSome, OnErr, MatchOption};
ghost use Rattle.edge_io.specs.Causes.{Rose};
ghost use Rattle.edge_io.specs.Connections.{AddsOne};
ghost use Rattle.edge_io.specs.Exchanges.{after_exchange, answer_of, OnBroken};
ghost use Rattle.edge_io.specs.MemoryLink.{Breaks, GivesNext, after_call};
ghost use Rattle.tcp_links.specs.Links.{AsksOne, Peer};
ghost use Rattle.tcp_links.specs.MemoryLinks.{IsUnused, Makes, EndsMade, ending_of, mute};

use crate::Links;
use edge_io::{Link, LinkFault, MemExchange, MemLink};
use kj_value::{NoMemory, Txt};
use std::alloc::Global;
use std::marker::Model;
use std::mem;
use std::vec::IntoIter;

// The links that were given back. Each box was taken when its link was made.
#[cycle(returned)]
#[derive(Drop)]
struct Returned {
    chain: Chain,
}

// The newest stands first.
#[cycle(returned)]
#[derive(Drop)]
enum Chain {
    End,
    More(MemLink, Box<Returned>),
}

impl Model for Returned {
    ghost use Rattle.std.specs.Prelude.{List, length};
    ghost use Rattle.tcp_links.specs.Links.{Ending};

    ghost Value = { List Ending };

    ghost use Rattle.tcp_links.specs.Returned.{returned_of};

    ghost view = { λ r. returned_of r.chain };

    ghost size = { length };

    ghost use Rattle.std.proofs.Common.{arith, length-append};

    ghost size_decreases = { λ r h. Prim.grind (arith, length-append) };
}

/// A link that links in memory are to make.
#[derive(Drop)]
pub struct MemReady {
    link: MemLink,
    place: Box<Returned>,
}

impl Model for MemReady {
    ghost use Rattle.edge_io.specs.MemoryLink.{LinkState};
    ghost use Rattle.tcp_links.specs.MemoryLinks.{IsUnused};

    ghost Value = { LinkState };

    ghost view = { λ l. l.link };

    ghost invariant = { λ l. IsUnused l.link };
}

impl MemReady {
    /// A link that made no exchange. It takes its room now.
    pub fn new(alloc: Global, link: MemLink) -> Result<MemReady, NoMemory>
        requires { IsUnused link }
        ensures { IfOk result (λ l. l ≡ link) }
    {
        let place = Box::new(alloc, Returned { chain: Chain::End })?;
        Ok(MemReady { link, place })
    }

    fn lent(self) -> MemLent
        ensures same { result ≡ self }
        ensures unused { IsUnused result }
    {
        let MemReady { link, place } = self;
        MemLent { link, place }
    }
}

/// A link that links in memory made.
#[derive(Drop)]
pub struct MemLent {
    link: MemLink,
    place: Box<Returned>,
}

impl Model for MemLent {
    ghost use Rattle.edge_io.specs.MemoryLink.{LinkState};

    ghost Value = { LinkState };

    ghost view = { λ l. l.link };
}

impl MemLent {
    /// The exchanges that were made, in order.
    pub fn made(&self) -> &[MemExchange]
        ensures { result.now ≡ self.now.made }
    {
        self.link.made()
    }
}

impl Link for MemLent {
    ghost exchanges = { λ l. Some l.made };

    ghost faults = { λ l. l.calls.faults };

    fn exchange(&mut self, alloc: Global, request: &[u8]) -> Result<Vec<u8>, LinkFault>
        ensures exchanges { Some self.new.made ≡ after_exchange (Some self.old.made) request.now (answer_of (λ v. v.items) result) }
        ensures later { self.old.calls.faults ≤ self.new.calls.faults }
        ensures cause { IfErr result (λ fault. OnBroken fault (Rose self.old.calls.faults self.new.calls.faults)) }
        ensures fails { IfErr result (λ fault. OnBroken fault (Breaks self.old)) }
        ensures given { IfOk result (λ v. GivesNext self.old self.new v.items) }
        ensures quiet { IfOk result (λ _. Breaks self.old → ⊥) }
        ensures kept { OnErr result (self.new.waiting ≡ self.old.waiting) }
        ensures calls { self.new.calls ≡ after_call self.old.calls result }
    {
        self.link.exchange(alloc, request)
    }
}

/// The address that a link in memory was made to.
#[derive(Drop)]
pub struct MemPeer {
    host: Txt,
    port: u16,
}

impl Model for MemPeer {
    ghost use Rattle.tcp_links.specs.Links.{Peer};

    ghost Value = { Peer };

    ghost view = { λ p. record { host = p.host.bytes; port = p.port } };
}

impl MemPeer {
    fn of(alloc: Global, host: &str, port: u16) -> Result<MemPeer, NoMemory>
        ensures { IfOk result (λ p. p ≡ record { host = host.now; port = port }) }
    {
        let host = Txt::of(alloc, host)?;
        Ok(MemPeer { host, port })
    }

    /// The host, as the asker spelt it.
    pub fn host(&self) -> &str
        ensures { result.now ≡ self.now.host }
    {
        self.host.as_str()
    }

    /// The port.
    pub fn port(&self) -> u16
        ensures { result ≡ self.now.port }
    {
        self.port
    }
}

/// Links in memory, which are made in order, whatever the host and the port are. Where none is left, one without answers is made.
pub struct MemLinks {
    waiting: IntoIter<MemReady>,
    asked: Vec<MemPeer>,
    returned: Returned,
}

impl Drop for MemLinks {
    fn drop(self) {
        let MemLinks {
            waiting: _,
            asked: _,
            returned: _,
        } = self;
    }
}

impl Model for MemLinks {
    ghost use Rattle.std.specs.Vec.Iter.{into_iter_items};
    ghost use Rattle.tcp_links.specs.MemoryLinks.{LinksState};

    ghost Value = { LinksState };

    ghost view = { λ s. record { waiting = into_iter_items s.waiting; asked = s.asked.items; returned = s.returned } };
}

// A link that has no answers.
fn mute(alloc: Global) -> Result<MemReady, NoMemory>
    ensures { IfOk result (λ l. l ≡ mute) }
{
    MemReady::new(alloc, MemLink::new(alloc, Vec::new(alloc), Vec::new(alloc)))
}

impl MemLinks {
    /// Links that make these, in order.
    pub fn new(alloc: Global, links: Vec<MemReady>) -> MemLinks
        ensures { result ≡ record { waiting = links.items; asked = []; returned = [] } }
    {
        MemLinks {
            waiting: links.into_iter(),
            asked: Vec::new(alloc),
            returned: Returned { chain: Chain::End },
        }
    }

    /// The addresses that links were made to, in order.
    pub fn asked(&self) -> &[MemPeer]
        ensures { result.now ≡ self.now.asked }
    {
        &self.asked
    }

    /// The exchanges of the link that was given back last.
    pub fn last_made(&self) -> Option<&[MemExchange]>
        ensures { MatchOption result (self.now.returned ≡ []) (λ made. EndsMade self.now.returned made.now) }
    {
        match &self.returned.chain {
            Chain::End => None,
            Chain::More(link, _) => Some(link.made()),
        }
    }
}

impl Links for MemLinks {
    type One = MemLent;

    ghost use Rattle.std.specs.Prelude.{None, Some};

    ghost asked = { λ s. Some s.asked };

    ghost peer = { λ l. None };

    ghost returned = { λ s. Some s.returned };

    fn make(&mut self, alloc: Global, host: &str, port: u16) -> Result<MemLent, NoMemory>
        ensures unused { IfOk result (λ l. l.calls.faults ≡ 0) }
        ensures none { IfOk result (λ l. IfSome (Some l.made) (λ es. es ≡ [])) }
        ensures asked { AsksOne (Some self.old.asked) (Some self.new.asked) (record { host = host.now; port = port }) result }
        ensures peer { IfOk result (λ l. IfSome {T = Peer} None (λ p. p ≡ record { host = host.now; port = port })) }
        ensures returned { Some self.new.returned ≡ Some self.old.returned }

        // It is the next link, or one without answers where none is left.
        ensures made { IfOk result (Makes self.old self.new) }
        ensures kept { OnErr result (self.new ≡ self.old) }
    {
        let peer = MemPeer::of(alloc, host, port)?;
        self.asked.reserve(1)?;
        let link = match self.waiting.next() {
            Some(link) => link,
            None => mute(alloc)?,
        };
        self.asked.push_reserved(peer);
        Ok(link.lent())
    }

    fn back(&mut self, link: MemLent)
        ensures asked { Some self.new.asked ≡ Some self.old.asked }
        ensures returned { AddsOne (Some self.old.returned) (Some self.new.returned) (ending_of link) }
        ensures after { self.new ≡ record self.old { returned = self.old.returned ++ ending_of link ∷ [] } }
    {
        let MemLent { link, mut place } = link;
        *place = mem::replace(&mut self.returned, Returned { chain: Chain::End });
        self.returned = Returned {
            chain: Chain::More(link, place),
        };
    }
}
