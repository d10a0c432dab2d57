//! Links that tell what they do.
ghost use Rattle.std.specs.Prelude.{◌≡◌, ◌≤◌, ◌⊎◌, ◌+◌, ◌-◌, ◌^◌, [], false, true, None, Some, IfErr, IfOk, IfSome, MatchOption, OnErr, min};
ghost use Rattle.edge_io.specs.Causes.{Rose};
ghost use Rattle.edge_io.specs.Exchanges.{after_exchange, answer_of, OnBroken};
ghost use Rattle.edge_io.specs.Connections.{AddsOne};
ghost use Rattle.progress_links.specs.Progress.{MayAdd, MayTell, GivesBack, erased, progress};
ghost use Rattle.tcp_links.specs.Links.{AsksOne};

use crate::telling::{erase, is_due, tell};
use edge_io::{Link, LinkFault, Sink};
use kj_value::NoMemory;
use std::alloc::Global;
use std::time::{Clock, Instant};
use tcp_links::Links;

/// A link that tells how many exchanges it made, where it has a sink.
#[derive(Drop)]
pub struct ProgressLink<'a, T, One, K> {
    clock: &'a T,
    link: One,
    sink: Option<K>,
    made: u64,
    last: Option<Instant>,
    lit: bool,
}

impl<'a, T: Clock, One: Link, K: Sink> Link for ProgressLink<'a, T, One, K> {
    ghost exchanges = { λ l. One.exchanges l.link };

    ghost faults = { λ l. One.faults l.link };

    /// Sends a request over the link beneath. Then, where a second has passed since the number of exchanges was told, it is written.
    fn exchange(&mut self, alloc: Global, request: &[u8]) -> Result<Vec<u8>, LinkFault>
        ensures exchanges { One.exchanges self.new.link ≡ after_exchange (One.exchanges self.old.link) request.now (answer_of (λ v. v.items) result) }
        ensures later { One.faults self.old.link ≤ One.faults self.new.link }
        ensures cause { IfErr result (λ fault. OnBroken fault (Rose (One.faults self.old.link) (One.faults self.new.link))) }
        ensures made { self.new.made ≡ min (self.old.made + 1) (2 ^ 64 - 1) }
        ensures told { MayTell K.written self.old.sink self.new.sink (progress self.new.made) }
        ensures lit { (self.new.lit ≡ true) ⊎ ((self.new.lit ≡ self.old.lit) × (self.new.sink ≡ self.old.sink)) }
    {
        let answer = self.link.exchange(alloc, request);
        self.made = self.made.saturating_add(1);
        match &mut self.sink {
            None => {}
            Some(sink) => {
                if is_due(self.clock, &mut self.last) {
                    tell(alloc, sink, self.made);
                    self.lit = true;
                }
            }
        }
        answer
    }
}

/// Links over others, of which one at a time has the sink, if there is one.
#[derive(Drop)]
pub struct ProgressLinks<'a, T, L, K> {
    clock: &'a T,
    links: L,
    sink: Option<K>,
}

impl<'a, T, L, K> ProgressLinks<'a, T, L, K> {
    /// Links over these. Without a sink nothing is told.
    pub fn new(clock: &'a T, links: L, sink: Option<K>) -> ProgressLinks<'a, T, L, K>
        ensures links { result.links ≡ links }
        ensures sink { result.sink ≡ sink }
    {
        ProgressLinks { clock, links, sink }
    }
}

impl<'a, T: Clock + Sync, L: Links, K: Sink + Send + Drop> Links for ProgressLinks<'a, T, L, K> {
    type One = ProgressLink<'a, T, L::One, K>;

    ghost asked = { λ s. L.asked s.links };

    ghost peer = { λ l. L.peer l.link };

    ghost returned = { λ s. L.returned s.links };

    fn make(
        &mut self,
        alloc: Global,
        host: &str,
        port: u16,
    ) -> Result<ProgressLink<'a, T, L::One, K>, NoMemory>
        ensures unused { IfOk result (λ l. L.One.faults l.link ≡ 0) }
        ensures none { IfOk result (λ l. IfSome (L.One.exchanges l.link) (λ es. es ≡ [])) }
        ensures asked { AsksOne (L.asked self.old.links) (L.asked self.new.links) (record { host = host.now; port = port }) result }
        ensures peer { IfOk result (λ l. IfSome (L.peer l.link) (λ p. p ≡ record { host = host.now; port = port })) }
        ensures returned { L.returned self.new.links ≡ L.returned self.old.links }

        // It counts from 0, told nothing, and has the sink until it is taken back.
        ensures counts { IfOk result (λ l. (l.made ≡ 0) × (l.lit ≡ false)) }
        ensures sink { IfOk result (λ l. (l.sink ≡ self.old.sink) × (self.new.sink ≡ None)) }
        ensures kept { OnErr result (self.new.sink ≡ self.old.sink) }
    {
        let link = self.links.make(alloc, host, port)?;
        Ok(ProgressLink {
            clock: self.clock,
            link,
            sink: self.sink.take(),
            made: 0,
            last: None,
            lit: false,
        })
    }

    /// Takes a link back, and its sink, on which the line is erased where something was told.
    fn back(&mut self, one: ProgressLink<'a, T, L::One, K>)
        ensures asked { L.asked self.new.links ≡ L.asked self.old.links }
        ensures returned { AddsOne (L.returned self.old.links) (L.returned self.new.links) (record { exchanges = L.One.exchanges one.entry.link; faults = L.One.faults one.entry.link }) }
        ensures sink { GivesBack K.written one.entry.lit one.entry.sink self.old.sink self.new.sink }
    {
        let ProgressLink {
            clock: _,
            link,
            sink,
            made: _,
            last: _,
            lit,
        } = one;
        self.links.back(link);
        match sink {
            None => {}
            Some(mut sink) => {
                if lit {
                    erase(&mut sink);
                }
                self.sink = Some(sink);
            }
        }
    }
}
