//! Links over TCP.
ghost use Rattle.std.specs.Prelude.{◌≡◌, None, Some, IfOk};
ghost use Rattle.std.specs.IoError.{error_kind};
ghost use Rattle.tcp_links.specs.inner.Answers.{IsHandedOn};

use crate::Links;
use crate::exchange::{Peer, answered};
use crate::limits::MOST_ANSWER_BYTES;
use chunked_bodies::{front_with_length, with_length};
use edge_io::{Link, LinkFault};
use kj_value::{NoMemory, Txt};
use std::alloc::Global;
use std::io;
use std::io::ErrorKind;
use std::net::Net;
use std::time::Clock;

/// A link to a host over TCP. It opens a connection for each exchange, sends the request, and reads to the end of the input, or as many
/// bytes as an answer may have. A response that comes in chunks is handed on with its length, and one that is longer with the length of
/// what was read of its body. It fails where no address of the host
/// takes a connection, where the connection breaks, and where one of its limits in time is passed.
#[derive(Drop)]
pub struct TcpLink<'a, R: Net> {
    net: &'a R,
    host: Txt,
    port: u16,
    faults: u64,
}

// A fault of the outside, or want of memory.
fn fault_of(fault: &io::Error) -> LinkFault
    ensures { result ≡ LinkFault.NoMemory → error_kind fault.now ≡ ErrorKind.OutOfMemory }
{
    match fault.kind() {
        ErrorKind::OutOfMemory => LinkFault::NoMemory,
        _ => LinkFault::Failed,
    }
}

// An answer with its length, and of one that is longer than is read its front.
fn handed_on(alloc: Global, answer: Vec<u8>) -> Result<Vec<u8>, NoMemory>
    ensures { IfOk result (λ v. IsHandedOn answer.items v.items) }
{
    if answer.len() < MOST_ANSWER_BYTES {
        with_length(alloc, answer)
    } else {
        front_with_length(alloc, answer)
    }
}

// One exchange, and its answer with its length.
fn exchanged<R: Net + Clock>(
    net: &R,
    alloc: Global,
    host: &str,
    port: u16,
    request: &[u8],
) -> Result<Vec<u8>, LinkFault> {
    match answered(net, alloc, &Peer { host, port }, request) {
        Ok(answer) => Ok(handed_on(alloc, answer)?),
        Err(fault) => Err(fault_of(&fault)),
    }
}

impl<'a, R: Net + Clock> Link for TcpLink<'a, R> {
    ghost use Rattle.std.specs.Prelude.{None};

    ghost exchanges = { λ l. None };

    ghost faults = { λ l. l.faults };

    fn exchange(&mut self, alloc: Global, request: &[u8]) -> Result<Vec<u8>, LinkFault> {
        match exchanged(self.net, alloc, self.host.as_str(), self.port, request) {
            Ok(answer) => Ok(answer),
            Err(LinkFault::NoMemory) => Err(LinkFault::NoMemory),
            Err(LinkFault::Failed) => {
                self.faults = self.faults.saturating_add(1);
                Err(LinkFault::Failed)
            }
        }
    }
}

/// Makes links over TCP.
#[derive(Drop)]
pub struct TcpLinks<'a, R> {
    net: &'a R,
}

impl<'a, R> TcpLinks<'a, R> {
    /// Links that reach their hosts by this network.
    pub fn new(net: &'a R) -> TcpLinks<'a, R> {
        TcpLinks { net }
    }
}

impl<'a, R: Net + Clock + Sync> Links for TcpLinks<'a, R> {
    type One = TcpLink<'a, R>;

    ghost use Rattle.std.specs.Prelude.{None, Some};

    ghost asked = { λ s. None };

    ghost peer = { λ l. Some (record { host = l.host.bytes; port = l.port }) };

    ghost returned = { λ s. None };

    fn make(&mut self, alloc: Global, host: &str, port: u16) -> Result<TcpLink<'a, R>, NoMemory> {
        let host = Txt::of(alloc, host)?;
        Ok(TcpLink {
            net: self.net,
            host,
            port,
            faults: 0,
        })
    }

    fn back(&mut self, _link: TcpLink<'a, R>) {}
}
