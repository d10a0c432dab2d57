//! Where connections come from.
ghost use Rattle.std.specs.Prelude.{◌≡◌, ◌≤◌, ℕ, None, IfOk};
ghost use Rattle.edge_io.specs.Causes.{Rose};

use crate::Place;
use crate::parts::{TcpClosed, TcpSink, TcpSource, close};
use crate::patience::{Counted, IDLE_SECONDS, SLICE_SECONDS};
use edge_io::{Ears, Failed};
use kj_value::{NoMemory, Txt};
use std::alloc::Global;
use std::io;
use std::io::{Read, Write};
use std::net::{Net, OpenListener, OpenStream, SocketAddr, TcpListener};
use std::sync::Arc;
use std::sync::atomic::{AtomicBool, AtomicU64};
use std::time::{Clock, Duration};

// What listens, the address with the port that was taken, and how many connections there are.
#[derive(Drop)]
struct Listening<L: Drop> {
    listener: L,
    address: SocketAddr,
    count: Arc<AtomicU64, Global>,
}

/// Waits for connections over TCP. Each is made so that small pieces aren't held back, and that a read or a write that waits
/// for a minute fails. A read fails sooner where there are many connections and the peer sends nothing, or little.
#[derive(Drop)]
pub struct TcpEars<'a, R: Net> {
    net: &'a R,
    alloc: Global,
    listening: Option<Listening<R::Listener>>,
    faults: u64,
}

impl<'a, R: Net + Clock + Sync> TcpEars<'a, R>
where
    R::Listener: Send,
    R::Stream: Send,
{
    /// Ears that don't listen yet, and that haven't failed.
    pub fn new(net: &'a R, alloc: Global) -> TcpEars<'a, R>
        ensures { ⟦<TcpEars<'a, R> as Ears>⟧.faults result ≡ 0 }
    {
        TcpEars {
            net,
            alloc,
            listening: None,
            faults: 0,
        }
    }
}

impl<'a, R: Net> TcpEars<'a, R> {
    // A fault, which is counted.
    fn failed(&mut self) -> Failed
        ensures rose { Rose self.old.faults self.new.faults }
        ensures later { self.old.faults ≤ self.new.faults }
        ensures listening { self.new.listening ≡ self.old.listening }
    {
        self.faults = self.faults.saturating_add(1);
        Failed
    }
}

// What listens at a place: an IP address or a host's name, and a port.
fn bound<R: Net>(net: &R, alloc: Global, place: &str) -> io::Result<Listening<R::Listener>> {
    let count = Arc::new(alloc, AtomicU64::new(0))?;
    let listener = TcpListener::bind(net, place)?;
    let address = listener.local_addr()?;
    Ok(Listening {
        listener,
        address,
        count,
    })
}

// A connection that is set up; an error where the peer is gone, or where there is no memory or no handle for it.
fn set_up<'a, S: OpenStream + Read + Write + Drop, C: Clock>(
    clock: &'a C,
    alloc: Global,
    count: &Arc<AtomicU64, Global>,
    stream: S,
) -> io::Result<(TcpSource<'a, S, C>, TcpSink<S>)>
    ensures { IfOk result (λ c. (c.0.faults ≡ 0) × (c.1.faults ≡ 0)) }
{
    stream.set_nodelay(true)?;
    stream.set_read_timeout(Some(Duration::from_secs(SLICE_SECONDS)))?;
    stream.set_write_timeout(Some(Duration::from_secs(IDLE_SECONDS)))?;
    let answered = Arc::new(alloc, AtomicBool::new(true))?;
    let out = TcpSink::new(alloc, stream.try_clone()?, Arc::try_clone(&answered)?)?;
    let counted = Counted::new(Arc::try_clone(count)?);
    Ok((TcpSource::new(stream, clock, counted, answered), out))
}

// An error of a peer or of the way to it before its connection was had, which is no fault of the ears.
fn is_of_peer(fault: &io::Error) -> bool {
    matches!(
        fault.kind(),
        io::ErrorKind::ConnectionAborted
            | io::ErrorKind::ConnectionReset
            | io::ErrorKind::HostUnreachable
            | io::ErrorKind::NetworkUnreachable
            | io::ErrorKind::NetworkDown
            | io::ErrorKind::TimedOut
            | io::ErrorKind::Interrupted
    )
}

// The next connection. One that can't be set up, as its peer is gone, is closed and passed over.
fn next_of<'a, L: OpenListener, C: Clock>(
    clock: &'a C,
    alloc: Global,
    count: &Arc<AtomicU64, Global>,
    listener: &L,
) -> io::Result<(TcpSource<'a, L::Stream, C>, TcpSink<L::Stream>)>
where
    L::Stream: OpenStream + Read + Write + Drop,
    ensures { IfOk result (λ c. (c.0.faults ≡ 0) × (c.1.faults ≡ 0)) }
{
    for _turn in 0..u64::MAX {
        match listener.accept() {
            Ok((stream, _)) => {
                if let Ok(parts) = set_up(clock, alloc, count, stream) {
                    return Ok(parts);
                }
            }
            Err(fault) => {
                if !is_of_peer(&fault) {
                    return Err(fault);
                }
            }
        }
    }
    Err(io::Error::from(io::ErrorKind::Other))
}

impl<'a, R: Net + Clock + Sync> Ears for TcpEars<'a, R>
where
    R::Listener: Send,
    R::Stream: Send,
{
    type In = TcpSource<'a, R::Stream, R>;

    type Out = TcpSink<R::Stream>;

    type Ended = TcpClosed;

    ghost use Rattle.std.specs.Prelude.{None, IsSome};

    ghost origins = { λ e. None };

    ghost returned = { λ e. None };

    ghost faults = { λ e. e.faults };

    ghost ending = { λ c. record { origin = None; read_faults = c.read_faults; write_faults = c.write_faults; written = None; flushed = None } };

    ghost hears = { λ e place. IsSome e.listening };

    fn listen(&mut self, place: &str) -> Result<(), Failed> {
        match bound(self.net, self.alloc, place) {
            Ok(listening) => {
                self.listening = Some(listening);
                Ok(())
            }
            Err(_) => Err(self.failed()),
        }
    }

    fn next(&mut self) -> Result<(TcpSource<'a, R::Stream, R>, TcpSink<R::Stream>), Failed> {
        let Some(listening) = &self.listening else {
            return Err(self.failed());
        };
        match next_of(self.net, self.alloc, &listening.count, &listening.listener) {
            Ok(parts) => Ok(parts),
            Err(_) => Err(self.failed()),
        }
    }

    fn shut(input: TcpSource<'a, R::Stream, R>, output: TcpSink<R::Stream>) -> TcpClosed {
        close(input, output)
    }

    fn back(&mut self, _ended: TcpClosed) {}

    ghost numbers_differ = { λ s. tt };
}

impl<'a, R: Net + Clock + Sync> Place for TcpEars<'a, R>
where
    R::Listener: Send,
    R::Stream: Send,
{
    ghost use Rattle.std.specs.Prelude.{None, ⊤};

    ghost place = { λ e. None };

    ghost is_told = { λ place told. ⊤ };

    fn place(&self, alloc: Global) -> Result<Txt, NoMemory> {
        match &self.listening {
            Some(listening) => {
                let text = format!(in alloc; "{}", listening.address)?;
                Ok(Txt::of_string(text))
            }
            None => Ok(Txt::of_string(String::new(alloc))),
        }
    }
}
