//! One exchange over a connection of its own.
ghost use Rattle.std.specs.Prelude.{◌≡◌, ◌≤◌, ◌<◌, ◌+◌, ◌*◌, length, IfOk, OnOk, IsTrue};
ghost use Rattle.std.specs.Duration.{as_nanos};
ghost use Rattle.std.specs.Io.KnownBytes.{Appends, Consumes, IsAtEnd};
ghost use Rattle.edge_io.specs.laws.Pieces.{ReadsPiece};
ghost use Rattle.tcp_links.specs.inner.Answers.{IsAnswered};

use crate::limits::{CONNECT_SECONDS, EXCHANGE_SECONDS, MOST_ANSWER_BYTES, READ_BYTES};
use std::alloc::Global;
use std::io;
use std::io::{Read, Write};
use std::net::{Net, OpenStream, SocketAddr, TcpStream, ToSocketAddrs};
use std::time::{Clock, Duration, Instant};

/// A host's name or IP address, and a port.
#[derive(Clone, Copy, Drop)]
pub(crate) struct Peer<'p> {
    pub host: &'p str,
    pub port: u16,
}

// When the whole exchange is to be over.
#[derive(Clone, Copy, Drop)]
struct Deadline {
    since: Instant,
}

fn late() -> io::Error {
    io::Error::from(io::ErrorKind::TimedOut)
}

impl Deadline {
    fn begin<C: Clock>(clock: &C) -> io::Result<Deadline> {
        Ok(Deadline {
            since: Instant::now(clock)?,
        })
    }

    // How long is left; an error where nothing is.
    fn left<C: Clock>(&self, clock: &C) -> io::Result<Duration>
        ensures some { IfOk result (λ d. 0 < as_nanos d) }
        ensures most { IfOk result (λ d. as_nanos d ≤ EXCHANGE_SECONDS * 1_000_000_000) }
    {
        let whole = Duration::from_secs(EXCHANGE_SECONDS);
        let past = self.since.elapsed(clock)?;
        match whole.checked_sub(past) {
            Some(left) if !left.is_zero() => Ok(left),
            _ => Err(late()),
        }
    }
}

// An IPv6 address as a URL writes it has brackets around it (RFC 3986, section 3.2.2), which it loses here.
fn bare(host: &str) -> &str {
    let Some(inner) = host.strip_prefix('[') else {
        return host;
    };
    match inner.strip_suffix(']') {
        Some(address) => address,
        None => host,
    }
}

fn connect_to<R: Net + Clock>(
    net: &R,
    address: SocketAddr,
    deadline: &Deadline,
) -> io::Result<R::Stream> {
    let most = Duration::from_secs(CONNECT_SECONDS);
    let left = deadline.left(net)?;
    TcpStream::connect_timeout(net, &address, left.min(most))
}

// A connection to the first address of the host that takes one; the last error where none does.
fn connect<R: Net + Clock>(net: &R, peer: &Peer<'_>, deadline: &Deadline) -> io::Result<R::Stream> {
    let mut last = io::Error::from(io::ErrorKind::NotFound);
    for address in (bare(peer.host), peer.port).to_socket_addrs(net)? {
        match connect_to(net, address, deadline) {
            Ok(stream) => return Ok(stream),
            Err(fault) => last = fault,
        }
    }
    Err(last)
}

// Writes the whole request. Each write waits for what is left of the time.
#[tactic(auto, using(edge_io::specs::laws::Reading::appends_further, edge_io::specs::laws::Reading::appends_whole, edge_io::specs::laws::Reading::appends_none))]
fn write_whole<S: OpenStream + Write, C: Clock>(
    clock: &C,
    stream: &mut S,
    request: &[u8],
    deadline: &Deadline,
) -> io::Result<()>
    ensures { OnOk result (Appends (S.contents stream.old) (S.contents stream.new) request.now) }
{
    let mut sent = 0;
    while sent < request.len() {
        stream.set_write_timeout(Some(deadline.left(clock)?))?;
        let count = stream.write(&request[sent..])?;
        if count == 0 {
            return Err(io::Error::from(io::ErrorKind::WriteZero));
        }
        sent += count;
    }
    stream.flush()
}

// Reads one more piece behind the answer, and tells whether there was one.
fn read_more<S: Read>(stream: &mut S, answer: &mut Vec<u8>, piece: &mut [u8]) -> io::Result<bool>
    requires { 0 < length piece.old }
    ensures read { IfOk result (ReadsPiece (S.remaining stream.old) (S.remaining stream.new) answer.old.items answer.new.items) }
    ensures grew { IfOk result (λ more. IsTrue more → length answer.old.items < length answer.new.items) }
    ensures few { IfOk result (λ _. length answer.new.items ≤ length answer.old.items + length piece.old) }
{
    let count = stream.read(piece)?;
    answer.extend_from_slice(&piece[..count])?;
    Ok(count > 0)
}

// Reads to the end of the input, or as many bytes as an answer may have. Each read waits for what is left of the time.
#[tactic(auto, using(edge_io::specs::laws::Reading::consumes_more, edge_io::specs::laws::Reading::consumes_none))]
fn read_answer<S: OpenStream + Read, C: Clock>(
    clock: &C,
    alloc: Global,
    stream: &mut S,
    deadline: &Deadline,
) -> io::Result<Vec<u8>>
    ensures short { IfOk result (λ v. length v.items ≤ MOST_ANSWER_BYTES) }
    ensures read { IfOk result (λ v. Consumes (S.remaining stream.old) (S.remaining stream.new) v.items) }
    ensures end { IfOk result (λ v. length v.items < MOST_ANSWER_BYTES → IsAtEnd (S.remaining stream.new)) }
{
    let mut answer = Vec::new(alloc);
    let mut piece = [0; READ_BYTES];
    while answer.len() < MOST_ANSWER_BYTES {
        let room = READ_BYTES.min(MOST_ANSWER_BYTES - answer.len());
        stream.set_read_timeout(Some(deadline.left(clock)?))?;
        if !read_more(stream, &mut answer, &mut piece[..room])? {
            return Ok(answer);
        }
    }
    Ok(answer)
}

// One exchange over a connection: the whole request goes out, and what comes back is read to its end, or as much as an answer may have.
fn exchange_over<S: OpenStream + Read + Write, C: Clock>(
    clock: &C,
    alloc: Global,
    stream: &mut S,
    request: &[u8],
    deadline: &Deadline,
) -> io::Result<Vec<u8>>
    ensures short { IfOk result (λ v. length v.items ≤ MOST_ANSWER_BYTES) }
    ensures answered { IfOk result (λ v. IsAnswered S.contents S.remaining stream.old stream.new request.now v.items) }
{
    write_whole(clock, stream, request, deadline)?;
    read_answer(clock, alloc, stream, deadline)
}

/// The answer to a request, over a connection that is made for it.
pub(crate) fn answered<R: Net + Clock>(
    net: &R,
    alloc: Global,
    peer: &Peer<'_>,
    request: &[u8],
) -> io::Result<Vec<u8>>
    ensures { IfOk result (λ v. length v.items ≤ MOST_ANSWER_BYTES) }
{
    let deadline = Deadline::begin(net)?;
    let mut stream = connect(net, peer, &deadline)?;
    stream.set_nodelay(true)?;
    exchange_over(net, alloc, &mut stream, request, &deadline)
}
