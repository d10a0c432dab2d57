//! Connections in memory.
ghost use Rattle.std.specs.Prelude.{◌≡◌, ◌↔◌, ◌<◌, ◌≤◌, ◌++◌, ◌∷◌, [], None, Some, ℕ, List, length, map, IsErr, IfOk, IfSome, MatchOption, MatchResult, ⊤};
ghost use Rattle.std.specs.Io.{ReadsAtMost};
ghost use Rattle.std.specs.Io.KnownBytes.{IsAtEnd};
ghost use Rattle.edge_io.specs.Calls.{IsListed, answered, failed};
ghost use Rattle.edge_io.specs.Causes.{HasCause};
ghost use Rattle.edge_io.specs.Connections.{Origin, Ending, AddsOne, HandsOut, HasAllLeft, HasNumberOf, NumbersAgree, IsHandedOn};
ghost use Rattle.edge_io.specs.Content.{TakesFront};
ghost use Rattle.edge_io.specs.Memory.{left_of, origin_of, read_count, IsAfterRead};
ghost use Rattle.edge_io.specs.MemoryEars.{ending_of, numbered, IsUnread, IsUnwritten, source_numbered, sink_numbered, HandsOutFirst, NextFails, EndsWritten};

use crate::calls::CallCount;
use crate::{Ears, Failed, MemSink, MemSource, Source};
use kj_value::NoMemory;
use std::alloc::Global;
use std::marker::Model;
use std::mem;
use std::vec::IntoIter;

// The connections that were given back. Each box was taken when its connection was made.
#[cycle(returned)]
#[derive(Drop)]
struct Returned {
    link: Link,
}

// The newest stands first.
#[cycle(returned)]
#[derive(Drop)]
enum Link {
    End,
    More(MemSource, MemSink, Box<Returned>),
}

impl Model for Returned {
    ghost use Rattle.std.specs.Prelude.{List, length};
    ghost use Rattle.edge_io.specs.Connections.{Ending};

    ghost Value = { List Ending };

    ghost use Rattle.edge_io.specs.Returned.{returned_of};

    ghost view = { λ r. returned_of r.link };

    ghost size = { length };

    ghost use Rattle.std.proofs.Common.{arith, length-append};

    ghost size_decreases = { λ r h. Prim.grind (arith, length-append) };
}

/// A connection that connections in memory are to hand out.
#[derive(Drop)]
pub struct MemConnection {
    source: MemSource,
    sink: MemSink,
    bytes: Vec<u8>,
    place: Box<Returned>,
}

impl Model for MemConnection {
    ghost use Rattle.std.specs.Prelude.{◌≡◌};
    ghost use Rattle.edge_io.specs.MemoryEars.{Parts, IsUnread, IsUnwritten};

    ghost Value = { Parts };

    ghost view = { λ c. record { source = c.source; sink = c.sink } };

    ghost invariant = { λ c. IsUnread c.source × IsUnwritten c.sink × (c.bytes.items ≡ c.source.bytes) };
}

// What is handed out of a connection, and the bytes that its source holds.
#[derive(Drop)]
struct Handed {
    input: MemInput,
    output: MemSink,
    bytes: Vec<u8>,
}

impl MemConnection {
    /// A connection of which nothing was read and to which nothing was written. It takes all its room now.
    pub fn new(alloc: Global, source: MemSource, sink: MemSink) -> Result<MemConnection, NoMemory>
        requires unread { IsUnread source }
        requires unwritten { IsUnwritten sink }
        ensures { IfOk result (λ c. c ≡ record { source = source; sink = sink }) }
    {
        let bytes = Vec::from_slice(alloc, source.left())?;
        let place = Box::new(alloc, Returned { link: Link::End })?;
        Ok(MemConnection {
            source,
            sink,
            bytes,
            place,
        })
    }

    // The parts, with their number.
    fn hand_out(self, number: u64) -> Handed
        ensures input { result.input ≡ source_numbered self.source number }
        ensures output { result.output ≡ sink_numbered self.sink number }
        ensures bytes { result.bytes.items ≡ self.source.bytes }
        ensures unread { IsUnread self.source }
        ensures unwritten { IsUnwritten self.sink }
    {
        let MemConnection {
            source,
            sink,
            bytes,
            place,
        } = self;
        Handed {
            input: MemInput {
                source: source.numbered(number),
                place,
            },
            output: sink.numbered(number),
            bytes,
        }
    }
}

/// What a connection in memory is read from.
#[derive(Drop)]
pub struct MemInput {
    source: MemSource,
    place: Box<Returned>,
}

impl Model for MemInput {
    ghost use Rattle.edge_io.specs.Memory.{SourceState};

    ghost Value = { SourceState };

    ghost view = { λ i. i.source };
}

impl Source for MemInput {
    ghost left = { λ s. Some (left_of s) };

    ghost faults = { λ s. s.calls.faults };

    ghost origin = { origin_of };

    ghost most = { λ s. Some s.piece };

    fn read(&mut self, into: &mut [u8]) -> Result<usize, Failed>
        requires { 0 < length into.old }
        ensures bound { ReadsAtMost result into.new }
        ensures bytes { TakesFront (Some (left_of self.old)) (Some (left_of self.new)) result into.new }
        ensures end { IfOk result (λ n. n ≡ 0 → IsAtEnd (Some (left_of self.new))) }
        ensures cause { HasCause self.old.calls.faults self.new.calls.faults result }
        ensures origin { origin_of self.new ≡ origin_of self.old }
        ensures few { IfOk result (λ n. IfSome (Some self.old.piece) (λ m. n ≤ m)) }
        ensures most { Some self.new.piece ≡ Some self.old.piece }
        ensures fails { IsErr result ↔ IsListed self.old.calls }
        ensures count { IfOk result (λ n. n ≡ read_count self.old (length into.old)) }
        ensures after { IsAfterRead self.old self.new result }
    {
        self.source.read(into)
    }
}

/// A connection in memory that is closed.
#[derive(Drop)]
pub struct MemClosed {
    source: MemSource,
    sink: MemSink,
    place: Box<Returned>,
}

impl Model for MemClosed {
    ghost use Rattle.edge_io.specs.MemoryEars.{Parts};

    ghost Value = { Parts };

    ghost view = { λ c. record { source = c.source; sink = c.sink } };
}

impl MemClosed {
    /// The bytes that were written.
    pub fn written(&self) -> &[u8]
        ensures { result.now ≡ self.now.sink.bytes }
    {
        self.sink.bytes()
    }
}

/// Connections in memory, which are handed out in order. It fails at the calls that it is told to fail at, and no
/// connection is handed out where none is left.
#[derive(Drop)]
pub struct MemEars {
    heard: Vec<Vec<u8>>,
    waiting: IntoIter<MemConnection>,
    returned: Returned,
    calls: CallCount,
}

impl Model for MemEars {
    ghost use Rattle.std.specs.Prelude.{◌+◌, ◌≤◌, map, vec_len};
    ghost use Rattle.std.specs.Vec.{vec_capacity};
    ghost use Rattle.std.specs.Vec.Iter.{into_iter_items, into_iter_len};
    ghost use Rattle.edge_io.specs.MemoryEars.{EarsState};

    ghost Value = { EarsState };

    ghost view = { λ e. record { heard = map (λ bytes. bytes.items) e.heard.items; waiting = into_iter_items e.waiting; returned = e.returned; calls = e.calls } };

    ghost invariant = { λ e. vec_len e.heard + into_iter_len e.waiting ≤ vec_capacity e.heard };
}

impl MemEars {
    /// These connections, in order. Its calls of `listen` and `next` are counted from 0, and those whose number is in
    /// `failing` fail. It takes the room for its lists now.
    pub fn new(
        alloc: Global,
        connections: Vec<MemConnection>,
        failing: Vec<u64>,
    ) -> Result<MemEars, NoMemory>
        ensures { IfOk result (λ e. e ≡ record { heard = []; waiting = connections.items; returned = []; calls = record { made = 0; failing = failing.items; faults = 0 } }) }
    {
        let heard = Vec::with_capacity(alloc, connections.len())?;
        Ok(MemEars {
            heard,
            waiting: connections.into_iter(),
            returned: Returned { link: Link::End },
            calls: CallCount::new(failing),
        })
    }

    /// How many connections were handed out.
    pub fn handed_out(&self) -> usize
        ensures { result ≡ length self.now.heard }
    {
        self.heard.len()
    }

    /// The bytes that were written to the connection that was given back last.
    pub fn last_written(&self) -> Option<&[u8]>
        ensures { MatchOption result (self.now.returned ≡ []) (λ bytes. EndsWritten self.now.returned bytes.now) }
    {
        match &self.returned.link {
            Link::End => None,
            Link::More(_, sink, _) => Some(sink.bytes()),
        }
    }

    /// How many calls there were.
    pub fn calls(&self) -> u64
        ensures { result ≡ self.now.calls.made }
    {
        self.calls.made()
    }

    /// How many calls failed.
    pub fn faults(&self) -> u64
        ensures { result ≡ self.now.calls.faults }
    {
        self.calls.faults()
    }
}

impl Ears for MemEars {
    type In = MemInput;

    type Out = MemSink;

    type Ended = MemClosed;

    ghost use Rattle.edge_io.specs.NumberLaws.{numbers_differ as numbered_differ};

    ghost origins = { λ e. Some (numbered 0 e.heard) };

    ghost returned = { λ e. Some e.returned };

    ghost faults = { λ e. e.calls.faults };

    ghost ending = { ending_of };

    ghost hears = { λ e place. ⊤ };

    ghost numbers_differ = { λ e. numbered_differ 0 e.heard };

    fn listen(&mut self, _place: &str) -> Result<(), Failed>
        ensures cause { HasCause self.old.calls.faults self.new.calls.faults result }
        ensures fails { IsErr result ↔ IsListed self.old.calls }
        ensures after { MatchResult result
            (λ _. self.new ≡ record self.old { calls = answered self.old.calls })
            (λ _. self.new ≡ record self.old { calls = failed self.old.calls }) }
        ensures origins { Some (numbered 0 self.new.heard) ≡ Some (numbered 0 self.old.heard) }
        ensures returned { Some self.new.returned ≡ Some self.old.returned }
    {
        if self.calls.begin() {
            self.calls.fail();
            return Err(Failed);
        }
        Ok(())
    }

    fn next(&mut self) -> Result<(MemInput, MemSink), Failed>
        ensures origins { MatchResult result
            (λ c. HandsOut (Some (numbered 0 self.old.heard)) (Some (numbered 0 self.new.heard)) (origin_of c.0))
            (λ _. Some (numbered 0 self.new.heard) ≡ Some (numbered 0 self.old.heard)) }
        ensures returned { Some self.new.returned ≡ Some self.old.returned }
        ensures whole { IfOk result (λ c. HasAllLeft (origin_of c.0) (Some (left_of c.0))) }
        ensures number { IfOk result (λ c. HasNumberOf (origin_of c.0) c.1.number) }
        ensures empty { IfOk result (λ c. IfSome (Some c.1.bytes) (λ bytes. bytes ≡ [])) }
        ensures flushed { IfOk result (λ c. Some c.1.flushed ≡ Some c.1.bytes) }
        ensures unread { IfOk result (λ c. c.0.calls.faults ≡ 0) }
        ensures unwritten { IfOk result (λ c. c.1.calls.faults ≡ 0) }
        ensures cause { HasCause self.old.calls.faults self.new.calls.faults result }

        // It fails exactly at the listed calls and where no connection is left.
        ensures fails { IsErr result ↔ NextFails self.old }
        ensures after { MatchResult result
            (λ c. HandsOutFirst self.old self.new c.0 c.1)
            (λ _. self.new ≡ record self.old { calls = failed self.old.calls }) }
    {
        if self.calls.begin() {
            self.calls.fail();
            return Err(Failed);
        }
        match self.waiting.next() {
            Some(connection) => {
                let handed = connection.hand_out(self.heard.len() as u64);
                match self.heard.push(handed.bytes) {
                    Ok(()) => Ok((handed.input, handed.output)),
                    Err(_) => unreachable!(),
                }
            }
            None => {
                self.calls.fail();
                Err(Failed)
            }
        }
    }

    fn shut(input: MemInput, output: MemSink) -> MemClosed
        requires numbers { NumbersAgree (origin_of input) output.number }
        requires handed_on { IsHandedOn output.calls.faults (Some output.bytes) (Some output.flushed) }
        ensures { result ≡ record { source = input; sink = output } }
    {
        let MemInput { source, place } = input;
        MemClosed {
            source,
            sink: output,
            place,
        }
    }

    fn back(&mut self, ended: MemClosed)
        ensures { self.new ≡ record self.old { returned = self.old.returned ++ ending_of ended ∷ [] } }
    {
        let MemClosed {
            source,
            sink,
            mut place,
        } = ended;
        *place = mem::replace(&mut self.returned, Returned { link: Link::End });
        self.returned = Returned {
            link: Link::More(source, sink, place),
        };
    }
}
