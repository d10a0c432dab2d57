//! Where connections come from.
ghost use Rattle.std.specs.Prelude.{◌≡◌, ℕ, List, [], Some, Option, IfOk, IfSome, MatchResult};
ghost use Rattle.edge_io.specs.Causes.{HasCause};
ghost use Rattle.edge_io.specs.Connections.{Origin, Ending, NumbersDiffer, AddsOne, HandsOut, HasAllLeft, HasNumberOf, NumbersAgree, IsHandedOn};

use crate::{Failed, Sink, Source};

/// Where connections come from.
pub trait Ears {
    /// What a connection is read from.
    type In: Source + Send + Drop;

    /// What a connection is written to.
    type Out: Sink + Send + Drop;

    /// A connection that is closed.
    type Ended: Send + Drop;

    /// The connections that were handed out, in order, where the object tells them.
    ghost origins: { Self → Option (List Origin) };

    /// The connections that were given back, in order, where the object tells them.
    ghost returned: { Self → Option (List Ending) };

    /// How often it has failed. The count never falls.
    ghost faults: { Self → ℕ };

    /// What a closed connection tells.
    ghost ending: { Self.Ended → Ending };

    /// It was asked to listen at a place, and does.
    ghost hears: { Self → List ℕ → Type 0 };

    /// Waits for connections at a place from now on.
    fn listen(&mut self, place: &str) -> Result<(), Failed>
        ensures hears { IfOk result (λ _. hears self.new place.now) }
        ensures origins { origins self.new ≡ origins self.old }
        ensures returned { returned self.new ≡ returned self.old }
        ensures cause { HasCause (faults self.old) (faults self.new) result };

    /// Hands out the next connection, from which nothing was read and to which nothing was written.
    fn next(&mut self) -> Result<(Self::In, Self::Out), Failed>
        ensures hears { (place : List ℕ) → hears self.old place → hears self.new place }
        ensures origins { MatchResult result
            (λ c. HandsOut (origins self.old) (origins self.new) (Self.In.origin c.0))
            (λ _. origins self.new ≡ origins self.old) }
        ensures returned { returned self.new ≡ returned self.old }
        ensures whole { IfOk result (λ c. HasAllLeft (Self.In.origin c.0) (Self.In.left c.0)) }
        ensures number { IfOk result (λ c. HasNumberOf (Self.In.origin c.0) (Self.Out.number c.1)) }
        ensures empty { IfOk result (λ c. IfSome (Self.Out.written c.1) (λ bytes. bytes ≡ [])) }
        ensures flushed { IfOk result (λ c. Self.Out.flushed c.1 ≡ Self.Out.written c.1) }
        ensures unread { IfOk result (λ c. Self.In.faults c.0 ≡ 0) }
        ensures unwritten { IfOk result (λ c. Self.Out.faults c.1 ≡ 0) }
        ensures cause { HasCause (faults self.old) (faults self.new) result };

    /// Closes a connection, to which nothing was written that isn't handed on, unless its sink failed. It takes no memory and never
    /// fails.
    fn shut(input: Self::In, output: Self::Out) -> Self::Ended
        requires numbers { NumbersAgree (Self.In.origin input) (Self.Out.number output) }
        requires handed_on { IsHandedOn (Self.Out.faults output) (Self.Out.written output) (Self.Out.flushed output) }
        ensures { ending result ≡ record { origin = Self.In.origin input; read_faults = Self.In.faults input; write_faults = Self.Out.faults output; written = Self.Out.written output; flushed = Self.Out.flushed output } };

    /// Takes a closed connection back. It takes no memory and never fails.
    fn back(&mut self, ended: Self::Ended)
        ensures hears { (place : List ℕ) → hears self.old place → hears self.new place }
        ensures origins { origins self.new ≡ origins self.old }
        ensures returned { AddsOne (returned self.old) (returned self.new) (ending ended) }
        ensures faults { faults self.new ≡ faults self.old };

    /// No two connections that were handed out have one number.
    ghost numbers_differ: { (s : Self) → IfSome (origins s) NumbersDiffer };
}
