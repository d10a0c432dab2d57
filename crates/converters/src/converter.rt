//! What turns objects.
ghost use Rattle.std.specs.Prelude.{◌≡◌, ◌<◌, ◌≤◌, Bool, List, None, Some, Option, false, IsSome, IsTrue, IfOk, IfErr};
ghost use Rattle.kj_value.specs.Json.{depth};
ghost use Rattle.kj_value.specs.Kinds.{as_object};
ghost use Rattle.kj_value.specs.Seen.{json};
ghost use Rattle.kube_meta.specs.View.{ObjectView};
ghost use Rattle.object_reading.specs.Parts.{whole_in};
ghost use Rattle.api_calls.specs.declared.versions.TheConstants.{OBJECT_LEVELS};
ghost use Rattle.converters.specs.Turns.{Turn, after_turn, OnRefused, Counts};
ghost use Rattle.converters.specs.Turned.{Turned, IsDocumentOf, Stays, IgnoresStamps};

use api_calls::Tool;
use kj_value::{JVal, NoMemory, Txt};
use std::alloc::Global;

/// Why an object wasn't turned.
#[derive(Drop)]
pub enum TurnFault {
    /// There is none at that version. The message tells why; it may be empty.
    Refused { message: Txt },
    /// The outside failed: the converter's count of faults rose.
    Failed,
    /// Memory was wanted and there was none. It may come for any object.
    NoMemory,
}

impl From<NoMemory> for TurnFault {
    ghost use Rattle.converters.specs.declared.converter.TurnFault.TheVariants as fault;

    ghost from_gives = { λ _ e. e ≡ fault.NoMemory };

    fn from(_refused: NoMemory) -> TurnFault {
        TurnFault::NoMemory
    }
}

/// What turns objects from one version to another.
pub trait Converter: Tool {
    ghost HONEST: { Bool };

    /// Whether it is known what objects are turned to. Where it isn't, as where another program converts, nothing is known of what a
    /// turn answers.
    const HONEST: bool;

    /// What objects are turned to, where that is known.
    ghost turned: { Turned };

    /// The turns that were made, in order, where the object tells them.
    ghost turns: { Self → Option (List Turn) };

    /// The document of an object at a version, as GROUP/VERSION, that the object of this document is turned to. This is one turn, but
    /// none where memory was wanted.
    fn turn(&mut self, alloc: Global, object: &JVal, to: &str) -> Result<JVal, TurnFault>
        requires object { IsSome (as_object (json object.now)) }
        requires levels { depth (json object.now) ≤ OBJECT_LEVELS }
        ensures turned { IsTrue HONEST → (x : ObjectView) → IsDocumentOf (json object.now) x → IfOk result (λ y. turned x to.now ≡ Some (whole_in (json y))) }
        ensures refused { IsTrue HONEST → (x : ObjectView) → IsDocumentOf (json object.now) x → IfErr result (OnRefused (turned x to.now ≡ None)) }
        ensures turns { turns self.new ≡ after_turn json (turns self.old) (json object.now) to.now result }
        ensures counts { Counts (Self.faults self.old) (Self.faults self.new) result };

    /// Counts a fault, as of an answer that fails a test, and says whether it could: a counter has a last value. It takes no memory.
    fn reject(&mut self) -> bool
        ensures rejects { IsTrue result → Self.faults self.old < Self.faults self.new }
        ensures turns { turns self.new ≡ turns self.old }
        ensures kept { result ≡ false → Self.faults self.new ≡ Self.faults self.old };

    /// What an object is turned to is the same object at the version.
    ghost stays: { IsTrue HONEST → Stays turned };

    /// Stamps and the generation aren't looked at.
    ghost unstamped: { IsTrue HONEST → IgnoresStamps turned };
}
