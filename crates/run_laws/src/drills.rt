//! What holds of every drill: what is told of it is a function of its two numbers.
//!
//! The module's one contract is that of `one_drill`, a function that does nothing. It knows nothing of how a drill is taken.
ghost use Rattle.std.specs.Prelude.{◌≡◌, List, ℕ, IsTrue};
ghost use Rattle.drill_requests.specs.Bodies.{hub_version, spoke_version};
ghost use Rattle.drill_steps.specs.Drilling.{Tells, drilled};
ghost use Rattle.run_laws.specs.Versions.{HasVersion};

use api_calls::Versions;
use drill_requests::stamp;
use kj_value::one_reading;

/// Two drills of one definition, with the same two numbers, tell the same, where it is known what values mean and the definition
/// has the two versions. The function does nothing, and its clause is the fact.
pub fn one_drill<V: Versions>()
    ensures { (it : V) (start count : ℕ) (a b : List ℕ) → IsTrue V.HONEST → HasVersion (V.meaning it) spoke_version → HasVersion (V.meaning it) hub_version
        → Tells (drilled (V.meaning it)) start count a → Tells (drilled (V.meaning it)) start count b → a ≡ b }
{
    one_reading();
    let _stamp = stamp();
}
