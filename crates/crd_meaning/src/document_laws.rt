//! Laws of converted documents. Each function does nothing, and its clause is the law.
ghost use Rattle.std.specs.Prelude.{◌≡◌, ℕ};
ghost use Rattle.kj_value.specs.Json.{Json};
ghost use Rattle.api_calls.specs.Meaning.{Fault};
ghost use Rattle.crd_meaning.specs.Definition.{Definition, IsLoaded};
ghost use Rattle.crd_meaning.specs.Converted.{IsConverted};
ghost use Rattle.crd_meaning.specs.Unconverted.{IsUnconverted};

use crate::laws::known;

/// A document has at most one value at a version, and none where it is refused.
pub fn one_value()
    ensures one { (d : Definition) → IsLoaded d → (j : Json) (to : ℕ) (k l : Json)
        → IsConverted d j to k → IsConverted d j to l → k ≡ l }
    ensures excludes { (d : Definition) → IsLoaded d → (j : Json) (to : ℕ) (k : Json) (f : Fault)
        → IsConverted d j to k → IsUnconverted d j f → ⊥ }
{
    known();
}
