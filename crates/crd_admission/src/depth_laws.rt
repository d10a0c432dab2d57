//! Laws of how deep filled values are. Each function does nothing, and its clause is the law.
ghost use Rattle.std.specs.Prelude.{ℕ};
ghost use Rattle.kj_value.specs.Json.{Json};
ghost use Rattle.kj_value.specs.Sound.{IsSoundJson};
ghost use Rattle.struct_schema.specs.Filled.{Filled};
ghost use Rattle.struct_schema.specs.Shape.{Shape};
ghost use Rattle.crd_meaning.specs.Definition.{Definition, version_at};
ghost use Rattle.crd_reading.specs.Whole.{IsWholeDefinition};
ghost use Rattle.crd_admission.specs.Low.{IsWithin, HasLowDefaults};

/// What a value becomes is within the levels of an object where the value is, under a schema whose defaults are.
pub fn filled_depth()
    ensures { (s : Shape) (n : ℕ) (j k : Json) → IsSoundJson k → HasLowDefaults n s → IsWithin n j → Filled s j k → IsWithin n k }
{}

/// The defaults of each version of an accepted definition are within the levels of an object.
pub fn default_depth()
    ensures { (d : Definition) (v : ℕ) → IsWholeDefinition d.view → HasLowDefaults 0 (version_at d v).schema }
{}
