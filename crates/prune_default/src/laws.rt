//! Laws of what values become. Each function does nothing, and its clause is the law.
ghost use Rattle.std.specs.Prelude.{◌≡◌};
ghost use Rattle.kj_value.specs.Json.{Json};
ghost use Rattle.kj_value.specs.Sound.{IsSoundJson};
ghost use Rattle.struct_schema.specs.Shape.{Shape};
ghost use Rattle.struct_schema.specs.Filled.{Filled};
ghost use Rattle.struct_schema.specs.OwnDefaults.{HasOwnDefaults};
ghost use Rattle.prune_default.specs.SoundDefaults.{HasSoundDefaults};

/// A value becomes one value: two sound values that it becomes are the same.
pub fn one_filling()
    ensures { (s : Shape) (j k l : Json) → IsSoundJson k → IsSoundJson l → Filled s j k → Filled s j l → k ≡ l }
{}

/// A value becomes some value, where each default of the schema is a JSON value.
pub fn some_filling()
    ensures { (s : Shape) (j : Json) → HasSoundDefaults s → IsSoundJson j → (k : Json) × Filled s j k × IsSoundJson k }
{}

/// Filling twice is filling once: what a value becomes stays as it is, where each default of the schema does.
pub fn filled_again()
    ensures { (s : Shape) (j k : Json) → HasOwnDefaults s → Filled s j k → Filled s k k }
{}
