//! Laws of what is accepted. Each function does nothing, and its clauses are the law.
ghost use Rattle.std.specs.Prelude.{◌≡◌, None, true};
ghost use Rattle.kj_value.specs.Json.{Json};
ghost use Rattle.kj_value.specs.Sound.{IsSoundJson};
ghost use Rattle.struct_schema.specs.Shape.{Shape};
ghost use Rattle.struct_schema.specs.Filled.{Filled};
ghost use Rattle.struct_schema.specs.Stays.{stays};
ghost use Rattle.schema_reading.specs.Visits.{first_refusal};
ghost use Rattle.prune_default.specs.SoundDefaults.{HasSoundDefaults};
ghost use Rattle.schema_reading.specs.ShapeRead.{shape_read};
ghost use Rattle.schema_reading.specs.Accepted.{IsSchema};
ghost use Rattle.schema_reading.specs.ValidDefaults.{HasValidDefaults};

/// Nothing of a document is refused exactly where it is a schema, which is said with no order in it.
pub fn accepts()
    ensures is_schema { (j : Json) → first_refusal j ≡ None → IsSchema j }
    ensures is_read { (j : Json) → IsSchema j → first_refusal j ≡ None }
{}

/// The test of a default that is its own filling says that it is: what it becomes by pruning and defaulting
/// is itself.
pub fn own_fillings()
    ensures stays { (s : Shape) (d : Json) → stays s d ≡ true → Filled s d d }
    ensures filled { (s : Shape) (d : Json) → IsSoundJson d → Filled s d d → stays s d ≡ true }
{}

/// Each default of the schema that a document spells is a JSON value, where the document is one: its numbers
/// have 64 bits, and the names of its objects rise.
pub fn sound_defaults()
    ensures { (j : Json) → IsSoundJson j → HasSoundDefaults (shape_read true j) }
{}

/// Each default of the schema that an accepted document spells is valid at its node and its own filling, and at most
/// `MAX_DEFAULT_DEPTH` deep.
pub fn valid_defaults()
    ensures { (j : Json) → IsSchema j → HasValidDefaults (shape_read true j) }
{}
