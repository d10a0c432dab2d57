//! Laws of what is accepted. Each function does nothing, and its clauses are the law.
ghost use Rattle.std.specs.Prelude.{◌≡◌, None};
ghost use Rattle.kj_value.specs.Json.{Json};
ghost use Rattle.kj_value.specs.Sound.{IsSoundJson};
ghost use Rattle.crd_reading.specs.Accepted.{IsDefinition};
ghost use Rattle.crd_reading.specs.First.{first_refusal};
ghost use Rattle.crd_reading.specs.View.{DefinitionView};
ghost use Rattle.crd_reading.specs.Whole.{IsWholeDefinition};
ghost use Rattle.crd_reading.specs.ValidDefaults.{HaveValidDefaults};

/// Nothing of a document is refused exactly where it is a definition, which is said with no order in it.
pub fn accepts()
    ensures is_definition { (j : Json) → first_refusal j ≡ None → IsDefinition j }
    ensures is_read { (j : Json) → IsSoundJson j → IsDefinition j → first_refusal j ≡ None }
{
    schema_reading::accepts();
}

/// Each default of the schemas of a definition is valid at its node and its own filling, and at most 32 deep.
pub fn valid_defaults()
    ensures { (d : DefinitionView) → IsWholeDefinition d → HaveValidDefaults d.versions }
{
    schema_reading::valid_defaults();
}
