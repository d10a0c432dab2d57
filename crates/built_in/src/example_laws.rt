//! The law of the two texts. The function does nothing, and its clauses are the law.
ghost use Rattle.std.specs.Prelude.{ℕ, List};
ghost use Rattle.kj_value.specs.Reading.{Reads};
ghost use Rattle.crd_loading.specs.Blame.{Blame};
ghost use Rattle.crd_loading.specs.Load.{Loads, RefusesDefinition, RefusesRules};
ghost use Rattle.crd_loading.specs.View.{LoadedView};
ghost use Rattle.built_in.specs.Example.{definition_document, rules_document};

use kj_value::one_reading;

/// Nothing is refused of texts that read as the two documents, as `definition` and `rules` do, and they load.
pub fn accepted()
    ensures definition { (crd : List ℕ) (b : Blame) → Reads crd 100 definition_document
        → RefusesDefinition crd b → ⊥ }
    ensures rules { (crd : List ℕ) (rules : List ℕ) (b : Blame) → Reads crd 100 definition_document
        → Reads rules 100 rules_document → RefusesRules crd rules b → ⊥ }
    ensures loads { (crd : List ℕ) (rules : List ℕ) → Reads crd 100 definition_document
        → Reads rules 100 rules_document → (l : LoadedView) × Loads crd rules l }
{
    one_reading();
}
