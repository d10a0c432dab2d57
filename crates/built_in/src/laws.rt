//! The law of the two texts. The function does nothing, and its clauses are the law.
ghost use Rattle.crd_loading.specs.Blame.{Blame};
ghost use Rattle.crd_loading.specs.Load.{Loads, RefusesDefinition, RefusesRules};
ghost use Rattle.crd_loading.specs.View.{LoadedView};
ghost use Rattle.built_in.specs.Texts.{definition_text, rules_text};

use crate::texts::{definition, rules};
use kj_value::{one_reading, reading_depth, text_reads};

/// Nothing of the two texts is refused, and they load.
pub fn accepted()
    ensures definition { (b : Blame) → RefusesDefinition definition_text b → ⊥ }
    ensures rules { (b : Blame) → RefusesRules definition_text rules_text b → ⊥ }
    ensures loads { (l : LoadedView) × Loads definition_text rules_text l }
{
    definition();
    rules();
    text_reads();
    reading_depth();
    one_reading();
}
