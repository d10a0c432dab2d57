//! Laws of kept texts. Each function does nothing, and its clause is the law.
ghost use Rattle.std.specs.Prelude.{◌≡◌, ℕ, List};
ghost use Rattle.kept_entries.specs.declared.entry.Entry.{Entry};
ghost use Rattle.kept_entries.specs.Text.{IsKept};

use kj_value::one_text;

/// A text spells one list of entries.
pub fn one_list()
    ensures { (t : List ℕ) (es fs : List Entry) → IsKept t es → IsKept t fs → es ≡ fs }
{
    one_text()
}
