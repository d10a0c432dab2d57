//! The numbers of a cache, which no edit of a constant can turn.
ghost use Rattle.std.specs.Prelude.{◌≡◌};
ghost use Rattle.form_cache.specs.Limits.{forms_of_a_pass, longest_text};

use crate::cache::{PASS_FORMS, TEXT_BYTES};

/// The cache of a pass holds at most 256 forms, of at most 16,384 bytes each.
pub fn numbers()
    ensures forms { PASS_FORMS ≡ forms_of_a_pass }
    ensures text { TEXT_BYTES ≡ longest_text }
{}
