//! The numbers of a command line: decimal digits without a sign or leading zeros.
ghost use Rattle.std.specs.Prelude.{◌≡◌, ◌≤◌, ℕ, MatchOption, decimal};

use api_calls::number_of;

/// A drill takes so many steps at most.
pub const MOST_STEPS: u64 = 100_000;

/// The greatest number that a drill starts from.
pub(crate) const MOST_START: u64 = 9_223_372_036_854_775_807;

/// The number up to a greatest one that a text spells, or `None` exactly where it spells none.
pub(crate) fn number_up_to(text: &str, most: u64) -> Option<u64>
    ensures { MatchOption result ((n : ℕ) → (text.now ≡ decimal n) × (n ≤ most) → ⊥) (λ n. (text.now ≡ decimal n) × (n ≤ most)) }
{
    match number_of(text) {
        Some(number) => { if number <= most { Some(number) } else { None } }
        None => None,
    }
}
