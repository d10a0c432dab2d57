//! How many turns a worker takes.
ghost use Rattle.std.specs.Prelude.{◌≡◌, ℕ, MatchOption, option_map};
ghost use Rattle.command_lines.specs.Lines.{SpellsTurns};

use crate::numbers::number_up_to;

/// So many turns are taken after an answer at most.
pub const MOST_TURNS: u64 = 1_000;

/// So many turns as an option's value spells, or `None` exactly where it spells none that may be taken. Without the option
/// there are none.
pub(crate) fn turns_of(given: Option<&str>) -> Option<u64>
    ensures { MatchOption result ((turns : ℕ) → SpellsTurns (option_map (λ x. x.now) given.entry) turns → ⊥)
        (λ turns. SpellsTurns (option_map (λ x. x.now) given.entry) turns) }
{
    match given {
        None => Some(0),
        Some(text) => number_up_to(text, MOST_TURNS),
    }
}
