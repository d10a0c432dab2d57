//! The words of a drill.
ghost use Rattle.std.specs.Prelude.{◌≡◌, ◌∷◌, [], IfSome, MatchOption, codes, map, string_bytes};
ghost use Rattle.command_lines.specs.Lines.{HasNumbers, Line};
ghost use Rattle.command_lines.specs.Given.{line_of};

use crate::numbers::{MOST_START, MOST_STEPS, number_up_to};
use crate::words::Command;

// The drill of two numbers.
pub(crate) fn drill_with<'a>(start: &str, count: &str) -> Option<Command<'a>>
    ensures is { IfSome result (λ c. HasNumbers (codes "drill" ∷ start.now ∷ count.now ∷ []) (line_of c)) }
    ensures only { (line : Line) → HasNumbers (codes "drill" ∷ start.now ∷ count.now ∷ []) line → MatchOption result ⊥ (λ c. line ≡ line_of c) }
{
    match number_up_to(start, MOST_START) {
        Some(start) => match number_up_to(count, MOST_STEPS) {
            Some(count) => Some(Command::Drill { start, count }),
            None => None,
        },
        None => None,
    }
}

// The drill of two numbers, where no other word is behind them.
fn ended<'a>(start: &str, count: &str, more: &[String]) -> Option<Command<'a>>
    ensures is { IfSome result (λ c. HasNumbers (codes "drill" ∷ start.now ∷ count.now ∷ map string_bytes more.now) (line_of c)) }
    ensures only { (line : Line) → HasNumbers (codes "drill" ∷ start.now ∷ count.now ∷ map string_bytes more.now) line → MatchOption result ⊥ (λ c. line ≡ line_of c) }
{
    match more {
        [] => drill_with(start, count),
        [_, ..] => None,
    }
}

// The drill of a number and the words behind it.
fn counted<'a>(start: &str, rest: &[String]) -> Option<Command<'a>>
    ensures is { IfSome result (λ c. HasNumbers (codes "drill" ∷ start.now ∷ map string_bytes rest.now) (line_of c)) }
    ensures only { (line : Line) → HasNumbers (codes "drill" ∷ start.now ∷ map string_bytes rest.now) line → MatchOption result ⊥ (λ c. line ≡ line_of c) }
{
    match rest {
        [] => None,
        [count, more @ ..] => ended(start, count.as_str(), more),
    }
}

/// The drill that the words behind the command are, or `None` exactly where they are none.
pub(crate) fn drill_of<'a>(words: &[String]) -> Option<Command<'a>>
    ensures is { IfSome result (λ c. HasNumbers (codes "drill" ∷ map string_bytes words.now) (line_of c)) }
    ensures only { (line : Line) → HasNumbers (codes "drill" ∷ map string_bytes words.now) line → MatchOption result ⊥ (λ c. line ≡ line_of c) }
{
    match words {
        [] => None,
        [start, rest @ ..] => counted(start.as_str(), rest),
    }
}
