//! The options of `serve`.
ghost use Rattle.std.specs.Prelude.{◌≡◌, ◌≤◌, ℕ, Option, None, Some, IfSome, MatchBool, MatchOption, option_map, codes};
ghost use Rattle.command_lines.specs.Lines.{HasSource, IsNamed, IsUnserved, SpellsConnections, SpellsWorkers};
ghost use Rattle.command_lines.specs.Given.{source_of, values_in, IsCommand};

use crate::numbers::number_up_to;
use crate::service::{Listening, MOST_CONNECTIONS, MOST_WORKERS, USUAL_WORKERS};
use crate::source::Source;
use crate::words::{Command, Given};

/// So many workers as an option's value spells, or `None` exactly where it spells none that there may be.
pub(crate) fn workers_of(given: Option<&str>) -> Option<u64>
    ensures spelled { MatchOption result ((workers : ℕ) → SpellsWorkers (option_map (λ x. x.now) given.entry) workers → ⊥)
        (λ workers. SpellsWorkers (option_map (λ x. x.now) given.entry) workers) }
    ensures few { IfSome result (λ workers. workers ≤ MOST_WORKERS) }
{
    match given {
        None => Some(USUAL_WORKERS),
        Some(text) => number_up_to(text, MOST_WORKERS),
    }
}

// So many connections as a text spells, or `None` exactly where it spells none that may be waited for.
fn some_connections(text: &str) -> Option<Option<u64>>
    ensures { MatchOption result ((connections : Option ℕ) → SpellsConnections (Some text.now) connections → ⊥)
        (λ connections. SpellsConnections (Some text.now) connections) }
{
    match number_up_to(text, MOST_CONNECTIONS) {
        Some(connections) => {
            if connections == 0 {
                None
            } else {
                Some(Some(connections))
            }
        }
        None => None,
    }
}

/// So many connections as an option's value spells, and no number without the option.
pub(crate) fn connections_of(given: Option<&str>) -> Option<Option<u64>>
    ensures { MatchOption result ((connections : Option ℕ) → SpellsConnections (option_map (λ x. x.now) given.entry) connections → ⊥)
        (λ connections. SpellsConnections (option_map (λ x. x.now) given.entry) connections) }
{
    match given {
        None => Some(None),
        Some(text) => some_connections(text),
    }
}

/// Whether no option of `serve` alone is given.
pub(crate) fn is_unserved(given: Given<'_>) -> bool
    ensures { MatchBool result (IsUnserved (values_in given.entry)) (IsUnserved (values_in given.entry) → ⊥) }
{
    match given.listen {
        Some(_) => false,
        None => match given.workers {
            Some(_) => false,
            None => match given.connections {
                Some(_) => false,
                None => true,
            },
        },
    }
}

// The line of `serve` by this definition with the options that aren't `--to` and `--turns`, where these numbers are spelled.
fn serve_with<'a>(
    given: Given<'a>,
    source: Source<'a>,
    workers: u64,
    connections: Option<u64>,
) -> Option<Command<'a>>
    requires source { HasSource (source_of source) (values_in given) }
    requires named { IsNamed (source_of source) }
    requires others { ((values_in given).to ≡ None) × ((values_in given).turns ≡ None) }
    requires few { workers ≤ MOST_WORKERS }
    requires workers { SpellsWorkers (values_in given).workers workers }
    requires connections { SpellsConnections (values_in given).connections connections }
    ensures { IsCommand (codes "serve") (values_in given.entry) result }
{
    match given.listen {
        None => None,
        Some(place) => Some(Command::Serve {
            source,
            listening: Listening {
                place,
                workers,
                connections,
            },
        }),
    }
}

// The line of `serve` by this definition with the options that aren't `--to` and `--turns`.
fn serve_numbers<'a>(given: Given<'a>, source: Source<'a>) -> Option<Command<'a>>
    requires source { HasSource (source_of source) (values_in given) }
    requires named { IsNamed (source_of source) }
    requires others { ((values_in given).to ≡ None) × ((values_in given).turns ≡ None) }
    ensures { IsCommand (codes "serve") (values_in given.entry) result }
{
    match workers_of(given.workers) {
        None => None,
        Some(workers) => match connections_of(given.connections) {
            None => None,
            Some(connections) => serve_with(given, source, workers, connections),
        },
    }
}

/// The line of `serve` by this definition with these options.
pub(crate) fn serve_of<'a>(given: Given<'a>, source: Source<'a>) -> Option<Command<'a>>
    requires source { HasSource (source_of source) (values_in given) }
    requires named { IsNamed (source_of source) }
    ensures { IsCommand (codes "serve") (values_in given.entry) result }
{
    match given.to {
        Some(_) => None,
        None => match given.turns {
            Some(_) => None,
            None => serve_numbers(given, source),
        },
    }
}
