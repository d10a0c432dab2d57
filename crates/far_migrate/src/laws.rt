//! What the exchanges of a migration say. Each function does nothing, and its clauses are the laws.
ghost use Rattle.std.specs.Prelude.{◌≡◌, ◌≢◌, ℕ, List, []};
ghost use Rattle.edge_io.specs.Exchanges.{Exchange};
ghost use Rattle.place.specs.Place.{Names};
ghost use Rattle.far_migrate.specs.Counts.{Counts, AddsUp, answer, restarted};
ghost use Rattle.far_migrate.specs.Migrates.{Migrates, AreFounded};
ghost use Rattle.far_migrate.specs.Puts.{Handled, all, failed};
ghost use Rattle.far_migrate.specs.Told.{EndsInList, HasExpired, EndsWithCode};

use crate::run::{FIRST_LIMIT, MOST_OBJECTS, MOST_PUTS, MOST_RESTARTS};

/// Each exchange is a list, a get, or the put of a value that an earlier one gave for that key.
pub fn only_given()
    ensures { (n : Names) (es : List Exchange) (h : Handled) → Migrates n es h → AreFounded n [] es }
{}

/// Where there is a tally, all objects of the last list were put back: what was listed is the sum of the other counts.
pub fn all_counted()
    ensures { (n : Names) (es : List Exchange) (t : Counts) → Migrates n es (all t) → AddsUp t }
{}

/// A tally is that of one whole list, which is the last of the exchanges: each page was asked for with the token of the one before, the
/// last page had none, and each object was put back.
pub fn one_list()
    ensures { (n : Names) (es : List Exchange) (t : Counts) → Migrates n es (all t) → EndsInList n es t }
{}

/// `Restarted` comes only where seventeen lists were answered that their token is too old.
pub fn restarts()
    ensures { (n : Names) (es : List Exchange) → Migrates n es (failed restarted) → HasExpired n 17 es }
{}

/// An answer with a code other than 0 comes only where the last exchange was answered with that code.
pub fn last_code()
    ensures { (n : Names) (es : List Exchange) (c : ℕ) → c ≢ 0 → Migrates n es (failed (answer c)) → EndsWithCode es c }
{}

/// A page has at most 500 objects and a list at most 1,000,000; a list begins again at most 16 times, and an object is put at most 4
/// times.
pub fn numbers()
    ensures limit { FIRST_LIMIT ≡ 500 }
    ensures objects { MOST_OBJECTS ≡ 1_000_000 }
    ensures restarts { MOST_RESTARTS ≡ 16 }
    ensures puts { MOST_PUTS ≡ 4 }
{}
