//! What the exchanges of a dump and of a restoring say, and the numbers of a restoring. Each function does nothing, and its clauses are the laws.
ghost use Rattle.std.specs.Prelude.{◌≡◌, ◌≢◌, ℕ, List};
ghost use Rattle.edge_io.specs.Exchanges.{Exchange};
ghost use Rattle.place.specs.Place.{Names};
ghost use Rattle.far_migrate.specs.Told.{EndsWithCode};
ghost use Rattle.record_dump.specs.Dumps.{at_first, Dumps};
ghost use Rattle.record_dump.specs.Restores.{none_yet, Restores};
ghost use Rattle.record_dump.specs.Told.{IsWhole, IsPosted};
ghost use Rattle.record_dump.specs.declared.ends.DumpEnd.TheVariants as ends;
ghost use Rattle.record_dump.specs.declared.ends.RestoreEnd.TheVariants as restored;

use crate::lines::MOST_BYTES;
use crate::posting::MOST_LEVELS;
use crate::restoring::MOST_LINES;

/// Where a dump is done, its exchanges are one whole list: each page was asked for with the token of the one before, and the last page
/// had none. What was written is the line of each object, in order, and the number is that of the lines.
pub fn one_list()
    ensures { (n : Names) (es : List Exchange) (w : List ℕ) (k : ℕ) → Dumps n at_first es w (ends.Done k) → IsWhole n es w k }
{}

/// Where a restoring is done, its input was lines, and each was posted by one exchange, in order. The two numbers are those of the posts
/// that were answered that the object was created, and that it is there.
pub fn all_posted()
    ensures { (n : Names) (bytes : List ℕ) (es : List Exchange) (c p : ℕ) → Restores n none_yet bytes es (restored.Done c p) → IsPosted n bytes es c p }
{}

/// `Answer` with a code other than 0 comes only where the last exchange was answered with that code, and `Expired` only where it was
/// answered with 410.
pub fn last_code()
    ensures listed { (n : Names) (es : List Exchange) (w : List ℕ) (c : ℕ) → c ≢ 0 → Dumps n at_first es w (ends.Answer c) → EndsWithCode es c }
    ensures expired { (n : Names) (es : List Exchange) (w : List ℕ) → Dumps n at_first es w ends.Expired → EndsWithCode es 410 }
    ensures posted { (n : Names) (bytes : List ℕ) (es : List Exchange) (i c : ℕ) → c ≢ 0 → Restores n none_yet bytes es (restored.Answer i c) → EndsWithCode es c }
{}

/// A line has at most 1,048,576 bytes and 64 levels, and an input at most 1,000,000 lines.
pub fn numbers()
    ensures bytes { MOST_BYTES ≡ 1_048_576 }
    ensures levels { MOST_LEVELS ≡ 64 }
    ensures lines { MOST_LINES ≡ 1_000_000 }
{}
