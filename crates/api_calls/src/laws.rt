//! What holds of every history of the server: each law is the contract of a function that does nothing. Its type
//! parameter is what has a meaning, as a definition of versions has. And the numbers of objects and uids, which no edit
//! of a constant can turn.
ghost use Rattle.std.specs.Prelude.{◌≡◌, ◌≤◌, ◌<◌, ◌+◌, ◌^◌, ◌↔◌, ◌⊎◌, List, ℕ, ◌++◌, [], ◌∷◌, Some, take, IsTrue, true};
ghost use Rattle.kube_meta.specs.Key.{KeyView};
ghost use Rattle.kube_meta.specs.View.{ObjectView};
ghost use Rattle.kube_meta.specs.Plan.{Migration, running, is_done};
ghost use Rattle.kube_meta.specs.Window.{IsFloor, above};
ghost use Rattle.kube_meta.specs.declared.limits.Limits.{Limits};
ghost use Rattle.api_calls.specs.Meaning.{Fault, Meaning};
ghost use Rattle.api_calls.specs.Item.{Entry, Item, MarkSucceeded, StartMigration, entry};
ghost use Rattle.api_calls.specs.Objects.{Stored, find};
ghost use Rattle.api_calls.specs.State.{entry_effect, next_number, revision, state};
ghost use Rattle.api_calls.specs.Legal.{Each, MaySucceed, legal};
ghost use Rattle.api_calls.specs.Snap.{Supersedes, by_number, floor, past_weight, snap, superseded, window};
ghost use Rattle.api_calls.specs.LegalLists.{AreCounted, Holds, IsSoundState, KeepsStorage, Leaves, MarkedAreHeld, Writes, away, touches_of};
ghost use Rattle.api_calls.specs.Bodies.{RefusesStart, Starts};

use crate::uid::{BORN_END, UID_BYTES};
use crate::versions::OBJECT_LEVELS;
use kj_value::one_reading;

/// An object's document has at most 64 levels. A uid has 36 bytes, and the number of the entry that created its object is
/// below 2^62.
pub fn numbers()
    ensures levels { OBJECT_LEVELS ≡ 64 }
    ensures uid { UID_BYTES ≡ 36 }
    ensures born { BORN_END ≡ 2 ^ 62 }
{}

/// What has a meaning.
pub trait Means {
    ghost meaning: { Self → Meaning };
}

/// A number names one value, in whichever beginnings of a list it is met: key, hub value, stored version, birth and
/// weight are the same.
pub fn one_value<V: Means>()
    ensures { (it : V) (limits : Limits) (log : List Item) → legal (V.meaning it) limits log → (i j : ℕ) (e f : Stored)
        → Holds (state (V.meaning it) (take i log)) e → Holds (state (V.meaning it) (take j log)) f → e.number ≡ f.number → e ≡ f }
{}

/// What a create, a replace or a mark gave a key stays its value until a later replace, mark, release or delete of
/// that key.
pub fn value_stays<V: Means>()
    ensures { (it : V) (limits : Limits) (before after : List Item) (write : Entry) (k : KeyView) (h : ObjectView)
        → legal (V.meaning it) limits (before ++ entry write ∷ after) → Writes (state (V.meaning it) before) k h write → Each (Leaves k) after
        → (e : Stored) × (find k (state (V.meaning it) (before ++ entry write ∷ after)).objects ≡ Some e) × (e.h ≡ h) }
{}

/// After a migration succeeded, every object stands at its target until the storage version changes.
pub fn succeeded<V: Means>()
    ensures { (it : V) (limits : Limits) (before after : List Item) (m : Migration)
        → legal (V.meaning it) limits (before ++ entry MarkSucceeded ∷ after) → running (state (V.meaning it) before).migrations ≡ Some m
        → Each (KeepsStorage m.target) after → Each (λ e. e.at ≡ m.target) (state (V.meaning it) (before ++ entry MarkSucceeded ∷ after)).objects }
{}

/// A migration touches no more objects than stood elsewhere at its start.
pub fn few_touches<V: Means>()
    ensures { (it : V) (limits : Limits) (before after : List Item) (name : List ℕ)
        → legal (V.meaning it) limits (before ++ entry (StartMigration name) ∷ after)
        → touches_of name (next_number before + 1) (entry_effect (next_number before) (StartMigration name) (state (V.meaning it) before)) after
        ≤ away (state (V.meaning it) before).flags.storage (state (V.meaning it) before).objects }
{}

/// At most one migration runs, its target is the storage version, every object stands at a version of the stored
/// list, and each object that the plan has passed stands at the target.
pub fn sound<V: Means>()
    ensures { (it : V) (limits : Limits) (log : List Item) → legal (V.meaning it) limits log → IsSoundState (state (V.meaning it) log) }
{}

/// Where every key was handed out and no claim is left, the running migration may be marked.
pub fn finished<V: Means>()
    ensures { (it : V) (limits : Limits) (log : List Item) (m : Migration) → legal (V.meaning it) limits log → running (state (V.meaning it) log).migrations ≡ Some m
        → is_done (state (V.meaning it) log).plan ≡ true → MaySucceed (state (V.meaning it) log) }
{}

/// A value that is being deleted has a finalizer, where it is known what values mean.
pub fn marked_are_held<V: Means>()
    ensures { (it : V) (limits : Limits) (log : List Item) → IsTrue (V.meaning it).honest → legal (V.meaning it) limits log → MarkedAreHeld (state (V.meaning it) log) }
{}

/// Each object's generation is at least 1 and at most the revision, where it is known what values mean.
pub fn counted<V: Means>()
    ensures { (it : V) (limits : Limits) (log : List Item) → IsTrue (V.meaning it).honest → legal (V.meaning it) limits log
        → AreCounted (revision log) (state (V.meaning it) log) }
{}

/// The floor is the least number, at least 1, such that what later entries superseded fits into the window, and the
/// window has just that.
pub fn floor_is_least<V: Means>()
    ensures floor { (it : V) (limits : Limits) (log : List Item) → IsFloor by_number past_weight limits (superseded (V.meaning it) log) (floor limits (V.meaning it) log) }
    ensures window { (it : V) (limits : Limits) (log : List Item) → window limits (V.meaning it) log ≡ above by_number (floor limits (V.meaning it) log) (superseded (V.meaning it) log) }
{}

/// The objects at a number stay what they were, however the list goes on.
pub fn past_stays<V: Means>()
    ensures { (it : V) (log more : List Item) (r : ℕ) → r < next_number log → snap (V.meaning it) (log ++ more) r ≡ snap (V.meaning it) log r }
{}

/// The objects at a number are those that stand and those that were superseded since, as far as they are no younger.
pub fn rebuilt<V: Means>()
    ensures { (it : V) (limits : Limits) (log : List Item) (r : ℕ) (e : Stored) → legal (V.meaning it) limits log → 1 ≤ r → r < next_number log
        → Holds (record (state (V.meaning it) log) { objects = snap (V.meaning it) log r }) e
        ↔ ((e.number ≤ r) × (Holds (state (V.meaning it) log) e ⊎ Supersedes r e (superseded (V.meaning it) log))) }
{}

/// A body starts a migration of one name or is refused, and not both.
pub fn start_decided<V: Means>()
    ensures one { (it : V) (body n k : List ℕ) → Starts (V.meaning it) body n → Starts (V.meaning it) body k → n ≡ k }
    ensures excludes { (it : V) (body name : List ℕ) (f : Fault) → Starts (V.meaning it) body name → RefusesStart (V.meaning it) body f → ⊥ }
    ensures complete { (it : V) (body : List ℕ) → ((name : List ℕ) → Starts (V.meaning it) body name → ⊥)
        → ((f : Fault) → RefusesStart (V.meaning it) body f → ⊥) → ⊥ }
{
    one_reading()
}
