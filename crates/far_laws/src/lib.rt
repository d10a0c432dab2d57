//! What tools that work on a server from outside leave behind, over a server whose history is known. A migration whose tally has nothing
//! contested leaves each object at the storage version, where that version stays meanwhile, and loses no edit: what it puts back has the
//! hub value that stood there, and where another's edit came between, the put is refused. A dump that is done has all objects of one
//! moment, each as a line. Restored, it leaves these objects, each under its key and with its hub value but for stamps and generation,
//! and no others; so the next dump has the same bytes.
//!
//! Each law is the contract of a function that does nothing. It speaks of the exchanges of `far_migrate` and `record_dump`, of requests and
//! responses as bytes, of routes, of replies and of the server's history, and knows nothing of how any of them is made.
#![tactic(auto)]

pub mod forms;
pub mod fronts;
pub mod legal_lists;

ghost use Rattle.std.specs.Prelude.{◌≡◌, ◌++◌, ℕ, List, [], None, Option, IsTrue};
ghost use Rattle.kj_value.specs.Json.{Json};
ghost use Rattle.kube_meta.specs.Key.{KeyView};
ghost use Rattle.kube_meta.specs.declared.limits.Limits.{Limits};
ghost use Rattle.kube_meta.specs.Document.{document};
ghost use Rattle.kube_meta.specs.View.{ObjectView};
ghost use Rattle.object_reading.specs.Written.{IsBody};
ghost use Rattle.edge_io.specs.Exchanges.{Exchange};
ghost use Rattle.api_calls.specs.Item.{Item};
ghost use Rattle.api_calls.specs.Legal.{legal};
ghost use Rattle.api_calls.specs.Objects.{find};
ghost use Rattle.api_calls.specs.State.{state};
ghost use Rattle.http_routes.specs.Paths.{IsKey};
ghost use Rattle.far_laws.specs.Keys.{IsAbsentOrAt};
ghost use Rattle.far_laws.specs.GivenBack.{GivesBack, bare};
ghost use Rattle.place.specs.Place.{Names};
ghost use Rattle.wire_client.specs.Answers.{given, gone};
ghost use Rattle.wire_client.specs.Calls.{gets, puts};
ghost use Rattle.wire_client.specs.Far.{Chain};
ghost use Rattle.far_migrate.specs.Counts.{Counts};
ghost use Rattle.far_migrate.specs.Migrates.{Migrates};
ghost use Rattle.far_migrate.specs.Puts.{all, Handled};
ghost use Rattle.record_dump.specs.Told.{IsWhole};
ghost use Rattle.record_dump.specs.Lines.{dumped};
ghost use Rattle.far_laws.specs.Answering.{Answered, IsBehind};
ghost use Rattle.far_laws.specs.Upgraded.{AreAtStorage, Meanwhile};
ghost use Rattle.far_laws.specs.Speaking.{AreNames, front, speaker};
ghost use Rattle.far_laws.specs.Dumped.{IsDumpOf, IsKnown};
ghost use Rattle.far_laws.specs.Keeping.{keeping};
ghost use Rattle.far_laws.specs.Restored.{AreSame, IsRestored, Restoring};

use api_calls::Versions;
use kj_value::{one_reading, text_reads};
use wire_client::Serving;

// ---- a migration, over exchanges

/// An object that is put back and given stands at the storage version afterwards, or is released.
pub fn put_stands<V: Versions, S: Serving>()
    ensures { (it : V) (limits : Limits) (boot : ℕ) (far : S) (n : Names) (log own : List Item) (key : KeyView) (j k : Json) → IsKey key
        → legal (V.meaning it) limits log → IsBehind (record { meaning = V.meaning it; limits = limits; boot = boot }) n (S.server far)
        → Answered (S.server far) n (puts key j) log own (given k)
        → IsAbsentOrAt (state (V.meaning it) log).flags.storage key (state (V.meaning it) (log ++ own)) }
{}

/// Nothing has the key of an object that is put back and isn't found, or that a get doesn't find, and nothing is entered.
pub fn missed_is_absent<V: Versions, S: Serving>()
    ensures put { (it : V) (limits : Limits) (boot : ℕ) (far : S) (n : Names) (log own : List Item) (key : KeyView) (j : Json) → IsKey key
        → IsBehind (record { meaning = V.meaning it; limits = limits; boot = boot }) n (S.server far) → Answered (S.server far) n (puts key j) log own gone
        → (find key (state (V.meaning it) log).objects ≡ None) × (own ≡ []) }
    ensures get { (it : V) (limits : Limits) (boot : ℕ) (far : S) (n : Names) (log own : List Item) (key : KeyView) → IsKey key
        → IsBehind (record { meaning = V.meaning it; limits = limits; boot = boot }) n (S.server far) → Answered (S.server far) n (gets key) log own gone
        → (find key (state (V.meaning it) log).objects ≡ None) × (own ≡ []) }
{}

/// A migration whose tally has nothing contested leaves each object at the storage version, where that version stays meanwhile.
pub fn all_at_storage<V: Versions, S: Serving>()
    ensures { (it : V) (limits : Limits) (boot : ℕ) (far : S) (n : Names) (first last : List Item) (es : List Exchange) (t : Counts)
        → Meanwhile (V.meaning it) limits first last → IsBehind (record { meaning = V.meaning it; limits = limits; boot = boot }) n (S.server far)
        → Chain (S.server far) first es last → Migrates n es (all t) → t.contested ≡ 0 → AreAtStorage (state (V.meaning it) last) }
{
    one_reading();
    text_reads();
}

// ---- a migration, over bytes

/// The requests of a migration's client are read as they were meant, and what it takes an answer for is what the server answered: an
/// object or a page is that of a success, and nothing is gone but what isn't found.
pub fn bytes_tell<V: Versions>()
    ensures { (it : V) (limits : Limits) (boot : ℕ) (told : Option (List ℕ)) (n : Names) → AreNames n
        → IsBehind (record { meaning = V.meaning it; limits = limits; boot = boot }) n (speaker (front (V.meaning it) limits boot told)) }
{
    one_reading();
    text_reads();
}

/// A migration from outside whose tally has nothing contested leaves each object at the storage version, where it is known what values
/// mean and no other storage version was set meanwhile.
pub fn all_upgraded<V: Versions>()
    ensures { (it : V) (limits : Limits) (boot : ℕ) (told : Option (List ℕ)) (n : Names) (first last : List Item) (es : List Exchange) (t : Counts) → AreNames n
        → Meanwhile (V.meaning it) limits first last → Chain (speaker (front (V.meaning it) limits boot told)) first es last → Migrates n es (all t)
        → t.contested ≡ 0 → AreAtStorage (state (V.meaning it) last) }
{
    one_reading();
    text_reads();
}

// ---- a dump

/// What a whole dump wrote are the lines of all objects that the server had at one moment between its begin and its end, each at the
/// version of the place, in the order of their keys.
pub fn dump_is_whole<V: Versions, S: Serving>()
    ensures { (it : V) (limits : Limits) (boot : ℕ) (far : S) (n : Names) (first last : List Item) (es : List Exchange) (written : List ℕ) (lines : ℕ)
        → IsKnown (V.meaning it) limits last → IsBehind (record { meaning = V.meaning it; limits = limits; boot = boot }) n (S.server far)
        → Chain (S.server far) first es last → IsWhole n es written lines
        → IsDumpOf (record { meaning = V.meaning it; limits = limits; boot = boot }) n first last written lines }
{
    one_reading();
    text_reads();
}

/// The same of a server whose bytes answer by the definition.
pub fn all_dumped<V: Versions>()
    ensures { (it : V) (limits : Limits) (boot : ℕ) (told : Option (List ℕ)) (n : Names) (first last : List Item) (es : List Exchange) (written : List ℕ) (lines : ℕ) → AreNames n
        → IsKnown (V.meaning it) limits last → Chain (speaker (front (V.meaning it) limits boot told)) first es last → IsWhole n es written lines
        → IsDumpOf (record { meaning = V.meaning it; limits = limits; boot = boot }) n first last written lines }
{
    one_reading();
    text_reads();
}

// ---- the values that a migration puts back

/// However a migration ends, what the server enters by its requests leaves each object its hub value, where forms that are given back are
/// admitted with theirs.
pub fn upgrade_keeps<V: Versions, S: Serving>()
    ensures { (it : V) (limits : Limits) (boot : ℕ) (far : S) (n : Names) (first last : List Item) (es : List Exchange) (h : Handled)
        → IsKnown (V.meaning it) limits last → GivesBack (V.meaning it) → IsBehind (record { meaning = V.meaning it; limits = limits; boot = boot }) n (S.server far)
        → Chain (S.server far) first es last → Migrates n es h → Chain (keeping (V.meaning it) (S.server far)) first es last }
{
    one_reading();
    text_reads();
}

/// The same of a server whose bytes answer by the definition.
pub fn all_kept<V: Versions>()
    ensures { (it : V) (limits : Limits) (boot : ℕ) (told : Option (List ℕ)) (n : Names) (first last : List Item) (es : List Exchange) (h : Handled) → AreNames n
        → IsKnown (V.meaning it) limits last → GivesBack (V.meaning it) → Chain (speaker (front (V.meaning it) limits boot told)) first es last → Migrates n es h
        → Chain (keeping (V.meaning it) (speaker (front (V.meaning it) limits boot told))) first es last }
{
    one_reading();
    text_reads();
}

// ---- a restoring

/// What a dump writes of an object's document is the document of the object without its stamps, its generation, its number and its uid.
pub fn dumped_bare()
    ensures { (x : ObjectView) → IsBody x.body → dumped (document x) ≡ document (bare x) }
{}

/// A restoring to which nobody else writes enters one create for each line, in order, under the line's key and of what is admitted of it.
pub fn restore_creates<V: Versions>()
    ensures { (it : V) (limits : Limits) (boot : ℕ) (told : Option (List ℕ)) (n : Names) (first last : List Item) (bytes : List ℕ) → AreNames n → IsTrue (V.meaning it).honest
        → Restoring (front (V.meaning it) limits boot told) n first last bytes → IsRestored (V.meaning it) n first last bytes }
{
    one_reading();
    text_reads();
}

/// What a dump wrote is there again once it is restored over a server of the same definition that has no objects: the same objects that
/// stood at the moment of the dump, one for each and no others. The two servers may have other limits and other numbers of their starts,
/// and forms that are given back are to be admitted with their values, as a loaded definition does.
pub fn all_restored<V: Versions>()
    ensures { (it : V) (n : Names) → AreNames n → IsTrue (V.meaning it).honest → GivesBack (V.meaning it)
        → (source : Limits) (boot : ℕ) (before after : List Item) (written : List ℕ) (lines : ℕ) → legal (V.meaning it) source after
        → (dump : IsDumpOf (record { meaning = V.meaning it; limits = source; boot = boot }) n before after written lines)
        → (limits : Limits) (start : ℕ) (told : Option (List ℕ)) (first last : List Item) → (state (V.meaning it) first).objects ≡ []
        → Restoring (front (V.meaning it) limits start told) n first last written
        → AreSame (state (V.meaning it) dump.at).objects (state (V.meaning it) last).objects }
{
    one_reading();
    text_reads();
}

/// Dumps of the same objects, by servers of one definition, are the same bytes.
pub fn dumps_alike<V: Versions>()
    ensures { (it : V) (n : Names) → IsTrue (V.meaning it).honest
        → (limits : Limits) (boot : ℕ) (before after : List Item) (written : List ℕ) (lines : ℕ) → legal (V.meaning it) limits after
        → (dump : IsDumpOf (record { meaning = V.meaning it; limits = limits; boot = boot }) n before after written lines)
        → (others : Limits) (start : ℕ) (first last : List Item) (again : List ℕ) (count : ℕ) → legal (V.meaning it) others last
        → (second : IsDumpOf (record { meaning = V.meaning it; limits = others; boot = start }) n first last again count)
        → AreSame (state (V.meaning it) dump.at).objects (state (V.meaning it) second.at).objects → again ≡ written }
{
    one_reading();
    text_reads();
}

/// A dump of what was restored, before anything else is entered, is the dump that was restored, byte for byte.
pub fn dump_is_back<V: Versions>()
    ensures { (it : V) (n : Names) → AreNames n → IsTrue (V.meaning it).honest → GivesBack (V.meaning it)
        → (source : Limits) (boot : ℕ) (before after : List Item) (written : List ℕ) (lines : ℕ) → legal (V.meaning it) source after
        → IsDumpOf (record { meaning = V.meaning it; limits = source; boot = boot }) n before after written lines
        → (limits : Limits) (start : ℕ) (told : Option (List ℕ)) (first last : List Item) → (state (V.meaning it) first).objects ≡ []
        → Restoring (front (V.meaning it) limits start told) n first last written
        → (again : List ℕ) (count : ℕ) → IsDumpOf (record { meaning = V.meaning it; limits = limits; boot = start }) n last last again count → again ≡ written }
{
    one_reading();
    text_reads();
}
