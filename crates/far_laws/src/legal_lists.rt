//! What holds of the objects of every legal list beside the laws of `api_calls`: how pages go on, how many objects stand, that a key
//! stays at the storage version, and that values stay whole.
//!
//! Each law is the contract of a function that does nothing. It knows nothing of requests, replies or workers.
ghost use Rattle.std.specs.Prelude.{◌≡◌, ◌∷◌, ◌++◌, ◌≤◌, IsTrue, List, Option, Some, ℕ, length};
ghost use Rattle.kube_meta.specs.Key.{KeyView};
ghost use Rattle.kube_meta.specs.Page.{listed, page_of};
ghost use Rattle.kube_meta.specs.declared.limits.Limits.{Limits};
ghost use Rattle.api_calls.specs.Item.{Item};
ghost use Rattle.api_calls.specs.LegalLists.{IsRising, KeepsStorage};
ghost use Rattle.api_calls.specs.Legal.{Each, legal};
ghost use Rattle.api_calls.specs.Objects.{Stored, live, object_key};
ghost use Rattle.api_calls.specs.Snap.{page_at, snap, upto};
ghost use Rattle.api_calls.specs.State.{state};
ghost use Rattle.far_laws.specs.Keys.{IsAbsentOrAt};

use api_calls::laws::Means;

/// Of objects by rising key, those of a namespace behind the key of one of them are what is left behind it.
pub fn left_behind()
    ensures { (es : List Stored) (ns : Option (List ℕ)) (after : Option KeyView) (front rest : List Stored) (e : Stored) → IsRising es
        → listed object_key ns after es ≡ front ++ e ∷ rest → listed object_key ns (Some e.key) es ≡ rest }
{}

/// The objects at a number are those of a front of the list, which is legal too, and stand by rising key. So the page behind an object
/// of the list at that number is a page of what is left behind it, whatever the limits of both: pages that go on each behind the last
/// object of the one before are the list, with no object twice and none left out.
pub fn pages_go_on<V: Means>()
    ensures front { (it : V) (limits : Limits) (log : List Item) (r : ℕ) → legal (V.meaning it) limits log
        → (more : List Item) × (log ≡ upto 2 r log ++ more) × legal (V.meaning it) limits (upto 2 r log) }
    ensures rising { (it : V) (limits : Limits) (log : List Item) (r : ℕ) → legal (V.meaning it) limits log → IsRising (snap (V.meaning it) log r) }
    ensures behind { (it : V) (limits : Limits) (log : List Item) (ns : Option (List ℕ)) (after : Option KeyView) (r limit : ℕ) (front rest : List Stored) (e : Stored)
        → legal (V.meaning it) limits log → listed object_key ns after (snap (V.meaning it) log r) ≡ front ++ e ∷ rest
        → page_at (V.meaning it) log ns (Some e.key) r limit ≡ page_of r limit rest }
{}

/// At most as many objects stand as the limit says, in at most as many chunks, and at most as many migrations were ever started.
pub fn within_limits<V: Means>()
    ensures objects { (it : V) (limits : Limits) (log : List Item) → legal (V.meaning it) limits log → length (state (V.meaning it) log).objects ≤ limits.objects }
    ensures chunks { (it : V) (limits : Limits) (log : List Item) → legal (V.meaning it) limits log → live (state (V.meaning it) log).objects ≤ limits.chunks }
    ensures migrations { (it : V) (limits : Limits) (log : List Item) → legal (V.meaning it) limits log
        → length (state (V.meaning it) log).migrations ≤ limits.migrations }
{}

/// A key that stands at the storage version, or isn't there, does so for as long as the storage version stays.
pub fn stays_at_storage<V: Means>()
    ensures { (it : V) (limits : Limits) (before after : List Item) (k : KeyView) → legal (V.meaning it) limits (before ++ after)
        → Each (KeepsStorage (state (V.meaning it) before).flags.storage) after
        → IsAbsentOrAt (state (V.meaning it) before).flags.storage k (state (V.meaning it) before)
        → ((state (V.meaning it) (before ++ after)).flags.storage ≡ (state (V.meaning it) before).flags.storage)
        × IsAbsentOrAt (state (V.meaning it) before).flags.storage k (state (V.meaning it) (before ++ after)) }
{}

/// The value of each object is whole, now and at each number, where it is known what values mean.
pub fn objects_are_whole<V: Means>()
    ensures now { (it : V) (limits : Limits) (log : List Item) → IsTrue (V.meaning it).honest → legal (V.meaning it) limits log
        → Each (λ e. (V.meaning it).whole e.h) (state (V.meaning it) log).objects }
    ensures at { (it : V) (limits : Limits) (log : List Item) (r : ℕ) → IsTrue (V.meaning it).honest → legal (V.meaning it) limits log
        → Each (λ e. (V.meaning it).whole e.h) (snap (V.meaning it) log r) }
{}
