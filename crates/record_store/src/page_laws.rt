//! The law, as the contract of a function that does nothing.
ghost use Rattle.std.specs.Prelude.{◌≡◌, ◌≤◌, List, Option, ℕ};
ghost use Rattle.kube_meta.specs.Key.{KeyView};
ghost use Rattle.kube_meta.specs.Page.{listed, page_of};
ghost use Rattle.kube_meta.specs.WindowPairs.{AllPair};
ghost use Rattle.kube_meta.specs.declared.limits.Limits.{Limits};
ghost use Rattle.api_calls.specs.Item.{Item};
ghost use Rattle.api_calls.specs.Legal.{legal};
ghost use Rattle.api_calls.specs.Objects.{Stored};
ghost use Rattle.api_calls.specs.Snap.{page_at, snap};
ghost use Rattle.record_store.specs.View.{StoreView, item_key, items_at};
ghost use Rattle.record_store.specs.Keeping.{IsSame, KeepsHistory, ArePagesOfOne};

use api_calls::laws::{Means, floor_is_least, rebuilt, sound};

/// What has a meaning, and says which bytes are a text of an object.
pub trait Texts: Means {
    ghost text: { Self → Stored → List ℕ → Type 0 };
}

/// Where a store keeps what a history says, its records as they were at a number from the floor on are
/// the objects of that number, one by one, and so is each page of them.
pub fn page_of_history<V: Texts>()
    ensures records { (it : V) (limits : Limits) (log : List Item) (s : StoreView) (r : ℕ) → legal (V.meaning it) limits log
        → KeepsHistory (V.text it) limits (V.meaning it) log s → s.floor ≤ r
        → AllPair (IsSame (V.text it)) (items_at r s) (snap (V.meaning it) log r) }
    ensures page { (it : V) (limits : Limits) (log : List Item) (s : StoreView) (r : ℕ) → legal (V.meaning it) limits log
        → KeepsHistory (V.text it) limits (V.meaning it) log s → s.floor ≤ r
        → (ns : Option (List ℕ)) (after : Option KeyView) (limit : ℕ)
        → ArePagesOfOne (V.text it) (page_of r limit (listed item_key ns after (items_at r s))) (page_at (V.meaning it) log ns after r limit) }
{
    floor_is_least::<V>();
    sound::<V>();
    rebuilt::<V>()
}
