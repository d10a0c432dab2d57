//! What was known at an earlier turn is known later.
ghost use Rattle.std.specs.Prelude.{◌≡◌, ◌++◌, List, Some};
ghost use Rattle.kube_meta.specs.Key.{KeyView};
ghost use Rattle.kube_meta.specs.declared.limits.Limits.{Limits};
ghost use Rattle.api_calls.specs.Item.{Item};
ghost use Rattle.api_calls.specs.Objects.{Stored, find};
ghost use Rattle.api_calls.specs.State.{state};
ghost use Rattle.api_calls.specs.Legal.{legal};

use api_calls::laws::{Means, one_value};

/// An object that stands at the number at which it was seen at an earlier turn is the one that was seen, so that what
/// was known of it then holds now. The function does nothing, and its clause is the fact.
pub fn seen_stays<V: Means>()
    ensures { (it : V) (limits : Limits) (log more : List Item) → legal (V.meaning it) limits (log ++ more) → (k : KeyView) (e f : Stored)
        → find k (state (V.meaning it) log).objects ≡ Some e → find k (state (V.meaning it) (log ++ more)).objects ≡ Some f → f.number ≡ e.number → f ≡ e }
{
    one_value::<V>()
}
