//! One call.
ghost use Rattle.std.specs.Prelude.{◌≡◌, ◌<◌, ◌^◌, List, ℕ, length};
ghost use Rattle.kube_meta.specs.View.{ObjectView};
ghost use Rattle.api_calls.specs.Item.{Item};
ghost use Rattle.api_calls.specs.Ends.{EndsAsDecided, bound};
ghost use Rattle.api_core.specs.CoreOf.{SameBase, StandsFor};
ghost use Rattle.core_laws.specs.Asked.{decided, told};
ghost use Rattle.core_laws.specs.Known.{IsKnown};

use crate::calls::{Answer, Call};
use api_calls::Versions;
use api_core::Core;
use migrate_core::Worker;

/// Makes a call. What has to be known of the call is known where the core stands now, in a list of less than 2^61
/// items. It takes no memory.
pub fn make<V: Versions>(core: &mut Core<V>, call: Call) -> Answer
    requires { (log : List Item) × (h : ObjectView) × (stamp : List ℕ) × StandsFor V.meaning core.old log
        × IsKnown (V.meaning core.old.versions) log h stamp call × (length log < 2 ^ 61) }
    ensures turn { (log : List Item) (h : ObjectView) (stamp : List ℕ) → StandsFor V.meaning core.old log
        → IsKnown (V.meaning core.old.versions) log h stamp call
        → EndsAsDecided bound (StandsFor V.meaning core.new) log
        (decided (V.meaning core.old.versions) core.old.view.limits log h stamp call)
        (told result) }
    ensures base { SameBase core.old core.new }
{
    match call {
        Call::Create { v, new } => Answer::Create(core.commit_create(v, new)),
        Call::Replace { v, expected, new } => {
            Answer::Replace(core.commit_replace(v, expected, new))
        }
        Call::Delete { v, key, expected } => {
            Answer::Delete(core.commit_delete(v, &key, expected, None))
        }
        Call::Mark {
            v,
            key,
            expected,
            stamped,
        } => Answer::Delete(core.commit_delete(v, &key, expected, Some(stamped))),
        Call::Release { v, key, expected } => {
            Answer::Release(core.commit_release(v, &key, expected))
        }
        Call::SetVersions { flags } => Answer::SetVersions(core.set_versions(flags)),
        Call::Trim { keep } => Answer::Trim(core.trim(&keep)),
        Call::Start { name } => Answer::Start(core.start_migration(name)),
        Call::Work { claim } => {
            let mut w = Worker { claim };
            let end = core.migration_turn(&mut w, None);
            Answer::Work {
                end,
                claim: w.claim,
            }
        }
        Call::Touch {
            claim,
            expected,
            moved,
        } => {
            let mut w = Worker { claim };
            let end = core.migration_turn(&mut w, Some((expected, moved)));
            Answer::Work {
                end,
                claim: w.claim,
            }
        }
        Call::GiveBack { claim } => {
            let mut w = Worker { claim };
            Answer::GiveBack(core.give_back(&mut w))
        }
    }
}
