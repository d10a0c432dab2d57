//! A list of calls.
ghost use Rattle.std.specs.Prelude.{◌≡◌, ◌+◌, ◌<◌, ◌^◌, List, length, map, IfOk, IfErr};
ghost use Rattle.api_calls.specs.Item.{Item};
ghost use Rattle.api_core.specs.CoreOf.{SameBase, StandsFor};
ghost use Rattle.core_laws.specs.Runs.{Asked, AreKnown, Ran, calls_of};

use crate::calls::{Answer, Call};
use crate::making::make;
use api_calls::Versions;
use api_core::Core;
use kj_value::NoMemory;
use std::alloc::Global;

/// Makes the calls, one after another, and answers their answers in the same order. What has to be known of each call is
/// known at its place, in a list of less than 2^61 items. The memory of the answers is taken first: `NoMemory` comes
/// where there is none, and no call is made then.
pub fn run<V: Versions>(
    alloc: Global,
    core: &mut Core<V>,
    calls: Vec<Call>,
) -> Result<Vec<Answer>, NoMemory>
    requires { (log : List Item) × (asked : List Asked) × StandsFor V.meaning core.old log × (calls_of asked ≡ calls.items)
        × AreKnown (V.meaning core.old.versions) core.old.view.limits log asked × (length log + length asked < 2 ^ 61) }
    ensures ran { IfOk result (λ answers. (log : List Item) (asked : List Asked) → StandsFor V.meaning core.old log → calls_of asked ≡ calls.items
        → AreKnown (V.meaning core.old.versions) core.old.view.limits log asked
        → Ran (V.meaning core.old.versions) core.old.view.limits (StandsFor V.meaning core.new) log asked answers.items) }
    ensures unmade { IfErr result (λ _. core.new ≡ core.old) }
    ensures base { SameBase core.old core.new }
{
    let mut answers = Vec::with_capacity(alloc, calls.len())?;
    for call in calls {
        answers.push_reserved(make(core, call));
    }
    Ok(answers)
}
