//! From a text and the name of a hub to the versions of a definition.
ghost use Rattle.std.specs.Prelude.{IfOk, IfErr};
ghost use Rattle.hook_versions.specs.Loads.{LoadsHook, RefusesHook};
ghost use Rattle.hook_versions.specs.inner.Hubs.{SaysNoHub};

use crate::definition::HookDefinition;
use crate::names::find;
use crate::set::HookSet;
use converters::Converter;
use crd_loading::{LoadFault, Which, load_crd};
use crd_settings::Pieces;
use kj_value::{NoMemory, Txt, reading_depth};
use std::alloc::Global;

// What is told of a name that no version has.
fn no_hub(alloc: Global) -> LoadFault
    ensures { SaysNoHub result }
{
    let Ok(path) = Txt::of(alloc, "spec.versions") else {
        return LoadFault::NoMemory;
    };
    match Txt::of(alloc, "Hub") {
        Ok(word) => LoadFault::Refused {
            file: Which::Crd,
            path,
            word,
        },
        Err(NoMemory) => {
            drop(path);
            LoadFault::NoMemory
        }
    }
}

/// The versions of the CustomResourceDefinition (apiextensions.k8s.io/v1) that the text is, whose objects a converter turns, with the
/// version of the name as the hub; or the first thing that is refused. The text is JSON, read at 100 levels, and the whole definition
/// is tried before the hub, which is refused with the word `Hub` at `spec.versions` where no version has the name. `spec.conversion` is
/// passed over. `NoMemory` may come for any text.
pub fn load_hook<C: Converter>(
    alloc: Global,
    crd: &[u8],
    hub: &str,
) -> Result<HookSet<C>, LoadFault>
    ensures loaded { IfOk result (λ s. LoadsHook crd.now hub.now s.set) }
    ensures refused { IfErr result (RefusesHook crd.now hub.now) }
{
    let definition = match load_crd(alloc, crd) {
        Ok(definition) => definition,
        Err(fault) => return Err(fault),
    };
    let _ = definition.versions();
    let all = HookDefinition::new(definition, 0);
    let Some(place) = find(&all, hub) else {
        drop(all);
        return Err(no_hub(alloc));
    };
    reading_depth();
    match Pieces::of(alloc, all.definition()) {
        Ok(pieces) => Ok(HookSet::new(all.with_hub(place), pieces)),
        Err(NoMemory) => {
            drop(all);
            Err(LoadFault::NoMemory)
        }
    }
}
