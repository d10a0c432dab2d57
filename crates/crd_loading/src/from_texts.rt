//! From two texts to a definition held in memory.
ghost use Rattle.std.specs.Prelude.{◌≡◌, IfOk, IfErr};
ghost use Rattle.crd_loading.specs.View.{LoadedView};
ghost use Rattle.crd_loading.specs.Load.{Loads};
ghost use Rattle.crd_loading.specs.Told.{RefusesLoading};
ghost use Rattle.crd_loading.specs.Set.{set_of};

use crate::loaded::Loaded;
use crate::loading::{LoadFault, load};
use crate::naming::name_spokes;
use crate::versions::LoadedVersions;
use kj_value::NoMemory;
use std::alloc::Global;

fn held(alloc: Global, loaded: Loaded) -> Result<LoadedVersions, NoMemory>
    ensures { IfOk result (λ s. s ≡ set_of loaded) }
{
    let (definition, hub, fits) = loaded.into_parts();
    let spokes = name_spokes(alloc, &definition, hub, fits)?;
    Ok(LoadedVersions::new(definition, hub as u8, spokes))
}

/// The definition that the first text is, with the rules of the second, or the first thing that is refused, as `load` of
/// `crd_loading` tries the two: the file, a path with names joined by points and items in brackets, and a word. `NoMemory` may
/// come for any texts.
///
/// Beside `load` it takes time in proportion to the names of the versions.
pub fn load_versions(alloc: Global, crd: &[u8], rules: &[u8]) -> Result<LoadedVersions, LoadFault>
    ensures loaded { IfOk result
        (λ s. (l : LoadedView) × Loads crd.now rules.now l × (s ≡ set_of l)) }
    ensures refused { IfErr result (RefusesLoading crd.now rules.now) }
{
    let loaded = load(alloc, crd, rules)?;
    Ok(held(alloc, loaded)?)
}
