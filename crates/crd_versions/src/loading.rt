//! From two texts to the versions of a definition.
ghost use Rattle.std.specs.Prelude.{◌≡◌, IfOk, IfErr};
ghost use Rattle.crd_loading.specs.View.{LoadedView};
ghost use Rattle.crd_loading.specs.Load.{Loads};
ghost use Rattle.crd_loading.specs.Told.{RefusesLoading};
ghost use Rattle.crd_loading.specs.Set.{set_of};
ghost use Rattle.crd_versions.specs.Set.{definition_of};

use crate::set::VersionSet;
use crd_loading::{LoadFault, load_versions};
use crd_settings::Pieces;
use kj_value::reading_depth;
use std::alloc::Global;

/// The versions of the CustomResourceDefinition (apiextensions.k8s.io/v1) that the first text is, with the rules of conversion
/// of the second, or the first thing that is refused: the file, a path with names joined by points and items in brackets, and a
/// word. Both texts are JSON, read at 100 levels, and the whole definition is tried before the rules are read. `NoMemory` may
/// come for any texts.
pub fn load(alloc: Global, crd: &[u8], rules: &[u8]) -> Result<VersionSet, LoadFault>
    ensures loaded { IfOk result
        (λ s. (l : LoadedView) × Loads crd.now rules.now l × (definition_of s ≡ set_of l)) }
    ensures refused { IfErr result (RefusesLoading crd.now rules.now) }
{
    let set = load_versions(alloc, crd, rules)?;
    reading_depth();
    let pieces = Pieces::of(alloc, set.definition())?;
    Ok(VersionSet::new(set, pieces))
}
