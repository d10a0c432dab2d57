//! The versions: how many there are, and the one at a place.
ghost use Rattle.std.specs.Prelude.{◌≡◌, ◌<◌, length};
ghost use Rattle.crd_reading.specs.Seen.{version_of};
ghost use Rattle.crd_meaning.specs.Definition.{IsLoaded, count_of, version_at};
ghost use Rattle.crd_admission.specs.Steps.{plain};

use crd_loading::LoadedVersions;
use crd_reading::{Definition, Version};

/// How many versions there are.
pub(crate) fn count(set: &LoadedVersions) -> u8
    ensures count { result ≡ count_of set.now }
    ensures loaded { IsLoaded set.now }
{
    set.definition().versions().len() as u8
}

/// The version at a place, counted from 0.
pub(crate) fn version_at(definition: &Definition, v: u8) -> &Version
    requires { v < length definition.now.versions }
    ensures { version_of result.now ≡ version_at (plain definition.now) v }
{
    &definition.versions()[v as usize]
}
