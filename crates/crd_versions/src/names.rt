//! The names of the versions.
ghost use Rattle.std.specs.Prelude.{◌≡◌, ◌≢◌, ◌<◌, ◌≤◌, MatchOption, ℕ};
ghost use Rattle.crd_reading.specs.Seen.{version_of};
ghost use Rattle.crd_meaning.specs.Definition.{count_of, version_at};

use crd_loading::LoadedVersions;
use kj_value::Txt;

// How many versions there are.
pub(crate) fn count(set: &LoadedVersions) -> u8
    ensures count { result ≡ count_of set.now }
    ensures few { result ≤ 8 }
{
    set.definition().versions().len() as u8
}

// The name of a version.
pub(crate) fn name(set: &LoadedVersions, v: u8) -> &Txt
    requires { v < count_of set.now }
    ensures { result.now.bytes ≡ (version_at set.now v).name }
{
    &set.version(v).name
}

// The first version of the name, where there is one.
pub(crate) fn find(set: &LoadedVersions, wanted: &str) -> Option<u8>
    ensures { MatchOption result
        ((v : ℕ) → v < count_of set.now → (version_at set.now v).name ≢ wanted.now)
        (λ v. (v < count_of set.now) × ((version_at set.now v).name ≡ wanted.now)) }
{
    for v in 0..count(set) {
        if wanted == name(set, v).as_str() {
            return Some(v);
        }
    }
    None
}
