//! The names of the versions.
ghost use Rattle.std.specs.Prelude.{◌≡◌, ◌≢◌, ◌<◌, ◌≤◌, MatchOption, IfOk, ℕ};
ghost use Rattle.crd_meaning.specs.Definition.{count_of, version_at};
ghost use Rattle.crd_laws.specs.Hook.{version_text};

use crate::definition::HookDefinition;
use kj_value::{NoMemory, Txt};
use std::alloc::Global;

/// How many versions there are.
pub(crate) fn count(set: &HookDefinition) -> u8
    ensures count { result ≡ count_of set.now }
    ensures few { result ≤ 8 }
{
    set.versions().len() as u8
}

/// The name of a version.
pub(crate) fn name(set: &HookDefinition, v: u8) -> &Txt
    requires { v < count_of set.now }
    ensures { result.now.bytes ≡ (version_at set.now v).name }
{
    &set.version(v).name
}

/// The first version of the name, where there is one.
pub(crate) fn find(set: &HookDefinition, wanted: &str) -> Option<u8>
    ensures { MatchOption result
        ((v : ℕ) → v < count_of set.now → (version_at set.now v).name ≢ wanted.now)
        (λ v. (v < count_of set.now) × ((version_at set.now v).name ≡ wanted.now)) }
{
    for v in 0..count(set) {
        if wanted == name(set, v).as_str() {
            return Some(v);
        }
    }
    None
}

/// GROUP/VERSION.
pub(crate) fn version_text(alloc: Global, set: &HookDefinition, v: u8) -> Result<Txt, NoMemory>
    requires { v < count_of set.now }
    ensures { IfOk result (λ t. t.bytes ≡ version_text set.now v) }
{
    let mut text = String::from_str(alloc, set.definition().group().as_str())?;
    text.push_str("/")?;
    text.push_str(name(set, v).as_str())?;
    Ok(Txt::of_string(text))
}
