//! The version that a text names.
ghost use Rattle.std.specs.Prelude.{◌≡◌, ◌<◌, false, true, MatchOption};
ghost use Rattle.crd_meaning.specs.Definition.{count_of, version_at};
ghost use Rattle.crd_meaning.specs.Document.{is_version};
ghost use Rattle.crd_admission.specs.inner.Documents.{IsNamedBy};

use crate::version_texts::is_version_text;
use crate::versions::count;
use crd_loading::LoadedVersions;

/// The version whose group and name the text is, or `None` exactly where there is none. It takes no memory.
pub(crate) fn version_named(set: &LoadedVersions, text: &str) -> Option<u8>
    ensures { MatchOption result (is_version set.now text.now ≡ false) (IsNamedBy set.now text.now) }
{
    let group = set.definition().group();
    for v in 0..count(set) {
        if is_version_text(text, group.as_str(), set.version(v).name.as_str()) {
            return Some(v);
        }
    }
    None
}
