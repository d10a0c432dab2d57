//! The flags and the stored versions: two bodies that set flags, two that keep stored versions, and the text of both.
ghost use Rattle.std.specs.Prelude.{◌≡◌, ◌+◌, ◌<◌, ◌≤◌, ◌++◌, ◌∷◌, [], IfOk, IfErr, length, MatchOption, codes, slice_index_or, false, ◌==◌};
ghost use Rattle.api_calls.specs.Versions.{AreFlags, IsStoredList, Refused, versions_of};
ghost use Rattle.versions_fixture.specs.Parts.{version_at};
ghost use Rattle.versions_fixture.specs.Definition.{IsNone, FixtureKeeps, Sets, before_storage, before_stored, before_v1, before_v1beta1, behind_stored, flag_text, flags_text, keeping, name_text, names_text, setting, shown, storing};

use crate::parts::Version;
use api_calls::{AdmitFault, Flags, StoredList, Why};
use kj_value::Txt;

/// The most bytes of the definition's text.
pub const SHOW_ROOM: u64 = 1_024;

#[tactic(auto, unfolding(crate::specs::Definition::setting))]
fn setting(version: Version) -> &'static str
    ensures { result.now ≡ setting version }
{
    match version {
        Version::V1 => "{\"spec\":{\"storage\":\"v1\"}}",
        Version::V1beta1 => "{\"spec\":{\"storage\":\"v1beta1\"}}",
    }
}

#[tactic(auto, unfolding(crate::specs::Definition::keeping))]
fn keeping(version: Version) -> &'static str
    ensures { result.now ≡ keeping version }
{
    match version {
        Version::V1 => "{\"status\":{\"storedVersions\":[\"v1\"]}}",
        Version::V1beta1 => "{\"status\":{\"storedVersions\":[\"v1beta1\"]}}",
    }
}

/// Both versions served, and this one stored.
pub fn storing(version: u8) -> Flags
    ensures { result ≡ storing version }
{
    Flags {
        served: [true, true, false, false, false, false, false, false],
        storage: version,
    }
}

/// The flags that a body sets.
pub fn flags_in(bytes: &[u8]) -> Result<Flags, AdmitFault>
    ensures ok { IfOk result (Sets bytes.now) }
    ensures legal { IfOk result (AreFlags 2) }
    ensures refused { IfErr result (Refused (IsNone setting bytes.now) ⊥) }
{
    if bytes == setting(Version::V1).as_bytes() {
        return Ok(storing(0));
    }
    if bytes == setting(Version::V1beta1).as_bytes() {
        return Ok(storing(1));
    }
    Err(AdmitFault::BadRequest(Why::NotObject))
}

// This version alone.
fn only(version: u8) -> StoredList
    requires { version < 2 }
    ensures versions { versions_of result ≡ version ∷ [] }
    ensures legal { IsStoredList 2 result }
{
    StoredList {
        len: 1,
        items: [version, 0, 0, 0, 0, 0, 0, 0],
    }
}

/// The versions that a body keeps.
pub fn keep_in(bytes: &[u8]) -> Result<StoredList, AdmitFault>
    ensures ok { IfOk result (λ s. FixtureKeeps bytes.now (versions_of s)) }
    ensures legal { IfOk result (IsStoredList 2) }
    ensures refused { IfErr result (Refused (IsNone keeping bytes.now) ⊥) }
{
    if bytes == keeping(Version::V1).as_bytes() {
        return Ok(only(0));
    }
    if bytes == keeping(Version::V1beta1).as_bytes() {
        return Ok(only(1));
    }
    Err(AdmitFault::BadRequest(Why::NotObject))
}

fn flag_text(flag: bool) -> &'static str
    ensures text { result.now ≡ flag_text flag }
    ensures short { length result.now ≤ 5 }
{
    if flag { "true" } else { "false" }
}

fn name_text(v: u8) -> &'static str
    ensures text { result.now ≡ name_text v }
    ensures short { length result.now ≤ 9 }
{
    if v == 0 { "\"v1\"" } else { "\"v1beta1\"" }
}

fn add_flags(served: bool, stored: bool, out: &mut Txt)
    requires { 24 ≤ out.old.room }
    ensures text { out.new.bytes ≡ out.old.bytes ++ flags_text served stored }
    ensures room { out.new.room + length (flags_text served stored) ≡ out.old.room }
    ensures short { length (flags_text served stored) ≤ 24 }
{
    out.add(flag_text(served));
    out.add(",\"storage\":");
    out.add(flag_text(stored));
}

fn add_names(stored: &StoredList, out: &mut Txt)
    requires room { 19 ≤ out.old.room }
    ensures text { out.new.bytes ≡ out.old.bytes ++ names_text (versions_of stored.now) }
    ensures room { out.new.room + length (names_text (versions_of stored.now)) ≡ out.old.room }
    ensures short { length (names_text (versions_of stored.now)) ≤ 19 }
{
    if stored.len == 0 {
        return;
    }
    out.add(name_text(stored.items[0]));
    if stored.len == 1 {
        return;
    }
    out.add(",");
    out.add(name_text(stored.items[1]));
}

/// Appends the text of the definition with these flags and this stored list. It takes no memory.
pub fn show(flags: &Flags, stored: &StoredList, out: &mut Txt)
    requires room { SHOW_ROOM ≤ out.old.room }
    ensures text { out.new.bytes ≡ out.old.bytes ++ shown flags.now (versions_of stored.now) }
    ensures room { out.new.room + length (shown flags.now (versions_of stored.now)) ≡ out.old.room }
{
    out.add(
        "{\"apiVersion\":\"apiextensions.k8s.io/v1\",\"kind\":\"CustomResourceDefinition\",\"metadata\":{\"name\":\"crontabs.example.com\"},\"spec\":{\"group\":\"example.com\",\"names\":{\"kind\":\"CronTab\",\"listKind\":\"CronTabList\",\"plural\":\"crontabs\"},\"versions\":[{\"name\":\"v1\",\"served\":",
    );
    add_flags(flags.served[0], flags.storage == 0, out);
    out.add("},{\"name\":\"v1beta1\",\"served\":");
    add_flags(flags.served[1], flags.storage == 1, out);
    out.add("}]},\"status\":{\"storedVersions\":[");
    add_names(stored, out);
    out.add("]}}");
}
