//! The flags that the versions of a `spec` have.
ghost use Rattle.std.specs.Prelude.{◌≡◌, ◌≤◌, length, map};
ghost use Rattle.kj_value.specs.Json.{items_of};
ghost use Rattle.kj_value.specs.Seen.{json};
ghost use Rattle.api_calls.specs.Versions.{AreFlags};
ghost use Rattle.crd_reading.specs.Offered.{storages, some_served};
ghost use Rattle.crd_reading.specs.Spelled.{versions_read};
ghost use Rattle.crd_reading.specs.Whole.{IsWholeDefinition};
ghost use Rattle.crd_settings.specs.Flags.{flags_of, version_in};
ghost use Rattle.crd_meaning.specs.Definition.{before_storage};

use crate::parts::{is_served, is_storage, mark_in, versions_in};
use api_calls::Flags;
use crd_reading::Definition;
use kj_value::JVal;

fn served_at(items: &[JVal], v: usize) -> bool
    ensures { result ≡ (version_in (versions_read (items_of (map json items.now))) v).served }
{
    mark_in(items, v).served
}

// How many versions stand before the first storage version.
fn before_storage(items: &[JVal]) -> usize
    ensures place { result ≡ before_storage (versions_read (items_of (map json items.now))) }
    ensures within { result ≤ length items.now }
{
    for i in 0..items.len() {
        if is_storage(&items[i]) {
            return i;
        }
    }
    items.len()
}

// How many are the storage version.
pub(crate) fn storages(items: &[JVal]) -> usize
    ensures { result ≡ storages (versions_read (items_of (map json items.now))) }
{
    let mut count = 0;
    for v in items {
        if is_storage(v) {
            count += 1;
        }
    }
    count
}

pub(crate) fn some_served(items: &[JVal]) -> bool
    ensures { result ≡ some_served (versions_read (items_of (map json items.now))) }
{
    for v in items {
        if is_served(v) {
            return true;
        }
    }
    false
}

// The flags of at most eight versions.
pub(crate) fn flags_in(items: &[JVal]) -> Flags
    requires { length items.now ≤ 8 }
    ensures { result ≡ flags_of (versions_read (items_of (map json items.now))) }
{
    Flags {
        served: [
            served_at(items, 0),
            served_at(items, 1),
            served_at(items, 2),
            served_at(items, 3),
            served_at(items, 4),
            served_at(items, 5),
            served_at(items, 6),
            served_at(items, 7),
        ],
        storage: before_storage(items) as u8,
    }
}

// What every definition keeps.
pub(crate) fn kept(definition: &Definition)
    ensures { IsWholeDefinition definition.now }
{
    let _ = definition.versions();
}

/// The flags that a definition has as it was loaded. It takes no memory.
pub fn opening(definition: &Definition) -> Flags
    ensures flags { result ≡ flags_of definition.now.versions }
    ensures legal { AreFlags (length definition.now.versions) result }
{
    kept(definition);
    flags_in(versions_in(Some(definition.spec())))
}
