//! Parts of a definition's document.
ghost use Rattle.std.specs.Prelude.{◌≡◌, map, option_map};
ghost use Rattle.kj_value.specs.Json.{items_of, members_of};
ghost use Rattle.kj_value.specs.Seen.{json};
ghost use Rattle.struct_schema.specs.Names.{value_at};
ghost use Rattle.crd_reading.specs.Spelled.{items_in, version_read, versions_read};
ghost use Rattle.crd_settings.specs.Flags.{at_name, mark_in, served_name, storage_name, versions_name};

use crd_reading::{is_yes, items_in};
use kj_value::{JFields, JVal};

// Whether a version is served, and whether it is the storage version.
#[derive(Clone, Copy, Drop)]
pub(crate) struct Mark {
    pub(crate) served: bool,
    pub(crate) storage: bool,
}

#[tactic(auto, unfolding(crate::specs::Flags::served_name))]
pub(crate) fn served_name() -> &'static str
    ensures { result.now ≡ served_name }
{
    "served"
}

#[tactic(auto, unfolding(crate::specs::Flags::storage_name))]
pub(crate) fn storage_name() -> &'static str
    ensures { result.now ≡ storage_name }
{
    "storage"
}

#[tactic(auto, unfolding(crate::specs::Flags::versions_name))]
pub(crate) fn versions_name() -> &'static str
    ensures { result.now ≡ versions_name }
{
    "versions"
}

fn value_at<'a>(fields: &'a JFields, name: &str) -> Option<&'a JVal>
    ensures { option_map (λ v. json v.now) result ≡ value_at name.now (members_of fields.now) }
{
    fields.get(name)
}

// The value at a name of the object that stands there.
fn at_name<'a>(v: Option<&'a JVal>, name: &str) -> Option<&'a JVal>
    ensures { option_map (λ w. json w.now) result
        ≡ at_name name.now (option_map (λ w. json w.now) v.entry) }
{
    match v {
        Some(JVal::Obj(fields)) => value_at(fields, name),
        _ => None,
    }
}

// Whether a version is served.
pub(crate) fn is_served(v: &JVal) -> bool
    ensures { result ≡ (version_read (json v.now)).served }
{
    is_yes(at_name(Some(v), served_name()))
}

// Whether a version is a storage version.
pub(crate) fn is_storage(v: &JVal) -> bool
    ensures { result ≡ (version_read (json v.now)).storage }
{
    is_yes(at_name(Some(v), storage_name()))
}

// The flags of a version.
fn version_mark(v: &JVal) -> Mark
    ensures { result ≡ record { served = (version_read (json v.now)).served; storage = (version_read (json v.now)).storage } }
{
    Mark {
        served: is_served(v),
        storage: is_storage(v),
    }
}

// The flags of the version at a place.
pub(crate) fn mark_in(items: &[JVal], v: usize) -> Mark
    ensures { result ≡ mark_in (versions_read (items_of (map json items.now))) v }
{
    if v < items.len() {
        version_mark(&items[v])
    } else {
        Mark {
            served: false,
            storage: false,
        }
    }
}

// The versions of a `spec`.
pub(crate) fn versions_in(spec: Option<&JVal>) -> &[JVal]
    ensures { items_of (map json result.now)
        ≡ items_in (at_name versions_name (option_map (λ w. json w.now) spec.entry)) }
{
    items_in(at_name(spec, versions_name()))
}
