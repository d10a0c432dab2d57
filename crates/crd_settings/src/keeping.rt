//! The stored versions that the body of a trim keeps.
ghost use Rattle.std.specs.Prelude.{◌≡◌, ◌≢◌, ◌↔◌, ◌≤◌, ◌<◌, ◌+◌, ◌++◌, ◌∷◌, [], List, IfOk, IfErr, IsTrue, MatchOption, Some, cond, length, map, option_map};
ghost use Rattle.std.specs.List.{list_all};
ghost use Rattle.kj_value.specs.Json.{Items, items_of, list};
ghost use Rattle.kj_value.specs.Seen.{json};
ghost use Rattle.api_calls.specs.Versions.{IsStoredList, Refused, versions_of};
ghost use Rattle.crd_reading.specs.Offered.{has_version};
ghost use Rattle.crd_reading.specs.Seen.{version_of};
ghost use Rattle.crd_reading.specs.Spelled.{text_in};
ghost use Rattle.crd_settings.specs.Keeping.{KeepsVersions, KeepsNamed, RefusesKeep, RefusesStored, are_versions, do_differ, is_among, is_name_text, names_in, places_named, stored_given};

use crate::body::{broken, read_object};
use api_calls::{AdmitFault, StoredList};
use crd_reading::{Definition, Version};
use kj_value::{JFields, JVal, Rule};
use std::alloc::Global;

const PATH: &str = "status.storedVersions";

// `status.storedVersions` of a body.
fn stored_in(fields: &JFields) -> Option<&JVal>
    ensures { option_map (λ w. json w.now) result ≡ stored_given fields.now }
{
    match fields.get("status") {
        Some(JVal::Obj(status)) => status.get("storedVersions"),
        _ => None,
    }
}

// The items of the list that stands there.
fn items_in(given: Option<&JVal>) -> Option<&[JVal]>
    ensures { MatchOption result
        ((js : Items) → option_map (λ w. json w.now) given.entry ≢ Some (list js))
        (λ items. option_map (λ w. json w.now) given.entry ≡ Some (list (items_of (map json items.now)))) }
{
    match given {
        Some(JVal::List(items)) => Some(items.as_slice()),
        _ => None,
    }
}

fn is_text(v: &JVal) -> bool
    ensures { result ≡ is_name_text (json v.now) }
{
    matches!(v, JVal::Text(_))
}

fn text_in(v: &JVal) -> &str
    ensures { result.now ≡ text_in (Some (json v.now)) }
{
    match v {
        JVal::Text(t) => t.as_str(),
        _ => "",
    }
}

fn are_texts(items: &[JVal]) -> bool
    ensures { result ≡ list_all is_name_text (map json items.now) }
{
    for v in items {
        if !is_text(v) {
            return false;
        }
    }
    true
}

fn is_among(name: &str, items: &[JVal]) -> bool
    ensures { result ≡ is_among (names_in (map json items.now)) name.now }
{
    for v in items {
        if name == text_in(v) {
            return true;
        }
    }
    false
}

fn differ(items: &[JVal]) -> bool
    ensures { result ≡ do_differ (names_in (map json items.now)) }
{
    for i in 0..items.len() {
        if is_among(text_in(&items[i]), &items[i + 1..]) {
            return false;
        }
    }
    true
}

fn has_version(name: &str, versions: &[Version]) -> bool
    ensures { result ≡ has_version name.now (map version_of versions.now) }
{
    for version in versions {
        if name == version.name.as_str() {
            return true;
        }
    }
    false
}

fn are_versions(versions: &[Version], items: &[JVal]) -> bool
    ensures { result ≡ are_versions (map version_of versions.now) (names_in (map json items.now)) }
{
    for v in items {
        if !has_version(text_in(v), versions) {
            return false;
        }
    }
    true
}

// With one more version, where it is named.
fn with_named(list: StoredList, v: u8, named: bool) -> StoredList
    requires { list.len < 8 }
    ensures versions { versions_of result ≡ versions_of list ++ cond named (v ∷ []) [] }
    ensures len { result.len ≤ list.len + 1 }
{
    if named {
        let mut more = list;
        more.items[list.len as usize] = v;
        more.len += 1;
        more
    } else {
        list
    }
}

// The versions that are named, in the definition's order.
fn places(versions: &[Version], items: &[JVal]) -> StoredList
    requires { length versions.now ≤ 8 }
    ensures places { versions_of result ≡ places_named (map version_of versions.now) (names_in (map json items.now)) }
    ensures len { result.len ≤ 8 }
{
    let mut list = StoredList {
        len: 0,
        items: [0; 8],
    };
    for v in 0..versions.len() {
        let named = is_among(versions[v].name.as_str(), items);
        list = with_named(list, v as u8, named);
    }
    list
}

// The versions that a list of names keeps.
fn kept_by(
    alloc: Global,
    definition: &Definition,
    given: Option<&JVal>,
) -> Result<StoredList, AdmitFault>
    ensures ok { IfOk result (λ s. KeepsNamed definition.now (option_map (λ w. json w.now) given.entry) (versions_of s)) }
    ensures legal { IfOk result (IsStoredList (length definition.now.versions)) }
    ensures refused { IfErr result
        (Refused (RefusesStored definition.now (option_map (λ w. json w.now) given.entry)) ⊥) }
{
    let Some(items) = items_in(given) else {
        return Err(broken(alloc, definition, PATH, Rule::Kind)?);
    };
    if !are_texts(items) {
        return Err(broken(alloc, definition, PATH, Rule::Kind)?);
    }
    if !differ(items) {
        return Err(broken(alloc, definition, PATH, Rule::Kind)?);
    }
    if items.len() == 0 {
        return Err(broken(alloc, definition, PATH, Rule::Required)?);
    }
    if !are_versions(definition.versions(), items) {
        return Err(broken(alloc, definition, PATH, Rule::Unknown)?);
    }
    Ok(places(definition.versions(), items))
}

/// The versions that the body of a trim keeps in the stored list, in the definition's order.
///
/// The body is an object, read at 100 levels, and `status.storedVersions` in it a list of texts that differ, at least one, each
/// the name of a version; other fields aren't looked at. Refused are, in this order: as a bad request what is no JSON value of
/// these levels with whole numbers, or no object; as invalid at `status.storedVersions`, with the definition's name, what is no
/// list of texts that differ (`Type`), an empty list (`Required`), and a name that no version has (`Unknown`). Whether each
/// version is in the stored list is for the caller to see. `Tool` never comes, and `NoMemory` may come for any body.
pub fn read_keep(
    alloc: Global,
    definition: &Definition,
    bytes: &[u8],
) -> Result<StoredList, AdmitFault>
    ensures ok { IfOk result (λ s. KeepsVersions definition.now bytes.now (versions_of s)) }
    ensures legal { IfOk result (IsStoredList (length definition.now.versions)) }
    ensures refused { IfErr result (Refused (RefusesKeep definition.now bytes.now) ⊥) }
{
    let fields = read_object(alloc, bytes)?;
    kept_by(alloc, definition, stored_in(&fields))
}
