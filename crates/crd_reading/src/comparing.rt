//! What is compared in a document once each value stands at its place.
ghost use Rattle.std.specs.Prelude.{◌≡◌, ◌≤◌, ◌++◌, IfOk, option_map, map, codes, length};
ghost use Rattle.kj_value.specs.Json.{items_of};
ghost use Rattle.kj_value.specs.Seen.{json};
ghost use Rattle.crd_reading.specs.Offered.{has_version, names_differ, storages, some_served, are_offered};
ghost use Rattle.crd_reading.specs.Spelled.{versions_read, version_items, definition_read, full_name};
ghost use Rattle.crd_reading.specs.First.{at_own_name, at_versions, compared_refusal};
ghost use Rattle.crd_reading.specs.Told.{found_of};

use crate::found::{Found, in_name, refused_here};
use crate::parts::{inside, is_yes, names_in, own_name, spec_in, text_in, version_items};
use crate::words::{Word, shape_word};
use kj_value::{JVal, NoMemory, Txt};
use std::alloc::Global;

// Whether one of some versions has the name.
fn has_version(name: &str, items: &[JVal]) -> bool
    ensures { result ≡ has_version name.now (versions_read (items_of (map json items.now))) }
{
    for v in items {
        if name == text_in(inside(Some(v), Word::Name)) {
            return true;
        }
    }
    false
}

fn names_differ(items: &[JVal]) -> bool
    ensures { result ≡ names_differ (versions_read (items_of (map json items.now))) }
{
    for i in 0..items.len() {
        let name = text_in(inside(Some(&items[i]), Word::Name));
        if has_version(name, &items[i + 1..]) {
            return false;
        }
    }
    true
}

// How many are the storage version.
fn storages(items: &[JVal]) -> usize
    ensures { result ≡ storages (versions_read (items_of (map json items.now))) }
{
    let mut count = 0;
    for v in items {
        if is_yes(inside(Some(v), Word::Storage)) {
            count += 1;
        }
    }
    count
}

fn some_served(items: &[JVal]) -> bool
    ensures { result ≡ some_served (versions_read (items_of (map json items.now))) }
{
    for v in items {
        if is_yes(inside(Some(v), Word::Served)) {
            return true;
        }
    }
    false
}

fn are_offered(items: &[JVal]) -> bool
    ensures { result ≡ are_offered (versions_read (items_of (map json items.now))) }
{
    names_differ(items) && storages(items) == 1 && some_served(items)
}

// The name that the definition has to have: the plural, a point and the group.
fn full_name(alloc: Global, doc: &JVal) -> Result<Txt, NoMemory>
    ensures { IfOk result (λ t. t.bytes ≡ full_name (definition_read (json doc.now))) }
{
    let mut text = String::from_str(alloc, text_in(inside(names_in(doc), Word::Plural)))?;
    text.push_str(".")?;
    text.push_str(text_in(inside(spec_in(doc), Word::Group)))?;
    Ok(Txt::of_string(text))
}

fn at_own_name(alloc: Global) -> Result<Found, NoMemory>
    ensures { IfOk result (λ f. found_of f ≡ at_own_name) }
{
    let name = in_name(alloc, Word::Name.text(), refused_here(alloc, shape_word())?)?;
    in_name(alloc, Word::Metadata.text(), name)
}

fn at_versions(alloc: Global) -> Result<Found, NoMemory>
    ensures { IfOk result (λ f. found_of f ≡ at_versions) }
{
    let versions = in_name(
        alloc,
        Word::Versions.text(),
        refused_here(alloc, shape_word())?,
    )?;
    in_name(alloc, Word::Spec.text(), versions)
}

// The first comparison that doesn't hold.
pub(crate) fn compare(alloc: Global, doc: &JVal) -> Result<Option<Found>, NoMemory>
    ensures { IfOk result (λ o. option_map found_of o ≡ compared_refusal (json doc.now)) }
{
    let wanted = full_name(alloc, doc)?;
    if own_name(doc) != wanted.as_str() {
        return Ok(Some(at_own_name(alloc)?));
    }
    if !are_offered(version_items(doc)) {
        return Ok(Some(at_versions(alloc)?));
    }
    Ok(None)
}
