//! The walk over a document, by the table of the names of each object.
ghost use Rattle.std.specs.Prelude.{◌≡◌, [], IfOk, option_map, map};
ghost use Rattle.kj_value.specs.Json.{items_of, members_of};
ghost use Rattle.kj_value.specs.Seen.{json};
ghost use Rattle.schema_reading.specs.Visits.{is_below};
ghost use Rattle.crd_reading.specs.Words.{spelled};
ghost use Rattle.crd_reading.specs.Walk.{missing_between, missing_behind, absent, refusal, items_refusal, fields_refusal};
ghost use Rattle.crd_reading.specs.Told.{found_of};

use crate::found::{Found, in_item, in_name, refused_here};
use crate::places::{Place, Row};
use crate::values::{blame, is_allowed};
use crate::words::{Word, shape_word};
use kj_value::{JFields, JItems, JVal, NoMemory};
use std::alloc::Global;
use std::cmp::Ordering;

fn is_below(a: &str, b: &str) -> bool
    ensures { result ≡ is_below a.now b.now }
{
    match a.cmp(b) {
        Ordering::Less => true,
        Ordering::Equal => false,
        Ordering::Greater => false,
    }
}

fn missing_between(after: &str, before: &str, rows: &[Row]) -> Option<Word>
    ensures { option_map spelled result ≡ missing_between after.now before.now rows.now }
{
    for row in rows {
        let name = row.named.text();
        if row.required && is_below(after, name) && is_below(name, before) {
            return Some(row.named);
        }
    }
    None
}

fn missing_behind(after: &str, rows: &[Row]) -> Option<Word>
    ensures { option_map spelled result ≡ missing_behind after.now rows.now }
{
    for row in rows {
        if row.required && is_below(after, row.named.text()) {
            return Some(row.named);
        }
    }
    None
}

// A name that must be there and isn't.
fn absent(alloc: Global, word: Option<Word>) -> Result<Option<Found>, NoMemory>
    ensures { IfOk result (λ o. option_map found_of o ≡ absent (option_map spelled word)) }
{
    match word {
        None => Ok(None),
        Some(word) => {
            let found = refused_here(alloc, shape_word())?;
            Ok(Some(in_name(alloc, word.text(), found)?))
        }
    }
}

// The first thing that is refused of a value at a place.
#[cycle(try_value)]
pub(crate) fn try_value(alloc: Global, place: Place, v: &JVal) -> Result<Option<Found>, NoMemory>
    ensures { IfOk result (λ o. option_map found_of o ≡ refusal place (json v.now)) }
{
    if !is_allowed(place, v) {
        return Ok(Some(refused_here(alloc, blame(place))?));
    }
    match v {
        JVal::Null => Ok(None),
        JVal::Bool(_) => Ok(None),
        JVal::Int(_) => Ok(None),
        JVal::Text(_) => Ok(None),
        JVal::List(items) => {
            if place.has_items() {
                try_items(alloc, items)
            } else {
                Ok(None)
            }
        }
        JVal::Obj(fields) => {
            if place.has_names() {
                try_fields(alloc, place, fields)
            } else {
                Ok(None)
            }
        }
    }
}

#[cycle(try_value)]
#[tactic(auto, using(kj_value::specs::laws::Inside::item_depth))]
fn try_items(alloc: Global, items: &JItems) -> Result<Option<Found>, NoMemory>
    ensures { IfOk result (λ o. option_map found_of o
        ≡ items_refusal Place.VersionObject 0 (items_of items.now)) }
{
    for (i, v) in items.as_slice().iter().enumerate() {
        match try_value(alloc, Place::VersionObject, v)? {
            None => {}
            Some(found) => return Ok(Some(in_item(alloc, i, found)?)),
        }
    }
    Ok(None)
}

#[cycle(try_value)]
#[tactic(auto, using(kj_value::specs::laws::Inside::field_depth))]
fn try_fields(alloc: Global, place: Place, fields: &JFields) -> Result<Option<Found>, NoMemory>
    ensures { IfOk result (λ o. option_map found_of o
        ≡ fields_refusal place [] (members_of fields.now)) }
{
    let rows = place.rows();
    let mut last = "";
    for f in fields.as_slice() {
        let name = f.name.as_str();
        match missing_between(last, name, rows) {
            None => {}
            Some(word) => return absent(alloc, Some(word)),
        }
        match try_value(alloc, place.at(name), &f.value)? {
            None => {}
            Some(found) => return Ok(Some(in_name(alloc, name, found)?)),
        }
        last = name;
    }
    absent(alloc, missing_behind(last, rows))
}
