//! The texts of answers.
use api_calls::StoredList;
use api_core::{Page, Seen, SetEnd, TrimEnd, TurnEnd};
use kube_meta::{KeySpot, NameSpot};
use migrate_core::StartEnd;
use std::alloc::Global;
use std::fmt::Debug;

/// What prints itself.
pub fn told<T: Debug>(alloc: Global, end: &T) -> Option<String> {
    format!(in alloc; "{end:?}").ok()
}

// Adds the place of a version. Answers whether there was room.
fn add_place(alloc: Global, v: u8, text: &mut String) -> bool {
    match format!(in alloc; " @{v}") {
        Ok(place) => text.push_str(place.as_str()).is_ok(),
        Err(_) => false,
    }
}

// Adds a word, and the versions of a list by their places.
fn add_list(alloc: Global, word: &str, stored: &StoredList, text: &mut String) -> bool {
    if text.push_str(word).is_err() {
        return false;
    }
    let len = (stored.len as usize).min(8);
    for v in &stored.items[..len] {
        if !add_place(alloc, *v, text) {
            return false;
        }
    }
    true
}

/// A word, and the versions of a list by their places.
pub fn listed(alloc: Global, word: &str, stored: &StoredList) -> Option<String> {
    let mut text = String::new(alloc);
    if add_list(alloc, word, stored, &mut text) {
        Some(text)
    } else {
        None
    }
}

// An end with the number of its entry.
fn done(alloc: Global, rv: u64, stored: &StoredList) -> Option<String> {
    match format!(in alloc; "Done #{rv}") {
        Ok(word) => listed(alloc, word.as_str(), stored),
        Err(_) => None,
    }
}

/// How a change of the flags ended, if it was made.
pub fn set_text(alloc: Global, end: Option<SetEnd>) -> Option<String> {
    match end {
        Some(SetEnd::Done { rv, stored }) => done(alloc, rv, &stored),
        Some(SetEnd::Unchanged { stored }) => listed(alloc, "Unchanged", &stored),
        None => None,
    }
}

fn still_text(alloc: Global, v: u8, key: &Option<KeySpot>) -> Option<String> {
    match key {
        Some(key) => {
            let name = key.name();
            format!(in alloc; "StillStored @{v} {name}").ok()
        }
        None => format!(in alloc; "StillStored @{v}").ok(),
    }
}

fn trimmed(alloc: Global, end: &TrimEnd) -> Option<String> {
    match end {
        TrimEnd::Done {
            rv,
            flags: _,
            stored,
        } => done(alloc, *rv, stored),
        TrimEnd::Unchanged { flags: _, stored } => listed(alloc, "Unchanged", stored),
        TrimEnd::Unknown { v } => format!(in alloc; "Unknown @{v}").ok(),
        TrimEnd::StillStored { v, key } => still_text(alloc, *v, key),
    }
}

/// How a trim ended, if it was made.
pub fn trim_text(alloc: Global, end: Option<TrimEnd>) -> Option<String> {
    match end {
        Some(end) => trimmed(alloc, &end),
        None => None,
    }
}

fn running(alloc: Global, name: &NameSpot) -> Option<String> {
    let name = name.as_str();
    format!(in alloc; "Running {name}").ok()
}

fn started(alloc: Global, end: &StartEnd) -> Option<String> {
    match end {
        StartEnd::Done { target } => format!(in alloc; "Done @{target}").ok(),
        StartEnd::AlreadyExists => String::from_str(alloc, "AlreadyExists").ok(),
        StartEnd::Running { name } => running(alloc, name),
        StartEnd::Full(room) => told(alloc, room),
    }
}

/// How the start of a migration ended, if it was made.
pub fn start_text(alloc: Global, end: Option<StartEnd>) -> Option<String> {
    match end {
        Some(end) => started(alloc, &end),
        None => None,
    }
}

fn prepare(alloc: Global, key: &KeySpot, rv: u64) -> Option<String> {
    let name = key.name();
    format!(in alloc; "Prepare {name} #{rv}").ok()
}

// The number behind a word that tells it.
fn numbered(alloc: Global, word: &str, rv: u64) -> Option<String> {
    format!(in alloc; "{word} #{rv}").ok()
}

fn turned(alloc: Global, end: &TurnEnd) -> Option<String> {
    let word = match end {
        TurnEnd::Idle => "Idle",
        TurnEnd::Claimed => "Claimed",
        TurnEnd::Moved => "Moved",
        TurnEnd::RangeDone => "RangeDone",
        TurnEnd::Prepare { key, rv } => return prepare(alloc, key, *rv),
        TurnEnd::Touched { rv } => return numbered(alloc, "Touched", *rv),
        TurnEnd::Finished { rv } => return numbered(alloc, "Finished", *rv),
    };
    String::from_str(alloc, word).ok()
}

/// How a worker's turn ended, if it was made.
pub fn turn_text(alloc: Global, end: Option<TurnEnd>) -> Option<String> {
    match end {
        Some(end) => turned(alloc, &end),
        None => None,
    }
}

/// An object: its version, its number, that of its creation, and its text.
pub fn seen_text(alloc: Global, seen: &Seen) -> Option<String> {
    let name = seen.key.name();
    let at = seen.at;
    let rv = seen.rv;
    let born = seen.born;
    let text = seen.bytes.as_str();
    format!(in alloc; "{name} @{at} #{rv} of #{born} {text}").ok()
}

// Adds an object. Answers whether there was room.
fn add_seen(alloc: Global, seen: &Seen, text: &mut String) -> bool {
    match seen_text(alloc, seen) {
        Some(told) => text.push_str(" ").is_ok() && text.push_str(told.as_str()).is_ok(),
        None => false,
    }
}

// The text, with these objects behind it.
fn with_items(alloc: Global, front: String, items: &[Seen]) -> Option<String> {
    let mut text = front;
    for seen in items {
        if !add_seen(alloc, seen, &mut text) {
            return None;
        }
    }
    Some(text)
}

/// A page: its number, its objects, and how many are left behind them.
pub fn page_text(alloc: Global, page: &Page) -> Option<String> {
    let rv = page.rv;
    let remaining = page.remaining;
    match format!(in alloc; "#{rv} before {remaining}:") {
        Ok(text) => with_items(alloc, text, page.items.as_slice()),
        Err(_) => None,
    }
}
