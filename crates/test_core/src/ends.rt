//! The texts of what writes of objects end with.
use api_core::{CreateEnd, DeleteEnd, ReleaseEnd, ReplaceEnd};
use kube_meta::Room;
use std::alloc::Global;

fn word(alloc: Global, word: &str) -> Option<String> {
    String::from_str(alloc, word).ok()
}

fn full(alloc: Global, room: &Room) -> Option<String> {
    format!(in alloc; "Full({room:?})").ok()
}

// The number of an object's entry, and that of its creation.
fn done(alloc: Global, word: &str, rv: u64, born: u64) -> Option<String> {
    format!(in alloc; "{word} {{ rv: {rv}, born: {born} }}").ok()
}

fn moved(alloc: Global, newer: u64) -> Option<String> {
    format!(in alloc; "Moved {{ newer: {newer} }}").ok()
}

fn storage_moved(alloc: Global, now: u8) -> Option<String> {
    format!(in alloc; "StorageMoved {{ now: {now} }}").ok()
}

/// How a create ended, if it was made.
pub fn create_text(alloc: Global, end: Option<CreateEnd>) -> Option<String> {
    match end {
        Some(CreateEnd::Done { rv }) => format!(in alloc; "Done {{ rv: {rv} }}").ok(),
        Some(CreateEnd::Unserved) => word(alloc, "Unserved"),
        Some(CreateEnd::AlreadyExists) => word(alloc, "AlreadyExists"),
        Some(CreateEnd::StorageMoved { now }) => storage_moved(alloc, now),
        Some(CreateEnd::Full(room)) => full(alloc, &room),
        None => None,
    }
}

/// How a replace ended, if it was made.
pub fn replace_text(alloc: Global, end: Option<ReplaceEnd>) -> Option<String> {
    match end {
        Some(ReplaceEnd::Done { rv, born }) => done(alloc, "Done", rv, born),
        Some(ReplaceEnd::Unserved) => word(alloc, "Unserved"),
        Some(ReplaceEnd::Gone) => word(alloc, "Gone"),
        Some(ReplaceEnd::Moved { newer }) => moved(alloc, newer),
        Some(ReplaceEnd::StorageMoved { now }) => storage_moved(alloc, now),
        Some(ReplaceEnd::Full(room)) => full(alloc, &room),
        None => None,
    }
}

/// How a delete ended, if it was made.
pub fn delete_text(alloc: Global, end: Option<DeleteEnd>) -> Option<String> {
    match end {
        Some(DeleteEnd::Done { rv, born }) => done(alloc, "Done", rv, born),
        Some(DeleteEnd::Kept { rv, born }) => done(alloc, "Kept", rv, born),
        Some(DeleteEnd::Unserved) => word(alloc, "Unserved"),
        Some(DeleteEnd::NotFound) => word(alloc, "NotFound"),
        Some(DeleteEnd::Moved { newer }) => moved(alloc, newer),
        Some(DeleteEnd::StorageMoved { now }) => storage_moved(alloc, now),
        None => None,
    }
}

/// How a release ended, if it was made.
pub fn release_text(alloc: Global, end: Option<ReleaseEnd>) -> Option<String> {
    match end {
        Some(ReleaseEnd::Done { rv, born }) => done(alloc, "Done", rv, born),
        Some(ReleaseEnd::Unserved) => word(alloc, "Unserved"),
        Some(ReleaseEnd::Gone) => word(alloc, "Gone"),
        Some(ReleaseEnd::Moved { newer }) => moved(alloc, newer),
        None => None,
    }
}

/// The number of an object that was created.
pub fn created_at(end: Option<CreateEnd>) -> Option<u64> {
    match end {
        Some(CreateEnd::Done { rv }) => Some(rv),
        _ => None,
    }
}

/// The number of an object that was replaced, and that of its creation.
pub fn replaced_at(end: Option<ReplaceEnd>) -> Option<(u64, u64)> {
    match end {
        Some(ReplaceEnd::Done { rv, born }) => Some((rv, born)),
        _ => None,
    }
}

/// The number of an object's removal, and that of its creation.
pub fn deleted_at(end: Option<DeleteEnd>) -> Option<(u64, u64)> {
    match end {
        Some(DeleteEnd::Done { rv, born }) => Some((rv, born)),
        _ => None,
    }
}
