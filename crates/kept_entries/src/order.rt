//! The order of entries.
ghost use Rattle.std.specs.Prelude.{◌≡◌, map};
ghost use Rattle.std.specs.Ordering.{nat_cmp};
ghost use Rattle.std.specs.Cmp.Lexicographic.{slice_cmp};
ghost use Rattle.kj_value.specs.Texts.{bytes_of};
ghost use Rattle.kept_entries.specs.Entry.{first_name, has_part, is_before, is_before_first, are_in_order};

use crate::entry::Entry;
use kj_value::{JFields, Txt};
use std::cmp::Ordering;

/// Whether each entry has a part and comes before the next, as in a kept text. It takes no memory.
pub fn are_in_order(entries: &[Entry]) -> bool
    ensures { result ≡ are_in_order entries.now }
{
    for i in 0..entries.len() {
        let has = has_part(&entries[i].was);
        if !has {
            return false;
        }
        let rises = comes_first(&entries[i], &entries[i + 1..]);
        if !rises {
            return false;
        }
    }
    true
}

fn comes_first(e: &Entry, later: &[Entry]) -> bool
    ensures { result ≡ is_before_first e.now later.now }
{
    match later.first() {
        Some(next) => is_before(e, next),
        None => true,
    }
}

fn has_part(was: &JFields) -> bool
    ensures { result ≡ has_part was.now }
{
    !was.as_slice().is_empty()
}

/// Whether an entry comes before another: by path, name by name and a prefix first, and then by the
/// first name of the part. It takes no memory.
pub fn is_before(e: &Entry, f: &Entry) -> bool
    ensures { result ≡ is_before e.now f.now }
{
    let paths = compare_paths(e.at.as_slice(), f.at.as_slice());
    let names = first_name(&e.was).cmp(first_name(&f.was));
    paths.then(names).is_lt()
}

fn first_name(was: &JFields) -> &str
    ensures { result.now ≡ first_name was.now }
{
    match was.as_slice().first() {
        Some(field) => field.name.as_str(),
        None => "",
    }
}

// Name by name, a prefix first.
fn compare_paths(a: &[Txt], b: &[Txt]) -> Ordering
    ensures { result ≡ slice_cmp (slice_cmp nat_cmp) (map bytes_of a.now) (map bytes_of b.now) }
{
    let shared = a.len().min(b.len());
    for i in 0..shared {
        match a[i].as_str().cmp(b[i].as_str()) {
            Ordering::Less => return Ordering::Less,
            Ordering::Greater => return Ordering::Greater,
            Ordering::Equal => {}
        }
    }
    if a.len() < b.len() {
        return Ordering::Less;
    }
    if b.len() < a.len() {
        return Ordering::Greater;
    }
    Ordering::Equal
}
