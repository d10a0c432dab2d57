//! Where entries in order stand.
ghost use Rattle.std.specs.Prelude.{◌≡◌, ◌≤◌, true, length};
ghost use Rattle.kept_entries.specs.Entry.{are_in_order, first_name};
ghost use Rattle.keep_bodies.specs.inner.Left.{left_entry, entries_left};
ghost use Rattle.keep_bodies.specs.inner.Spots.{spot, spot_cmp, comes_first, leading};

use crate::left::Left;
use kept_entries::Entry;
use std::cmp::Ordering;

fn first_name(e: &Entry) -> &str
    ensures { result.now ≡ first_name e.entry.now.was }
{
    match e.was.as_slice().first() {
        Some(field) => field.name.as_str(),
        None => "",
    }
}

// How the entry's spot, where so many names are left out of its path, compares with that of the name: of
// the object inside, or of the part here.
pub(crate) fn compare_spot(e: &Entry, depth: usize, inside: bool, name: &str) -> Ordering
    ensures { result ≡ spot_cmp (spot (left_entry depth e.now)) (inside, name.now) }
{
    match e.at.get(depth) {
        None => {
            if inside {
                Ordering::Less
            } else {
                first_name(e).cmp(name)
            }
        }
        Some(first) => {
            if inside {
                first.as_str().cmp(name)
            } else {
                Ordering::Greater
            }
        }
    }
}

fn comes_first(e: &Entry, depth: usize, inside: bool, name: &str, also: bool) -> bool
    ensures { result ≡ comes_first (inside, name.now) also (left_entry depth e.now) }
{
    let order = compare_spot(e, depth, inside, name);
    if also { order.is_le() } else { order.is_lt() }
}

// How many entries come before the spot, those at it too where `also` is true.
pub(crate) fn count_first(kept: &Left<'_>, inside: bool, name: &str, also: bool) -> usize
    requires { are_in_order (entries_left kept.now) ≡ true }
    ensures count { result ≡ leading (comes_first (inside, name.now) also) (entries_left kept.entry.now) }
    ensures within { result ≤ length kept.entry.now.entries.now }
{
    let entries = kept.entries;
    let mut low = 0;
    let mut high = entries.len();
    while low < high {
        let middle = low + (high - low) / 2;
        let first = comes_first(&entries[middle], kept.depth, inside, name, also);
        if first {
            low = middle + 1;
        } else {
            high = middle;
        }
    }
    low
}
