//! The kept tuple of a cell.
ghost use Rattle.std.specs.Prelude.{◌≡◌, ◌&&◌, [], ◌∷◌, ◌++◌, map, true, false, None, Some, IfOk, OnOk, MatchOption, option_map, drop};
ghost use Rattle.std.specs.Ordering.{is_eq, is_le, nat_cmp};
ghost use Rattle.std.specs.Cmp.Lexicographic.{slice_cmp};
ghost use Rattle.kj_value.specs.Pair.{pair_of};
ghost use Rattle.hub_cells.specs.Fit.{has_name};
ghost use Rattle.hub_cells.specs.Seen.{tuple};
ghost use Rattle.kept_entries.specs.Entry.{are_in_order};
ghost use Rattle.keep_laws.specs.Entry.{all_named, is_part, kept_of};
ghost use Rattle.keep_laws.specs.Body.{entry_of};
ghost use Rattle.keep_bodies.specs.inner.Left.{left_entry, entries_left};
ghost use Rattle.keep_bodies.specs.inner.Spots.{spot, spot_cmp};
ghost use Rattle.keep_bodies.specs.inner.Lookup.{find, part_of, AreTwo, IsFound};
ghost use Rattle.keep_bodies.specs.inner.Names.{name_list};
ghost use Rattle.keep_bodies.specs.inner.Turned.{turned};

use crate::left::Left;
use crate::spots::{compare_spot, count_first};
use crate::tuples::{put_tuple, read_tuple};
use hub_cells::{Names, Tuple};
use kept_entries::Entry;
use kj_value::{Field, JFields, NoMemory, TextList, Txt};
use std::alloc::Global;

// An entry of a cell, and its place among those that are lent.
#[derive(Drop)]
pub(crate) struct Found<'a> {
    pub(crate) place: usize,
    pub(crate) entry: &'a Entry,
}

fn is_among(name: &str, names: &Names) -> bool
    ensures { result ≡ has_name name.now (name_list names.now) }
{
    match names {
        Names::Empty => false,
        Names::One(n) => name == n.text.as_str(),
        Names::Two(m, n) => {
            let first = name == m.text.as_str();
            let second = name == n.text.as_str();
            first || second
        }
    }
}

fn are_among(names: &Names, fields: &[Field]) -> bool
    ensures { result ≡ all_named (name_list names.now) (map pair_of fields.now) }
{
    for f in fields {
        if !is_among(f.name.as_str(), names) {
            return false;
        }
    }
    true
}

// There are fields, and all their names are the cell's.
fn is_part(names: &Names, was: &JFields) -> bool
    ensures { result ≡ is_part (name_list names.now) was.now }
{
    let fields = was.as_slice();
    if fields.is_empty() {
        return false;
    }
    are_among(names, fields)
}

fn begins(e: &Entry, depth: usize, name: &str) -> bool
    ensures { result ≡ is_eq (spot_cmp (spot (left_entry depth e.now)) (false, name.now)) }
{
    compare_spot(e, depth, false, name).is_eq()
}

// The entry at this level whose part begins with the name, where all its names are the cell's.
fn look_from<'a>(names: &Names, name: &Txt, kept: &Left<'a>) -> Option<Found<'a>>
    requires { are_in_order (entries_left kept.now) ≡ true }
    ensures { let o = part_of (name_list names.entry.now) (find name.entry.now.bytes (entries_left kept.entry.now)) in
        MatchOption result (o ≡ None) (λ f. IsFound (name_list names.entry.now) (entries_left kept.entry.now) o
        f.place (left_entry kept.entry.now.depth f.entry.now)) }
{
    let place = count_first(kept, false, name.as_str(), false);
    let entries = kept.entries;
    match entries.get(place) {
        None => None,
        Some(entry) => {
            let at_it = begins(entry, kept.depth, name.as_str());
            if !at_it {
                return None;
            }
            let part = is_part(names, &entry.was);
            if !part {
                return None;
            }
            Some(Found { place, entry })
        }
    }
}

fn look_both<'a>(names: &Names, low: &Txt, high: &Txt, kept: &Left<'a>) -> Option<Found<'a>>
    requires order { are_in_order (entries_left kept.now) ≡ true }
    requires rises { is_le (slice_cmp nat_cmp low.now.bytes high.now.bytes) ≡ true }
    requires two { AreTwo (name_list names.now) low.now.bytes high.now.bytes }
    ensures { let o = kept_of (name_list names.entry.now) (entries_left kept.entry.now) in
        MatchOption result (o ≡ None) (λ f. IsFound (name_list names.entry.now) (entries_left kept.entry.now) o
        f.place (left_entry kept.entry.now.depth f.entry.now)) }
{
    match look_from(names, low, kept) {
        Some(f) => Some(f),
        None => look_from(names, high, kept),
    }
}

// The first entry at this level that names the cell.
pub(crate) fn look_up<'a>(names: &Names, kept: &Left<'a>) -> Option<Found<'a>>
    requires { are_in_order (entries_left kept.now) ≡ true }
    ensures { let o = kept_of (name_list names.entry.now) (entries_left kept.entry.now) in
        MatchOption result (o ≡ None) (λ f. IsFound (name_list names.entry.now) (entries_left kept.entry.now) o
        f.place (left_entry kept.entry.now.depth f.entry.now)) }
{
    match names {
        Names::Empty => None,
        Names::One(n) => look_from(names, &n.text, kept),
        Names::Two(m, n) => {
            let rises = m.text.as_str().cmp(n.text.as_str()).is_le();
            if rises {
                look_both(names, &m.text, &n.text, kept)
            } else {
                look_both(names, &n.text, &m.text, kept)
            }
        }
    }
}

pub(crate) fn kept_of(
    alloc: Global,
    names: &Names,
    kept: &Left<'_>,
) -> Result<Option<Tuple>, NoMemory>
    requires { are_in_order (entries_left kept.now) ≡ true }
    ensures { IfOk result (λ o. option_map tuple o
        ≡ kept_of (name_list names.now) (entries_left kept.entry.now)) }
{
    match look_up(names, kept) {
        None => Ok(None),
        Some(f) => Ok(Some(read_tuple(alloc, names, &f.entry.was)?)),
    }
}

// Keeps values of a cell in an entry of this level.
pub(crate) fn keep(
    alloc: Global,
    names: &Names,
    values: Tuple,
    entries: &mut Vec<Entry>,
) -> Result<(), NoMemory>
    ensures { OnOk result (map turned entries.new.items ≡ map turned entries.old.items
        ++ entry_of (name_list names.now) (Some (tuple values)) []) }
{
    let mut was = JFields::new(alloc);
    put_tuple(alloc, names, values, &mut was)?;
    entries.push(Entry {
        at: TextList::new(alloc),
        was,
    })?;
    Ok(())
}
