//! Entries of an inner object as they stand outside of it.
ghost use Rattle.std.specs.Prelude.{◌≡◌, ◌∷◌, ◌++◌, map, reverse, IfOk, OnOk};
ghost use Rattle.keep_laws.specs.Entry.{under};
ghost use Rattle.keep_bodies.specs.inner.Turned.{turned};

use kept_entries::Entry;
use kj_value::{NoMemory, TextList, Txt};
use std::alloc::Global;

// One name of the path more, at its end: paths are made from the inside out.
fn with_name(alloc: Global, name: &str, e: Entry) -> Result<Entry, NoMemory>
    ensures { IfOk result (λ f. turned f ≡ under name.now (turned e)) }
{
    let Entry { at, was } = e;
    let mut path = at;
    path.push(Txt::of(alloc, name)?)?;
    Ok(Entry { at: path, was })
}

pub(crate) fn put_under(
    alloc: Global,
    name: &str,
    found: Vec<Entry>,
    entries: &mut Vec<Entry>,
) -> Result<(), NoMemory>
    ensures { OnOk result (map turned entries.new.items
        ≡ map turned entries.old.items ++ map (under name.now) (map turned found.items)) }
{
    for e in found {
        entries.push(with_name(alloc, name, e)?)?;
    }
    Ok(())
}

fn turn_path(alloc: Global, at: TextList) -> Result<TextList, NoMemory>
    ensures { IfOk result (λ ns. ns ≡ reverse at) }
{
    let mut names = at.into_vec();
    let mut path = TextList::new(alloc);
    while let Some(n) = names.pop() {
        path.push(n)?;
    }
    Ok(path)
}

fn turn(alloc: Global, e: Entry) -> Result<Entry, NoMemory>
    ensures { IfOk result (λ f. f ≡ turned e) }
{
    let Entry { at, was } = e;
    let at = turn_path(alloc, at)?;
    Ok(Entry { at, was })
}

// The entries with their paths from the outside in.
pub(crate) fn turn_all(alloc: Global, found: Vec<Entry>) -> Result<Vec<Entry>, NoMemory>
    ensures { IfOk result (λ v. v.items ≡ map turned found.items) }
{
    let mut entries = Vec::new(alloc);
    for e in found {
        entries.push(turn(alloc, e)?)?;
    }
    Ok(entries)
}
