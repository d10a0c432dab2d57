//! Lent entries from an object inside on.
ghost use Rattle.std.specs.Prelude.{◌≡◌, ◌+◌, true, map};
ghost use Rattle.kept_entries.specs.Entry.{are_in_order};
ghost use Rattle.keep_laws.specs.Entry.{inside};
ghost use Rattle.keep_bodies.specs.inner.Left.{left_entry, entries_left};
ghost use Rattle.keep_bodies.specs.inner.Spots.{AllDeeper};

use crate::spots::count_first;
use kept_entries::Entry;

// Entries in order to whose object so many names lead, which all their paths begin with.
#[derive(Drop)]
pub(crate) struct Left<'a> {
    pub(crate) entries: &'a [Entry],
    pub(crate) depth: usize,
}

// The entries, with one name more of their paths left out.
fn deeper<'a>(entries: &'a [Entry], depth: usize) -> Left<'a>
    requires { AllDeeper depth entries.now }
    ensures { entries_left result ≡ map (left_entry (depth + 1)) entries.entry.now }
{
    match entries.first() {
        None => Left { entries, depth },
        Some(e) => {
            let names = e.at.len();
            if depth < names {
                Left {
                    entries,
                    depth: depth + 1,
                }
            } else {
                Left { entries, depth }
            }
        }
    }
}

// The entries inside the object of the name, which stand side by side.
pub(crate) fn inside<'a>(name: &str, kept: &Left<'a>) -> Left<'a>
    requires { are_in_order (entries_left kept.now) ≡ true }
    ensures { entries_left result ≡ inside name.entry.now (entries_left kept.entry.now) }
{
    let start = count_first(kept, true, name, false);
    let rest = Left {
        entries: &kept.entries[start..],
        depth: kept.depth,
    };
    let many = count_first(&rest, true, name, true);
    deeper(&rest.entries[..many], kept.depth)
}
