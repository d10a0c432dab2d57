//! Entries in the order in which an annotation spells them.
ghost use Rattle.std.specs.Prelude.{◌≡◌, true, OnOk, OnErr};
ghost use Rattle.kept_entries.specs.Entry.{are_in_order};
ghost use Rattle.keep_laws.specs.Entry.{in_order};

use kept_entries::{Entry, is_before};
use kj_value::NoMemory;
use std::cmp::Ordering;

// Puts entries in order of which none stands twice.
pub(crate) fn sort(entries: &mut Vec<Entry>) -> Result<(), NoMemory>
    requires { are_in_order (in_order entries.old.items) ≡ true }
    ensures { OnOk result (entries.new.items ≡ in_order entries.old.items) }
{
    entries.sort_by(|a, b| {
        if is_before(a, b) {
            Ordering::Less
        } else {
            Ordering::Greater
        }
    })?;
    Ok(())
}
