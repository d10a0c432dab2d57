//! A list of kept entries.
ghost use Rattle.std.specs.Prelude.{◌≡◌, [], ◌∷◌, ◌++◌, length, slice_get, option_map, OnOk, OnErr};

use crate::entry::Entry;
use kj_value::NoMemory;
use std::alloc::Global;
use std::marker::Model;

/// Entries, in any order.
pub struct Kept {
    entries: Vec<Entry>,
}

impl Drop for Kept {
    fn drop(self) {
        let Kept { entries: _ } = self;
    }
}

impl Model for Kept {
    ghost use Rattle.std.specs.Prelude.{List};
    ghost use Rattle.std.specs.Coded.{coded_list};
    ghost use Rattle.kept_entries.specs.declared.entry.Entry.{Entry};
    ghost use Rattle.kept_entries.specs.laws.EntryCode.{entry_code};

    ghost Value = { List Entry };

    ghost coded = { coded_list entry_code };

    ghost view = { λ a. a.entries.items };
}

impl Kept {
    /// The empty list. It takes no memory.
    pub fn new(alloc: Global) -> Kept
        ensures { result ≡ [] }
    {
        Kept {
            entries: Vec::new(alloc),
        }
    }

    /// The entries of a vector. It takes no memory.
    pub fn from_vec(entries: Vec<Entry>) -> Kept
        ensures { result ≡ entries.items }
    {
        Kept { entries }
    }

    /// How many entries there are.
    pub fn len(&self) -> usize
        ensures { result ≡ length self.now }
    {
        self.entries.len()
    }

    /// The entry at a place, counted from 0.
    pub fn get(&self, i: usize) -> Option<&Entry>
        ensures { option_map (λ e. e.now) result ≡ slice_get self.now i }
    {
        self.entries.get(i)
    }

    /// The entries in order.
    pub fn as_slice(&self) -> &[Entry]
        ensures { result.now ≡ self.now }
    {
        self.entries.as_slice()
    }

    /// The entries in order, to be moved out of the list.
    pub fn into_vec(self) -> Vec<Entry>
        ensures { result.items ≡ self }
    {
        let Kept { entries } = self;
        entries
    }

    /// Adds an entry at the end. After an error the list is as it was.
    pub fn push(&mut self, x: Entry) -> Result<(), NoMemory>
        ensures ok { OnOk result (self.new ≡ self.old ++ x ∷ []) }
        ensures err { OnErr result (self.new ≡ self.old) }
    {
        self.entries.push(x)?;
        Ok(())
    }
}
