//! The rows by key.
ghost use Rattle.std.specs.Prelude.{◌≡◌, ◌+◌, ◌<◌, ◌≤◌, ◌^◌, ◌++◌, [], Ok, Err, Some, None, drop, find as first, length, map, not, option_map, option_copied, slice_get, slice_set, IfOk, ◌-◌, ℕ, Bool, true, false, take, slice_index_or};
ghost use Rattle.kube_meta.specs.Page.{bound_after, listed};
ghost use Rattle.kube_meta.specs.Plan.{passed};
ghost use Rattle.record_store.specs.ByKey.{KeysRise, all_behind, find, place as place_of, put, without};
ghost use Rattle.record_store.specs.inner.Stretches.{comes_before};
ghost use Rattle.record_store.specs.declared.row.Row.{Row as RowView};

use crate::lookup::place_behind;
use crate::row::{Record, Row};
use crate::row_list::RowList;
use kj_value::NoMemory;
use kube_meta::{Key, KeySpot};
use record_region::Piece;
use std::alloc::Global;
use std::cmp::Ordering;
use std::marker::Model;

/// Some rows that stand one behind another: those from a place on, up to another place.
#[derive(Clone, Copy, Drop)]
pub struct Stretch {
    pub from: usize,
    pub to: usize,
}

/// The rows of a store by strictly rising key. It takes its memory when it is opened, and none later.
#[derive(Drop)]
pub struct Index {
    rows: RowList,
}

impl Model for Index {
    ghost use Rattle.std.specs.Prelude.{map};
    ghost use Rattle.record_store.specs.ByKey.{KeysRise};
    ghost use Rattle.record_store.specs.Rows.{Rows, row_key};

    ghost Value = { Rows };

    ghost view = { λ a. a.rows };

    ghost invariant = { λ a. KeysRise (map row_key a.rows.rows) };
}

impl Index {
    ghost use Rattle.record_store.specs.Rows.{row_key};

    /// An index with no rows and with room for so many.
    pub fn open(alloc: Global, room: u64) -> Result<Index, NoMemory>
        ensures { IfOk result (λ index. index ≡ record { room = room; rows = [] }) }
    {
        let rows = RowList::open(alloc, room)?;
        Ok(Index { rows })
    }

    /// How many rows there are.
    pub fn len(&self) -> usize
        ensures count { result ≡ length self.now.rows }
        ensures room { length self.now.rows ≤ self.now.room }
        ensures order { KeysRise (map row_key self.now.rows) }
    {
        self.rows.len()
    }

    /// The row at a place, by rising key.
    pub fn at(&self, place: usize) -> &Row
        requires within { place < length self.now.rows }
        ensures { slice_get self.now.rows place ≡ Some result.now }
    {
        self.rows.at(place)
    }

    /// The rows from a place on, as far as they lie side by side.
    pub fn run(&self, place: usize) -> &[Row]
        requires within { place < length self.now.rows }
        ensures some { 0 < length result.now }
        ensures rows { result.now ++ drop (place + length result.now) self.now.rows ≡ drop place self.now.rows }
    {
        self.rows.run(place)
    }

    /// Where the key of this namespace and name stands, or else where it would go.
    pub fn seek(&self, ns: &str, name: &str) -> Result<usize, usize>
        ensures place { result ≡ place_of (record { ns = ns.now; name = name.now }) (map row_key self.now.rows) }
        ensures counted { length self.now.rows < 2 ^ 64 }
        ensures room { length self.now.rows ≤ self.now.room }
        ensures order { KeysRise (map row_key self.now.rows) }
    {
        let mut low = 0;
        let mut high = self.rows.len();
        while low < high {
            let middle = low + (high - low) / 2;
            match self.rows.at(middle).key.compare_with(ns, name) {
                Ordering::Less => low = middle + 1,
                Ordering::Equal => return Ok(middle),
                Ordering::Greater => high = middle,
            }
        }
        Err(low)
    }

    /// The row of a key.
    pub fn find(&self, key: &Key) -> Option<&Row>
        ensures { option_copied result ≡ find row_key key.now self.now.rows }
    {
        match self.seek(key.ns(), key.name()) {
            Ok(i) => Some(self.rows.at(i)),
            Err(_) => None,
        }
    }

    /// The place of the first row behind a key, or of the first of all.
    pub fn first_behind(&self, after: Option<&Key>) -> usize
        ensures within { result ≤ length self.now.rows }
        ensures rows { drop result self.now.rows ≡ all_behind row_key (option_copied after.entry) self.now.rows }
    {
        match after {
            Some(key) => place_behind(self.seek(key.ns(), key.name())),
            None => 0,
        }
    }

    /// The places of the rows of a namespace that stand behind a key. No namespace asks for all.
    pub fn stretch(&self, ns: Option<&str>, after: Option<&Key>) -> Stretch
        ensures order { result.from ≤ result.to }
        ensures within { result.to ≤ length self.now.rows }
        ensures rising { KeysRise (map row_key self.now.rows) }
        ensures rows { listed row_key (option_copied ns.entry) (option_copied after.entry) self.now.rows
            ≡ take (result.to - result.from) (drop result.from self.now.rows) }
    {
        let behind = self.first_behind(after);
        match ns {
            Some(ns) => {
                let from = behind.max(self.edge(ns, false));
                Stretch {
                    from,
                    to: from.max(self.edge(ns, true)),
                }
            }
            None => Stretch {
                from: behind,
                to: self.len(),
            },
        }
    }

    // How many rows come before those of a namespace, or, with them, before those of later ones.
    fn edge(&self, ns: &str, with_them: bool) -> usize
        ensures within { result ≤ length self.now.rows }
        ensures before { (j : ℕ) (d : RowView) → j < result → comes_before with_them ns.now (row_key (slice_index_or self.now.rows j d)) ≡ true }
        ensures behind { (j : ℕ) (d : RowView) → result ≤ j → j < length self.now.rows → comes_before with_them ns.now (row_key (slice_index_or self.now.rows j d)) ≡ false }
        ensures order { KeysRise (map row_key self.now.rows) }
    {
        let mut low = 0;
        let mut high = self.rows.len();
        while low < high {
            let middle = low + (high - low) / 2;
            match comes_before(&self.rows.at(middle).key, ns, with_them) {
                true => low = middle + 1,
                false => high = middle,
            }
        }
        low
    }

    /// The row of the least key after this one, or of the least of all.
    pub fn next_from(&self, after: Option<&KeySpot>) -> Option<&Row>
        ensures { option_copied result ≡ first (λ r. not (passed (bound_after (option_copied after.entry)) r.key)) self.now.rows }
    {
        let from = match after {
            Some(key) => match self.seek(key.ns(), key.name()) {
                Ok(i) => i + 1,
                Err(i) => i,
            },
            None => 0,
        };
        self.get(from)
    }

    fn get(&self, place: usize) -> Option<&Row>
        ensures { option_copied result ≡ slice_get self.now.rows place }
    {
        if place < self.rows.len() {
            Some(self.rows.at(place))
        } else {
            None
        }
    }

    /// Puts a row in where its key would go, as `seek` tells it, where there is room for one more.
    pub fn insert(&mut self, place: usize, row: Row)
        requires there { place_of row.key (map row_key self.old.rows) ≡ Err place }
        requires room { length self.old.rows < self.old.room }
        ensures { self.new ≡ record self.old { rows = put row_key row self.old.rows } }
    {
        self.rows.insert(place, row);
    }

    /// What is known of the record at a place.
    pub fn record_at(&self, place: usize) -> Record
        requires within { place < length self.now.rows }
        ensures { (row : RowView) → slice_get self.now.rows place ≡ Some row → result ≡ row.record }
    {
        self.rows.at(place).record
    }

    /// Puts a row in the place of the one under its key, as `seek` tells it, and answers that one. No
    /// other row moves.
    pub fn replace(&mut self, place: usize, row: Row) -> Row
        requires there { place_of row.key (map row_key self.old.rows) ≡ Ok place }
        ensures row { find row_key row.key self.old.rows ≡ Some result }
        ensures rows { self.new ≡ record self.old { rows = put row_key row self.old.rows } }
        ensures room { length self.old.rows ≤ self.old.room }
        ensures order { KeysRise (map row_key self.old.rows) }
    {
        self.rows.replace(place, row)
    }

    /// Gives the row at a place this piece, in place of the one that it had.
    pub fn set_piece(&mut self, place: usize, piece: Piece)
        requires within { place < length self.old.rows }
        ensures { (row : RowView) → slice_get self.old.rows place ≡ Some row
            → self.new ≡ record self.old { rows = slice_set self.old.rows place (record row { piece = piece }) } }
    {
        self.rows.set_piece(place, piece);
    }

    /// Takes the row of a key out.
    pub fn take(&mut self, key: &Key) -> Option<Row>
        ensures row { result ≡ find row_key key.now self.old.rows }
        ensures rows { self.new ≡ record self.old { rows = without row_key key.now self.old.rows } }
        ensures room { length self.old.rows ≤ self.old.room }
        ensures order { KeysRise (map row_key self.old.rows) }
    {
        match self.seek(key.ns(), key.name()) {
            Ok(i) => Some(self.rows.remove(i)),
            Err(_) => None,
        }
    }
}

fn comes_before(key: &Key, ns: &str, with_them: bool) -> bool
    ensures { result ≡ comes_before with_them ns.now key.now }
{
    match key.ns().cmp(ns) {
        Ordering::Less => true,
        Ordering::Equal => with_them,
        Ordering::Greater => false,
    }
}
