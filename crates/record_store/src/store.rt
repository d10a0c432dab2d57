//! The store: an index of records, a window, and the region that holds their texts.
ghost use Rattle.std.specs.Prelude.{◌≡◌, ◌+◌, ◌*◌, ◌<◌, ◌≤◌, ◌≢◌, ◌^◌, [], Ok, Err, None, IfOk, find as first, if◌then◌else◌, length, map, not, option_copied, option_map};
ghost use Rattle.std.specs.Option.{ForSome};
ghost use Rattle.kube_meta.specs.Page.{bound_after, listed, page_of};
ghost use Rattle.kube_meta.specs.Plan.{passed};
ghost use Rattle.kube_meta.specs.Window.{weights};
ghost use Rattle.record_store.specs.ByKey.{find, place as place_of};
ghost use Rattle.record_store.specs.Copies.{ShowsCopies};
ghost use Rattle.record_store.specs.Standing.{first_held, item_at};
ghost use Rattle.record_store.specs.View.{IsStore, item_key, item_weight, items_at, record_of};

use crate::answer::PutEnd;
use crate::held_versions::first_among;
use crate::index::{Index, Stretch};
use crate::page::{copies, copies_from, listed, shown, superseded};
use crate::past::Past;
use crate::record::{NewRecord, StorePage};
use crate::row::{Record, Row};
use crate::text::copy_text;
use crate::window::Window;
use kj_value::{NoMemory, Txt};
use kube_meta::{Key, KeySpot, Limits, Room, RoomKind};
use record_region::{Piece, Region};
use std::alloc::Global;
use std::marker::Model;

// Where a key stands among the records, or else where it would go, and what is known of the record that stands there.
#[derive(Drop)]
struct Sought {
    place: Result<usize, usize>,
    standing: Option<Record>,
}

/// Records by key, and the window of those that were superseded. It takes its memory when it is opened.
pub struct Store {
    limits: Limits,
    index: Index,
    window: Window,
    region: Region,
    // The weights of the records that stand.
    live: u64,
    // The number of the last change.
    last: u64,
}

impl Drop for Store {
    fn drop(self) {
        let Store {
            limits: _,
            index: _,
            window: _,
            region: _,
            live: _,
            last: _,
        } = self;
    }
}

impl Model for Store {
    ghost use Rattle.record_store.specs.View.{StoreView};
    ghost use Rattle.record_store.specs.Inside.{store_view, IsSoundStore};

    ghost Value = { StoreView };

    ghost view = { λ s. store_view s.limits s.index s.window s.region s.last };

    ghost invariant = { λ s. IsSoundStore s.limits s.index s.window s.region s.live s.last };
}

impl Store {
    ghost use Rattle.record_store.specs.Moves.{removed, with_new};
    ghost use Rattle.record_store.specs.Room.{HasRoom, is_done, lacking_chunks, put_end, touch_end, unless_full};

    /// A store with no records, which takes all memory that these limits ask for.
    pub fn open(alloc: Global, limits: Limits) -> Result<Store, NoMemory>
        requires { limits.chunks + limits.window_chunks < 2 ^ 32 }
        ensures { IfOk result (λ s. s ≡ record { limits = limits; items = []; window = []; last = 0; floor = 1 }) }
    {
        let index = Index::open(alloc, limits.objects)?;
        let window = Window::open(alloc, limits)?;
        let region = Region::open(alloc, (limits.chunks + limits.window_chunks) as u32)?;
        Ok(Store {
            limits,
            index,
            window,
            region,
            live: 0,
            last: 0,
        })
    }

    /// How many records stand.
    pub fn len(&self) -> u64
        ensures count { result ≡ length self.now.items }
        ensures sound { IsStore self.now }
    {
        self.index.len() as u64
    }

    /// The weights of the records that stand, together.
    pub fn live_weight(&self) -> u64
        ensures { result ≡ weights item_weight self.now.items }
    {
        self.live
    }

    /// The number from which on pages are still known.
    pub fn floor(&self) -> u64
        ensures { result ≡ self.now.floor }
    {
        self.window.floor()
    }

    /// The record of a key, without its text.
    pub fn look(&self, key: &Key) -> Option<Record>
        ensures { result ≡ option_map record_of (find item_key key.now self.now.items) }
    {
        self.seek(key).standing
    }

    /// The record of a key, and its text, copied. The key is looked up once.
    pub fn read(&self, alloc: Global, key: &Key) -> Result<Option<(Record, Txt)>, NoMemory>
        ensures record { IfOk result (λ o. option_map (λ p. p.0) o
            ≡ option_map record_of (find item_key key.now self.now.items)) }
        ensures text { IfOk result (λ o. option_map (λ p. p.1.bytes) o
            ≡ option_map (λ x. x.bytes) (find item_key key.now self.now.items)) }
    {
        match self.index.find(key) {
            Some(row) => {
                let record = row.record;
                let text = copy_text(alloc, &self.region, &row.piece)?;
                Ok(Some((record, text)))
            }
            None => Ok(None),
        }
    }

    /// The record of the least key after this one, or of the least of all. It takes no memory.
    pub fn next_from(&self, after: Option<&KeySpot>) -> Option<(KeySpot, Record)>
        ensures { result ≡ option_map (λ x. (x.key, record_of x))
            (first (λ x. not (passed (bound_after (option_copied after.entry)) x.key)) self.now.items) }
    {
        match self.index.next_from(after) {
            Some(row) => Some((row.key.spot(), row.record)),
            None => None,
        }
    }

    /// The first of these versions at which a record stands, with the key of the first record there: one pass over the
    /// records. It takes no memory.
    pub fn first_held(&self, versions: &[u8]) -> Option<(u8, KeySpot)>
        ensures { result ≡ first_held item_at item_key versions.now self.now.items }
    {
        first_among(&self.index, versions)
    }

    /// A page of the records as they were at a number: copies of those of a namespace behind a key, up
    /// to a limit, where limit 0 means none, and how many are left behind them. No namespace asks for
    /// all.
    pub fn page_at(
        &self,
        alloc: Global,
        ns: Option<&str>,
        after: Option<&Key>,
        rv: u64,
        limit: u64,
    ) -> Result<StorePage, NoMemory>
        requires known { self.now.floor ≤ rv }
        ensures page { IfOk result (λ page. ShowsCopies page
            (page_of rv limit (listed item_key (option_copied ns.entry) (option_copied after.entry) (items_at rv self.now)))) }
        ensures present { self.now.last ≤ rv → items_at rv self.now ≡ self.now.items }
    {
        if self.last <= rv {
            return self.page_now(alloc, ns, after, rv, limit);
        }
        let olds = superseded(alloc, &self.window, rv)?;
        let listing = listed(alloc, &self.index, olds.as_slice(), rv, ns, after, limit)?;
        let items = copies(alloc, &self.region, listing.picks.as_slice())?;
        Ok(StorePage {
            items,
            remaining: listing.behind,
        })
    }

    // A page of the records that stand. None of those behind it is looked at.
    fn page_now(
        &self,
        alloc: Global,
        ns: Option<&str>,
        after: Option<&Key>,
        rv: u64,
        limit: u64,
    ) -> Result<StorePage, NoMemory>
        ensures { IfOk result (λ page. ShowsCopies page
            (page_of rv limit (listed item_key (option_copied ns.entry) (option_copied after.entry) self.now.items))) }
    {
        let Stretch { from, to } = self.index.stretch(ns, after);
        let count = shown(to - from, limit);
        let items = copies_from(alloc, &self.region, &self.index, from, count)?;
        Ok(StorePage {
            items,
            remaining: (to - from - count) as u64,
        })
    }

    /// Writes a record where none stands under its key, or over the one of the expected number. It
    /// takes no memory.
    pub fn put_if(&mut self, expected: Option<u64>, now: u64, new: NewRecord) -> PutEnd
        requires later { self.old.last < now }
        requires weighed { new.weight ≢ 0 }
        requires within { length new.bytes.bytes ≤ 256 * new.weight }
        ensures end { result ≡ put_end expected new.weight (find item_key new.key self.old.items) self.old }
        ensures store { self.new ≡ (if is_done result then with_new now new self.old else self.old) }
    {
        let Sought { place, standing } = self.seek(&new.key);
        match self.put_end(expected, &new, standing) {
            PutEnd::Done => {
                self.commit(place, now, new);
                PutEnd::Done
            }
            refused => refused,
        }
    }

    /// Writes a record over the one of the expected number, at its weight. It takes no memory, and there
    /// is always room.
    pub fn touch_if(&mut self, expected: u64, now: u64, new: NewRecord) -> PutEnd
        requires later { self.old.last < now }
        requires weighed { new.weight ≢ 0 }
        requires within { length new.bytes.bytes ≤ 256 * new.weight }
        requires same_weight { ForSome (find item_key new.key self.old.items) (λ x. x.rv ≡ expected → new.weight ≡ x.weight) }
        ensures end { result ≡ touch_end expected (find item_key new.key self.old.items) }
        ensures store { self.new ≡ (if is_done result then with_new now new self.old else self.old) }
    {
        let Sought { place, standing } = self.seek(&new.key);
        match standing {
            None => PutEnd::Gone,
            Some(standing) if standing.rv != expected => PutEnd::Moved { newer: standing.rv },
            Some(_) => {
                self.commit(place, now, new);
                PutEnd::Done
            }
        }
    }

    /// Takes the record of a key out, and answers it without its text. It takes no memory.
    pub fn remove_if(&mut self, key: &Key, now: u64) -> Option<Record>
        requires later { self.old.last < now }
        ensures found { result ≡ option_map record_of (find item_key key.now self.old.items) }
        ensures store { self.new ≡ removed now key.now self.old }
    {
        self.take_out(key, now)
    }

    fn take_out(&mut self, key: &Key, now: u64) -> Option<Record>
        requires later { self.old.last < now }
        ensures found { result ≡ option_map record_of (find item_key key.now self.old.items) }
        ensures store { self.new ≡ removed now key.now self.old }
        ensures sound { IsStore self.old }
    {
        let Some(row) = self.index.take(key) else {
            return None;
        };
        let found = row.record;
        self.live -= found.weight;
        self.window.append(Past { by: now, row });
        self.window.trim(&mut self.region);
        self.last = now;
        Some(found)
    }

    // Seeks a key. A write does it once, and goes by the place afterwards.
    fn seek(&self, key: &Key) -> Sought
        ensures place { result.place ≡ place_of key.now (map item_key self.now.items) }
        ensures standing { result.standing ≡ option_map record_of (find item_key key.now self.now.items) }
    {
        match self.index.seek(key.ns(), key.name()) {
            Ok(place) => Sought {
                place: Ok(place),
                standing: Some(self.index.at(place).record),
            },
            Err(place) => Sought {
                place: Err(place),
                standing: None,
            },
        }
    }

    // What the write of a record answers where this is known of the one under its key.
    fn put_end(&self, expected: Option<u64>, new: &NewRecord, standing: Option<Record>) -> PutEnd
        requires { standing ≡ option_map record_of (find item_key new.now.key self.now.items) }
        ensures { result ≡ put_end expected new.now.weight (find item_key new.now.key self.now.items) self.now }
    {
        match (expected, standing) {
            (None, None) => {
                if self.len() < self.limits.objects {
                    self.room_for(0, new.weight)
                } else {
                    PutEnd::Full(Room {
                        what: RoomKind::Objects,
                        need: 1,
                        free: 0,
                    })
                }
            }
            (None, Some(_)) => PutEnd::Present,
            (Some(_), None) => PutEnd::Gone,
            (Some(number), Some(standing)) => {
                if standing.rv == number {
                    self.room_for(standing.weight, new.weight)
                } else {
                    PutEnd::Moved { newer: standing.rv }
                }
            }
        }
    }

    // Whether there is room for a weight where a record of another goes.
    fn room_for(&self, going: u64, weight: u64) -> PutEnd
        requires { going ≤ weights item_weight self.now.items }
        ensures { result ≡ unless_full (lacking_chunks self.now going weight) }
    {
        let free = self.limits.chunks - self.live + going;
        if free < weight {
            PutEnd::Full(Room {
                what: RoomKind::Chunks,
                need: weight,
                free,
            })
        } else {
            PutEnd::Done
        }
    }

    // Writes a record for which there is room at the place of its key.
    fn commit(&mut self, place: Result<usize, usize>, now: u64, new: NewRecord)
        requires later { self.old.last < now }
        requires weighed { new.weight ≢ 0 }
        requires within { length new.bytes.bytes ≤ 256 * new.weight }
        requires there { place ≡ place_of new.key (map item_key self.old.items) }
        requires room { HasRoom new.weight (find item_key new.key self.old.items) self.old }
        ensures { self.new ≡ with_new now new self.old }
    {
        match place {
            Ok(place) => self.write_over(place, now, new),
            Err(place) => self.add(place, now, new),
        }
    }

    // Writes a record for which there is room over the one at this place of the index. That one goes into
    // the window before the new text is put, and its place waits for the piece.
    fn write_over(&mut self, place: usize, now: u64, new: NewRecord)
        requires later { self.old.last < now }
        requires weighed { new.weight ≢ 0 }
        requires within { length new.bytes.bytes ≤ 256 * new.weight }
        requires there { place_of new.key (map item_key self.old.items) ≡ Ok place }
        requires room { HasRoom new.weight (find item_key new.key self.old.items) self.old }
        ensures { self.new ≡ with_new now new self.old }
    {
        let NewRecord {
            key,
            at,
            weight,
            bytes,
        } = new;
        let standing = self.index.record_at(place);
        let record = Record {
            at,
            rv: now,
            born: standing.born,
            weight,
            len: bytes.len() as u64,
        };
        let waiting = Row {
            key,
            record,
            piece: Piece::none(),
        };
        let row = self.index.replace(place, waiting);
        self.window.append(Past { by: now, row });
        self.window.trim(&mut self.region);
        let Ok(piece) = self.region.put(bytes.as_str().as_bytes()) else {
            unreachable!()
        };
        self.index.set_piece(place, piece);
        self.live = self.live - standing.weight + weight;
        self.last = now;
    }

    // Adds a record for which there is room at this place of the index, where its key would go.
    fn add(&mut self, place: usize, now: u64, new: NewRecord)
        requires later { self.old.last < now }
        requires weighed { new.weight ≢ 0 }
        requires within { length new.bytes.bytes ≤ 256 * new.weight }
        requires there { place_of new.key (map item_key self.old.items) ≡ Err place }
        requires room { HasRoom new.weight (find item_key new.key self.old.items) self.old }
        ensures { self.new ≡ with_new now new self.old }
    {
        let NewRecord {
            key,
            at,
            weight,
            bytes,
        } = new;
        let Ok(piece) = self.region.put(bytes.as_str().as_bytes()) else {
            unreachable!()
        };
        let record = Record {
            at,
            rv: now,
            born: now,
            weight,
            len: bytes.len() as u64,
        };
        self.index.insert(place, Row { key, record, piece });
        self.live += weight;
        self.last = now;
    }
}
