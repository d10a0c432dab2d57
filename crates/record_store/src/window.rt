//! The ring of superseded records.
ghost use Rattle.std.specs.Prelude.{◌≡◌, ◌+◌, ◌<◌, ◌≤◌, ◌^◌, ℕ, [], ◌∷◌, ◌++◌, IfOk, length, option_copied, slice_get};
ghost use Rattle.kube_meta.specs.Window.{fits, floor_from, newest, weights};

use crate::past::Past;
use crate::row::Row;
use kj_value::NoMemory;
use kube_meta::Limits;
use record_region::Region;
use std::alloc::Global;
use std::collections::VecDeque;
use std::marker::Model;

/// Superseded records, the oldest first. It takes its memory when it is opened, and none later.
#[derive(Drop)]
pub struct Window {
    limits: Limits,
    items: VecDeque<Past>,
    weight: u64,
    floor: u64,
}

impl Model for Window {
    ghost use Rattle.std.specs.Prelude.{◌≡◌, ◌+◌, ◌<◌, ◌≤◌, length};
    ghost use Rattle.std.specs.VecDeque.{deque_capacity};
    ghost use Rattle.kube_meta.specs.Window.{weights};
    ghost use Rattle.record_store.specs.Pasts.{Pasts, past_weight};

    ghost Value = { Pasts };

    ghost view = { λ w. record { limits = w.limits; items = w.items.items; floor = w.floor } };

    ghost invariant = { λ w. (w.weight ≡ weights past_weight w.items.items)
        × (length w.items.items ≤ w.limits.window_records + 1) × (w.limits.window_records < deque_capacity w.items) };
}

impl Window {
    ghost use Rattle.record_store.specs.Held.{holders, pieces_at, trimmed};
    ghost use Rattle.record_store.specs.Pasts.{past_by, past_weight, rows_of};

    /// A window with no records, above whose floor, 1, all are known. It has room for one record more
    /// than its limit. `NoMemory` comes where the allocator hasn't that room.
    pub fn open(alloc: Global, limits: Limits) -> Result<Window, NoMemory>
        ensures { IfOk result (λ w. w ≡ record { limits = limits; items = []; floor = 1 }) }
    {
        let room = limits.window_records.checked_add(1).ok_or(NoMemory)?;
        let items = VecDeque::with_capacity(alloc, room as usize)?;
        Ok(Window {
            limits,
            items,
            weight: 0,
            floor: 1,
        })
    }

    /// The number above which every superseded record is here.
    pub fn floor(&self) -> u64
        ensures { result ≡ self.now.floor }
    {
        self.floor
    }

    /// How many records are here.
    pub fn len(&self) -> usize
        ensures { result ≡ length self.now.items }
    {
        self.items.len()
    }

    /// The record at a place, the oldest being at 0.
    pub fn get(&self, place: usize) -> Option<&Past>
        ensures { option_copied result ≡ slice_get self.now.items place }
    {
        self.items.get(place)
    }

    /// Adds the newest record, whether it fits or not. It takes no memory.
    pub fn append(&mut self, past: Past)
        requires few { length self.old.items ≤ self.old.limits.window_records }
        requires light { weights past_weight self.old.items + past.row.record.weight < 2 ^ 64 }
        ensures { self.new ≡ record self.old { items = self.old.items ++ past ∷ [] } }
    {
        self.weight += past.row.record.weight;
        if self.items.push_back(past).is_err() {
            unreachable!()
        }
    }

    /// Whether all that is here fits the limits.
    fn fits(&self) -> bool
        ensures { result ≡ fits past_weight self.now.limits self.now.items }
    {
        self.items.len() as u64 <= self.limits.window_records
            && self.weight <= self.limits.window_chunks
    }

    /// Lets go of the oldest.
    fn let_go(&mut self) -> Past
        requires { 0 < length self.old.items }
        ensures items { self.old.items ≡ result ∷ self.new.items }
        ensures limits { self.new.limits ≡ self.old.limits }
        ensures floor { self.new.floor ≡ result.by }
    {
        let Some(oldest) = self.items.pop_front() else {
            unreachable!()
        };
        self.weight -= oldest.row.record.weight;
        self.floor = oldest.by;
        oldest
    }

    /// Lets go of the oldest until the rest fits, and frees their pieces. It takes no memory.
    pub fn trim(&mut self, region: &mut Region)
        requires apart { (chunk : ℕ) → holders chunk (rows_of self.old.items) ≤ pieces_at region.old chunk }
        ensures limits { self.new.limits ≡ self.old.limits }
        ensures items { self.new.items ≡ newest past_weight self.old.limits self.old.items }
        ensures floor { self.new.floor ≡ floor_from past_by past_weight self.old.limits self.old.floor self.old.items }
        ensures region { region.new ≡ trimmed self.old.limits self.old.items region.old }
    {
        while !self.fits() {
            let Past { by: _, row } = self.let_go();
            let Row {
                key: _,
                record: _,
                piece,
            } = row;
            region.free(piece);
        }
    }
}
