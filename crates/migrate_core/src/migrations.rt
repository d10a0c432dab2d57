//! The migrations, and the plan of the one that runs.
ghost use Rattle.std.specs.Prelude.{◌≡◌, ◌+◌, ◌^◌, ◌<◌, true, [], None, Some, ◌≤◌, IfOk, is_some, length, option_map, if◌then◌else◌};
ghost use Rattle.kube_meta.specs.Names.{is_name};
ghost use Rattle.kube_meta.specs.Plan.{named as migration_named, opening_plan, running as migration_running};
ghost use Rattle.migrate_core.specs.declared.ends.StartEnd.TheVariants.{Done as Started};
ghost use Rattle.migrate_core.specs.Moves.{IsInWork, advance_end, after_advance, after_claim, after_fail, after_give_back, after_mark, after_pass, after_start, may_succeed, start_end, takes_claim, work_of};

use crate::bound::KeyBound;
use crate::claims::hold;
use crate::ends::{Advance, StartEnd, Worker};
use crate::item::{MigrationItem, MigrationItems};
use crate::items::{end, named, running};
use crate::records::{Records, first_elsewhere};
use crate::slot::ClaimSlot;
use crate::slots::{
    all_free, clear, clear_all, has_free, hold_free, hold_loose, loosen, pass, range_of,
};
use kj_value::{NoMemory, Txt};
use kube_meta::{Condition, KeySpot, NAME_BYTES, NameSpot, Room, RoomKind};
use std::alloc::Global;
use std::marker::Model;

/// How many claims there are at a time.
const SLOTS: usize = 16;

/// The migrations in the order of their starts, and the plan of the one that runs.
pub struct Migrations {
    items: Vec<MigrationItem>,
    limit: u64,
    cursor: KeyBound,
    slots: Vec<ClaimSlot>,
    last: u64,
}

impl Drop for Migrations {
    fn drop(self) {
        let Migrations {
            items: _,
            limit: _,
            cursor: _,
            slots: _,
            last: _,
        } = self;
    }
}

impl Model for Migrations {
    ghost use Rattle.std.specs.Prelude.{◌≡◌, ◌≤◌, length, vec_len};
    ghost use Rattle.std.specs.Vec.{vec_capacity};
    ghost use Rattle.kube_meta.specs.Plan.{slot_count};
    ghost use Rattle.migrate_core.specs.View.{MigrationsView};

    ghost Value = { MigrationsView };

    ghost view = { λ m. record {
      items = m.items.items;
      plan = record { cursor = m.cursor; slots = m.slots.items; last = m.last };
      limit = m.limit;
    } };

    ghost invariant = { λ m. (vec_len m.slots ≡ slot_count) × (m.limit ≤ vec_capacity m.items) };
}

impl Migrations {
    /// No migrations, with room for so many. `NoMemory` comes where the allocator has no room for them and for the
    /// slots.
    pub fn open(alloc: Global, limit: u64) -> Result<Migrations, NoMemory>
        ensures { IfOk result (λ m. m ≡ record { items = []; plan = opening_plan; limit = limit }) }
    {
        let items = Vec::with_capacity(alloc, limit as usize)?;
        let mut slots = Vec::with_capacity(alloc, SLOTS)?;
        for _place in 0..SLOTS {
            slots.push(ClaimSlot::free())?;
        }
        Ok(Migrations {
            items,
            limit,
            cursor: KeyBound::start(),
            slots,
            last: 0,
        })
    }

    /// Starts a migration of objects to a version. The name is tried first, then whether one runs, then the room.
    /// It takes no memory.
    pub fn start(&mut self, name: Txt, target: u8) -> StartEnd
        requires { is_name name.bytes ≡ true }
        ensures answer { result ≡ start_end name.bytes target self.old }
        ensures plan { self.new ≡ after_start result name.bytes self.old }
    {
        if named(&self.items, name.as_str()).is_some() {
            return StartEnd::AlreadyExists;
        }
        if let Some(item) = running(&self.items) {
            return StartEnd::Running {
                name: NameSpot::of(item.name()),
            };
        }
        if self.items.len() as u64 >= self.limit {
            return StartEnd::Full(Room {
                what: RoomKind::Migrations,
                need: 1,
                free: 0,
            });
        }
        self.add(name, target);
        StartEnd::Done { target }
    }

    // One more migration runs, and nothing of it is handed out yet.
    fn add(&mut self, name: Txt, target: u8)
        requires fits { length name.bytes ≤ NAME_BYTES }
        requires room { length self.old.items < self.old.limit }
        ensures { self.new ≡ after_start (Started target) name.bytes self.old }
    {
        match self
            .items
            .push(MigrationItem::of(name, target, Condition::Running))
        {
            Ok(()) => {}
            Err(_) => unreachable!(),
        }
        self.cursor = KeyBound::start();
        clear_all(&mut self.slots);
    }

    /// A claim is taken for the worker, with the number behind the last: the loose slot of least place, else a free one
    /// with a range of the next keys. Answers whether there was one; none is taken where no migration runs. It takes
    /// no memory.
    pub fn claim<R: Records>(&mut self, w: &mut Worker, records: &R) -> bool
        requires idle { w.old.claim ≡ None }
        requires numbers { self.old.plan.last < 2 ^ 61 }
        ensures was { result ≡ takes_claim self.old }
        ensures plan { self.new ≡ after_claim (R.rows records.now) self.old }
        ensures worker { w.new.claim ≡ (if takes_claim self.old then Some (self.old.plan.last + 1) else None) }
    {
        if running(&self.items).is_none() {
            return false;
        }
        let number = self.last + 1;
        if !hold(&mut self.cursor, &mut self.slots, number, records) {
            return false;
        }
        self.last = number;
        w.claim = Some(number);
        true
    }

    /// What the worker's claim has to do next: the first record of its range that stands elsewhere is to be prepared.
    /// Where there is none, its slot is free afterwards. It takes no memory.
    pub fn advance<R: Records>(&mut self, w: &Worker, records: &R) -> Advance
        ensures answer { result ≡ advance_end (work_of w.now.claim self.old) (R.rows records.now) }
        ensures plan { self.new ≡ after_advance (work_of w.now.claim self.old) (R.rows records.now) self.old }
    {
        let Some(claim) = w.claim else {
            return Advance::Lost;
        };
        let Some(item) = running(&self.items) else {
            return Advance::Lost;
        };
        let target = item.target();
        let Some(range) = range_of(&self.slots, claim) else {
            return Advance::Lost;
        };
        if let Some(row) = first_elsewhere(records, range, target) {
            return Advance::Prepare {
                key: row.key,
                rv: row.rv,
            };
        }
        clear(&mut self.slots, claim);
        Advance::Done
    }

    /// The range of the worker's claim begins behind a key. It takes no memory.
    pub fn pass_key(&mut self, w: &Worker, key: &KeySpot)
        requires { IsInWork key.now (work_of w.now.claim self.old) }
        ensures { self.new ≡ after_pass (work_of w.now.claim self.old) key.now self.old }
    {
        if let Some(claim) = w.claim {
            pass(&mut self.slots, claim, key.again());
        }
    }

    /// The worker's claim is given back, and the worker has none afterwards. Answers whether it was held.
    /// It takes no memory.
    pub fn give_back(&mut self, w: &mut Worker) -> bool
        ensures was { result ≡ is_some (work_of w.old.claim self.old) }
        ensures plan { self.new ≡ after_give_back (work_of w.old.claim self.old) self.old }
        ensures worker { w.new.claim ≡ None }
    {
        let Some(claim) = w.claim.take() else {
            return false;
        };
        if running(&self.items).is_none() {
            return false;
        }
        if range_of(&self.slots, claim).is_none() {
            return false;
        }
        loosen(&mut self.slots, claim);
        true
    }

    /// Where every key was handed out and no claim is left, the running migration has succeeded. Answers whether it
    /// has. It takes no memory.
    pub fn mark(&mut self) -> bool
        ensures was { result ≡ may_succeed self.old }
        ensures plan { self.new ≡ after_mark self.old }
    {
        if !self.cursor.is_end() {
            return false;
        }
        if !all_free(&self.slots) {
            return false;
        }
        end(&mut self.items, Condition::Succeeded)
    }

    /// The running migration has failed, and its plan is cleared. Answers whether one ran. It takes no memory.
    pub fn fail_running(&mut self) -> bool
        ensures was { result ≡ is_some (migration_running self.old.items) }
        ensures plan { self.new ≡ after_fail self.old }
    {
        if !end(&mut self.items, Condition::Failed) {
            return false;
        }
        self.cursor = KeyBound::start();
        clear_all(&mut self.slots);
        true
    }

    /// The last claim number, 0 before the first claim.
    pub fn last_claim(&self) -> u64
        ensures { result ≡ self.now.plan.last }
    {
        self.last
    }

    /// The target of the running migration; `None` exactly where the worker's claim isn't in a held slot of it.
    pub fn target_of(&self, w: &Worker) -> Option<u8>
        ensures { result ≡ option_map (λ k. k.target) (work_of w.now.claim self.now) }
    {
        let claim = w.claim?;
        let item = running(&self.items)?;
        range_of(&self.slots, claim)?;
        Some(item.target())
    }

    /// The target and the condition of the migration of a name; `None` exactly where there is none of that name.
    pub fn find(&self, name: &str) -> Option<(u8, Condition)>
        ensures { result ≡ option_map (λ m. (m.target, m.condition)) (migration_named name.now self.now.items) }
    {
        let item = named(&self.items, name)?;
        Some((item.target(), item.condition()))
    }

    /// The migrations in the order of their starts, copied.
    pub fn list(&self, alloc: Global) -> Result<MigrationItems, NoMemory>
        ensures { IfOk result (λ items. items ≡ self.now.items) }
    {
        MigrationItems::of(alloc, &self.items)
    }
}
