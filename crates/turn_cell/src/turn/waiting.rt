//! Tickets: how a pass waits for its turn.
//!
//! A pass draws the next ticket only where that is the one that is served, so that it has the turn at once. Where the turn
//! is taken it looks again and again, and then sleeps on a bell. Before it sleeps it is counted among the bell's sleepers, and
//! looks once more. Who passes the turn on rings the bell where it has sleepers, which wakes one of them, and that one tries
//! again. So a pass that is awake is served before one that sleeps, and a turn that goes to nobody who sleeps makes no
//! system call.
//!
//! A pass that was woken so many times in vain draws the next ticket, whichever is served, and stands in line: behind it
//! no ticket is drawn at once until it was served. Passes in line are served first come, first served. They sleep on bells
//! of their own, of which each has those whose ticket's number leaves one rest, and who passes the turn on rings that of the
//! next ticket.
ghost use Rattle.std.specs.Prelude.{◌≡◌, [], ◌<◌, ◌≤◌, MatchOption};
ghost use Rattle.turn_cell.specs.Views.{set_stage};
ghost use Rattle.turn_cell.specs.Turns.{IsResting};
ghost use Rattle.turn_cell.specs.Steps.{Sees};
ghost use Rattle.turn_cell.specs.declared.view.Stage.TheVariants.{Waits};

use super::{Place, Turn};
use crate::plays::{Draw, Ring, See};
use crate::standing::Standing;
use std::sync::Wait;
use std::{hint, thread};

/// The words of the table: the next ticket, the ticket that is served, the count of items, and that of passes.
pub(super) const TICKET: usize = 0;

pub(super) const SERVING: usize = 1;

pub(super) const COUNT: usize = 2;

pub(super) const CALLERS: usize = 3;

/// The bell of the passes that have no ticket.
const BELL: usize = 4;

/// The count of those who sleep on it, or are about to.
const SLEEPERS: usize = 5;

/// The first of the bells of those who stand in line.
const LINE_BELLS: usize = 6;

/// How many bells the line has.
const LINE_BELL_COUNT: usize = 15;

/// The first of the counts of sleepers in line, one for each of its bells.
const LINE_SLEEPERS: usize = LINE_BELLS + LINE_BELL_COUNT;

/// How many words there are.
pub(super) const WORDS: usize = LINE_SLEEPERS + LINE_BELL_COUNT;

/// No ticket has this number or a greater one.
const LAST_TICKET: u64 = 1 << 61;

/// For how many looks a pass keeps the processor where the turn is taken, which lets a turn of some microseconds end.
const LOOKS: u32 = 128;

/// How often a pass that has no ticket may be woken, until it stands in line.
const WAKES: u32 = 64;

/// For how many looks a pass that is the next in line keeps the processor.
const QUICK_LOOKS: u32 = 128;

/// How many looks a pass in line takes before it is counted among the sleepers.
const WAKING_LOOKS: u32 = QUICK_LOOKS + 16;

// The bell of a ticket in line.
fn bell_of(ticket: u64) -> usize
    ensures { (6 ≤ result) × (result < 21) }
{
    LINE_BELLS + ticket as usize % LINE_BELL_COUNT
}

// The count of those in line who sleep on the bell of a ticket, or are about to.
fn sleepers_of(ticket: u64) -> usize
    ensures { (21 ≤ result) × (result < 36) }
{
    LINE_SLEEPERS + ticket as usize % LINE_BELL_COUNT
}

impl<T: Standing> Turn<T> {
    // Draws the ticket that is served, where nobody has drawn it.
    fn draw_served(&self, seat: &mut Place<T, T::Base>) -> Option<u64>
        requires own { seat.old.table_id ≡ self.now.table.shared.table_id }
        requires rest { IsResting seat.old.me.0 }
        ensures own { seat.new.table_id ≡ seat.old.table_id }
        ensures drawn { MatchOption result (seat.new.me ≡ seat.old.me) (λ ticket. seat.new.me ≡ (set_stage seat.old.me.0 seat.old.me.0.seen (Waits ticket), seat.old.me.1)) }
    {
        let served = self.table.shared.peek(SERVING);
        if served >= LAST_TICKET || self.table.shared.peek(TICKET) != served {
            return None;
        }
        let found = self
            .table
            .shared
            .compare_exchange::<Draw>(seat, TICKET, served, served + 1);
        if found == served { Some(served) } else { None }
    }

    // Draws the next ticket, whichever is served.
    fn draw_next<R: Wait>(&self, rt: &R, seat: &mut Place<T, T::Base>) -> u64
        requires own { seat.old.table_id ≡ self.now.table.shared.table_id }
        requires rest { IsResting seat.old.me.0 }
        ensures own { seat.new.table_id ≡ seat.old.table_id }
        ensures drawn { seat.new.me ≡ (set_stage seat.old.me.0 seat.old.me.0.seen (Waits result), seat.old.me.1) }
    {
        let mut expected = self.table.shared.peek(TICKET);
        for _ in rt.forever() {
            if expected < LAST_TICKET {
                let found = self
                    .table
                    .shared
                    .compare_exchange::<Draw>(seat, TICKET, expected, expected + 1);
                if found == expected {
                    return expected;
                }
                expected = found;
            } else {
                thread::yield_now();
            }
        }
        unreachable!()
    }

    // Draws a ticket where the pass is counted among the sleepers. Between the look at the bell and the sleep it looks once more:
    // so who passes the turn on behind that look finds a sleeper and rings the bell, which then has changed, and there is no
    // sleep.
    fn draw_asleep<R: Wait>(&self, rt: &R, seat: &mut Place<T, T::Base>) -> u64
        requires own { seat.old.table_id ≡ self.now.table.shared.table_id }
        requires rest { IsResting seat.old.me.0 }
        ensures own { seat.new.table_id ≡ seat.old.table_id }
        ensures drawn { seat.new.me ≡ (set_stage seat.old.me.0 seat.old.me.0.seen (Waits result), seat.old.me.1) }
    {
        for _wake in 0..WAKES {
            let rung = self.table.shared.peek(BELL);
            if let Some(ticket) = self.draw_served(seat) {
                return ticket;
            }
            self.table.shared.park(rt, BELL, (rung % (1 << 32)) as u32);
        }
        self.draw_next(rt, seat)
    }

    // Draws a ticket: the one that is served, or the next one after many sleeps. After 2^61 tickets it never returns.
    pub(super) fn draw<R: Wait>(&self, rt: &R, seat: &mut Place<T, T::Base>) -> u64
        requires own { seat.old.table_id ≡ self.now.table.shared.table_id }
        requires rest { IsResting seat.old.me.0 }
        ensures own { seat.new.table_id ≡ seat.old.table_id }
        ensures drawn { seat.new.me ≡ (set_stage seat.old.me.0 seat.old.me.0.seen (Waits result), seat.old.me.1) }
    {
        for _look in 0..LOOKS {
            if let Some(ticket) = self.draw_served(seat) {
                return ticket;
            }
            hint::spin_loop();
        }
        self.table.shared.fetch_add::<Ring>(seat, SLEEPERS, 1);
        let ticket = self.draw_asleep(rt, seat);
        self.table.shared.fetch_sub::<Ring>(seat, SLEEPERS, 1);
        ticket
    }

    // Waits until the ticket is served. Between the look at the bell and the sleep the ticket is looked at once more, when
    // the pass is counted among the sleepers: so who serves the ticket behind that look rings the bell, which then has
    // changed, and there is no sleep.
    pub(super) fn wait<R: Wait>(&self, rt: &R, seat: &mut Place<T, T::Base>, ticket: u64)
        requires own { seat.old.table_id ≡ self.now.table.shared.table_id }
        requires waits { (seat.old.me.0.stage ≡ Waits ticket) × (seat.old.me.1 ≡ []) × (0 < seat.old.me.0.share.top) }
        ensures own { seat.new.table_id ≡ seat.old.table_id }
        ensures sees { Sees T.stands T.base ticket seat.old.me seat.new.me }
    {
        let bell = bell_of(ticket);
        let sleepers = sleepers_of(ticket);
        let mut looks = 0;
        for _ in rt.forever() {
            let rung = self.table.shared.peek(bell);
            let served = self.table.shared.load::<See>(seat, SERVING);
            if served == ticket {
                if looks > WAKING_LOOKS {
                    self.table.shared.fetch_sub::<Ring>(seat, sleepers, 1);
                }
                return;
            }
            if looks < QUICK_LOOKS && served.wrapping_add(1) == ticket {
                hint::spin_loop();
            } else if looks < WAKING_LOOKS {
                thread::yield_now();
            } else if looks == WAKING_LOOKS {
                self.table.shared.fetch_add::<Ring>(seat, sleepers, 1);
            } else {
                self.table.shared.park(rt, bell, (rung % (1 << 32)) as u32);
            }
            if looks <= WAKING_LOOKS {
                looks += 1;
            }
        }
        unreachable!()
    }

    // Wakes whom the next turn is for: where somebody in line has drawn its ticket that one, if it sleeps or is about to, and
    // else one of those that have no ticket.
    pub(super) fn call(&self, seat: &mut Place<T, T::Base>, ticket: u64)
        requires own { seat.old.table_id ≡ self.now.table.shared.table_id }
        ensures own { seat.new.table_id ≡ seat.old.table_id }
        ensures same { seat.new.me ≡ seat.old.me }
    {
        if self.table.shared.peek(TICKET) != ticket {
            if self.table.shared.peek(sleepers_of(ticket)) != 0 {
                let bell = bell_of(ticket);
                self.table.shared.fetch_add::<Ring>(seat, bell, 1);
                self.table.shared.wake_all(bell);
            }
        } else if self.table.shared.peek(SLEEPERS) != 0 {
            self.table.shared.fetch_add::<Ring>(seat, BELL, 1);
            self.table.shared.wake_one(BELL);
        }
    }
}
