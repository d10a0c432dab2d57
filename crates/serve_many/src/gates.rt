//! What workers ask before each turn.
//!
//! Workers that rest are woken by the server's bell, which each call rings that sets the flags or starts a migration, and each
//! worker that finds something to do behind a rest. Besides, one worker watches, which looks again at least ten times a second,
//! and the others once a second.
ghost use Rattle.std.specs.Prelude.{◌≡◌, ◌≢◌, ◌⊎◌, ◌*◌, ℕ, min, Bool, true, false, IsTrue, IfOk};
ghost use Rattle.serve_many.specs.Gates.{Rests, Shows, most_rest};
ghost use Rattle.shared_api.specs.declared.step.TurnStep.{TurnStep as Step};

use crate::showing::Seen;
use migrate_workers::{Gate, WorkEnd};
use shared_api::{Bell, TurnStep};
use std::alloc::{AllocError, Global};
use std::sync::Wait;
use std::thread;
use std::time::{Clock, Duration};
use thread_jobs::{Flag, two_flags};

/// So many milliseconds a worker rests at first where it finds nothing to do.
pub const PAUSE_MILLIS: u64 = 2;

/// So many milliseconds the worker that watches rests at most, where it found nothing to do many times, and any worker where its
/// converter failed.
pub const MOST_PAUSE_MILLIS: u64 = 100;

/// So many milliseconds another worker rests at most, where no bell is rung.
pub const MOST_TOLD_PAUSE_MILLIS: u64 = 1000;

/// A gate that says yes until its flag is raised, and rests before the turn after one that found nothing to do, twice as long each
/// time, or until the server's bell is rung. Its parameter has no bound, so that it may be sent.
#[derive(Drop)]
pub struct RestingGate<'s, T> {
    pub system: &'s T,
    pub shut: Flag,
    /// What was seen of the flag.
    pub seen: Seen,
    /// So many milliseconds the next rest takes.
    pub pause: u64,
    /// Whether its worker watches.
    pub watches: bool,
    /// The server's.
    pub bell: &'s Bell,
    /// How often the bell had been rung before the last turn.
    pub heard: u64,
}

/// A gate whose worker watches or not, and the flag that shuts it. An error only where there is no memory.
pub(crate) fn resting_gate<'s, T>(
    alloc: Global,
    system: &'s T,
    bell: &'s Bell,
    watches: bool,
) -> Result<(Flag, RestingGate<'s, T>), AllocError>
    ensures { IfOk result (λ p. (p.1.shut ≡ p.0) × (p.1.seen ≡ false) × (p.1.pause ≡ 2) × (p.1.watches ≡ watches)) }
{
    let (shut, theirs) = two_flags(alloc)?;
    let heard = bell.rung();
    Ok((
        shut,
        RestingGate {
            system,
            shut: theirs,
            seen: Seen::nothing(),
            pause: PAUSE_MILLIS,
            watches,
            bell,
            heard,
        },
    ))
}

// A rest twice as long, up to the most.
fn longer(pause: u64, watches: bool) -> u64
    ensures { result ≡ min (pause * 2) (most_rest watches) }
{
    let most = if watches {
        MOST_PAUSE_MILLIS
    } else {
        MOST_TOLD_PAUSE_MILLIS
    };
    pause.saturating_mul(2).min(most)
}

// How long the rest takes that comes after one: as long as the first one where the bell was rung meanwhile.
fn next(pause: u64, watches: bool, heard: u64, rung: u64) -> u64
    ensures { ((result ≡ min (pause * 2) (most_rest watches)) × (rung ≡ heard)) ⊎ ((result ≡ 2) × (rung ≢ heard)) }
{
    if rung == heard {
        longer(pause, watches)
    } else {
        PAUSE_MILLIS
    }
}

impl<'s, T> RestingGate<'s, T> {
    // Whether its flag is up, which is kept.
    fn is_shut(&mut self) -> bool
        ensures seen { result ≡ self.new.seen }
        ensures same { (self.new.shut ≡ self.old.shut) × (self.new.watches ≡ self.old.watches) × (self.new.pause ≡ self.old.pause) × (self.new.heard ≡ self.old.heard) }
    {
        self.seen = Seen::of(&self.shut);
        self.seen.is_up()
    }

    // Tells the others that there is something to do, where this worker rested since it last had.
    fn tell(&self) {
        if self.pause != PAUSE_MILLIS {
            self.bell.ring();
        }
    }
}

impl<'s, T: Clock> Gate for RestingGate<'s, T> {
    ghost answers = { λ g last may h. Rests last (most_rest g.watches) g.pause h.pause g.heard h.heard may × (h.watches ≡ g.watches) × (h.shut ≡ g.shut) × Shows may h.seen };

    fn go_on<R: Wait>(&mut self, rt: &R, last: TurnStep) -> bool {
        if last != TurnStep::Idle {
            self.tell();
            self.pause = PAUSE_MILLIS;
            self.heard = self.bell.rung();
        } else if self.is_shut() {
            return false;
        } else {
            self.bell.rest(rt, self.heard, self.pause);
            let rung = self.bell.rung();
            self.pause = next(self.pause, self.watches, self.heard, rung);
            self.heard = rung;
        }
        !self.is_shut()
    }
}

/// A gate of a worker that begins again after its turns ended.
pub trait PatientGate: Gate {
    /// The flag that shuts it.
    ghost flag: { Self → ℕ };

    /// It saw that the flag is up.
    ghost shut: { Self → Type 0 };

    /// Rests before the worker begins again, where its converter failed.
    fn rest_after(&mut self, end: WorkEnd)
        ensures { flag self.new ≡ flag self.old };

    /// It says no only where it saw that.
    ghost says_no: { (g : Self) (last : Step) (h : Self) → Self.Gate.answers g last false h → shut h };

    /// Which flag it is, no answer changes.
    ghost one_flag: { (g : Self) (last : Step) (may : Bool) (h : Self) → Self.Gate.answers g last may h → flag h ≡ flag g };
}

impl<'s, T: Clock> PatientGate for RestingGate<'s, T> {
    ghost flag = { λ g. g.shut };

    ghost shut = { λ g. g.seen ≡ true };

    ghost says_no = { λ g last h a. a.3 };

    ghost one_flag = { λ g last may h a. a.2 };

    fn rest_after(&mut self, end: WorkEnd) {
        if end == WorkEnd::Converter && self.shut.raised().is_none() {
            thread::sleep(self.system, Duration::from_millis(MOST_PAUSE_MILLIS));
        }
    }
}

/// A gate that always says yes.
#[derive(Drop)]
pub struct OpenGate;

impl Gate for OpenGate {
    ghost answers = { λ g last may h. IsTrue may };

    fn go_on<R: Wait>(&mut self, _rt: &R, _last: TurnStep) -> bool {
        true
    }
}
