//! How many replies of each kind came.
ghost use Rattle.std.specs.Prelude.{◌≡◌, ◌≢◌, OnOk};
ghost use Rattle.api_calls.specs.Ends.{TurnEnd};
ghost use Rattle.api_calls.specs.Refusal.{refusal_of, no_memory};
ghost use Rattle.shared_api.specs.Steps.{IsStep};
ghost use Rattle.drill_steps.specs.Counting.{no_counts, one_more, with_refusal, with_turn};

use api_calls::Refusal;
use kj_value::NoMemory;
use shared_api::TurnStep;

/// How many replies of each kind came. A count stays at its greatest number.
#[derive(Clone, Copy, PartialEq, Eq)]
pub(crate) struct Counts {
    pub(crate) created: u64,
    pub(crate) replaced: u64,
    pub(crate) deleted: u64,
    /// Nothing has the name, or something has it already.
    pub(crate) missed: u64,
    /// Every other refusal.
    pub(crate) refused: u64,
    /// Objects that the worker stored anew.
    pub(crate) touched: u64,
    /// Migrations that succeeded.
    pub(crate) migrated: u64,
}

/// A count and one.
pub(crate) fn one_more(count: u64) -> u64
    ensures { result ≡ one_more count }
{
    count.saturating_add(1)
}

impl Counts {
    /// Nothing came.
    pub(crate) fn none() -> Counts
        ensures { result ≡ no_counts }
    {
        Counts {
            created: 0,
            replaced: 0,
            deleted: 0,
            missed: 0,
            refused: 0,
            touched: 0,
            migrated: 0,
        }
    }

    /// Counts a refusal, unless memory was wanted.
    pub(crate) fn refuse(&mut self, refusal: &Refusal) -> Result<(), NoMemory>
        ensures counted { OnOk result (self.new ≡ with_refusal (refusal_of refusal.now) self.old) }
        ensures had { OnOk result (refusal_of refusal.now ≢ no_memory) }
    {
        match refusal {
            Refusal::NoMemory => return Err(NoMemory),
            Refusal::NotFound { name: _ }
            | Refusal::NoResource
            | Refusal::AlreadyExists { name: _ } => self.missed = one_more(self.missed),
            Refusal::Conflict { name: _, newer: _ }
            | Refusal::Invalid {
                subject: _,
                cause: _,
            }
            | Refusal::BadRequest { why: _ }
            | Refusal::Expired { floor: _ }
            | Refusal::Full { room: _ }
            | Refusal::MigrationRunning { name: _ }
            | Refusal::StillStored { version: _, key: _ }
            | Refusal::Converter => self.refused = one_more(self.refused),
        }
        Ok(())
    }

    /// Counts a turn of the worker.
    pub(crate) fn turn(&mut self, step: TurnStep)
        ensures { (e : TurnEnd) → IsStep step e → self.new ≡ with_turn e self.old }
    {
        match step {
            TurnStep::Idle | TurnStep::Claimed | TurnStep::Moved | TurnStep::RangeDone => {}
            TurnStep::Touched => self.touched = one_more(self.touched),
            TurnStep::Finished => self.migrated = one_more(self.migrated),
        }
    }
}
