//! How a worker's turn came out.

use api_calls::ConvFault;
use api_core::Seen;
use kj_value::NoMemory;

/// How a worker's turn came out.
#[derive(Clone, Copy, Debug, PartialEq, Eq, Drop)]
pub enum TurnStep {
    /// There is nothing to do for now.
    Idle,
    /// The worker has a claim.
    Claimed,
    /// An object of the claim's range stands at the target now.
    Touched,
    /// Another call changed the object meanwhile, and nothing was written.
    Moved,
    /// Nothing is left in the claim's range.
    RangeDone,
    /// The migration has succeeded.
    Finished,
}

/// Why a worker's turn came to nothing.
#[derive(Clone, Copy, Debug, Drop)]
pub enum WorkFault {
    /// The converter failed.
    Converter,
    /// Memory was wanted and there was none.
    NoMemory,
}

impl From<NoMemory> for WorkFault {
    ghost use Rattle.std.specs.Prelude.{◌≡◌};
    ghost use Rattle.shared_api.specs.declared.step.WorkFault.TheVariants as fault;

    ghost from_gives = { λ _ e. e ≡ fault.NoMemory };

    fn from(_wanted: NoMemory) -> WorkFault {
        WorkFault::NoMemory
    }
}

impl From<ConvFault> for WorkFault {
    ghost use Rattle.std.specs.Prelude.{◌≡◌};
    ghost use Rattle.shared_api.specs.Faults.{work_fault};

    ghost from_gives = { λ f e. e ≡ work_fault f };

    fn from(fault: ConvFault) -> WorkFault {
        match fault {
            ConvFault::Tool => WorkFault::Converter,
            ConvFault::NoMemory => WorkFault::NoMemory,
        }
    }
}

/// What a worker's first turn came to.
#[derive(Drop)]
pub enum Begun {
    /// It is the whole turn, and came out so.
    Ended(TurnStep),
    /// This object is to be prepared for the target, as it stands at this number.
    Asked { rv: u64, target: u8, seen: Seen },
    /// An object is to be prepared, and there was no memory for a copy.
    NoMemory,
}
