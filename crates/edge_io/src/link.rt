//! Where requests go, and their answers come from.
ghost use Rattle.std.specs.Prelude.{◌≡◌, ◌≤◌, ℕ, List, Option, IfErr};
ghost use Rattle.edge_io.specs.Causes.{Rose};
ghost use Rattle.edge_io.specs.Exchanges.{Exchange, after_exchange, answer_of, OnBroken};

use crate::Failed;
use kj_value::NoMemory;
use std::alloc::Global;
use thiserror::Error;

/// Why a request has no answer.
#[derive(Clone, Copy, Debug, Drop, Error)]
pub enum LinkFault {
    /// The outside failed.
    #[error("the exchange failed")]
    Failed,
    /// No memory was left.
    #[error("no memory is left")]
    NoMemory,
}

impl From<NoMemory> for LinkFault {
    ghost use Rattle.edge_io.specs.declared.link.LinkFault.TheVariants.{NoMemory as NoMemoryFault};

    ghost from_gives = { λ _ fault. fault ≡ NoMemoryFault };

    fn from(_refused: NoMemory) -> LinkFault {
        LinkFault::NoMemory
    }
}

impl From<Failed> for LinkFault {
    ghost use Rattle.edge_io.specs.declared.link.LinkFault.TheVariants.{Failed as FailedFault};

    ghost from_gives = { λ _ fault. fault ≡ FailedFault };

    fn from(_failed: Failed) -> LinkFault {
        LinkFault::Failed
    }
}

/// Where requests go, and their answers come from.
pub trait Link {
    /// The exchanges that were made, in order, where the object tells them.
    ghost exchanges: { Self → Option (List Exchange) };

    /// How often it has failed. The count never falls.
    ghost faults: { Self → ℕ };

    /// Sends a request, and hands out its answer. This is one exchange, but none where memory was wanted.
    fn exchange(&mut self, alloc: Global, request: &[u8]) -> Result<Vec<u8>, LinkFault>
        ensures exchanges { exchanges self.new ≡ after_exchange (exchanges self.old) request.now (answer_of (λ v. v.items) result) }
        ensures later { faults self.old ≤ faults self.new }
        ensures cause { IfErr result (λ fault. OnBroken fault (Rose (faults self.old) (faults self.new))) };
}
