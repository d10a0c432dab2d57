//! Why a kept text is refused.
use kj_value::NoMemory;
use std::alloc::{AllocError, AllocFailed};

#[derive(Clone, Copy, Drop)]
pub enum KeptFault {
    /// The text isn't the one text of an entry list, or is too deep.
    BadKept,
    /// Memory was wanted and there was none. It may come for any text.
    NoMemory,
}

impl From<NoMemory> for KeptFault {
    ghost use Rattle.std.specs.Prelude.{◌≡◌};
    ghost use Rattle.kept_entries.specs.declared.fault.KeptFault.TheVariants as fault;

    ghost from_gives = { λ _ e. e ≡ fault.NoMemory };

    fn from(_refused: NoMemory) -> KeptFault {
        KeptFault::NoMemory
    }
}
