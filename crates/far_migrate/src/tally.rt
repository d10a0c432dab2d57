//! What a migration answers.
use kj_value::NoMemory;

/// How many objects the last list had, and what became of them.
#[derive(Clone, Copy, Drop)]
pub struct Tally {
    /// All that the list had: the sum of the other four.
    pub listed: u64,
    /// The put was answered with another number: the object was stored anew.
    pub written: u64,
    /// The put was answered with the same number: the object stood at the storage version.
    pub unchanged: u64,
    /// The object was deleted meanwhile.
    pub gone: u64,
    /// The object changed at each of four puts.
    pub contested: u64,
}

/// Why there is no tally.
#[derive(Clone, Copy, Drop)]
pub enum FarFault {
    /// The link failed: its count of faults has risen.
    LinkFault,
    /// An answer of this code for which there is no rule, 404 for a list that isn't there, or 0 where the last response has another
    /// form, order or length.
    Answer { code: u16 },
    /// Seventeen lists were answered that their token is too old.
    Restarted,
    /// Memory was wanted and there was none.
    NoMemory,
}

impl From<NoMemory> for FarFault {
    ghost use Rattle.std.specs.Prelude.{◌≡◌};
    ghost use Rattle.far_migrate.specs.declared.tally.FarFault.TheVariants as faults;

    ghost from_gives = { λ _ e. e ≡ faults.NoMemory };

    fn from(_refused: NoMemory) -> FarFault {
        FarFault::NoMemory
    }
}
