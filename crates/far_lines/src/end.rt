//! How a line ends.
use record_dump::RestoreEnd;

/// How a line ends that migrates objects.
#[derive(Clone, Copy, Drop)]
pub enum MigrateEnd {
    /// All objects were put back, and the tally was written.
    Done,
    /// The same, but some object changed at each of four puts.
    Contested,
    /// The text isn't the address of a place.
    BadPlace,
    /// The link failed: its count of faults has risen.
    LinkFault,
    /// An answer of this code for which there is no rule, or 0 where the last response has another form, order or length.
    Answer { code: u16 },
    /// Seventeen lists were answered that their token is too old.
    Restarted,
    /// The output failed.
    WriteFault,
    /// Memory was wanted and there was none.
    NoMemory,
}

/// How a line ends that loads objects.
#[derive(Clone, Copy, Drop)]
pub enum LoadEnd {
    /// The restoring came to this. Where it is done, the two numbers were written.
    Restored(RestoreEnd),
    /// It is done, and the output failed.
    WriteFault { created: u64, present: u64 },
}
