//! Where files are read from.
ghost use Rattle.std.specs.Prelude.{◌≡◌, ◌≤◌, ℕ, List, Option, length, IfSome, IfOk, IfErr};
ghost use Rattle.edge_io.specs.Causes.{Rose};
ghost use Rattle.edge_io.specs.Files.{ReadsFile, OnFailed};

use crate::Failed;
use kj_value::{NoMemory, Txt};
use std::alloc::Global;
use thiserror::Error;

/// The longest file that is read, in bytes.
pub const MOST_FILE_BYTES: usize = 4_194_304;

/// Why a file wasn't read.
#[derive(Clone, Copy, Debug, Drop, Error)]
pub enum FileFault {
    /// The outside failed.
    #[error("the file could not be read")]
    Failed,
    /// The file holds more than `MOST_FILE_BYTES`.
    #[error("the file is longer than 4,194,304 bytes")]
    TooLong,
    /// The file isn't UTF-8.
    #[error("the file is not UTF-8")]
    NotText,
    /// No memory was left.
    #[error("no memory is left")]
    NoMemory,
}

impl From<NoMemory> for FileFault {
    ghost use Rattle.edge_io.specs.declared.files.FileFault.TheVariants.{NoMemory as NoMemoryFault};

    ghost from_gives = { λ _ fault. fault ≡ NoMemoryFault };

    fn from(_refused: NoMemory) -> FileFault {
        FileFault::NoMemory
    }
}

impl From<Failed> for FileFault {
    ghost use Rattle.edge_io.specs.declared.files.FileFault.TheVariants.{Failed as FailedFault};

    ghost from_gives = { λ _ fault. fault ≡ FailedFault };

    fn from(_failed: Failed) -> FileFault {
        FileFault::Failed
    }
}

/// Where files are read from.
pub trait Files {
    /// The bytes of the file at a path, where the object tells them. No call changes them.
    ghost file: { Self → List ℕ → Option (List ℕ) };

    /// How often it has failed. The count never falls.
    ghost faults: { Self → ℕ };

    /// The text of the file at a path. `TooLong` comes before `NotText`.
    fn read_file(&mut self, alloc: Global, path: &str) -> Result<Txt, FileFault>
        ensures read { IfSome (file self.old path.now) (λ bytes. ReadsFile bytes result) }
        ensures short { IfOk result (λ text. length text.bytes ≤ MOST_FILE_BYTES) }
        ensures kept { (name : List ℕ) → file self.new name ≡ file self.old name }
        ensures later { faults self.old ≤ faults self.new }
        ensures cause { IfErr result (λ fault. OnFailed fault (Rose (faults self.old) (faults self.new))) };
}
