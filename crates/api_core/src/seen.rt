//! What a look at a core sees, and what is prepared for a turn.
ghost use Rattle.std.specs.Prelude.{◌≡◌};

use api_calls::Flags;
use kj_value::Txt;
use kube_meta::Key;
use record_store::NewRecord;

/// An object as it is stored: the text at a version, the number of its last write, that of its creation, and its
/// weight in chunks of 256 bytes.
#[derive(Drop)]
pub struct Seen {
    pub key: Key,
    pub bytes: Txt,
    pub at: u8,
    pub rv: u64,
    pub born: u64,
    pub weight: u64,
}

/// What one look sees: the flags, the revision, and the object of a key.
#[derive(Drop)]
pub struct Peeked {
    pub flags: Flags,
    pub revision: u64,
    /// `None` exactly where no object has the key.
    pub found: Option<Seen>,
}

/// A value that is ready to be stored: its key, its text at a version, and its weight in chunks of 256 bytes.
pub struct Prepared {
    pub key: Key,
    pub at: u8,
    pub bytes: Txt,
    pub weight: u64,
}

impl Drop for Prepared {
    fn drop(self) {
        let Prepared {
            key: _,
            at: _,
            bytes: _,
            weight: _,
        } = self;
    }
}

impl Prepared {
    /// A record for the store.
    pub(crate) fn into_record(self) -> NewRecord
        ensures { result ≡ record { key = self.key; at = self.at; weight = self.weight; bytes = self.bytes } }
    {
        let Prepared {
            key,
            at,
            bytes,
            weight,
        } = self;
        NewRecord {
            key,
            at,
            weight,
            bytes,
        }
    }
}
