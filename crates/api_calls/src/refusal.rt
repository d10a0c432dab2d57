//! Why a request is refused.
use crate::cause::Cause;
use crate::why::Why;
use kj_value::Txt;
use kube_meta::{Key, Room};

/// Why a request is refused.
#[derive(Drop)]
pub enum Refusal {
    /// No object has the name.
    NotFound { name: Txt },
    /// The version isn't known or isn't served, or nothing has the path.
    NoResource,
    /// An object has the name already.
    AlreadyExists { name: Txt },
    /// The object isn't the one that was changed any more: it stands at another resource version.
    Conflict { name: Txt, newer: u64 },
    /// The document breaks a rule.
    Invalid { subject: Subject, cause: Cause },
    /// The request is none that is served.
    BadRequest { why: Why },
    /// The continue token is older than this resource version, the oldest one whose list is still known.
    Expired { floor: u64 },
    /// There is no more room.
    Full { room: Room },
    /// The migration of this name is running.
    MigrationRunning { name: Txt },
    /// The version is the storage version, or the object of this key is still stored at it.
    StillStored { version: Txt, key: Option<Key> },
    /// The converter failed.
    Converter,
    /// A call that wanted memory found none.
    NoMemory,
}

/// What a document is about.
#[derive(Drop)]
pub struct Subject {
    /// The kind, a point and the group. A kind has no point.
    pub kind_group: Txt,
    /// The document's name.
    pub name: Txt,
}
