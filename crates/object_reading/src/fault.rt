//! Why a document is refused.
use kj_value::{NoMemory, Txt};

/// Why a document is no object of the kind that is wanted. They stand in the order in which a document is judged.
#[derive(Drop)]
pub enum ObjectFault {
    /// The document isn't a JSON object.
    NotObject,
    /// `apiVersion` is absent or no text.
    BadVersion,
    /// `kind` isn't the kind that is wanted.
    WrongKind,
    /// The first field of the metadata, by name, that breaks its rule; empty where the metadata isn't an object.
    BadMeta { field: Txt },
    /// The name is absent or isn't the name of an object.
    BadName,
    /// Memory was wanted and there was none. It may come for any document.
    NoMemory,
}

impl From<NoMemory> for ObjectFault {
    ghost use Rattle.std.specs.Prelude.{◌≡◌};
    ghost use Rattle.object_reading.specs.declared.fault.ObjectFault.TheVariants as fault;

    ghost from_gives = { λ _ e. e ≡ fault.NoMemory };

    fn from(_refused: NoMemory) -> ObjectFault {
        ObjectFault::NoMemory
    }
}
