//! Why an object isn't settled, nor taken to the hub.
use kj_value::{NoMemory, Txt};

#[derive(Drop)]
pub enum KeepFault {
    /// The text of the annotation isn't the one text of an entry list. It is the first such key, by bytes, of
    /// those that are read: the key of the object's own side and keys of no known spoke aren't.
    BadKept { annotation: Txt },
    /// Memory was wanted and there was none. It may come for any object.
    NoMemory,
}

impl From<NoMemory> for KeepFault {
    ghost use Rattle.std.specs.Prelude.{◌≡◌};
    ghost use Rattle.spoke_keep.specs.declared.fault.KeepFault.TheVariants as fault;

    ghost from_gives = { λ _ e. e ≡ fault.NoMemory };

    fn from(_refused: NoMemory) -> KeepFault {
        KeepFault::NoMemory
    }
}
