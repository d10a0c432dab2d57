//! Which versions are served.
ghost use Rattle.std.specs.Prelude.{◌≡◌, ◌<◌, IsTrue, ℕ};
ghost use Rattle.api_calls.specs.Versions.{AreFlags};
ghost use Rattle.api_calls.specs.State.{served};

use crate::flags::Flags;

/// Whether a version is served, by its place. It takes no memory.
pub fn is_served(flags: &Flags, v: u8) -> bool
    ensures served { result ≡ served flags.now v }
    ensures known { (count : ℕ) → AreFlags count flags.now → IsTrue result → v < count }
{
    if v < 8 {
        flags.served[v as usize]
    } else {
        false
    }
}
