//! Which texts are finalizers.
ghost use Rattle.std.specs.Prelude.{◌≡◌};
ghost use Rattle.object_reading.specs.Finalizers.{is_finalizer};

/// The most finalizers of an object.
pub const FINALIZERS: usize = 64;

/// The most bytes of a finalizer: those of the longest qualified name, a name of 253 bytes, a `/` and 63 bytes.
pub const FINALIZER_BYTES: usize = 317;

/// Whether the text is a finalizer: any text of 1 to 317 bytes. It takes no memory.
#[tactic(auto, unfolding(crate::specs::Finalizers::is_finalizer))]
pub fn finalizer_ok(text: &str) -> bool
    ensures { result ≡ is_finalizer text.now }
{
    text.len() >= 1 && text.len() <= FINALIZER_BYTES
}
