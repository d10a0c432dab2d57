//! A moment.
ghost use Rattle.std.specs.Prelude.{◌≡◌};
ghost use Rattle.std.specs.Str.{IsAscii};

/// A moment, as the 20 bytes of `2024-01-02T03:04:05Z`.
#[derive(Clone, Copy, PartialEq, Eq, Drop)]
pub struct Stamp {
    pub text: [u8; 20],
    ghost ascii: { IsAscii text },
}

impl Stamp {
    /// The moment as text. It takes no memory.
    pub fn as_str(&self) -> &str
        ensures { result.now ≡ self.now.text }
    {
        match str::from_utf8(&self.text) {
            Ok(text) => text,
            Err(_) => unreachable!(),
        }
    }
}
