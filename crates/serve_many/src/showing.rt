//! What was seen of a flag.
ghost use Rattle.std.specs.Prelude.{◌≡◌, false};

use std::marker::Model;
use thread_jobs::Flag;

/// What was seen of a flag: whether it was up. A flag that is up stays up. That one was is seen by nothing but a look at one that is up.
#[derive(Drop)]
pub struct Seen {
    up: bool,
}

impl Model for Seen {
    ghost use Rattle.std.specs.Prelude.{Bool};

    ghost Value = { Bool };

    ghost view = { λ s. s.up };
}

impl Seen {
    /// No flag was seen yet.
    pub(crate) fn nothing() -> Seen
        ensures { result ≡ false }
    {
        Seen { up: false }
    }

    /// What is seen of the flag now.
    pub(crate) fn of(flag: &Flag) -> Seen {
        match flag.raised() {
            Some(_raised) => Seen { up: true },
            None => Seen { up: false },
        }
    }

    /// Whether it was up.
    pub(crate) fn is_up(&self) -> bool
        ensures { result ≡ self.now }
    {
        self.up
    }
}
