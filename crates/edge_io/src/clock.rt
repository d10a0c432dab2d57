//! What tells the time.
ghost use Rattle.std.specs.Prelude.{◌≡◌, List, ℕ, Option, Some, IfSome};
ghost use Rattle.edge_io.specs.Stamps.{HasStampForm, IsPlain};

use kj_value::Stamp;

/// Tells the time. It never fails.
pub trait Clock {
    /// The one stamp that it always answers, where the object tells it.
    ghost told: { Self → Option (List ℕ) };

    /// The stamp of this moment, which JSON spells as it stands.
    fn stamp(&self) -> Stamp
        ensures told { IfSome (told self.now) (λ text. result.text ≡ text) }
        ensures form { HasStampForm result.text }
        ensures plain { IsPlain result.text };
}

/// A clock that always answers one stamp.
#[derive(Clone, Copy, Drop)]
pub struct FixedClock {
    stamp: Stamp,
    ghost form: { HasStampForm stamp.text },
}

impl FixedClock {
    /// A clock that answers this stamp.
    pub fn new(stamp: Stamp) -> FixedClock
        requires { HasStampForm stamp.text }
        ensures { result.stamp ≡ stamp }
    {
        FixedClock { stamp }
    }
}

impl Clock for FixedClock {
    ghost told = { λ c. Some c.stamp.text };

    fn stamp(&self) -> Stamp {
        self.stamp
    }
}
