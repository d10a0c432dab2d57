//! A flag that goes up once, and that two threads share.
ghost use Rattle.std.specs.Prelude.{◌≡◌, None, Some, IfOk, IfSome, MatchOption};

use std::alloc::{AllocError, Global};
use std::marker::Model;
use std::snapshot::Snapshot;
use std::sync::{Arc, OnceLock, OnceToken, Wait};

/// A flag that goes up once and stays up. Contracts see which flag it is: the two that `two_flags` gives are one.
#[derive(Drop)]
pub struct Flag {
    lock: Arc<OnceLock<()>, Global>,
}

impl Model for Flag {
    ghost use Rattle.std.specs.Prelude.{ℕ};

    ghost Value = { ℕ };

    ghost view = { λ f. f.lock.value.id };
}

/// What shows that a flag is up. Contracts see which flag that is.
#[derive(Drop)]
pub struct Raised<'a> {
    token: OnceToken<'a, ()>,
}

impl<'a> Model for Raised<'a> {
    ghost use Rattle.std.specs.Prelude.{ℕ};

    ghost Value = { ℕ };

    ghost view = { λ r. r.token.of };
}

impl Flag {
    /// Raises it, where it isn't up. It doesn't wait, and shows nothing.
    pub fn raise(&self) {
        let _token = self.lock.try_set(());
    }

    /// Raises it, where it isn't up, and shows that it is. It waits only while another thread raises it.
    pub fn put_up<R: Wait>(&self, rt: &R) -> Raised<'_>
        ensures { result ≡ self.now }
    {
        match self.lock.try_insert(rt, ()) {
            Ok(token) => Raised { token },
            Err((token, ())) => Raised { token },
        }
    }

    /// Shows that it is up, if it is up now.
    pub fn raised(&self) -> Option<Raised<'_>>
        ensures { IfSome result (λ r. r ≡ self.now) }
    {
        match self.lock.witness() {
            Some(token) => Some(Raised { token }),
            None => None,
        }
    }
}

/// One flag that isn't up, twice: for the thread that raises it, and for the one that looks. An error only where there is no memory.
pub fn two_flags(alloc: Global) -> Result<(Flag, Flag), AllocError>
    ensures one { IfOk result (λ p. p.1 ≡ p.0) }
{
    let lock = Arc::new(alloc, OnceLock::new())?;
    let other = Arc::try_clone(&lock)?;
    Ok((Flag { lock }, Flag { lock: other }))
}

/// That a flag was raised, as a job's result tells it. Contracts see which flag it is.
#[derive(Drop)]
pub struct Told {
    flag: Snapshot<Flag>,
}

impl Model for Told {
    ghost use Rattle.std.specs.Prelude.{ℕ};

    ghost Value = { ℕ };

    ghost view = { λ t. t.flag.value };
}

impl Told {
    // Of what shows that the flag is up.
    pub(crate) fn of(flag: &Flag, up: Raised<'_>) -> Told
        requires { up ≡ flag.now }
        ensures { result ≡ flag.now }
    {
        let _up = up;
        Told {
            flag: Snapshot::of(flag),
        }
    }
}

// Raises a flag, where there is one, and shows that it is up.
pub(crate) fn raise<'f, R: Wait>(rt: &R, flag: Option<&'f Flag>) -> Option<Raised<'f>>
    ensures { MatchOption flag.entry (result ≡ None) (λ f. result ≡ Some f.now) }
{
    match flag {
        Some(flag) => Some(flag.put_up(rt)),
        None => None,
    }
}
