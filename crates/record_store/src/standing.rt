//! How large the region of a server's store is, as the contract of a function that does nothing.
ghost use Rattle.std.specs.Prelude.{◌≡◌, length, ℕ};
ghost use Rattle.record_region.specs.Places.{Places};
ghost use Rattle.record_store.specs.Inside.{IsSoundStore};
ghost use Rattle.record_store.specs.Pasts.{Pasts};
ghost use Rattle.record_store.specs.Rows.{Rows};

use kube_meta::Limits;

/// With a server's limits the region has 327,680 chunks, those of the objects and those of the window, in each store that is as
/// every store is (`IsSoundStore`, the invariant of `Store`).
pub fn standing_region()
    ensures { (index : Rows) (window : Pasts) (places : Places) (live last : ℕ)
        → IsSoundStore Limits.STANDING index window places live last → length places ≡ 327_680 }
{}
