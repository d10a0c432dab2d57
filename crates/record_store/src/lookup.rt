//! Look-ups by key.
ghost use Rattle.std.specs.Prelude.{◌≡◌, ◌<◌, ◌^◌, map};
ghost use Rattle.kube_meta.specs.Key.{KeyView, key_cmp};
ghost use Rattle.record_store.specs.ByKey.{KeysRise, place, place_behind};

use kube_meta::Key;
use std::cmp::Ordering;

/// What has a key, in a list that is sorted by key.
pub trait Keyed {
    ghost key_of: { Self → KeyView };

    /// The key. It takes no memory.
    fn key(&self) -> &Key
        ensures { result.now ≡ key_of self.now };
}

/// How many keys are at or before the one whose place this is.
pub fn place_behind(place: Result<usize, usize>) -> usize
    requires { place_behind place < 2 ^ 64 }
    ensures { result ≡ place_behind place }
{
    match place {
        Ok(i) => i + 1,
        Err(i) => i,
    }
}

/// Where the key of this namespace and name stands among things whose keys strictly rise, or else
/// where it would go. It takes no memory.
pub fn seek<K: Keyed>(items: &[K], ns: &str, name: &str) -> Result<usize, usize>
    requires { KeysRise (map K.Keyed.key_of items.now) }
    ensures { result ≡ place (record { ns = ns.now; name = name.now }) (map K.Keyed.key_of items.now) }
{
    items.binary_search_by(
        |x: &K| -> Ordering
            ensures { result ≡ key_cmp (K.Keyed.key_of x.now) (record { ns = ns.entry.now; name = name.entry.now }) }
        { x.key().compare_with(ns, name) },
    )
}
