//! A key: the namespace and the name of an object.
ghost use Rattle.std.specs.Prelude.{◌≡◌, ◌≤◌, length, IfOk};
ghost use Rattle.kube_meta.specs.Key.{key_cmp};

use kj_value::{NoMemory, Txt};
use std::alloc::Global;
use std::cmp::Ordering;
use std::marker::Model;
use std::sync::Arc;

/// The most bytes of a namespace: a label of RFC 1123.
pub const NAMESPACE_BYTES: usize = 63;

/// The most bytes of a name: a subdomain name of RFC 1123.
pub const NAME_BYTES: usize = 253;

// What a key holds.
#[derive(Drop)]
struct Parts {
    ns: Txt,
    name: Txt,
}

/// The namespace and the name of an object, each within its bound in bytes. It is as wide as a pointer, so that lists of things
/// with keys move little. It never changes, and whoever shares it has the same memory.
pub struct Key {
    parts: Arc<Parts>,
}

impl Drop for Key {
    fn drop(self) {
        let Key { parts: _ } = self;
    }
}

impl Model for Key {
    ghost use Rattle.std.specs.Prelude.{◌≤◌, length};
    ghost use Rattle.std.specs.Arc.{arc_value};
    ghost use Rattle.kube_meta.specs.Key.{KeyView};
    ghost use Rattle.kube_meta.specs.declared.key.TheConstants.{NAMESPACE_BYTES, NAME_BYTES};

    ghost Value = { KeyView };

    ghost view = { λ k. record { ns = (arc_value k.parts).ns.bytes; name = (arc_value k.parts).name.bytes } };

    ghost invariant = { λ k. (length (arc_value k.parts).ns.bytes ≤ NAMESPACE_BYTES) × (length (arc_value k.parts).name.bytes ≤ NAME_BYTES) };
}

impl Key {
    ghost use Rattle.kube_meta.specs.Key.{KeyView};

    /// A key that holds copies of both texts.
    pub fn of(alloc: Global, ns: &str, name: &str) -> Result<Key, NoMemory>
        requires ns_fits { length ns.now ≤ NAMESPACE_BYTES }
        requires name_fits { length name.now ≤ NAME_BYTES }
        ensures ns { IfOk result (λ k. k.ns ≡ ns.now) }
        ensures name { IfOk result (λ k. k.name ≡ name.now) }
    {
        let ns = Txt::of(alloc, ns)?;
        let name = Txt::of(alloc, name)?;
        let parts = Arc::new(alloc, Parts { ns, name })?;
        Ok(Key { parts })
    }

    /// The same key once more, in the same memory. It takes none: `NoMemory` comes only where the count of those who share it is full.
    pub fn shared(&self) -> Result<Key, NoMemory>
        ensures { IfOk result (λ k. k ≡ self.now) }
    {
        let parts = Arc::try_clone(&self.parts)?;
        Ok(Key { parts })
    }

    /// The namespace.
    pub fn ns(&self) -> &str
        ensures value { result.now ≡ self.now.ns }
        ensures fits { length self.now.ns ≤ NAMESPACE_BYTES }
    {
        self.parts.ns.as_str()
    }

    /// The name in the namespace.
    pub fn name(&self) -> &str
        ensures value { result.now ≡ self.now.name }
        ensures fits { length self.now.name ≤ NAME_BYTES }
    {
        self.parts.name.as_str()
    }

    /// How the key stands to another: by namespace, then by name, each by bytes. It takes no memory.
    pub fn compare(&self, other: &Key) -> Ordering
        ensures { result ≡ key_cmp self.now other.now }
    {
        self.compare_with(other.ns(), other.name())
    }

    /// How the key stands to the key of this namespace and name. It takes no memory.
    pub fn compare_with(&self, ns: &str, name: &str) -> Ordering
        ensures { result ≡ key_cmp self.now (record { ns = ns.now; name = name.now }) }
    {
        match self.parts.ns.as_str().cmp(ns) {
            Ordering::Less => Ordering::Less,
            Ordering::Equal => self.parts.name.as_str().cmp(name),
            Ordering::Greater => Ordering::Greater,
        }
    }
}
