//! Keys and names in fixed places, which take no memory.
ghost use Rattle.std.specs.Prelude.{◌≡◌, ◌≤◌, length, IfOk};
ghost use Rattle.std.specs.Ordering.{nat_cmp};
ghost use Rattle.std.specs.Cmp.Lexicographic.{slice_cmp};
ghost use Rattle.kube_meta.specs.Key.{key_cmp};

use crate::key::{Key, NAME_BYTES, NAMESPACE_BYTES};
use kj_value::{NoMemory, Txt};
use std::alloc::Global;
use std::cmp::Ordering;
use std::marker::Model;

/// A name in a fixed place of 253 bytes. Contracts see it as its bytes.
#[derive(Drop)]
pub struct NameSpot {
    bytes: [u8; NAME_BYTES],
    len: usize,
}

impl Model for NameSpot {
    ghost use Rattle.std.specs.Prelude.{ℕ, List, ◌≤◌, take, IsUtf8};
    ghost use Rattle.kube_meta.specs.declared.key.TheConstants.{NAME_BYTES};

    ghost Value = { List ℕ };

    ghost view = { λ s. take s.len s.bytes };

    ghost invariant = { λ s. (s.len ≤ NAME_BYTES) × IsUtf8 (take s.len s.bytes) };
}

impl NameSpot {
    /// A place that holds a copy of the name. It takes no memory.
    pub fn of(name: &str) -> NameSpot
        requires { length name.now ≤ NAME_BYTES }
        ensures { result ≡ name.now }
    {
        let mut bytes = [0; NAME_BYTES];
        let len = name.len();
        bytes[..len].copy_from_slice(name.as_bytes());
        NameSpot { bytes, len }
    }

    /// The name, lent.
    pub fn as_str(&self) -> &str
        ensures value { result.now ≡ self.now }
        ensures fits { length self.now ≤ NAME_BYTES }
    {
        match str::from_utf8(&self.bytes[..self.len]) {
            Ok(name) => name,
            Err(_) => unreachable!(),
        }
    }

    /// The name, copied.
    pub fn name(&self, alloc: Global) -> Result<Txt, NoMemory>
        ensures { IfOk result (λ t. t.bytes ≡ self.now) }
    {
        Txt::of(alloc, self.as_str())
    }

    /// The same name once more. It takes no memory.
    pub fn again(&self) -> NameSpot
        ensures { result ≡ self.now }
    {
        NameSpot {
            bytes: self.bytes,
            len: self.len,
        }
    }

    /// How the name stands to another, by bytes. It takes no memory.
    pub fn compare(&self, other: &NameSpot) -> Ordering
        ensures { result ≡ slice_cmp nat_cmp self.now other.now }
    {
        self.bytes[..self.len].cmp(&other.bytes[..other.len])
    }
}

/// A key in a fixed place, ordered as keys are. Contracts see it as the key.
#[derive(Drop)]
pub struct KeySpot {
    ns: NameSpot,
    name: NameSpot,
}

impl Model for KeySpot {
    ghost use Rattle.std.specs.Prelude.{◌≤◌, length};
    ghost use Rattle.kube_meta.specs.Key.{KeyView};
    ghost use Rattle.kube_meta.specs.declared.key.TheConstants.{NAMESPACE_BYTES};

    ghost Value = { KeyView };

    ghost view = { λ s. record { ns = s.ns; name = s.name } };

    ghost invariant = { λ s. length s.ns ≤ NAMESPACE_BYTES };
}

impl KeySpot {
    /// The namespace, lent.
    pub fn ns(&self) -> &str
        ensures value { result.now ≡ self.now.ns }
        ensures fits { length self.now.ns ≤ NAMESPACE_BYTES }
    {
        self.ns.as_str()
    }

    /// The name in the namespace, lent.
    pub fn name(&self) -> &str
        ensures value { result.now ≡ self.now.name }
        ensures fits { length self.now.name ≤ NAME_BYTES }
    {
        self.name.as_str()
    }

    /// The key, copied.
    pub fn key(&self, alloc: Global) -> Result<Key, NoMemory>
        ensures { IfOk result (λ k. k ≡ self.now) }
    {
        Key::of(alloc, self.ns(), self.name())
    }

    /// The same key once more. It takes no memory.
    pub fn again(&self) -> KeySpot
        ensures { result ≡ self.now }
    {
        KeySpot {
            ns: self.ns.again(),
            name: self.name.again(),
        }
    }

    /// How the key stands to another: by namespace, then by name, each by bytes. It takes no memory.
    pub fn compare(&self, other: &KeySpot) -> Ordering
        ensures { result ≡ key_cmp self.now other.now }
    {
        self.ns
            .compare(&other.ns)
            .then(self.name.compare(&other.name))
    }
}

impl Key {
    /// The key in a fixed place. It takes no memory.
    pub fn spot(&self) -> KeySpot
        ensures { result ≡ self.now }
    {
        KeySpot {
            ns: NameSpot::of(self.ns()),
            name: NameSpot::of(self.name()),
        }
    }
}
