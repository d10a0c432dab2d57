//! What a form is kept under, and what it is looked for by.
ghost use Rattle.std.specs.Prelude.{◌≡◌, ◌++◌, ⊤, fold};
ghost use Rattle.std.proofs.Common.{rules};
ghost use Rattle.std.specs.Cmp.Rules.{comparing};
ghost use Rattle.form_cache.specs.Forms.{same_form};
ghost use Rattle.form_cache.specs.Same.{fed_form, fed_alike, same_congr};

use kube_meta::Key;
use std::alloc::AllocError;
use std::collections::hash_map::Equivalent;
use std::hash::{Hash, Hasher};

/// The name of a form: the key of its object, the number at which the object stood, and the place of the version at which it
/// is shown.
pub struct FormName {
    pub(crate) key: Key,
    pub(crate) number: u64,
    pub(crate) version: u8,
}

impl Drop for FormName {
    fn drop(self) {
        let FormName {
            key: _,
            number: _,
            version: _,
        } = self;
    }
}

impl PartialEq for FormName {
    ghost eq = { λ a b. same_form a.key a.number a.version b.key b.number b.version };

    ghost laws = { Prim.search (comparing, rules) };

    fn eq(&self, other: &FormName) -> bool {
        is_same(&self.key, self.number, self.version, other)
    }
}

impl Eq for FormName {
    ghost laws = { Prim.search (comparing, rules) };
}

impl Hash for FormName {
    ghost hash_input = { λ a. fed_form a.key a.number a.version };

    ghost respects_eq = { λ a b h. fed_alike a.key a.number a.version b.key b.number b.version h };

    fn hash<H: Hasher>(&self, state: &mut H) {
        feed(&self.key, self.number, self.version, state);
    }
}

/// The name that a form is looked for by: the same, with the key lent, so that looking takes no memory.
pub(crate) struct Sought<'a> {
    pub(crate) key: &'a Key,
    pub(crate) number: u64,
    pub(crate) version: u8,
}

impl Clone for Sought<'_> {
    ghost is_clone = { λ a b. b ≡ a };

    ghost is_infallible = { λ _. ⊤ };

    fn clone(&self) -> Result<Self, AllocError> {
        Ok(*self)
    }
}

impl Copy for Sought<'_> {}

impl PartialEq for Sought<'_> {
    ghost eq = { λ a b. same_form a.key.now a.number a.version b.key.now b.number b.version };

    ghost laws = { Prim.search (comparing, rules) };

    fn eq(&self, other: &Self) -> bool {
        are_same(
            self.key,
            self.number,
            self.version,
            other.key,
            other.number,
            other.version,
        )
    }
}

impl Eq for Sought<'_> {
    ghost laws = { Prim.search (comparing, rules) };
}

impl Hash for Sought<'_> {
    ghost hash_input = { λ a. fed_form a.key.now a.number a.version };

    ghost respects_eq = { λ a b h. fed_alike a.key.now a.number a.version b.key.now b.number b.version h };

    fn hash<H: Hasher>(&self, state: &mut H) {
        feed(self.key, self.number, self.version, state);
    }
}

impl Equivalent<FormName> for Sought<'_> {
    ghost equivalent = { λ q a. same_form q.key.now q.number q.version a.key a.number a.version };

    ghost respects_hash = { λ q a h. fed_alike q.key.now q.number q.version a.key a.number a.version h };

    ghost respects_eq = { λ q a b h. same_congr q.key.now q.number q.version a.key a.number a.version b.key b.number b.version h };

    fn equivalent(&self, key: &FormName) -> bool {
        is_same(self.key, self.number, self.version, key)
    }
}

fn is_same(key: &Key, number: u64, version: u8, name: &FormName) -> bool
    ensures { result ≡ same_form key.now number version name.now.key name.now.number name.now.version }
{
    are_same(key, number, version, &name.key, name.number, name.version)
}

// The numbers are compared first, since they tell most names apart.
fn are_same(
    key: &Key,
    number: u64,
    version: u8,
    other_key: &Key,
    other_number: u64,
    other_version: u8,
) -> bool
    ensures { result ≡ same_form key.now number version other_key.now other_number other_version }
{
    number == other_number
        && version == other_version
        && key.name() == other_key.name()
        && key.ns() == other_key.ns()
}

fn feed<H: Hasher>(key: &Key, number: u64, version: u8, state: &mut H)
    ensures { state.new ≡ fold H.write state.old (fed_form key.now number version) }
{
    number.hash(state);
    version.hash(state);
    key.name().hash(state);
    key.ns().hash(state);
}
