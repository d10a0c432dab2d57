//! The order of the objects of a list.
ghost use Rattle.std.specs.Prelude.{◌≡◌, ◌≤◌, ◌+◌, map, length, option_map, None, IfOk, IsTrue};
ghost use Rattle.kj_value.specs.Seen.{json};
ghost use Rattle.kube_meta.specs.Names.{is_name, is_namespace};
ghost use Rattle.wire_client.specs.Keys.{AreKeyed, texts_key};
ghost use Rattle.far_migrate.specs.Pages.{is_behind as is_behind_key, rise_behind as rise_behind_key, goes_on_from, is_empty, last_key, most_objects};

use crate::run::MOST_OBJECTS;
use kj_value::{JVal, NoMemory};
use kube_meta::Key;
use std::alloc::Global;
use std::cmp::Ordering;
use wire_client::{KeyTexts, key_texts};

// Whether a key comes behind the one before it.
fn is_behind(before: Option<KeyTexts<'_>>, key: KeyTexts<'_>) -> bool
    ensures { result ≡ is_behind_key (option_map texts_key before.entry) (texts_key key.entry) }
{
    match before {
        None => true,
        Some(before) => match before.ns.cmp(key.ns) {
            Ordering::Less => true,
            Ordering::Equal => match before.name.cmp(key.name) {
                Ordering::Less => true,
                Ordering::Equal => false,
                Ordering::Greater => false,
            },
            Ordering::Greater => false,
        },
    }
}

// Whether the keys of the objects rise strictly, all behind that one.
fn rise_behind(last: Option<KeyTexts<'_>>, objects: &[JVal]) -> bool
    ensures { result ≡ rise_behind_key (option_map texts_key last.entry) (map json objects.now) }
{
    let mut before = last;
    for i in 0..objects.len() {
        let key = key_texts(&objects[i]);
        if !is_behind(before, key) {
            return false;
        }
        before = Some(key);
    }
    true
}

/// Whether a page of these objects goes on with its list, whose pages so far have that last key and so many objects: their keys rise
/// behind it, there is one where another page follows, and there are at most 1,000,000 in all.
pub fn goes_on(last: Option<KeyTexts<'_>>, listed: u64, objects: &[JVal], token: &str) -> bool
    ensures goes { result ≡ goes_on_from (option_map texts_key last.entry) listed (map json objects.now) token.now }
    ensures few { IsTrue result → listed + length objects.now ≤ most_objects }
{
    if !rise_behind(last, objects) {
        return false;
    }
    if objects.is_empty() && !token.is_empty() {
        return false;
    }
    match listed.checked_add(objects.len() as u64) {
        Some(all) => all <= MOST_OBJECTS,
        None => false,
    }
}

/// A key in memory of its own.
pub(crate) fn copied(alloc: Global, key: KeyTexts<'_>) -> Result<Key, NoMemory>
    requires ns { IsTrue (is_namespace (texts_key key).ns) }
    requires name { IsTrue (is_name (texts_key key).name) }
    ensures { IfOk result (λ k. k ≡ texts_key key.entry) }
{
    Key::of(alloc, key.ns, key.name)
}

/// Whether no page follows the one with this token.
pub fn is_last(token: &str) -> bool
    ensures { result ≡ is_empty token.now }
{
    token.is_empty()
}

/// The key of the last object, in memory of its own, where there is one.
#[tactic(auto, using(crate::proofs::Orders::last_is))]
pub fn last_of(alloc: Global, objects: &[JVal]) -> Result<Option<Key>, NoMemory>
    requires { AreKeyed (map json objects.now) }
    ensures { IfOk result (λ k. k ≡ last_key None (map json objects.now)) }
{
    match objects.last() {
        Some(object) => match copied(alloc, key_texts(object)) {
            Ok(key) => Ok(Some(key)),
            Err(NoMemory) => Err(NoMemory),
        },
        None => Ok(None),
    }
}
