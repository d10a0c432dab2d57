//! Turns of clients and of whoever changes the settings. They know of `Versions` alone, so that what the definition means
//! stays outside their proofs, and they tell their callers nothing.
ghost use Rattle.std.specs.Prelude.{◌≡◌, ◌^◌, ◌≤◌, Some, IfSome, IsTrue, option_map};
ghost use Rattle.record_store.specs.ByKey.{find};
ghost use Rattle.record_store.specs.View.{item_key};
ghost use Rattle.api_core.specs.Prepared.{IsSized};

use crate::order::Order;
use api_calls::{Flags, StoredList, Versions};
use api_core::{Core, CreateEnd, DeleteEnd, Prepared, ReleaseEnd, ReplaceEnd, SetEnd, TrimEnd};
use kj_value::Txt;
use kube_meta::{Key, Limits, name_ok};
use migrate_core::StartEnd;
use std::alloc::Global;
use std::sync::Arc;

/// A core that nothing has happened to.
pub fn opened<V: Versions + Drop>(alloc: Global, versions: V, limits: Limits) -> Option<Core<V>> {
    if limits.chunks >= 10_000 || limits.window_chunks >= 10_000 {
        return None;
    }
    match Arc::new(alloc, versions) {
        Ok(versions) => Core::open(alloc, versions, limits, 7).ok(),
        Err(_) => None,
    }
}

/// The revision is far from its bound.
pub fn young<V: Versions>(core: &Core<V>) -> bool
    ensures { IsTrue result → core.now.view.revision ≤ 2 ^ 61 }
{
    let (_flags, _stored, revision) = core.settings();
    revision < 1_000_000
}

/// The key of a name.
pub fn key_of(alloc: Global, name: &str) -> Option<Key> {
    if name.len() > 253 {
        return None;
    }
    Key::of(alloc, "default", name).ok()
}

/// What an order has prepared.
pub fn value(alloc: Global, order: &Order<'_>) -> Option<Prepared>
    ensures { IfSome result IsSized }
{
    match key_of(alloc, order.name) {
        Some(key) => prepared(alloc, key, order.at, order.text, order.weight),
        None => None,
    }
}

/// A text that was prepared for a version, of this weight.
pub fn prepared(alloc: Global, key: Key, at: u8, text: &str, weight: u64) -> Option<Prepared>
    ensures sized { IfSome result IsSized }
    ensures key { IfSome result (λ p. p.key ≡ key) }
    ensures weight { IfSome result (λ p. p.weight ≡ weight) }
{
    if weight < 1 || text.len() > 256 {
        return None;
    }
    match Txt::of(alloc, text) {
        Ok(bytes) => Some(Prepared {
            key,
            at,
            bytes,
            weight,
        }),
        Err(_) => None,
    }
}

/// Creates the object of a name.
pub fn create<V: Versions>(
    alloc: Global,
    core: &mut Core<V>,
    order: &Order<'_>,
) -> Option<CreateEnd> {
    if !young(core) {
        return None;
    }
    match value(alloc, order) {
        Some(new) => Some(core.commit_create(order.asked, new)),
        None => None,
    }
}

/// Replaces the object of a name.
pub fn replace<V: Versions>(
    alloc: Global,
    core: &mut Core<V>,
    order: &Order<'_>,
) -> Option<ReplaceEnd> {
    if !young(core) {
        return None;
    }
    match value(alloc, order) {
        Some(new) => Some(core.commit_replace(order.asked, order.number, new)),
        None => None,
    }
}

/// Deletes the object of a name, which has no finalizer.
pub fn delete<V: Versions>(
    alloc: Global,
    core: &mut Core<V>,
    order: &Order<'_>,
) -> Option<DeleteEnd> {
    if !young(core) {
        return None;
    }
    match key_of(alloc, order.name) {
        Some(key) => Some(core.commit_delete(order.asked, &key, order.number, None)),
        None => None,
    }
}

/// Deletes the object of a name, which has a finalizer: the text `stamped` was prepared for a version, where an object
/// stands there.
pub fn mark<V: Versions>(
    alloc: Global,
    core: &mut Core<V>,
    order: &Order<'_>,
) -> Option<DeleteEnd> {
    if !young(core) {
        return None;
    }
    match key_of(alloc, order.name) {
        Some(key) => mark_under(alloc, core, &key, order),
        None => None,
    }
}

// The same of the object of a key.
fn mark_under<V: Versions>(
    alloc: Global,
    core: &mut Core<V>,
    key: &Key,
    order: &Order<'_>,
) -> Option<DeleteEnd>
    requires { core.old.view.revision ≤ 2 ^ 61 }
{
    match weight_of(alloc, core, key) {
        Some(Some(weight)) => marked(alloc, core, key, order, weight),
        Some(None) => Some(DeleteEnd::NotFound),
        None => None,
    }
}

// The same of an object of this weight.
fn marked<V: Versions>(
    alloc: Global,
    core: &mut Core<V>,
    key: &Key,
    order: &Order<'_>,
    weight: u64,
) -> Option<DeleteEnd>
    requires few { core.old.view.revision ≤ 2 ^ 61 }
    requires weight { Some weight ≡ option_map (λ x. x.weight) (find item_key key.now core.old.view.store.items) }
{
    match prepared_again(alloc, key, order.at, "stamped", weight) {
        Some(stamped) => Some(core.commit_delete(order.asked, key, order.number, Some(stamped))),
        None => None,
    }
}

/// A text that was prepared for a version, of this weight, under the same key once more.
pub fn prepared_again(alloc: Global, key: &Key, at: u8, text: &str, weight: u64) -> Option<Prepared>
    ensures sized { IfSome result IsSized }
    ensures key { IfSome result (λ p. p.key ≡ key.now) }
    ensures weight { IfSome result (λ p. p.weight ≡ weight) }
{
    match key.shared() {
        Ok(key) => prepared(alloc, key, at, text, weight),
        Err(_) => None,
    }
}

// The weight of the object of a key, where one stands.
fn weight_of<V: Versions>(alloc: Global, core: &Core<V>, key: &Key) -> Option<Option<u64>>
    ensures { IfSome result (λ w. w ≡ option_map (λ x. x.weight) (find item_key key.now core.now.view.store.items)) }
{
    match core.peek(alloc, key) {
        Ok(peeked) => match peeked.found {
            Some(seen) => Some(Some(seen.weight)),
            None => Some(None),
        },
        Err(_) => None,
    }
}

/// Removes the object of a name, which is being deleted.
pub fn let_go<V: Versions>(
    alloc: Global,
    core: &mut Core<V>,
    order: &Order<'_>,
) -> Option<ReleaseEnd> {
    if !young(core) {
        return None;
    }
    match key_of(alloc, order.name) {
        Some(key) => Some(core.commit_release(order.asked, &key, order.number)),
        None => None,
    }
}

/// Stores one of the first two versions from now on.
pub fn store<V: Versions>(core: &mut Core<V>, v: u8) -> Option<SetEnd> {
    if !young(core) || v >= 2 {
        return None;
    }
    let (flags, _stored, _revision) = core.settings();
    let served = flags.served;
    Some(core.set_versions(Flags { served, storage: v }))
}

/// Keeps one version in the stored list.
pub fn keep<V: Versions>(core: &mut Core<V>, v: u8) -> Option<TrimEnd> {
    if !young(core) {
        return None;
    }
    Some(core.trim(&StoredList {
        len: 1,
        items: [v, 0, 0, 0, 0, 0, 0, 0],
    }))
}

/// Starts a migration.
pub fn begin<V: Versions>(alloc: Global, core: &mut Core<V>, name: &str) -> Option<StartEnd> {
    if !young(core) || !name_ok(name) {
        return None;
    }
    match Txt::of(alloc, name) {
        Ok(name) => Some(core.start_migration(name)),
        Err(_) => None,
    }
}
