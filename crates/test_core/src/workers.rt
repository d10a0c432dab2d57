//! The turns of workers.
ghost use Rattle.std.specs.Prelude.{◌≡◌, ◌^◌, ◌<◌, ◌≤◌, None, Some, IfSome, IsTrue, option_map};
ghost use Rattle.kube_meta.specs.Plan.{running};
ghost use Rattle.migrate_core.specs.Moves.{work_of};
ghost use Rattle.record_store.specs.ByKey.{find};
ghost use Rattle.record_store.specs.View.{item_key};
ghost use Rattle.api_core.specs.Prepared.{FitsAt, IsSized, seen_item};
ghost use Rattle.api_core.specs.Ready.{IfPrepare, IsNext};

use crate::order::Order;
use crate::turns::{prepared_again, value, young};
use api_calls::Versions;
use api_core::{Core, Prepared, Seen, TurnEnd};
use kube_meta::Key;
use migrate_core::Worker;
use std::alloc::Global;

/// The last claim's number is far from its bound.
fn few_claims<V: Versions>(core: &Core<V>) -> bool
    ensures { IsTrue result → core.now.view.migrations.plan.last < 2 ^ 61 }
{
    core.last_claim() < 1_000_000
}

// Both numbers are far from their bounds.
fn far<V: Versions>(core: &Core<V>) -> bool
    ensures few { IsTrue result → core.now.view.revision ≤ 2 ^ 61 }
    ensures claims { IsTrue result → core.now.view.migrations.plan.last < 2 ^ 61 }
{
    young(core) && few_claims(core)
}

/// A call with nothing prepared.
pub fn ask<V: Versions>(core: &mut Core<V>, w: &mut Worker) -> Option<TurnEnd>
    ensures { IfSome result (λ end. IfPrepare end (λ k. IsNext (work_of w.new.claim core.new.view.migrations) k
        core.new.view.store.items (find item_key k core.new.view.store.items))) }
{
    if !far(core) {
        return None;
    }
    Some(core.migration_turn(w, None))
}

// A call with what was prepared of an object that stood at a number. Nothing is said of its end, so that its clauses end here.
fn turned<V: Versions>(core: &mut Core<V>, w: &mut Worker, rv: u64, ready: Prepared) -> TurnEnd
    requires few { core.old.view.revision ≤ 2 ^ 61 }
    requires claims { core.old.view.migrations.plan.last < 2 ^ 61 }
    requires sized { IsSized ready }
    requires fits { FitsAt ready.key rv ready (find item_key ready.key core.old.view.store.items) }
    requires next { IsNext (work_of w.old.claim core.old.view.migrations) ready.key
        core.old.view.store.items (find item_key ready.key core.old.view.store.items) }
{
    core.migration_turn(w, Some((rv, ready)))
}

// A call with the object of a key, which the last call told, prepared for a version. Its text stays.
fn touch<V: Versions>(
    alloc: Global,
    core: &mut Core<V>,
    w: &mut Worker,
    key: &Key,
    rv: u64,
    at: u8,
) -> Option<TurnEnd>
    requires { IsNext (work_of w.old.claim core.old.view.migrations) key.now
        core.old.view.store.items (find item_key key.now core.old.view.store.items) }
{
    if !far(core) {
        return None;
    }
    match moved_under(alloc, core, key, at) {
        Some(moved) => Some(turned(core, w, rv, moved)),
        None => None,
    }
}

// What stands under a key.
fn standing<V: Versions>(alloc: Global, core: &Core<V>, key: &Key) -> Option<Seen>
    ensures { IfSome result (λ s. Some (seen_item s) ≡ find item_key key.now core.now.view.store.items) }
{
    match core.peek(alloc, key) {
        Ok(peeked) => peeked.found,
        Err(_) => None,
    }
}

// The number and the version of what stands under a key.
fn written_at<V: Versions>(alloc: Global, core: &Core<V>, key: &Key) -> Option<(u64, u8)>
    ensures { IfSome result (λ r. IfSome (find item_key key.now core.now.view.store.items) (λ x. (x.rv ≡ r.0) × (x.at ≡ r.1))) }
{
    match standing(alloc, core, key) {
        Some(seen) => Some((seen.rv, seen.at)),
        None => None,
    }
}

// What stands under a key, prepared for a version.
fn moved_under<V: Versions>(alloc: Global, core: &Core<V>, key: &Key, at: u8) -> Option<Prepared>
    ensures sized { IfSome result IsSized }
    ensures key { IfSome result (λ p. p.key ≡ key.now) }
    ensures weight { IfSome result (λ p. Some p.weight ≡ option_map (λ x. x.weight) (find item_key key.now core.now.view.store.items)) }
{
    match standing(alloc, core, key) {
        Some(seen) => prepared_again(alloc, key, at, seen.bytes.as_str(), seen.weight),
        None => None,
    }
}

// Whether nothing stands under a key, as far as there is memory to look.
fn is_gone<V: Versions>(alloc: Global, core: &Core<V>, key: &Key) -> bool
    ensures { IsTrue result → find item_key key.now core.now.view.store.items ≡ None }
{
    match core.peek(alloc, key) {
        Ok(peeked) => peeked.found.is_none(),
        Err(_) => false,
    }
}

/// A worker's turn, whose objects are prepared for a version. Where it tells an object to prepare, it goes on to a second
/// call.
pub fn work<V: Versions>(
    alloc: Global,
    core: &mut Core<V>,
    w: &mut Worker,
    at: u8,
) -> Option<TurnEnd> {
    match ask(core, w) {
        Some(TurnEnd::Prepare { key, rv }) => match key.key(alloc) {
            Ok(key) => touch(alloc, core, w, &key, rv, at),
            Err(_) => None,
        },
        end => end,
    }
}

/// A call with the object of a name prepared as it stood at a number, which is gone now.
pub fn gone<V: Versions>(
    alloc: Global,
    core: &mut Core<V>,
    w: &mut Worker,
    order: &Order<'_>,
) -> Option<TurnEnd> {
    if !far(core) {
        return None;
    }
    match value(alloc, order) {
        Some(old) => {
            if is_gone(alloc, core, &old.key) {
                Some(turned(core, w, order.number, old))
            } else {
                None
            }
        }
        None => None,
    }
}

// The target of the only migration.
fn target_of<V: Versions>(alloc: Global, core: &Core<V>) -> Option<u8>
    ensures { IfSome result (λ v. IfSome (running core.now.view.migrations.items) (λ m. m.target ≡ v)) }
{
    match core.migrations(alloc) {
        Ok(items) => match items.as_slice() {
            [item] => Some(item.target()),
            _ => None,
        },
        Err(_) => None,
    }
}

/// A call with the object of a name prepared as it stood at a number, which a client has written at the target since.
pub fn overwritten<V: Versions>(
    alloc: Global,
    core: &mut Core<V>,
    w: &mut Worker,
    order: &Order<'_>,
) -> Option<TurnEnd> {
    if !far(core) {
        return None;
    }
    let Some(target) = target_of(alloc, core) else {
        return None;
    };
    match value(alloc, order) {
        Some(old) => match written_at(alloc, core, &old.key) {
            Some((rv, at)) => {
                if rv == order.number || at != target {
                    None
                } else {
                    Some(turned(core, w, order.number, old))
                }
            }
            None => None,
        },
        None => None,
    }
}

/// The worker's claim is given back. Answers whether it was held.
pub fn back<V: Versions>(core: &mut Core<V>, w: &mut Worker) -> bool {
    core.give_back(w)
}
