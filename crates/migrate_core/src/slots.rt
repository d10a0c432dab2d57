//! The slots of a plan.
ghost use Rattle.std.specs.Prelude.{◌≡◌, ◌<◌, IfSome, length, not, replicate};
ghost use Rattle.std.specs.List.{list_any, position_from};
ghost use Rattle.std.specs.Option.{option_copied};
ghost use Rattle.kube_meta.specs.Plan.{Free, Held, Loose, After, changed, span_of, hold_loose as loose_held, hold_free as free_held, is_free, is_loose};
ghost use Rattle.migrate_core.specs.inner.Slots.{is_held_by};

use crate::bound::KeyRange;
use crate::slot::ClaimSlot;
use kube_meta::KeySpot;

/// The place of the slot that a claim holds.
fn place_of(slots: &[ClaimSlot], claim: u64) -> Option<usize>
    ensures first { result ≡ position_from (is_held_by claim) 0 slots.now }
    ensures within { IfSome result (λ i. i < length slots.now) }
{
    slots.iter().position(|slot| slot.is_held_by(claim))
}

/// The place of the first slot that is loose.
fn loose_place(slots: &[ClaimSlot]) -> Option<usize>
    ensures first { result ≡ position_from is_loose 0 slots.now }
    ensures within { IfSome result (λ i. i < length slots.now) }
{
    slots.iter().position(|slot| slot.is_loose())
}

/// The place of the first slot that is free.
fn free_place(slots: &[ClaimSlot]) -> Option<usize>
    ensures first { result ≡ position_from is_free 0 slots.now }
    ensures within { IfSome result (λ i. i < length slots.now) }
{
    slots.iter().position(|slot| slot.is_free())
}

/// The range of a claim that is held.
pub(crate) fn range_of(slots: &[ClaimSlot], claim: u64) -> Option<&KeyRange>
    ensures { option_copied result ≡ span_of claim slots.now }
{
    let Some(place) = place_of(slots, claim) else {
        return None;
    };
    slots[place].held_range()
}

/// A claim is given back.
pub(crate) fn loosen(slots: &mut [ClaimSlot], claim: u64)
    ensures { slots.new ≡ changed (λ r. Loose r) claim slots.old }
{
    if let Some(place) = place_of(slots, claim) {
        slots[place].loosen();
    }
}

/// A claim is done.
pub(crate) fn clear(slots: &mut [ClaimSlot], claim: u64)
    ensures { slots.new ≡ changed (λ r. Free) claim slots.old }
{
    if let Some(place) = place_of(slots, claim) {
        slots[place].clear();
    }
}

/// The range of a claim begins behind the key.
pub(crate) fn pass(slots: &mut [ClaimSlot], claim: u64, key: KeySpot)
    ensures { slots.new ≡ changed (λ r. Held claim (record r { after = After key })) claim slots.old }
{
    if let Some(place) = place_of(slots, claim) {
        slots[place].pass(claim, key);
    }
}

/// The loose slot of least place is held by the claim. Answers whether there was one.
pub(crate) fn hold_loose(slots: &mut [ClaimSlot], claim: u64) -> bool
    ensures slots { slots.new ≡ loose_held claim slots.old }
    ensures was { result ≡ list_any is_loose slots.old }
{
    let Some(place) = loose_place(slots) else {
        return false;
    };
    slots[place].hold(claim);
    true
}

/// Whether a slot is free.
pub(crate) fn has_free(slots: &[ClaimSlot]) -> bool
    ensures { result ≡ list_any is_free slots.now }
{
    slots.iter().any(|slot| slot.is_free())
}

/// The free slot of least place is held by the claim, with this range.
pub(crate) fn hold_free(slots: &mut [ClaimSlot], claim: u64, range: KeyRange)
    ensures { slots.new ≡ free_held claim range slots.old }
{
    if let Some(place) = free_place(slots) {
        slots[place].take(claim, range);
    }
}

/// Whether every slot is free.
pub(crate) fn all_free(slots: &[ClaimSlot]) -> bool
    ensures { result ≡ not (list_any (λ s. not (is_free s)) slots.now) }
{
    for slot in slots {
        if !slot.is_free() {
            return false;
        }
    }
    true
}

/// Every slot is free.
pub(crate) fn clear_all(slots: &mut [ClaimSlot])
    ensures { slots.new ≡ replicate (length slots.old) Free }
{
    for slot in slots.iter_mut() {
        *slot = ClaimSlot::free();
    }
}
