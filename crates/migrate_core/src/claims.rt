//! How a claim is taken.
ghost use Rattle.std.specs.Prelude.{◌≡◌, ◌&&◌, not, if◌then◌else◌};
ghost use Rattle.std.specs.List.{list_any};
ghost use Rattle.kube_meta.specs.Plan.{claimed, hold_free as free_held, is_end, is_free, may_claim, next_bound};
ghost use Rattle.migrate_core.specs.Rows.{keys};
ghost use Rattle.migrate_core.specs.inner.Slots.{plan_of};

use crate::bound::{KeyBound, KeyRange};
use crate::records::{Records, range_end};
use crate::slot::ClaimSlot;
use crate::slots::{has_free, hold_free, hold_loose};

/// The loose slot of least place is held by the claim, else a free one with a range of the next keys. Answers whether
/// there was one.
pub(crate) fn hold<R: Records>(
    cursor: &mut KeyBound,
    slots: &mut [ClaimSlot],
    claim: u64,
    records: &R,
) -> bool
    ensures was { result ≡ may_claim (plan_of cursor.old slots.old claim) }
    ensures cursor { cursor.new ≡ (if result then (claimed claim (keys (R.rows records.now)) (plan_of cursor.old slots.old claim)).cursor else cursor.old) }
    ensures slots { slots.new ≡ (if result then (claimed claim (keys (R.rows records.now)) (plan_of cursor.old slots.old claim)).slots else slots.old) }
{
    if hold_loose(slots, claim) {
        return true;
    }
    hold_next(cursor, slots, claim, records)
}

// The free slot of least place is held by the claim, with a range of the next keys. Answers whether keys were left and
// there was one.
fn hold_next<R: Records>(
    cursor: &mut KeyBound,
    slots: &mut [ClaimSlot],
    claim: u64,
    records: &R,
) -> bool
    ensures was { result ≡ (not (is_end cursor.old) && list_any is_free slots.old) }
    ensures cursor { cursor.new ≡ (if result then next_bound cursor.old (keys (R.rows records.now)) else cursor.old) }
    ensures slots { slots.new ≡ (if result then free_held claim (record { after = cursor.old; upto = next_bound cursor.old (keys (R.rows records.now)) }) slots.old
        else slots.old) }
{
    if cursor.is_end() {
        return false;
    }
    if !has_free(slots) {
        return false;
    }
    let end = range_end(records, cursor);
    let range = KeyRange {
        after: cursor.again(),
        upto: end.again(),
    };
    hold_free(slots, claim, range);
    *cursor = end;
    true
}
