//! Records by key, as a migration reads them.
ghost use Rattle.std.specs.Prelude.{◌≡◌, List, OnSome};
ghost use Rattle.std.specs.Option.{option_copied};
ghost use Rattle.kube_meta.specs.Page.{bound_after};
ghost use Rattle.kube_meta.specs.Plan.{next_bound};
ghost use Rattle.migrate_core.specs.declared.records.Row.{Row};
ghost use Rattle.migrate_core.specs.Rows.{KeysRise, elsewhere, first_behind as first_row_behind, keys};

use crate::bound::{BoundPlace, KeyBound, KeyRange};
use kube_meta::KeySpot;

/// What is known of a record: its key, the version at which it stands, and its number.
#[derive(Drop)]
pub struct Row {
    pub key: KeySpot,
    pub at: u8,
    pub rv: u64,
}

/// Records by key.
pub trait Records {
    ghost rows: { Self → List Row };

    /// The record of the least key behind this one, or of the least of all. It takes no memory.
    fn next_from(&self, after: Option<&KeySpot>) -> Option<Row>
        ensures next { result ≡ first_row_behind (bound_after (option_copied after.entry)) (rows self.now) }
        ensures order { KeysRise (keys (rows self.now)) };
}

/// The first record behind a bound.
fn first_behind<R: Records>(records: &R, bound: &KeyBound) -> Option<Row>
    ensures next { result ≡ first_row_behind bound.now (R.rows records.now) }
    ensures order { OnSome result (KeysRise (keys (R.rows records.now))) }
{
    match &bound.place {
        BoundPlace::Start => records.next_from(None),
        BoundPlace::After(key) => records.next_from(Some(key)),
        BoundPlace::End => None,
    }
}

/// The first record of a range that stands elsewhere.
pub(crate) fn first_elsewhere<R: Records>(records: &R, range: &KeyRange, target: u8) -> Option<Row>
    ensures { result ≡ elsewhere range.now target (R.rows records.now) }
{
    let mut after = range.after.again();
    while let Some(row) = first_behind(records, &after) {
        if !range.upto.passed(&row.key) {
            return None;
        }
        if row.at != target {
            return Some(row);
        }
        after = KeyBound::after(row.key);
    }
    None
}

/// Where a new range ends that begins behind a bound: with its thirty-second key, if there are more.
pub(crate) fn range_end<R: Records>(records: &R, cursor: &KeyBound) -> KeyBound
    ensures { result ≡ next_bound cursor.now (keys (R.rows records.now)) }
{
    let mut bound = cursor.again();
    for _nth in 0..31u8 {
        let Some(row) = first_behind(records, &bound) else {
            return KeyBound::end();
        };
        bound = KeyBound::after(row.key);
    }
    let Some(last) = first_behind(records, &bound) else {
        return KeyBound::end();
    };
    let end = KeyBound::after(last.key);
    let Some(_more) = first_behind(records, &end) else {
        return KeyBound::end();
    };
    end
}
