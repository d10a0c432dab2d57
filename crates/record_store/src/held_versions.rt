//! At which of some versions a row's record stands.
ghost use Rattle.std.specs.Prelude.{◌≡◌, ◌<◌, ◌≤◌, ◌++◌, List, IfSome, length, nat_eq, position, take};
ghost use Rattle.std.specs.Option.{option_or};
ghost use Rattle.record_store.specs.Rows.{row_key};
ghost use Rattle.record_store.specs.Standing.{first_held, row_at};
ghost use Rattle.record_store.specs.declared.row.Row.{Row as RowView};

use crate::index::Index;
use crate::row::Row;
use kube_meta::KeySpot;

fn place_of(versions: &[u8], v: u8) -> Option<usize>
    ensures place { result ≡ position (λ x. nat_eq x v) versions.now }
    ensures inside { IfSome result (λ i. i < length versions.now) }
{
    versions.iter().position(|x| *x == v)
}

/// The first of the versions at which a record stands, with the key of the first record there. Each row is looked at
/// once, for the versions before the first that was found so far.
pub(crate) fn first_among(index: &Index, versions: &[u8]) -> Option<(u8, KeySpot)>
    ensures { result ≡ first_held row_at row_key versions.now index.now.rows }
{
    let mut left = versions.len();
    let mut found = None;
    let mut place = 0;
    while place < index.len() {
        let run = index.run(place);
        (left, found) = first_in(run, versions, left, found);
        place += run.len();
    }
    found
}

// The same in some rows, for so many of the versions, where this was found before. It answers how many versions come before
// what is found now, too.
fn first_in(
    rows: &[Row],
    versions: &[u8],
    before: usize,
    best: Option<(u8, KeySpot)>,
) -> (usize, Option<(u8, KeySpot)>)
    requires { before ≤ length versions.now }
    ensures within { result.0 ≤ length versions.now }
    ensures found { (rest : List RowView) → option_or (first_held row_at row_key (take result.0 versions.now) rest) result.1
        ≡ option_or (first_held row_at row_key (take before versions.now) (rows.now ++ rest)) best }
{
    let mut left = before;
    let mut found = best;
    for row in rows {
        if let Some(place) = place_of(&versions[..left], row.record.at) {
            left = place;
            found = Some((row.record.at, row.key.spot()));
        }
    }
    (left, found)
}
