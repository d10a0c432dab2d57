//! The records of a page: those that stood at a number, from the index and from the window, by key.
ghost use Rattle.std.specs.Prelude.{◌≡◌, ◌+◌, ◌<◌, ◌≤◌, ◌^◌, ◌++◌, ◌&&◌, ℕ, List, [], ◌∷◌, None, IfOk, OnOk, drop, length, map, if◌then◌else◌, nat_eq, nat_le, not, option_copied, ◌≢◌, take};
ghost use Rattle.kube_meta.specs.Page.{bound_after, in_namespace, listed};
ghost use Rattle.kube_meta.specs.Plan.{passed};
ghost use Rattle.record_store.specs.ByKey.{KeysRise, put};
ghost use Rattle.record_store.specs.Rows.{row_key};
ghost use Rattle.record_store.specs.declared.row.Row.{Row as RowView};
ghost use Rattle.record_store.specs.Copies.{copied};
ghost use Rattle.record_store.specs.Inside.{AreKept, IsKept, item_of};
ghost use Rattle.record_store.specs.inner.Picked.{ends, merge_into, merged, no_rows, pick_key, rows_in, shown_in, standing, stood, superseded, with_more};

use crate::index::{Index, Stretch};
use crate::lookup::{Keyed, seek};
use crate::past::Past;
use crate::record::StoredRecord;
use crate::row::Row;
use crate::text::copy_text;
use crate::window::Window;
use kj_value::NoMemory;
use kube_meta::Key;
use record_region::Region;
use std::alloc::Global;
use std::cmp::Ordering;

/// A row that may go on a page.
#[derive(Clone, Copy)]
pub(crate) struct Pick<'a> {
    row: &'a Row,
}

impl Keyed for Pick<'_> {
    ghost key_of = { λ p. p.row.now.key };

    fn key(&self) -> &Key {
        &self.row.key
    }
}

/// The window's rows that stood at a number, by key.
pub(crate) fn superseded<'a>(
    alloc: Global,
    window: &'a Window,
    rv: u64,
) -> Result<Vec<Pick<'a>>, NoMemory>
    ensures rows { IfOk result (λ picks. rows_in picks.items ≡ superseded rv window.now.items) }
    ensures order { IfOk result (λ picks. KeysRise (map pick_key picks.items)) }
{
    let mut picks = Vec::new(alloc);
    let mut place = window.len();
    while place > 0 {
        place -= 1;
        let Some(past) = window.get(place) else {
            unreachable!()
        };
        put_stood(&mut picks, past, rv)?;
    }
    Ok(picks)
}

// Puts a row of the window under its key, if it stood at the number.
fn put_stood<'a>(picks: &mut Vec<Pick<'a>>, past: &'a Past, rv: u64) -> Result<(), NoMemory>
    requires { KeysRise (map pick_key picks.old.items) }
    ensures rows { OnOk result (rows_in picks.new.items
        ≡ (if stood rv past.now then put row_key past.now.row (rows_in picks.old.items) else rows_in picks.old.items)) }
    ensures order { OnOk result (KeysRise (map pick_key picks.new.items)) }
{
    if !stood(past, rv) {
        return Ok(());
    }
    put_pick(picks, Pick { row: &past.row })?;
    Ok(())
}

// Puts a row under its key, in place of the one that is there.
fn put_pick<'a>(picks: &mut Vec<Pick<'a>>, pick: Pick<'a>) -> Result<(), NoMemory>
    requires { KeysRise (map pick_key picks.old.items) }
    ensures put { OnOk result (picks.new.items ≡ put pick_key pick.entry picks.old.items) }
    ensures order { OnOk result (KeysRise (map pick_key picks.new.items)) }
{
    match seek(picks.as_slice(), pick.row.key.ns(), pick.row.key.name()) {
        Ok(i) => {
            picks[i] = pick;
            Ok(())
        }
        Err(i) => {
            picks.insert(i, pick)?;
            Ok(())
        }
    }
}

fn stood(past: &Past, rv: u64) -> bool
    ensures { result ≡ stood rv past.now }
{
    past.by > rv && past.row.record.rv <= rv
}

/// The rows of a page, and how many are left behind them.
#[derive(Drop)]
pub(crate) struct Listing<'a> {
    pub(crate) picks: Vec<Pick<'a>>,
    pub(crate) behind: u64,
    limit: u64,
}

/// A page of the rows of a namespace behind a key, of those that stand since a number and those that were
/// superseded since, by key, up to a limit, where limit 0 means none. Rows behind the page are counted, and others aren't looked
/// at.
pub(crate) fn listed<'a>(
    alloc: Global,
    index: &'a Index,
    olds: &[Pick<'a>],
    rv: u64,
    ns: Option<&str>,
    after: Option<&Key>,
    limit: u64,
) -> Result<Listing<'a>, NoMemory>
    requires order { KeysRise (map pick_key olds.now) }
    requires few { length index.now.rows < 2 ^ 32 }
    ensures { IfOk result (λ listing. shown_in listing ≡ with_more limit no_rows
        (listed row_key (option_copied ns.entry) (option_copied after.entry) (merged row_key (standing rv index.now.rows) (rows_in olds.now)))) }
{
    let mut listing = Listing {
        picks: Vec::new(alloc),
        behind: 0,
        limit,
    };
    let olds = among(alloc, olds, ns, after)?;
    let mut from = 0;
    let Stretch {
        from: mut place,
        to,
    } = index.stretch(ns, after);
    while place < to {
        let run = index.run(place);
        let count = run.len().min(to - place);
        from = merge_run(&mut listing, &run[..count], olds.as_slice(), from, rv)?;
        place += count;
    }
    offer_all(&mut listing, olds.as_slice(), from)?;
    Ok(listing)
}

// Those of a namespace behind a key.
fn among<'a>(
    alloc: Global,
    picks: &[Pick<'a>],
    ns: Option<&str>,
    after: Option<&Key>,
) -> Result<Vec<Pick<'a>>, NoMemory>
    ensures { IfOk result (λ left. rows_in left.items ≡ listed row_key (option_copied ns.entry) (option_copied after.entry) (rows_in picks.now)) }
{
    let mut left = Vec::new(alloc);
    for pick in picks {
        keep_asked(&mut left, *pick, ns, after)?;
    }
    Ok(left)
}

fn keep_asked<'a>(
    left: &mut Vec<Pick<'a>>,
    pick: Pick<'a>,
    ns: Option<&str>,
    after: Option<&Key>,
) -> Result<(), NoMemory>
    ensures { OnOk result (rows_in left.new.items
        ≡ rows_in left.old.items ++ listed row_key (option_copied ns.entry) (option_copied after.entry) (pick.entry.row.now ∷ [])) }
{
    if !is_listed(&pick.row.key, ns, after) {
        return Ok(());
    }
    left.push(pick)?;
    Ok(())
}

fn is_listed(key: &Key, ns: Option<&str>, after: Option<&Key>) -> bool
    ensures { result ≡ (in_namespace (option_copied ns.entry) key.now && not (passed (bound_after (option_copied after.entry)) key.now)) }
{
    is_in(key, ns) && is_behind(key, after)
}

fn is_in(key: &Key, ns: Option<&str>) -> bool
    ensures { result ≡ in_namespace (option_copied ns.entry) key.now }
{
    match ns {
        Some(ns) => ns == key.ns(),
        None => true,
    }
}

fn is_behind(key: &Key, after: Option<&Key>) -> bool
    ensures { result ≡ not (passed (bound_after (option_copied after.entry)) key.now) }
{
    match after {
        Some(after) => key.compare(after) == Ordering::Greater,
        None => true,
    }
}

// The same as `merge_standing`, for rows one behind another.
fn merge_run<'a>(
    listing: &mut Listing<'a>,
    rows: &'a [Row],
    olds: &[Pick<'a>],
    from: usize,
    rv: u64,
) -> Result<usize, NoMemory>
    requires from { from ≤ length olds.now }
    requires few { listing.old.behind + length rows.now + length olds.now < 2 ^ 64 + from }
    ensures within { IfOk result (λ next. next ≤ length olds.now) }
    ensures counted { IfOk result (λ next. listing.new.behind + from ≤ listing.old.behind + next + length rows.now) }
    ensures merged { IfOk result (λ next. (rest : List RowView) →
        ends listing.new (merged row_key (standing rv rest) (rows_in (drop next olds.now)))
        ≡ ends listing.old (merged row_key (standing rv (rows.now ++ rest)) (rows_in (drop from olds.now)))) }
{
    let mut next = from;
    for row in rows {
        next = merge_standing(listing, row, olds, next, rv)?;
    }
    Ok(next)
}

// The same as `merge`, for a row that stands since the number, and nothing for another.
fn merge_standing<'a>(
    listing: &mut Listing<'a>,
    row: &'a Row,
    olds: &[Pick<'a>],
    from: usize,
    rv: u64,
) -> Result<usize, NoMemory>
    requires from { from ≤ length olds.now }
    requires few { listing.old.behind + length olds.now + 1 < 2 ^ 64 + from }
    ensures within { IfOk result (λ next. next ≤ length olds.now) }
    ensures counted { IfOk result (λ next. listing.new.behind + from ≤ listing.old.behind + next + 1) }
    ensures merged { IfOk result (λ next. (rest : List RowView) →
        ends listing.new (merged row_key (standing rv rest) (rows_in (drop next olds.now)))
        ≡ ends listing.old (merged row_key (standing rv (row.now ∷ rest)) (rows_in (drop from olds.now)))) }
{
    if !stands(row, rv) {
        return Ok(from);
    }
    let next = merge(listing, row, olds, from)?;
    Ok(next)
}

fn stands(row: &Row, rv: u64) -> bool
    ensures { result ≡ nat_le row.now.record.rv rv }
{
    row.record.rv <= rv
}

// Offers a row, and before it the older ones from a place on that go before it. One under its key goes
// in its place. It answers the place of those behind.
fn merge<'a>(
    listing: &mut Listing<'a>,
    row: &'a Row,
    olds: &[Pick<'a>],
    from: usize,
) -> Result<usize, NoMemory>
    requires from { from ≤ length olds.now }
    requires few { listing.old.behind + length olds.now + 1 < 2 ^ 64 + from }
    ensures within { IfOk result (λ next. next ≤ length olds.now) }
    ensures counted { IfOk result (λ next. listing.new.behind + from ≤ listing.old.behind + next + 1) }
    ensures merged { IfOk result (λ next. (rest : List RowView → List RowView) →
        ends listing.new (rest (rows_in (drop next olds.now)))
        ≡ ends listing.old (merge_into row_key row.now rest (rows_in (drop from olds.now)))) }
{
    for place in from..olds.len() {
        let old = olds[place];
        match old.row.key.compare(&row.key) {
            Ordering::Less => offer(listing, old)?,
            Ordering::Equal => {
                offer(listing, old)?;
                return Ok(place + 1);
            }
            Ordering::Greater => {
                offer(listing, Pick { row })?;
                return Ok(place);
            }
        }
    }
    offer(listing, Pick { row })?;
    Ok(olds.len())
}

fn offer_all<'a>(listing: &mut Listing<'a>, olds: &[Pick<'a>], from: usize) -> Result<(), NoMemory>
    requires from { from ≤ length olds.now }
    requires few { listing.old.behind + length olds.now + 1 < 2 ^ 64 + from }
    ensures { OnOk result (ends listing.new [] ≡ ends listing.old (rows_in (drop from olds.now))) }
{
    for place in from..olds.len() {
        offer(listing, olds[place])?;
    }
    Ok(())
}

// Adds a row, or counts it where the page is full.
fn offer<'a>(listing: &mut Listing<'a>, pick: Pick<'a>) -> Result<(), NoMemory>
    requires few { listing.old.behind + 1 < 2 ^ 64 }
    ensures counted { OnOk result (listing.new.behind ≤ listing.old.behind + 1) }
    ensures offered { OnOk result ((rest : List RowView) → ends listing.new rest
        ≡ ends listing.old (pick.entry.row.now ∷ rest)) }
{
    if is_full(listing) {
        listing.behind += 1;
        return Ok(());
    }
    listing.picks.push(pick)?;
    Ok(())
}

fn is_full(listing: &Listing) -> bool
    ensures { result ≡ (not (nat_eq listing.now.limit 0) && nat_le listing.now.limit (length listing.now.picks.items)) }
{
    listing.limit != 0 && listing.limit <= listing.picks.len() as u64
}

/// How many of these a page shows. Limit 0 means no limit.
pub(crate) fn shown(count: usize, limit: u64) -> usize
    ensures within { result ≤ count }
    ensures all { limit ≡ 0 → result ≡ count }
    ensures few { count ≤ limit → result ≡ count }
    ensures some { limit ≢ 0 → limit < count → result ≡ limit }
{
    if limit == 0 || count as u64 <= limit {
        count
    } else {
        limit as usize
    }
}

/// Copies of so many rows from a place on, with their texts.
pub(crate) fn copies_from(
    alloc: Global,
    region: &Region,
    index: &Index,
    from: usize,
    count: usize,
) -> Result<Vec<StoredRecord>, NoMemory>
    requires kept { AreKept region.now index.now.rows }
    requires counted { from + count < 2 ^ 64 }
    requires within { from + count ≤ length index.now.rows }
    ensures { IfOk result (λ items. map copied items.items ≡ map (item_of region.now) (take count (drop from index.now.rows))) }
{
    let mut items = Vec::with_capacity(alloc, count)?;
    for i in 0..count {
        items.push(copy(alloc, region, index.at(from + i))?)?;
    }
    Ok(items)
}

/// Copies of rows with their texts.
pub(crate) fn copies(
    alloc: Global,
    region: &Region,
    picks: &[Pick],
) -> Result<Vec<StoredRecord>, NoMemory>
    requires { AreKept region.now (rows_in picks.now) }
    ensures { IfOk result (λ items. map copied items.items ≡ map (item_of region.now) (rows_in picks.now)) }
{
    let mut items = Vec::with_capacity(alloc, picks.len())?;
    for pick in picks {
        items.push(copy(alloc, region, pick.row)?)?;
    }
    Ok(items)
}

fn copy(alloc: Global, region: &Region, row: &Row) -> Result<StoredRecord, NoMemory>
    requires { IsKept region.now row.now }
    ensures { IfOk result (λ item. copied item ≡ item_of region.now row.now) }
{
    let key = row.key.shared()?;
    let text = copy_text(alloc, region, &row.piece)?;
    Ok(StoredRecord {
        key,
        record: row.record,
        text,
    })
}
