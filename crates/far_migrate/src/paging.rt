//! From page to page.
ghost use Rattle.std.specs.Prelude.{◌≡◌, ◌≤◌, ◌<◌, ◌+◌, map, length, IfOk, IfErr, IsTrue, None, ℕ, List};
ghost use Rattle.kj_value.specs.Json.{depth, items_depth, items_of};
ghost use Rattle.kj_value.specs.Seen.{json};
ghost use Rattle.edge_io.specs.Causes.{Rose};
ghost use Rattle.edge_io.specs.Exchanges.{Exchange};
ghost use Rattle.place.specs.Place.{place_of};
ghost use Rattle.wire_client.specs.Far.{Made};
ghost use Rattle.wire_client.specs.Keys.{IsKeyed, AreKeyed};
ghost use Rattle.wire_client.specs.declared.buffer.TheConstants.{ANSWER_LEVELS};
ghost use Rattle.far_migrate.specs.Counts.{OnLink, counts_of, counted};
ghost use Rattle.far_migrate.specs.inner.Ends.{became, handled, kind_of};
ghost use Rattle.far_migrate.specs.Puts.{key_of, most_puts, PutBack, PutsBack};
ghost use Rattle.far_migrate.specs.inner.Runs.{run_of, IsRunning, Owes, Turns, TakesPage};

use crate::ending::{OTHER, Unlisted, list_end};
use crate::ordering::{copied, goes_on, is_last, last_of};
use crate::putting::{Kind, put_back};
use crate::run::{MOST_PUTS, Run};
use crate::tally::{FarFault, Tally};
use kj_value::{JVal, NoMemory};
use std::alloc::Global;
use wire_client::{Far, ListPage, Place, ResponseBuffer, key_texts, list_page};

/// Whether another page follows.
#[derive(Clone, Copy, Drop)]
pub(crate) enum Turned {
    More,
    Done,
}

// Puts one object back.
fn put_object<R: Far>(
    far: &mut R,
    alloc: Global,
    buffer: &mut ResponseBuffer,
    place: &Place,
    object: &JVal,
) -> Result<Kind, FarFault>
    requires levels { depth (json object.now) ≤ ANSWER_LEVELS }
    requires keyed { IsKeyed (json object.now) }
    ensures base { R.base far.new ≡ R.base far.old }
    ensures later { R.faults far.old ≤ R.faults far.new }
    ensures made { (es : List Exchange) × Made (R.Of.server (R.base far.old))
        (record { exchanges = R.exchanges far.old; log = R.log far.old }) (record { exchanges = R.exchanges far.new; log = R.log far.new }) es
        × PutBack (place_of place.now).names (key_of (json object.now)) most_puts (json object.now) es (became result) }
    ensures cause { IfErr result (OnLink (Rose (R.faults far.old) (R.faults far.new))) }
{
    match copied(alloc, key_texts(object)) {
        Ok(key) => put_back(far, alloc, buffer, place, &key, object, MOST_PUTS),
        Err(NoMemory) => Err(FarFault::NoMemory),
    }
}

// One more object was put back.
fn count(counts: &mut Tally, kind: Kind)
    requires { (n : ℕ) × Owes (n + 1) counts.old }
    ensures counted { counts_of counts.new ≡ counted (kind_of kind) (counts_of counts.old) }
    ensures owes { (n : ℕ) → Owes (n + 1) counts.old → Owes n counts.new }
{
    match kind {
        Kind::Written => counts.written += 1,
        Kind::Unchanged => counts.unchanged += 1,
        Kind::Gone => counts.gone += 1,
        Kind::Contested => counts.contested += 1,
    }
}

// Puts the objects of a page back.
fn put_all<R: Far>(
    far: &mut R,
    alloc: Global,
    buffer: &mut ResponseBuffer,
    place: &Place,
    objects: &[JVal],
    counts: &mut Tally,
) -> Result<(), FarFault>
    requires levels { items_depth (items_of (map json objects.now)) ≤ ANSWER_LEVELS }
    requires keyed { AreKeyed (map json objects.now) }
    requires owes { Owes (length objects.now) counts.old }
    ensures base { R.base far.new ≡ R.base far.old }
    ensures later { R.faults far.old ≤ R.faults far.new }
    ensures made { (es : List Exchange) × Made (R.Of.server (R.base far.old))
        (record { exchanges = R.exchanges far.old; log = R.log far.old }) (record { exchanges = R.exchanges far.new; log = R.log far.new }) es
        × PutsBack (place_of place.now).names (map json objects.now) (counts_of counts.old) es (handled counts.new result) }
    ensures owes { IfOk result (λ _. Owes 0 counts.new) }
    ensures same { IfOk result (λ _. counts.new.listed ≡ counts.old.listed) }
    ensures cause { IfErr result (OnLink (Rose (R.faults far.old) (R.faults far.new))) }
{
    for i in 0..objects.len() {
        let object = &objects[i];
        match put_object(far, alloc, buffer, place, object) {
            Ok(kind) => count(counts, kind),
            Err(fault) => return Err(fault),
        }
    }
    Ok(())
}

// Puts the objects of a page back, and goes on to the next.
fn take_page<R: Far>(
    far: &mut R,
    alloc: Global,
    buffer: &mut ResponseBuffer,
    place: &Place,
    run: &mut Run,
    page: ListPage,
) -> Result<Turned, FarFault>
    requires running { IsRunning run.old }
    requires levels { items_depth (items_of page.items) ≤ ANSWER_LEVELS }
    requires keyed { AreKeyed page.items }
    ensures base { R.base far.new ≡ R.base far.old }
    ensures later { R.faults far.old ≤ R.faults far.new }
    ensures made { (es : List Exchange) × Made (R.Of.server (R.base far.old))
        (record { exchanges = R.exchanges far.old; log = R.log far.old }) (record { exchanges = R.exchanges far.new; log = R.log far.new }) es
        × TakesPage (place_of place.now).names run.old page es run.new result }
    ensures running { IfOk result (λ _. IsRunning run.new) }
    ensures cause { IfErr result (OnLink (Rose (R.faults far.old) (R.faults far.new))) }
{
    let ListPage {
        items,
        token,
        rv: _,
    } = page;
    if !goes_on(
        run.last_key(),
        run.counts.listed,
        items.as_slice(),
        token.as_str(),
    ) {
        return Err(OTHER);
    }
    let last = match last_of(alloc, items.as_slice()) {
        Ok(last) => last,
        Err(NoMemory) => return Err(FarFault::NoMemory),
    };
    run.counts.listed += items.len() as u64;
    match put_all(far, alloc, buffer, place, items.as_slice(), &mut run.counts) {
        Ok(()) => {}
        Err(fault) => return Err(fault),
    }
    if is_last(token.as_str()) {
        return Ok(Turned::Done);
    }
    run.token = token;
    run.last = last;
    Ok(Turned::More)
}

/// Lists one page and puts its objects back, or asks for a shorter page from then on, or begins the list again.
pub(crate) fn turn<R: Far>(
    far: &mut R,
    alloc: Global,
    buffer: &mut ResponseBuffer,
    place: &Place,
    run: &mut Run,
) -> Result<Turned, FarFault>
    requires { IsRunning run.old }
    ensures base { R.base far.new ≡ R.base far.old }
    ensures later { R.faults far.old ≤ R.faults far.new }
    ensures made { (es : List Exchange) × Made (R.Of.server (R.base far.old))
        (record { exchanges = R.exchanges far.old; log = R.log far.old }) (record { exchanges = R.exchanges far.new; log = R.log far.new }) es
        × Turns (place_of place.now).names run.old es run.new result }
    ensures running { IfOk result (λ _. IsRunning run.new) }
    ensures cause { IfErr result (OnLink (Rose (R.faults far.old) (R.faults far.new))) }
{
    match list_page(far, alloc, buffer, place, run.limit, run.token.as_str()) {
        Ok(page) => take_page(far, alloc, buffer, place, run, page),
        Err(end) => match list_end(end) {
            Unlisted::TooLong => match run.halve() {
                Ok(()) => Ok(Turned::More),
                Err(fault) => Err(fault),
            },
            Unlisted::Expired => match run.restart(alloc) {
                Ok(()) => Ok(Turned::More),
                Err(fault) => Err(fault),
            },
            Unlisted::Fault(fault) => Err(fault),
        },
    }
}
