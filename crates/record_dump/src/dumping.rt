//! A whole dump.
ghost use Rattle.std.specs.Prelude.{◌≡◌, ◌≤◌, ◌+◌, ◌⊎◌, ℕ, List, [], length};
ghost use Rattle.std.specs.Io.KnownBytes.{append_known};
ghost use Rattle.kj_value.specs.Json.{items_depth, items_of};
ghost use Rattle.edge_io.specs.Causes.{Rose};
ghost use Rattle.edge_io.specs.Exchanges.{Exchange};
ghost use Rattle.place.specs.Place.{place_of};
ghost use Rattle.wire_client.specs.Far.{Made};
ghost use Rattle.wire_client.specs.Keys.{AreKeyed};
ghost use Rattle.wire_client.specs.declared.buffer.TheConstants.{ANSWER_LEVELS};
ghost use Rattle.far_migrate.specs.Pages.{most_objects};
ghost use Rattle.record_dump.specs.Dumps.{at_first, Dumps, OnBrokenOff, OnFaults, OnDone};
ghost use Rattle.record_dump.specs.inner.Seen.{walk_of, ListEnds, Turns, TakesPage, IsWalking, OnEnded, OnTurned, unsent_as};

use crate::ends::DumpEnd;
use crate::line::{Unsent, send_page};
use crate::walk::Walk;
use edge_io::Sink;
use far_migrate::{goes_on, is_last, last_of};
use kj_value::NoMemory;
use std::alloc::Global;
use wire_client::{Far, ListPage, Place, ResponseBuffer, WireEnd, list_page};

/// Not Found (RFC 9110, section 15.5.5).
const NOT_FOUND: u16 = 404;

/// Gone (RFC 9110, section 15.5.11): the token of a list is too old.
const EXPIRED: u16 = 410;

/// Another form, order or length.
const OTHER: DumpEnd = DumpEnd::Answer { code: 0 };

/// Whether another page follows.
#[derive(Clone, Copy, Drop)]
pub(crate) enum Turned {
    More,
    Ended(DumpEnd),
}

/// What became of a list that gave no page.
#[derive(Clone, Copy, Drop)]
pub(crate) enum Unlisted {
    TooLong,
    Ended(DumpEnd),
}

fn list_end(end: WireEnd) -> Unlisted
    ensures { ListEnds end result }
{
    match end {
        WireEnd::TooLong => Unlisted::TooLong,
        WireEnd::LinkFault => Unlisted::Ended(DumpEnd::LinkFault),
        WireEnd::Gone => Unlisted::Ended(DumpEnd::Answer { code: NOT_FOUND }),
        WireEnd::Code { code } => {
            if code == EXPIRED {
                return Unlisted::Ended(DumpEnd::Expired);
            }
            Unlisted::Ended(DumpEnd::Answer { code })
        }
        WireEnd::Shape { path: _ } => Unlisted::Ended(OTHER),
        WireEnd::NoMemory => Unlisted::Ended(DumpEnd::NoMemory),
    }
}

fn unsent_end(unsent: Unsent) -> DumpEnd
    ensures { result ≡ unsent_as unsent }
{
    match unsent {
        Unsent::Failed => DumpEnd::WriteFault,
        Unsent::NoMemory => DumpEnd::NoMemory,
    }
}

// Writes the lines of a page, hands them on, and goes on to the next.
fn take_page<K: Sink>(alloc: Global, walk: &mut Walk, page: ListPage, out: &mut K) -> Turned
    requires walking { IsWalking walk.old }
    requires levels { items_depth (items_of page.items) ≤ ANSWER_LEVELS }
    requires keyed { AreKeyed page.items }
    ensures wrote { (w : List ℕ) × (K.written out.new ≡ append_known (K.written out.old) w) × TakesPage walk.old page w walk.new result }
    ensures walking { IsWalking walk.new }
    ensures flushed { OnEnded (OnDone (K.flushed out.new ≡ K.written out.new)) result }
    ensures handed_on { OnTurned ((out.new ≡ out.old) ⊎ (K.flushed out.new ≡ K.written out.new)) result }
    ensures later { K.faults out.old ≤ K.faults out.new }
    ensures cause { OnEnded (OnFaults ⊥ (Rose (K.faults out.old) (K.faults out.new))) result }
{
    let ListPage {
        items,
        token,
        rv: _,
    } = page;
    if !goes_on(
        walk.last_key(),
        walk.listed,
        items.as_slice(),
        token.as_str(),
    ) {
        return Turned::Ended(OTHER);
    }
    let last = match last_of(alloc, items.as_slice()) {
        Ok(last) => last,
        Err(NoMemory) => return Turned::Ended(DumpEnd::NoMemory),
    };
    let listed = walk.listed + items.len() as u64;
    match send_page(alloc, out, items) {
        Ok(()) => {}
        Err(unsent) => return Turned::Ended(unsent_end(unsent)),
    }
    if is_last(token.as_str()) {
        return Turned::Ended(DumpEnd::Done { lines: listed });
    }
    walk.token = token;
    walk.last = last;
    walk.listed = listed;
    Turned::More
}

// Lists one page and writes its lines, or asks for a shorter page from then on.
fn turn<R: Far, K: Sink>(
    far: &mut R,
    alloc: Global,
    buffer: &mut ResponseBuffer,
    place: &Place,
    walk: &mut Walk,
    out: &mut K,
) -> Turned
    requires { IsWalking walk.old }
    ensures base { R.base far.new ≡ R.base far.old }
    ensures later { (R.faults far.old ≤ R.faults far.new) × (K.faults out.old ≤ K.faults out.new) }
    ensures made { (es : List Exchange) × Made (R.Of.server (R.base far.old))
        (record { exchanges = R.exchanges far.old; log = R.log far.old }) (record { exchanges = R.exchanges far.new; log = R.log far.new }) es
        × (w : List ℕ) × (K.written out.new ≡ append_known (K.written out.old) w)
        × Turns (place_of place.now).names (walk_of walk.old) es w (walk_of walk.new) result }
    ensures walking { IsWalking walk.new }
    ensures flushed { OnEnded (OnDone (K.flushed out.new ≡ K.written out.new)) result }
    ensures handed_on { OnTurned ((out.new ≡ out.old) ⊎ (K.flushed out.new ≡ K.written out.new)) result }
    ensures cause { OnEnded (OnFaults (Rose (R.faults far.old) (R.faults far.new)) (Rose (K.faults out.old) (K.faults out.new))) result }
{
    match list_page(far, alloc, buffer, place, walk.limit, walk.token.as_str()) {
        Ok(page) => take_page(alloc, walk, page, out),
        Err(end) => match list_end(end) {
            Unlisted::TooLong => {
                if walk.halve() {
                    return Turned::More;
                }
                Turned::Ended(OTHER)
            }
            Unlisted::Ended(end) => Turned::Ended(end),
        },
    }
}

/// Lists all objects of the place, page by page, and writes each as a line: its compact text without what a server sets anew when the
/// object is created.
///
/// A page has at most 500 objects; one whose body is too long is asked for with half as many, from then on. The lines of a page are handed
/// on before the next page is asked for. Where the server has forgotten the list the dump ends, since what it wrote is of that list.
/// Where it breaks off, by the link, an answer or a list that is forgotten, what was written by then was handed on.
///
/// `LinkFault` and `WriteFault` come only where the count of faults of the link, and of the output, rose.
pub fn dump<R: Far, K: Sink>(far: &mut R, alloc: Global, place: &Place, out: &mut K) -> DumpEnd
    ensures base { R.base far.new ≡ R.base far.old }
    ensures later { (R.faults far.old ≤ R.faults far.new) × (K.faults out.old ≤ K.faults out.new) }
    ensures made { (es : List Exchange) × Made (R.Of.server (R.base far.old))
        (record { exchanges = R.exchanges far.old; log = R.log far.old }) (record { exchanges = R.exchanges far.new; log = R.log far.new }) es
        × (w : List ℕ) × (K.written out.new ≡ append_known (K.written out.old) w)
        × Dumps (place_of place.now).names at_first es w result }
    ensures flushed { OnDone (K.flushed out.new ≡ K.written out.new) result }
    ensures handed_on { OnBrokenOff ((out.new ≡ out.old) ⊎ (K.flushed out.new ≡ K.written out.new)) result }
    ensures cause { OnFaults (Rose (R.faults far.old) (R.faults far.new)) (Rose (K.faults out.old) (K.faults out.new)) result }
{
    let mut buffer = ResponseBuffer::new();
    let mut walk = Walk::new(alloc);
    loop {
        match turn(far, alloc, &mut buffer, place, &mut walk, out) {
            Turned::More => {}
            Turned::Ended(end) => return end,
        }
    }
}
