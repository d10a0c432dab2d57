//! A whole restoring.
ghost use Rattle.std.specs.Prelude.{◌≡◌, ◌≤◌, ◌<◌, ◌+◌, ◌++◌, ℕ, List, IfErr};
ghost use Rattle.std.specs.Io.KnownBytes.{prepend_known, IsAtEnd};
ghost use Rattle.edge_io.specs.Causes.{Rose};
ghost use Rattle.edge_io.specs.Exchanges.{Exchange};
ghost use Rattle.place.specs.Place.{place_of};
ghost use Rattle.wire_client.specs.Far.{Made};
ghost use Rattle.record_dump.specs.inner.Lined.{Lies};
ghost use Rattle.record_dump.specs.Restores.{none_yet, lines_in, most_lines, Restores, OnFaults, OnEnd};
ghost use Rattle.record_dump.specs.inner.Posted.{added, counts_of, AreFew, IsNextLine, Steps, OnEnded, unread_as, unlined_as, unposted_as};

use crate::ends::RestoreEnd;
use crate::lines::{Lines, Unlined, Unread};
use crate::posting::{Posted, Unposted, post_line};
use edge_io::Source;
use std::alloc::Global;
use wire_client::{Far, Place, ResponseBuffer};

/// The most lines of an input.
pub const MOST_LINES: u64 = 1_000_000;

/// How many lines were created, and how many were there already.
#[derive(Clone, Copy, PartialEq, Eq, Drop)]
pub(crate) struct Counts {
    pub created: u64,
    pub present: u64,
}

/// Whether a line may follow.
#[derive(Clone, Copy, Drop)]
pub(crate) enum Next {
    More,
    Ended(RestoreEnd),
}

// The lines so far.
fn count(counts: &Counts) -> u64
    requires { AreFew counts.now }
    ensures { result ≡ lines_in (counts_of counts.now) }
{
    counts.created + counts.present
}

fn unread_end(unread: Unread) -> RestoreEnd
    ensures { result ≡ unread_as unread }
{
    match unread {
        Unread::Failed => RestoreEnd::ReadFault,
        Unread::NoMemory => RestoreEnd::NoMemory,
    }
}

fn unlined_end(unlined: Unlined, line: u64) -> RestoreEnd
    ensures { result ≡ unlined_as line unlined }
{
    match unlined {
        Unlined::Unread(unread) => unread_end(unread),
        Unlined::TooLong => RestoreEnd::BadLine { line },
        Unlined::Cut => RestoreEnd::Cut { line },
    }
}

fn unposted_end(unposted: Unposted, line: u64) -> RestoreEnd
    ensures { result ≡ unposted_as line unposted }
{
    match unposted {
        Unposted::Bad => RestoreEnd::BadLine { line },
        Unposted::Link => RestoreEnd::LinkFault,
        Unposted::Answer(code) => RestoreEnd::Answer { line, code },
        Unposted::NoMemory => RestoreEnd::NoMemory,
    }
}

// One more line was posted.
fn add(counts: &mut Counts, posted: Posted)
    requires { lines_in (counts_of counts.old) < most_lines }
    ensures added { counts_of counts.new ≡ added posted (counts_of counts.old) }
    ensures few { AreFew counts.new }
{
    match posted {
        Posted::Created => counts.created += 1,
        Posted::Present => counts.present += 1,
    }
}

// Reads until a line is whole, and answers how many bytes it has, where there is one.
fn next_line<S: Source>(
    alloc: Global,
    lines: &mut Lines,
    counts: &Counts,
    input: &mut S,
) -> Result<usize, RestoreEnd>
    requires { AreFew counts.now }
    ensures took { (piece : List ℕ) × (S.left input.old ≡ prepend_known piece (S.left input.new))
        × IsNextLine (counts_of counts.now) (lines.old ++ piece) lines.new result }
    ensures later { S.faults input.old ≤ S.faults input.new }
    ensures cause { IfErr result (OnFaults ⊥ (Rose (S.faults input.old) (S.faults input.new))) }
    ensures end { IfErr result (OnEnd (IsAtEnd (S.left input.new))) }
{
    let more = match lines.has_more(alloc, input) {
        Ok(more) => more,
        Err(unread) => return Err(unread_end(unread)),
    };
    if !more {
        return Err(RestoreEnd::Done {
            created: counts.created,
            present: counts.present,
        });
    }
    let count = count(counts);
    if count >= MOST_LINES {
        return Err(RestoreEnd::TooMany);
    }
    match lines.read_line(alloc, input) {
        Ok(len) => Ok(len),
        Err(unlined) => Err(unlined_end(unlined, count + 1)),
    }
}

// Posts the first line of those that are held, which has so many bytes.
fn post_next<R: Far>(
    far: &mut R,
    alloc: Global,
    buffer: &mut ResponseBuffer,
    place: &Place,
    lines: &mut Lines,
    len: usize,
    counts: &mut Counts,
) -> Next
    requires lies { Lies lines.old len }
    requires few { lines_in (counts_of counts.old) < most_lines }
    ensures base { R.base far.new ≡ R.base far.old }
    ensures later { R.faults far.old ≤ R.faults far.new }
    ensures made { (es : List Exchange) × Made (R.Of.server (R.base far.old))
        (record { exchanges = R.exchanges far.old; log = R.log far.old }) (record { exchanges = R.exchanges far.new; log = R.log far.new }) es
        × Steps (place_of place.now).names (counts_of counts.old) lines.old es (counts_of counts.new) lines.new result }
    ensures few { AreFew counts.new }
    ensures cause { OnEnded (OnFaults (Rose (R.faults far.old) (R.faults far.new)) ⊥) result }
    ensures end { OnEnded (OnEnd ⊥) result }
{
    match post_line(far, alloc, buffer, place, lines.first(len)) {
        Ok(posted) => add(counts, posted),
        Err(unposted) => return Next::Ended(unposted_end(unposted, count(counts) + 1)),
    }
    lines.used(len + 1);
    Next::More
}

// Reads a line and posts it.
fn turn<R: Far, S: Source>(
    far: &mut R,
    alloc: Global,
    buffer: &mut ResponseBuffer,
    place: &Place,
    lines: &mut Lines,
    counts: &mut Counts,
    input: &mut S,
) -> Next
    requires { AreFew counts.old }
    ensures base { R.base far.new ≡ R.base far.old }
    ensures later { (R.faults far.old ≤ R.faults far.new) × (S.faults input.old ≤ S.faults input.new) }
    ensures made { (es : List Exchange) × Made (R.Of.server (R.base far.old))
        (record { exchanges = R.exchanges far.old; log = R.log far.old }) (record { exchanges = R.exchanges far.new; log = R.log far.new }) es
        × (piece : List ℕ) × (S.left input.old ≡ prepend_known piece (S.left input.new))
        × Steps (place_of place.now).names (counts_of counts.old) (lines.old ++ piece) es (counts_of counts.new) lines.new result }
    ensures few { AreFew counts.new }
    ensures cause { OnEnded (OnFaults (Rose (R.faults far.old) (R.faults far.new)) (Rose (S.faults input.old) (S.faults input.new))) result }
    ensures end { OnEnded (OnEnd (IsAtEnd (S.left input.new))) result }
{
    match next_line(alloc, lines, counts, input) {
        Ok(len) => post_next(far, alloc, buffer, place, lines, len, counts),
        Err(end) => Next::Ended(end),
    }
}

/// Posts each line of the input, in order, as it is, as a new object of its own namespace, and answers how many were created, and how
/// many were there already.
///
/// An input has at most 1,000,000 lines, each of at most 1,048,576 bytes and with a line feed at its end. The first line for which there
/// is another answer ends the restoring; what was created by then stays.
///
/// `LinkFault` and `ReadFault` come only where the count of faults of the link, and of the input, rose.
pub fn restore<R: Far, S: Source>(
    far: &mut R,
    alloc: Global,
    place: &Place,
    input: &mut S,
) -> RestoreEnd
    ensures base { R.base far.new ≡ R.base far.old }
    ensures later { (R.faults far.old ≤ R.faults far.new) × (S.faults input.old ≤ S.faults input.new) }
    ensures made { (es : List Exchange) × Made (R.Of.server (R.base far.old))
        (record { exchanges = R.exchanges far.old; log = R.log far.old }) (record { exchanges = R.exchanges far.new; log = R.log far.new }) es
        × (bytes : List ℕ) × (S.left input.old ≡ prepend_known bytes (S.left input.new))
        × Restores (place_of place.now).names none_yet bytes es result }
    ensures cause { OnFaults (Rose (R.faults far.old) (R.faults far.new)) (Rose (S.faults input.old) (S.faults input.new)) result }
    ensures end { OnEnd (IsAtEnd (S.left input.new)) result }
{
    let mut buffer = ResponseBuffer::new();
    let mut lines = Lines::new(alloc);
    let mut counts = Counts {
        created: 0,
        present: 0,
    };
    loop {
        match turn(
            far,
            alloc,
            &mut buffer,
            place,
            &mut lines,
            &mut counts,
            input,
        ) {
            Next::More => {}
            Next::Ended(end) => return end,
        }
    }
}
