//! A restoring over one link.
ghost use Rattle.std.specs.Prelude.{◌≡◌, ◌++◌, ⊤, Err, IfOk, IfErr, OnErr, OnOk, codes};
ghost use Rattle.std.specs.Io.KnownBytes.{IsAtEnd};
ghost use Rattle.edge_io.specs.Causes.{HasCause, Rose};
ghost use Rattle.edge_io.specs.Sends.{Sends};
ghost use Rattle.place.specs.Place.{IsPlace, OnBadPlace, PlaceView, place_of};
ghost use Rattle.place.specs.declared.PlaceFault.TheVariants.{BadPlace};
ghost use Rattle.record_dump.specs.Restores.{OnEnd, OnFaults};
ghost use Rattle.far_lines.specs.Loaded.{Loaded, LoadedAt, WroteOf, IfUndone, IfUnwritten, restored_to, count_line, count_lines};

use crate::end::LoadEnd;
use edge_io::{Failed, Sink, Source, send};
use itoa::Buffer;
use kj_value::NoMemory;
use place::{Place, PlaceFault, read_place};
use record_dump::{RestoreEnd, restore};
use std::alloc::Global;
use tcp_links::Links;
use wire_client::PlainFar;

// Makes a link to the server of the place, posts the lines of the input over it, and gives the link back. Where memory is wanted for the
// link none is made.
fn load_over<L: Links, S: Source>(
    alloc: Global,
    place: &Place,
    links: &mut L,
    input: &mut S,
) -> Result<RestoreEnd, NoMemory>
    ensures loaded { IfOk result (Loaded (place_of place.now).names (L.returned links.old) (L.returned links.new) (S.left input.old) (S.left input.new)) }
    ensures end { IfOk result (OnEnd (IsAtEnd (S.left input.new))) }
    ensures cause { IfOk result (OnFaults ⊤ (Rose (S.faults input.old) (S.faults input.new))) }
    ensures unmade { OnErr result ((L.returned links.new ≡ L.returned links.old) × (input.new ≡ input.old)) }
{
    let link = match links.make(alloc, place.host.as_str(), place.port) {
        Ok(link) => link,
        Err(NoMemory) => return Err(NoMemory),
    };
    let mut far = PlainFar::new(link);
    let end = restore(&mut far, alloc, place, input);
    links.back(far.into_link());
    Ok(end)
}

// Posts the lines of the input to the place whose address a text is.
fn load_at<L: Links, S: Source>(
    alloc: Global,
    url: &str,
    links: &mut L,
    input: &mut S,
) -> Result<RestoreEnd, PlaceFault>
    ensures loaded { IfOk result (LoadedAt url.now (L.returned links.old) (L.returned links.new) (S.left input.old) (S.left input.new)) }
    ensures end { IfOk result (OnEnd (IsAtEnd (S.left input.new))) }
    ensures cause { IfOk result (OnFaults ⊤ (Rose (S.faults input.old) (S.faults input.new))) }
    ensures placeless { IfErr result (OnBadPlace ((p : PlaceView) → IsPlace url.now p → ⊥)) }
    ensures untouched { OnErr result ((L.returned links.new ≡ L.returned links.old) × (input.new ≡ input.old)) }
    ensures unused { result ≡ Err BadPlace → links.new ≡ links.old }
{
    match read_place(alloc, url) {
        Ok(place) => match load_over(alloc, &place, links, input) {
            Ok(end) => Ok(end),
            Err(NoMemory) => Err(PlaceFault::NoMemory),
        },
        Err(fault) => Err(fault),
    }
}

// Writes a word, a number and the end of the line.
fn send_count<K: Sink>(output: &mut K, word: &[u8], number: &[u8]) -> Result<(), Failed>
    ensures sent { Sends (K.written output.old) (K.written output.new) (word.now ++ (number.now ++ codes "\n")) result }
    ensures cause { HasCause (K.faults output.old) (K.faults output.new) result }
{
    send(output, word)?;
    send(output, number)?;
    send(output, b"\n")
}

// The same of a number's digits.
fn write_count<K: Sink>(output: &mut K, word: &[u8], number: u64) -> Result<(), Failed>
    ensures sent { Sends (K.written output.old) (K.written output.new) (count_line word.now number) result }
    ensures cause { HasCause (K.faults output.old) (K.faults output.new) result }
{
    let mut buffer = Buffer::new();
    let text = buffer.format(number);
    send_count(output, word, text.as_bytes())
}

// Writes the two numbers.
#[tactic(auto, unfolding(crate::specs::Loaded::count_lines))]
fn write_counts<K: Sink>(output: &mut K, created: u64, present: u64) -> Result<(), Failed>
    ensures sent { Sends (K.written output.old) (K.written output.new) (count_lines created present) result }
    ensures cause { HasCause (K.faults output.old) (K.faults output.new) result }
{
    write_count(output, b"created ", created)?;
    write_count(output, b"present ", present)
}

// Writes them, and hands them on.
fn tell_counts<K: Sink>(output: &mut K, created: u64, present: u64) -> Result<(), Failed>
    ensures sent { Sends (K.written output.old) (K.written output.new) (count_lines created present) result }
    ensures flushed { OnOk result (K.flushed output.new ≡ K.written output.new) }
    ensures cause { HasCause (K.faults output.old) (K.faults output.new) result }
{
    write_counts(output, created, present)?;
    output.flush()
}

// Writes the two numbers where the restoring is done.
fn tell_restored<K: Sink>(output: &mut K, end: RestoreEnd) -> LoadEnd
    ensures same { restored_to result ≡ end }
    ensures wrote { WroteOf (K.written output.old) (K.written output.new) (K.flushed output.new) result }
    ensures silent { IfUndone (output.new ≡ output.old) end }
    ensures unwritten { IfUnwritten (Rose (K.faults output.old) (K.faults output.new)) result }
{
    match end {
        RestoreEnd::Done { created, present } => match tell_counts(output, created, present) {
            Ok(()) => LoadEnd::Restored(RestoreEnd::Done { created, present }),
            Err(_) => LoadEnd::WriteFault { created, present },
        },
        RestoreEnd::LinkFault => LoadEnd::Restored(RestoreEnd::LinkFault),
        RestoreEnd::ReadFault => LoadEnd::Restored(RestoreEnd::ReadFault),
        RestoreEnd::BadLine { line } => LoadEnd::Restored(RestoreEnd::BadLine { line }),
        RestoreEnd::Cut { line } => LoadEnd::Restored(RestoreEnd::Cut { line }),
        RestoreEnd::TooMany => LoadEnd::Restored(RestoreEnd::TooMany),
        RestoreEnd::Answer { line, code } => LoadEnd::Restored(RestoreEnd::Answer { line, code }),
        RestoreEnd::NoMemory => LoadEnd::Restored(RestoreEnd::NoMemory),
    }
}

/// Posts each line of the input, in order, to the place whose address a text is, over one link that is made and given back. Where all were
/// posted, how many were created and how many were there already is written, as two lines of a word, a space and a number.
///
/// There is no restoring exactly where the text is no place's address, and then no link is made, or where memory is wanted for the place or
/// the link. `LinkFault`, `ReadFault` and `WriteFault` come only where the count of faults of the link, of `input` and of `output` rose.
pub fn load_line<L: Links, S: Source, K: Sink>(
    alloc: Global,
    url: &str,
    links: &mut L,
    input: &mut S,
    output: &mut K,
) -> Result<LoadEnd, PlaceFault>
    ensures loaded { IfOk result (λ e. LoadedAt url.now (L.returned links.old) (L.returned links.new) (S.left input.old) (S.left input.new) (restored_to e)) }
    ensures wrote { IfOk result (WroteOf (K.written output.old) (K.written output.new) (K.flushed output.new)) }
    ensures silent { IfOk result (λ e. IfUndone (output.new ≡ output.old) (restored_to e)) }
    ensures end { IfOk result (λ e. OnEnd (IsAtEnd (S.left input.new)) (restored_to e)) }
    ensures cause { IfOk result (λ e. OnFaults ⊤ (Rose (S.faults input.old) (S.faults input.new)) (restored_to e)) }
    ensures unwritten { IfOk result (IfUnwritten (Rose (K.faults output.old) (K.faults output.new))) }
    ensures placeless { IfErr result (OnBadPlace ((p : PlaceView) → IsPlace url.now p → ⊥)) }
    ensures untouched { OnErr result ((L.returned links.new ≡ L.returned links.old) × (input.new ≡ input.old) × (output.new ≡ output.old)) }
    ensures unused { result ≡ Err BadPlace → links.new ≡ links.old }
{
    match load_at(alloc, url, links, input) {
        Ok(end) => Ok(tell_restored(output, end)),
        Err(fault) => Err(fault),
    }
}
