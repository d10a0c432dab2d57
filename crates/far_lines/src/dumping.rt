//! A dump over one link.
ghost use Rattle.std.specs.Prelude.{◌≡◌, ◌⊎◌, ⊤, Err, IfOk, IfErr, OnErr};
ghost use Rattle.edge_io.specs.Causes.{Rose};
ghost use Rattle.place.specs.Place.{IsPlace, OnBadPlace, PlaceView, place_of};
ghost use Rattle.place.specs.declared.PlaceFault.TheVariants.{BadPlace};
ghost use Rattle.record_dump.specs.Dumps.{OnBrokenOff, OnDone, OnFaults};
ghost use Rattle.far_lines.specs.Dumped.{Dumped, DumpedAt};

use edge_io::Sink;
use kj_value::NoMemory;
use place::{Place, PlaceFault, read_place};
use record_dump::{DumpEnd, dump};
use std::alloc::Global;
use tcp_links::Links;
use wire_client::PlainFar;

// Makes a link to the server of the place, dumps its objects over it, and gives the link back. Where memory is wanted for the link none is
// made.
fn dump_over<L: Links, K: Sink>(
    alloc: Global,
    place: &Place,
    links: &mut L,
    output: &mut K,
) -> Result<DumpEnd, NoMemory>
    ensures dumped { IfOk result (Dumped (place_of place.now).names (L.returned links.old) (L.returned links.new) (K.written output.old) (K.written output.new)) }
    ensures flushed { IfOk result (OnDone (K.flushed output.new ≡ K.written output.new)) }
    ensures handed_on { IfOk result (OnBrokenOff ((output.new ≡ output.old) ⊎ (K.flushed output.new ≡ K.written output.new))) }
    ensures cause { IfOk result (OnFaults ⊤ (Rose (K.faults output.old) (K.faults output.new))) }
    ensures unmade { OnErr result ((L.returned links.new ≡ L.returned links.old) × (output.new ≡ output.old)) }
{
    let link = match links.make(alloc, place.host.as_str(), place.port) {
        Ok(link) => link,
        Err(NoMemory) => return Err(NoMemory),
    };
    let mut far = PlainFar::new(link);
    let end = dump(&mut far, alloc, place, output);
    links.back(far.into_link());
    Ok(end)
}

/// Writes each object as a line that a server lists at the place whose address a text is, over one link that is made and given back.
///
/// There is no dump exactly where the text is no place's address, and then no link is made, or where memory is wanted for the place or the
/// link. `LinkFault` comes only where the count of faults of the link rose, and `WriteFault` only where that of `output` did. The lines of a
/// page are handed on before the next page is asked for: where the dump breaks off, what was written by then was handed on.
pub fn dump_line<L: Links, K: Sink>(
    alloc: Global,
    url: &str,
    links: &mut L,
    output: &mut K,
) -> Result<DumpEnd, PlaceFault>
    ensures dumped { IfOk result (DumpedAt url.now (L.returned links.old) (L.returned links.new) (K.written output.old) (K.written output.new)) }
    ensures flushed { IfOk result (OnDone (K.flushed output.new ≡ K.written output.new)) }
    ensures handed_on { IfOk result (OnBrokenOff ((output.new ≡ output.old) ⊎ (K.flushed output.new ≡ K.written output.new))) }
    ensures cause { IfOk result (OnFaults ⊤ (Rose (K.faults output.old) (K.faults output.new))) }
    ensures placeless { IfErr result (OnBadPlace ((p : PlaceView) → IsPlace url.now p → ⊥)) }
    ensures untouched { OnErr result ((L.returned links.new ≡ L.returned links.old) × (output.new ≡ output.old)) }
    ensures unused { result ≡ Err BadPlace → links.new ≡ links.old }
{
    match read_place(alloc, url) {
        Ok(place) => match dump_over(alloc, &place, links, output) {
            Ok(end) => Ok(end),
            Err(NoMemory) => Err(PlaceFault::NoMemory),
        },
        Err(fault) => Err(fault),
    }
}
