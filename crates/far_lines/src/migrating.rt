//! A migration over one link.
ghost use Rattle.std.specs.Prelude.{◌≡◌};
ghost use Rattle.edge_io.specs.Causes.{Rose};
ghost use Rattle.place.specs.Place.{place_of};
ghost use Rattle.far_migrate.specs.Migrates.{tally_of};
ghost use Rattle.far_lines.specs.Migrated.{Comes};
ghost use Rattle.far_lines.specs.Ends.{Came, CameOf, OnUnwritten, IfSilent, fault_end as fault_end_of};
ghost use Rattle.far_lines.specs.declared.end.MigrateEnd.TheVariants.{BadPlace};

use crate::end::MigrateEnd;
use crate::telling::write_tally;
use edge_io::Sink;
use far_migrate::{FarFault, Tally, migrate};
use kj_value::NoMemory;
use place::{Place, PlaceFault, read_place};
use std::alloc::Global;
use tcp_links::Links;
use wire_client::PlainFar;

// Makes a link to the server of the place, migrates its objects over it, and gives the link back. Where memory is wanted for the link none
// is made.
fn migrate_over<L: Links>(alloc: Global, place: &Place, links: &mut L) -> Result<Tally, FarFault>
    ensures { Comes (place_of place.now).names (L.returned links.old) (L.returned links.new) (tally_of result) }
{
    let link = match links.make(alloc, place.host.as_str(), place.port) {
        Ok(link) => link,
        Err(NoMemory) => return Err(FarFault::NoMemory),
    };
    let mut far = PlainFar::new(link);
    let came = migrate(&mut far, alloc, place);
    links.back(far.into_link());
    came
}

// How a line ends whose migration has no tally.
fn fault_end(fault: FarFault) -> MigrateEnd
    ensures { result ≡ fault_end_of fault }
{
    match fault {
        FarFault::LinkFault => MigrateEnd::LinkFault,
        FarFault::Answer { code } => MigrateEnd::Answer { code },
        FarFault::Restarted => MigrateEnd::Restarted,
        FarFault::NoMemory => MigrateEnd::NoMemory,
    }
}

// Migrates the objects of a place, and writes the tally.
fn migrate_place<L: Links, K: Sink>(
    alloc: Global,
    place: &Place,
    links: &mut L,
    output: &mut K,
) -> MigrateEnd
    ensures came { Came (place_of place.now).names (L.returned links.old) (L.returned links.new) (K.written output.old) (K.written output.new) (K.flushed output.new) result }
    ensures cause { OnUnwritten (Rose (K.faults output.old) (K.faults output.new)) result }
    ensures silent { IfSilent (output.new ≡ output.old) result }
{
    match migrate_over(alloc, place, links) {
        Ok(tally) => write_tally(alloc, tally, output),
        Err(fault) => fault_end(fault),
    }
}

/// Migrates the objects of the place whose address a text is, over one link that is made and given back, and writes the tally: five lines, of
/// a count's word, a space and its number.
///
/// `BadPlace` comes exactly where the text is no place's address, and then no link is made. `LinkFault` comes only where the count of faults
/// of the link rose, and `WriteFault` only where that of `output` did. Nothing is written but the tally.
pub fn migrate_line<L: Links, K: Sink>(
    alloc: Global,
    url: &str,
    links: &mut L,
    output: &mut K,
) -> MigrateEnd
    ensures came { CameOf url.now (L.returned links.old) (L.returned links.new) (K.written output.old) (K.written output.new) (K.flushed output.new) result }
    ensures unused { result ≡ BadPlace → links.new ≡ links.old }
    ensures cause { OnUnwritten (Rose (K.faults output.old) (K.faults output.new)) result }
    ensures silent { IfSilent (output.new ≡ output.old) result }
{
    match read_place(alloc, url) {
        Ok(place) => migrate_place(alloc, &place, links, output),
        Err(PlaceFault::BadPlace) => MigrateEnd::BadPlace,
        Err(PlaceFault::NoMemory) => MigrateEnd::NoMemory,
    }
}
