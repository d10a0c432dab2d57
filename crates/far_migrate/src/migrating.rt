//! A whole migration.
ghost use Rattle.std.specs.Prelude.{◌≡◌, ◌≤◌, IfOk, IfErr, List};
ghost use Rattle.edge_io.specs.Causes.{Rose};
ghost use Rattle.edge_io.specs.Exchanges.{Exchange};
ghost use Rattle.place.specs.Place.{place_of};
ghost use Rattle.wire_client.specs.Far.{Made};
ghost use Rattle.far_migrate.specs.Counts.{OnLink, AddsUp, counts_of};
ghost use Rattle.far_migrate.specs.Migrates.{Migrates, tally_of};

use crate::paging::{Turned, turn};
use crate::run::Run;
use crate::tally::{FarFault, Tally};
use std::alloc::Global;
use wire_client::{Far, Place, ResponseBuffer};

/// Lists all objects of the place, page by page, and puts each back as it came.
///
/// A page has at most 500 objects; one whose body is too long is asked for with half as many, from then on. Where the server has
/// forgotten a list it begins again, at most sixteen times, and so do the counts. An object that changed meanwhile is got and put
/// again, in four puts at most.
///
/// `LinkFault` comes only where the link's count of faults rose.
pub fn migrate<R: Far>(far: &mut R, alloc: Global, place: &Place) -> Result<Tally, FarFault>
    ensures base { R.base far.new ≡ R.base far.old }
    ensures later { R.faults far.old ≤ R.faults far.new }
    ensures made { (es : List Exchange) × Made (R.Of.server (R.base far.old))
        (record { exchanges = R.exchanges far.old; log = R.log far.old }) (record { exchanges = R.exchanges far.new; log = R.log far.new }) es
        × Migrates (place_of place.now).names es (tally_of result) }
    ensures sum { IfOk result (λ t. AddsUp (counts_of t)) }
    ensures cause { IfErr result (OnLink (Rose (R.faults far.old) (R.faults far.new))) }
{
    let mut buffer = ResponseBuffer::new();
    let mut run = Run::new(alloc);
    loop {
        match turn(far, alloc, &mut buffer, place, &mut run) {
            Ok(Turned::More) => {}
            Ok(Turned::Done) => return Ok(run.counts),
            Err(fault) => return Err(fault),
        }
    }
}
