//! Putting an object back.
ghost use Rattle.std.specs.Prelude.{◌≡◌, ◌<◌, ◌≤◌, ◌-◌, ◌↔◌, IfOk, IfErr, IsTrue, List};
ghost use Rattle.kj_value.specs.Json.{depth};
ghost use Rattle.kj_value.specs.Seen.{json};
ghost use Rattle.edge_io.specs.Causes.{Rose};
ghost use Rattle.edge_io.specs.Exchanges.{Exchange};
ghost use Rattle.place.specs.Place.{place_of};
ghost use Rattle.wire_client.specs.Far.{Made};
ghost use Rattle.wire_client.specs.declared.buffer.TheConstants.{ANSWER_LEVELS};
ghost use Rattle.far_migrate.specs.Counts.{OnLink};
ghost use Rattle.far_migrate.specs.inner.Ends.{TriedPut, TriedGet, IsLow, became};
ghost use Rattle.far_migrate.specs.Puts.{number_of, PutBack};

use crate::ending::{Refused, Ungot, get_end, put_end};
use crate::tally::FarFault;
use kj_value::JVal;
use kube_meta::Key;
use std::alloc::Global;
use wire_client::{Far, Place, ResponseBuffer, get_one, number_text, put_one};

/// What became of an object.
#[derive(Clone, Copy, Drop)]
pub(crate) enum Kind {
    Written,
    Unchanged,
    Gone,
    Contested,
}

// What came of one put.
#[derive(Clone, Copy, Drop)]
enum Put {
    Done(Kind),
    Conflict,
}

// What came of the get behind it.
#[derive(Drop)]
enum Got {
    Found(JVal),
    Gone,
}

// Whether the number is the same.
fn is_same(before: &JVal, now: &JVal) -> bool
    ensures { IsTrue result ↔ (number_of (json now.now) ≡ number_of (json before.now)) }
{
    number_text(now) == number_text(before)
}

fn put_once<R: Far>(
    far: &mut R,
    alloc: Global,
    buffer: &mut ResponseBuffer,
    place: &Place,
    key: &Key,
    body: &JVal,
) -> Result<Put, FarFault>
    requires { depth (json body.now) ≤ ANSWER_LEVELS }
    ensures base { R.base far.new ≡ R.base far.old }
    ensures later { R.faults far.old ≤ R.faults far.new }
    ensures made { (es : List Exchange) × Made (R.Of.server (R.base far.old))
        (record { exchanges = R.exchanges far.old; log = R.log far.old }) (record { exchanges = R.exchanges far.new; log = R.log far.new }) es
        × TriedPut (place_of place.now).names key.now (json body.now) es result }
    ensures cause { IfErr result (OnLink (Rose (R.faults far.old) (R.faults far.new))) }
{
    match put_one(far, alloc, buffer, place, key, body) {
        Ok(now) => {
            if is_same(body, &now) {
                return Ok(Put::Done(Kind::Unchanged));
            }
            Ok(Put::Done(Kind::Written))
        }
        Err(end) => match put_end(end) {
            Refused::Gone => Ok(Put::Done(Kind::Gone)),
            Refused::Conflict => Ok(Put::Conflict),
            Refused::Fault(fault) => Err(fault),
        },
    }
}

fn get_again<R: Far>(
    far: &mut R,
    alloc: Global,
    buffer: &mut ResponseBuffer,
    place: &Place,
    key: &Key,
) -> Result<Got, FarFault>
    ensures base { R.base far.new ≡ R.base far.old }
    ensures later { R.faults far.old ≤ R.faults far.new }
    ensures made { (es : List Exchange) × Made (R.Of.server (R.base far.old))
        (record { exchanges = R.exchanges far.old; log = R.log far.old }) (record { exchanges = R.exchanges far.new; log = R.log far.new }) es
        × TriedGet (place_of place.now).names key.now es result }
    ensures low { IfOk result IsLow }
    ensures cause { IfErr result (OnLink (Rose (R.faults far.old) (R.faults far.new))) }
{
    match get_one(far, alloc, buffer, place, key) {
        Ok(newer) => Ok(Got::Found(newer)),
        Err(end) => match get_end(end) {
            Ungot::Gone => Ok(Got::Gone),
            Ungot::Fault(fault) => Err(fault),
        },
    }
}

/// Puts an object back, in at most so many puts.
#[cycle(put_back)]
pub(crate) fn put_back<R: Far>(
    far: &mut R,
    alloc: Global,
    buffer: &mut ResponseBuffer,
    place: &Place,
    key: &Key,
    body: &JVal,
    left: u32,
) -> Result<Kind, FarFault>
    requires some { 0 < left }
    requires levels { depth (json body.now) ≤ ANSWER_LEVELS }
    ensures base { R.base far.new ≡ R.base far.old }
    ensures later { R.faults far.old ≤ R.faults far.new }
    ensures made { (es : List Exchange) × Made (R.Of.server (R.base far.old))
        (record { exchanges = R.exchanges far.old; log = R.log far.old }) (record { exchanges = R.exchanges far.new; log = R.log far.new }) es
        × PutBack (place_of place.now).names key.now left (json body.now) es (became result) }
    ensures cause { IfErr result (OnLink (Rose (R.faults far.old) (R.faults far.new))) }
{
    match put_once(far, alloc, buffer, place, key, body) {
        Err(fault) => return Err(fault),
        Ok(Put::Done(kind)) => return Ok(kind),
        Ok(Put::Conflict) => {}
    }
    if left == 1 {
        return Ok(Kind::Contested);
    }
    match get_again(far, alloc, buffer, place, key) {
        Err(fault) => Err(fault),
        Ok(Got::Gone) => Ok(Kind::Gone),
        Ok(Got::Found(newer)) => put_back(far, alloc, buffer, place, key, &newer, left - 1),
    }
}
