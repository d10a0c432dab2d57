//! A dump over the far end.
ghost use Rattle.std.specs.Prelude.{◌≡◌};
ghost use Rattle.api_calls.specs.Item.{items};
ghost use Rattle.shared_api.specs.Base.{server_of};
ghost use Rattle.place.specs.Place.{place_of};
ghost use Rattle.far_laws.specs.Speaking.{AreNames};
ghost use Rattle.far_laws.specs.Dumped.{IsDumpOf, IsKnown};
ghost use Rattle.far_server.specs.Ends.{Wrote};

use crate::far::ServerFar;
use api_calls::Versions;
use edge_io::Sink;
use far_laws::all_dumped;
use record_dump::laws::one_list;
use record_dump::{DumpEnd, dump};
use std::alloc::Global;
use std::sync::Wait;
use wire_client::Place;

/// Writes a dump of what the server stores, as `dump` does. One that is done wrote all objects of one moment of the call, at the version of
/// the place, where it is known what values mean.
pub fn back_up<'a, R: Wait, V: Versions + Drop, K: Sink>(
    far: &mut ServerFar<'a, R, V>,
    alloc: Global,
    place: &Place,
    out: &mut K,
) -> DumpEnd
    ensures base { far.new.base ≡ far.old.base }
    ensures wrote { Wrote (K.written out.old) (K.written out.new) result (λ w k. AreNames (place_of place.now).names
        → IsKnown (V.meaning far.old.base.versions) far.old.base.limits (items far.new.seen)
        → IsDumpOf (server_of V.meaning far.old.base) (place_of place.now).names (items far.old.seen) (items far.new.seen) w k) }
{
    all_dumped::<V>();
    one_list();
    dump(far, alloc, place, out)
}
