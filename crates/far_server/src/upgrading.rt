//! A migration over the far end.
ghost use Rattle.std.specs.Prelude.{◌≡◌, IfOk};
ghost use Rattle.api_calls.specs.Item.{items};
ghost use Rattle.api_calls.specs.State.{state};
ghost use Rattle.place.specs.Place.{place_of};
ghost use Rattle.far_migrate.specs.Migrates.{tally_of};
ghost use Rattle.far_laws.specs.Upgraded.{AreAtStorage, Meanwhile};
ghost use Rattle.far_laws.specs.Speaking.{AreNames};
ghost use Rattle.far_server.specs.Serving.{speaker_of};
ghost use Rattle.far_server.specs.Upgrades.{Upgrades};

use crate::far::ServerFar;
use api_calls::Versions;
use far_laws::{all_kept, all_upgraded};
use far_migrate::laws::{last_code, one_list, restarts};
use far_migrate::{FarFault, Tally, migrate};
use std::alloc::Global;
use std::sync::Wait;
use wire_client::Place;

/// Migrates what the server stores, as `migrate` does: by its exchanges, whose end says what it came to. A tally with nothing contested
/// leaves each object at the storage version, where it is known what values mean and no other storage version was set meanwhile.
///
/// `LinkFault` never comes. `Answer` with a code other than 0 comes only where the last exchange was answered with it, `Restarted` only where
/// seventeen lists were too old, and `NoMemory` also where the server had none.
pub fn upgrade<'a, R: Wait, V: Versions + Drop>(
    far: &mut ServerFar<'a, R, V>,
    alloc: Global,
    place: &Place,
) -> Result<Tally, FarFault>
    ensures base { far.new.base ≡ far.old.base }
    ensures exchanged { Upgrades (V.meaning far.old.base.versions) far.old.base.limits (speaker_of V.meaning far.old.base) (place_of place.now).names
        (items far.old.seen) (items far.new.seen) (tally_of result) }
    ensures upgraded { IfOk result (λ t. AreNames (place_of place.now).names
        → Meanwhile (V.meaning far.old.base.versions) far.old.base.limits (items far.old.seen) (items far.new.seen) → t.contested ≡ 0
        → AreAtStorage (state (V.meaning far.old.base.versions) (items far.new.seen))) }
{
    all_upgraded::<V>();
    all_kept::<V>();
    one_list();
    restarts();
    last_code();
    migrate(far, alloc, place)
}
