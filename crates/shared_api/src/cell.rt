//! The core as the turn keeps it.

use api_calls::Versions;
use api_core::Core;
use kube_meta::Limits;
use turn_cell::Standing;

/// What no turn changes: the definition, the limits, and the number of the server's start. No value of it is made.
pub struct CoreBase<V> {
    pub versions: V,
    pub limits: Limits,
    pub boot: u64,
}

/// The core as the turn keeps it.
#[derive(Drop)]
pub struct CoreCell<V: Versions> {
    pub core: Box<Core<V>>,
}

impl<V: Versions + Drop> Standing for CoreCell<V> {
    ghost use Rattle.shared_api.specs.Base.{StandsCell, base_of};

    type Base = CoreBase<V>;

    ghost stands = { λ c log. StandsCell V.meaning c.core.value log };

    ghost base = { λ c. base_of c.core.value };
}
