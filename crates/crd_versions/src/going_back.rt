//! From an object of a spoke, which was made of a hub value, to that value.
ghost use Rattle.std.specs.Prelude.{◌≡◌, IfOk};
ghost use Rattle.kube_meta.specs.View.{ObjectView, object_of};
ghost use Rattle.crd_versions.specs.inner.Forms.{IsFormOf};

use keep_laws::object_laws::{one_each, over_and_back};
use kj_value::NoMemory;
use kube_meta::Object;
use spoke_keep::{Spokes, back_to_hub};
use std::alloc::Global;

/// The hub value that is one with an object of the spoke at place `p`, whose metadata are moved. What its annotations keep
/// is alive, since the hub value was whole.
pub(crate) fn taken_back(alloc: Global, all: &Spokes, p: u8, x: Object) -> Result<Object, NoMemory>
    requires { (h : ObjectView) × IsFormOf all.now p (object_of x) h }
    ensures { (h : ObjectView) → IsFormOf all.now p (object_of x) h → IfOk result (λ g. object_of g ≡ h) }
{
    one_each();
    over_and_back();
    let _ = all.items();
    back_to_hub(alloc, all, p, x)
}
