//! An object in the namespace of its path, without its number.
ghost use Rattle.std.specs.Prelude.{◌≡◌, true, IfOk};
ghost use Rattle.kube_meta.specs.Names.{is_namespace};
ghost use Rattle.kube_meta.specs.View.{meta_of, object_of};
ghost use Rattle.object_reading.specs.Keeping.{KeepsRules, is_none_or};
ghost use Rattle.object_reading.specs.Numbers.{is_number};
ghost use Rattle.crd_meaning.specs.Request.{placed, expected_of};

use crate::numbers::number_of;
use kj_value::{NoMemory, Txt};
use kube_meta::Object;
use std::alloc::Global;

/// An object before its body is filled, and the number that was taken out of it.
#[derive(Drop)]
pub(crate) struct Taken {
    pub(crate) object: Object,
    pub(crate) expected: Option<u64>,
}

/// The object in this namespace, and its number beside it.
pub(crate) fn placed(alloc: Global, ns: &str, o: Object) -> Result<Taken, NoMemory>
    requires ns { is_namespace ns.now ≡ true }
    requires number { is_none_or is_number (object_of o).meta.resource_version ≡ true }
    requires rules { KeepsRules (meta_of o.meta) }
    ensures object { IfOk result (λ p. object_of p.object ≡ placed ns.now (object_of o)) }
    ensures number { IfOk result (λ p. p.expected ≡ expected_of (object_of o)) }
    ensures rules { IfOk result (λ p. KeepsRules (meta_of p.object.meta)) }
{
    let namespace = match Txt::of(alloc, ns) {
        Ok(namespace) => namespace,
        Err(NoMemory) => {
            drop(o);
            return Err(NoMemory);
        }
    };
    let expected = number_of(&o.meta.resource_version);
    let mut object = o;
    object.meta.namespace = namespace;
    object.meta.resource_version = None;
    Ok(Taken { object, expected })
}
