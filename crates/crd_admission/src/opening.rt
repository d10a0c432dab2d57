//! What the types know of a version's schema and of an object. The functions do nothing.
ghost use Rattle.std.specs.Prelude.{◌<◌, length};
ghost use Rattle.kj_value.specs.Fields.{AreInOrder};
ghost use Rattle.kj_value.specs.Json.{items_of};
ghost use Rattle.kj_value.specs.Sound.{AreSoundItems};
ghost use Rattle.kube_meta.specs.View.{object_of};
ghost use Rattle.struct_schema.specs.OwnDefaults.{HasOwnDefaults};
ghost use Rattle.keep_laws.specs.Notes.{IsObject};
ghost use Rattle.crd_meaning.specs.Definition.{count_of, version_at};
ghost use Rattle.crd_admission.specs.Low.{HasLowDefaults};
ghost use Rattle.crd_admission.specs.Steps.{plain};

use crd_loading::LoadedVersions;
use crd_reading::Definition;
use kube_meta::Object;

/// Each default of the version's schema is its own filling, and with the levels above it no deeper than an object may be.
pub(crate) fn defaults_of(set: &LoadedVersions, v: u8)
    requires { v < count_of set.now }
    ensures own { HasOwnDefaults (version_at set.now v).schema }
    ensures low { HasLowDefaults 0 (version_at set.now v).schema }
{
    let _ = set.definition().versions();
}

/// The same of a definition that has no rules.
pub(crate) fn defaults_in(definition: &Definition, v: u8)
    requires { v < length definition.now.versions }
    ensures own { HasOwnDefaults (version_at (plain definition.now) v).schema }
    ensures low { HasLowDefaults 0 (version_at (plain definition.now) v).schema }
{
    let _ = definition.versions();
}

/// The names of the object's maps rise, and its values are sound.
pub fn order_of(o: &Object)
    ensures object { IsObject (object_of o.now) }
    ensures labels { AreInOrder o.now.meta.labels }
    ensures owners { AreSoundItems (items_of o.now.meta.owners) }
{
    let _ = o.meta.labels.len();
    let _ = o.meta.annotations.len();
    let _ = o.meta.owners.len();
    let _ = o.body.len();
}
