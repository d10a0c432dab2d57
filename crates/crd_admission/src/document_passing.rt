//! From the fields of a document to its object, filled and checked.
ghost use Rattle.std.specs.Prelude.{◌≡◌, ◌≤◌, Some, IfOk, IfErr};
ghost use Rattle.kj_value.specs.Json.{object, members_of, depth};
ghost use Rattle.kj_value.specs.Seen.{json};
ghost use Rattle.kube_meta.specs.View.{object_of};
ghost use Rattle.object_reading.specs.Fields.{object_at};
ghost use Rattle.api_calls.specs.Versions.{Refused};
ghost use Rattle.api_calls.specs.declared.versions.TheConstants.{OBJECT_LEVELS};
ghost use Rattle.crd_meaning.specs.Converted.{IsPassed, metadata_in};
ghost use Rattle.crd_meaning.specs.Unconverted.{IsUnconverted};
ghost use Rattle.crd_admission.specs.inner.Documents.{IsOfVersion};

use crate::depth_laws::filled_depth;
use crate::filling::filled;
use crate::opening::defaults_of;
use crate::reading::{Reading, taken};
use api_calls::AdmitFault;
use crd_loading::LoadedVersions;
use kj_value::JFields;
use prune_default::filled_again;
use std::alloc::Global;

/// What a document of these fields submits, its body filled, which breaks no rule of its version's schema.
pub(crate) fn passed(
    alloc: Global,
    set: &LoadedVersions,
    fields: JFields,
) -> Result<Reading, AdmitFault>
    requires { depth (object (members_of fields)) ≤ OBJECT_LEVELS }
    ensures passed { IfOk result (λ t. IsPassed set.now (object (members_of fields)) t.version (object_of t.object)) }
    ensures version { IfOk result (λ t. IsOfVersion set.now t.version (object_of t.object)) }
    ensures metadata { IfOk result (λ t. object_at (Some (json t.metadata)) ≡ metadata_in (object (members_of fields))) }
    ensures refused { IfErr result (Refused (IsUnconverted set.now (object (members_of fields))) ⊥) }
{
    filled_again();
    filled_depth();
    let before = taken(alloc, set, fields)?;
    let Reading {
        version,
        object,
        metadata,
    } = before;
    defaults_of(set, version);
    let schema = set.version(version);
    let object = filled(alloc, &schema.schema, object)?;
    Ok(Reading {
        version,
        object,
        metadata,
    })
}
