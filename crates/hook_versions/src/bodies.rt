//! The body of an answer.
ghost use Rattle.std.specs.Prelude.{◌≡◌, ◌↔◌, ◌≤◌, None, IsTrue, IfSome, IfNone};
ghost use Rattle.kj_value.specs.Json.{depth};
ghost use Rattle.kj_value.specs.Seen.{json};
ghost use Rattle.struct_schema.specs.Fault.{fault};
ghost use Rattle.struct_schema.specs.Filled.{Filled};
ghost use Rattle.struct_schema.specs.ShapeOf.{shape_of};
ghost use Rattle.api_calls.specs.declared.versions.TheConstants.{OBJECT_LEVELS};
ghost use Rattle.hook_versions.specs.inner.Steps.{Fits};

use api_calls::OBJECT_LEVELS;
use kj_value::{JFields, JVal, depth, sound};
use std::alloc::Global;
use struct_schema::{Schema, faults, is_filled, is_valid};

// Whether the schema allows a value.
fn is_allowed(alloc: Global, s: &Schema, v: &JVal) -> bool
    ensures { IsTrue result ↔ (fault (shape_of s.now) (json v.now) ≡ None) }
{
    faults();
    is_valid(alloc, s, v)
}

fn fits(alloc: Global, s: &Schema, v: &JVal) -> bool
    ensures { IsTrue result ↔ ((depth (json v.now) ≤ OBJECT_LEVELS) × (fault (shape_of s.now) (json v.now) ≡ None) × Filled (shape_of s.now) (json v.now) (json v.now)) }
{
    if depth(v) > OBJECT_LEVELS {
        return false;
    }
    if !is_allowed(alloc, s, v) {
        return false;
    }
    is_filled(s, v)
}

/// The fields, where they are valid and filled by the schema, and at most 64 levels deep.
pub(crate) fn fitted(alloc: Global, s: &Schema, body: JFields) -> Option<JFields>
    ensures fits { IfSome result (λ k. (k ≡ body) × Fits (shape_of s.now) body) }
    ensures unfit { IfNone result (Fits (shape_of s.now) body → ⊥) }
{
    let whole = JVal::Obj(body);
    sound(&whole);
    if fits(alloc, s, &whole) {
        whole.into_object()
    } else {
        drop(whole);
        None
    }
}
