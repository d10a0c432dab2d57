//! Whether a node may have its default.
ghost use Rattle.std.specs.Prelude.{◌≡◌, ◌∷◌, [], Some, None, MatchResult, option_map};
ghost use Rattle.kj_value.specs.Json.{members_of};
ghost use Rattle.kj_value.specs.Seen.{json};
ghost use Rattle.struct_schema.specs.Names.{value_at};
ghost use Rattle.struct_schema.specs.ShapeOf.{shape_of};
ghost use Rattle.struct_schema.specs.Stays.{stays};
ghost use Rattle.schema_reading.specs.Words.{word};
ghost use Rattle.schema_reading.specs.Visits.{default_allowed};

use crate::walk::MAX_DEFAULT_DEPTH;
use kj_value::{JVal, depth, sound};
use std::alloc::Global;
use struct_schema::{Schema, check, is_filled};

fn is_own_filling(s: &Schema, v: &JVal) -> bool
    ensures { result ≡ stays (shape_of s.now) (json v.now) }
{
    sound(v);
    is_filled(s, v)
}

// Whether the value may be the default of a node with this schema.
pub(crate) fn default_allowed(alloc: Global, root: bool, s: &Schema, v: &JVal) -> bool
    ensures { result ≡ default_allowed root (shape_of s.now) (json v.now) }
{
    if root {
        return false;
    }
    if check(alloc, s, v).is_err() {
        return false;
    }
    is_own_filling(s, v) && depth(v) <= MAX_DEFAULT_DEPTH
}
