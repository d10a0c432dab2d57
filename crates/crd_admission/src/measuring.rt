//! The measure of an object.
ghost use Rattle.std.specs.Prelude.{◌≡◌, ◌<◌, ◌≤◌, map, MatchOption};
ghost use Rattle.kj_value.specs.Pair.{pair_of};
ghost use Rattle.kube_meta.specs.View.{meta_of, object_of};
ghost use Rattle.api_calls.specs.Meaning.{measure};
ghost use Rattle.kube_meta.specs.Shapes.{shaped};
ghost use Rattle.crd_admission.specs.inner.Count.{Leaves, document_bytes, is_own, other_bytes, total};

use crate::measured_meta::{metadata, named, text_at};
use crate::values::{field, spend};
use kj_value::{Field, JFields, TextMap, Txt};
use kube_meta::{Object, Shape};

/// How many bytes the object's stored text has at most: with two stamps of 20 bytes, the generation 2^63 - 1, and
/// without number and uid. `None` where that is more than the limit. It takes no memory.
pub fn measure_within(x: &Object, limit: u64) -> Option<u64>
    ensures { MatchOption result (limit < measure (object_of x.now))
        (λ n. (n ≡ measure (object_of x.now)) × (n ≤ limit)) }
{
    let _ = x.body.len();
    match document(limit, &x.api_version, x, &x.meta.annotations, &x.body) {
        Some(left) => Some(limit - left),
        None => None,
    }
}

/// The same of what an object of the hub becomes at a spoke.
pub(crate) fn measure_shape(h: &Object, p: &Shape, limit: u64) -> Option<u64>
    ensures { MatchOption result (limit < measure (shaped p.now (object_of h.now)))
        (λ n. (n ≡ measure (shaped p.now (object_of h.now))) × (n ≤ limit)) }
{
    let _ = p.body.len();
    match document(limit, &p.version, h, &p.notes, &p.body) {
        Some(left) => Some(limit - left),
        None => None,
    }
}

// The document of an object of this version, these annotations and this body.
fn document(left: u64, version: &Txt, o: &Object, notes: &TextMap, body: &JFields) -> Option<u64>
    ensures { Leaves left (document_bytes (record {
      api_version = version.now.bytes;
      kind = o.now.kind.bytes;
      meta = record (meta_of o.now.meta) { annotations = notes.now };
      body = body.now;
    })) result }
{
    let rest = text_at(left, "apiVersion", version.as_str())?;
    let rest = text_at(rest, "kind", o.kind.as_str())?;
    let rest = named(rest, "metadata")?;
    let rest = metadata(rest, &o.meta, notes)?;
    let rest = others(rest, body.as_slice())?;
    spend(rest, 1)
}

fn others(left: u64, fields: &[Field]) -> Option<u64>
    ensures { Leaves left (total other_bytes (map pair_of fields.now)) result }
{
    let mut rest = left;
    for f in fields {
        rest = other(rest, f)?;
    }
    Some(rest)
}

// A field of the body, which isn't written where a field of the object's own stands in its place.
fn other(left: u64, f: &Field) -> Option<u64>
    ensures { Leaves left (other_bytes (pair_of f.now)) result }
{
    if is_own(f.name.as_str()) {
        return Some(left);
    }
    field(left, f)
}

fn is_own(name: &str) -> bool
    ensures { result ≡ is_own name.now }
{
    name == "apiVersion" || name == "kind" || name == "metadata"
}
