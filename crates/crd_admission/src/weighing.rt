//! What a hub value takes at most, whichever version it is stored at.
ghost use Rattle.std.specs.Prelude.{◌≡◌, ◌<◌, ◌≤◌, max, IfOk};
ghost use Rattle.kube_meta.specs.View.{ObjectView, object_of};
ghost use Rattle.api_calls.specs.Meaning.{chunks};
ghost use Rattle.keep_laws.specs.WholeHub.{IsWholeHub};
ghost use Rattle.crd_meaning.specs.declared.limits.TheConstants.{MAX_MEASURE};
ghost use Rattle.crd_meaning.specs.Definition.{Definition, count_of};
ghost use Rattle.crd_meaning.specs.Objects.{IsFormAt, IsWholeValue};
ghost use Rattle.crd_admission.specs.inner.Weighing.{IsKept, IsMeasure, IsWeightOf, form_of};

use crate::measuring::{measure_shape, measure_within};
use crate::versions::count;
use crd_loading::LoadedVersions;
use crd_meaning::{MAX_MEASURE, one_to_one};
use kj_value::NoMemory;
use kube_meta::{Object, Shape};
use spoke_keep::shape_at;
use std::alloc::Global;

/// The bytes of a chunk.
const CHUNK: u64 = 256;

fn chunks(bytes: u64) -> u64
    requires { bytes ≤ MAX_MEASURE }
    ensures { result ≡ chunks bytes }
{
    (bytes + (CHUNK - 1)) / CHUNK
}

fn heavier(most: u64, bytes: u64) -> u64
    requires { bytes ≤ MAX_MEASURE }
    ensures { result ≡ max most (chunks bytes) }
{
    most.max(chunks(bytes))
}

// What the hub value becomes at the version, or `None` at the hub, where it stays what it is.
fn form_at(
    alloc: Global,
    set: &LoadedVersions,
    h: &Object,
    v: u8,
) -> Result<Option<Shape>, NoMemory>
    requires known { v < count_of set.now }
    requires whole { IsWholeHub set.now.spokes (object_of h.now) }
    ensures { IfOk result (λ s. IsFormAt set.now v (object_of h.now) (form_of s (object_of h.now))) }
{
    match set.place(v) {
        None => Ok(None),
        Some(p) => {
            let form = shape_at(alloc, set.spokes(), p, h)?;
            Ok(Some(form))
        }
    }
}

// The measure of the form, or `None` where it is too large.
fn measured(h: &Object, form: &Option<Shape>) -> Option<u64>
    ensures { IsMeasure (form_of form.now (object_of h.now)) result }
{
    match form {
        None => measure_within(h, MAX_MEASURE),
        Some(form) => measure_shape(h, form, MAX_MEASURE),
    }
}

// What is kept of the forms up to the one of this version: the one at the storage version.
fn kept(v: u8, storage: u8, form: Option<Shape>, before: Option<Shape>) -> Option<Shape>
    ensures { (d : Definition) (h : ObjectView) → IsFormAt d v h (form_of form h) → IsKept d storage h before → IsKept d storage h result }
{
    if v == storage {
        drop(before);
        form
    } else {
        drop(form);
        before
    }
}

/// The weight of a hub value in chunks of 256 bytes, and what it becomes at the version of the place `storage`, where that is
/// another than the hub; or `None` where its measure is above 262,144 bytes at some version.
pub(crate) fn weigh(
    alloc: Global,
    set: &LoadedVersions,
    h: &Object,
    storage: u8,
) -> Result<Option<(u64, Option<Shape>)>, NoMemory>
    requires { IsWholeValue set.now (object_of h.now) }
    ensures { IfOk result (IsWeightOf set.now (object_of h.now) storage) }
{
    one_to_one();
    let versions = count(set);
    let mut most = 0u64;
    let mut stored: Option<Shape> = None;
    for v in 0..versions {
        let form = match form_at(alloc, set, h, v) {
            Ok(form) => form,
            Err(NoMemory) => {
                drop(stored);
                return Err(NoMemory);
            }
        };
        let Some(bytes) = measured(h, &form) else {
            drop(form);
            drop(stored);
            return Ok(None);
        };
        most = heavier(most, bytes);
        stored = kept(v, storage, form, stored);
    }
    Ok(Some((most, stored)))
}
