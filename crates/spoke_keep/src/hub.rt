//! From a spoke to the hub.
ghost use Rattle.std.specs.Prelude.{◌≡◌, ◌≤◌, ℕ, List, Some, true, slice_get, IfOk, IfErr};
ghost use Rattle.kube_meta.specs.View.{ObjectView, object_of};
ghost use Rattle.kj_value.specs.Fields.{field};
ghost use Rattle.kj_value.specs.Json.{depth};
ghost use Rattle.kept_entries.specs.Entry.{are_in_order};
ghost use Rattle.kept_entries.specs.declared.entry.Entry.{Entry};
ghost use Rattle.kept_entries.specs.Text.{kept_json};
ghost use Rattle.hub_cells.specs.Side as sides;
ghost use Rattle.keep_laws.specs.FittedBody.{IsBodyOf};
ghost use Rattle.keep_laws.specs.Settle.{converted};
ghost use Rattle.keep_laws.specs.Spokes as laws;
ghost use Rattle.keep_laws.specs.Pair.{IsPairOf};
ghost use Rattle.keep_laws.specs.Keys.{hub_key};
ghost use Rattle.keep_laws.specs.Notes.{Spells, with_entries};
ghost use Rattle.keep_laws.specs.WholeHub.{IsSettledAt, IsWholeHub};
ghost use Rattle.keep_laws.specs.Settling.{SettlesAtSpoke};
ghost use Rattle.keep_laws.specs.Over.{GoesOver};
ghost use Rattle.keep_laws.specs.Place.{StandsAt};
ghost use Rattle.spoke_keep.specs.Fault.{IsFaultOf};
ghost use Rattle.spoke_keep.specs.inner.Shaping.{ComesOver, IsShapeOf, ShapesOver};

use crate::carrying::carried_over;
use crate::fault::KeepFault;
use crate::form::{reshaped, shape_named};
use crate::keys::hub_key;
use crate::notes::{kept_at, put_kept};
use crate::spokes::{Spoke, Spokes};
use hub_cells::Side;
use hub_fills::Fills;
use keep_bodies::{KeptBody, complete, convert};
use keep_laws::object_laws::{given, going_over};
use kept_entries::{KEPT_LEVELS, Kept};
use kj_value::{JFields, NoMemory, TextMap};
use kube_meta::{Object, Shape};
use std::alloc::Global;
use std::mem;

/// The object of the hub that a spoke's object, which stands at place `v`, becomes: the whole one that is
/// paired with what `settle` leaves of it. A name that isn't there takes its default, that of the hub or else that
/// of the first spoke that has one, before the entries of other spokes are judged. Its metadata are moved. `BadKept` comes exactly where an annotation
/// that is read spells no entries.
pub fn to_hub(alloc: Global, all: &Spokes, v: u8, x: Object) -> Result<Object, KeepFault>
    requires { StandsAt all.now (Some v) (object_of x) }
    ensures over { (s : laws.Spoke) → slice_get all.now.items v ≡ Some s
        → IfOk result (λ h. GoesOver all.now s (object_of x) (object_of h)) }
    ensures whole { IfOk result (λ h. IsWholeHub all.now (object_of h)) }
    ensures pair { (s : laws.Spoke) → slice_get all.now.items v ≡ Some s → (y : ObjectView)
        → SettlesAtSpoke all.now s (object_of x) y → IfOk result (λ h. IsPairOf all.now s y (object_of h)) }
    ensures err { (s : laws.Spoke) → slice_get all.now.items v ≡ Some s
        → IfErr result (IsFaultOf all.now (Some s.name) x.meta.annotations) }
{
    going_over();
    let _ = all.items();
    let _ = x.body.len();
    over(alloc, all, all.at(v), all.fills_at(v), x)
}

pub(crate) fn over(
    alloc: Global,
    all: &Spokes,
    s: &Spoke,
    fills: &Fills,
    x: Object,
) -> Result<Object, KeepFault>
    requires place { (v : ℕ) × (slice_get all.now.items v ≡ Some s.now) }
    requires fills { fills.now ≡ laws.fills_at all.now s.now }
    requires body { IsBodyOf sides.spoke s.now.fit x.body }
    ensures over { IfOk result (λ h. GoesOver all.now s.now (object_of x) (object_of h)) }
    ensures err { IfErr result (IsFaultOf all.now (Some s.now.name) x.meta.annotations) }
{
    let mut hub = x;
    let annotations = mem::replace(&mut hub.meta.annotations, TextMap::new(alloc));
    match shape_over(alloc, all, s, fills, &hub.body, annotations) {
        Ok(made) => Ok(reshaped(hub, made)),
        Err(fault) => {
            drop(hub);
            Err(fault)
        }
    }
}

// The body at the hub of an object of a spoke, where this is kept of the hub: what comes over, completed, and what the hub can't
// hold beside it.
fn full_over(
    alloc: Global,
    all: &Spokes,
    s: &Spoke,
    fills: &Fills,
    body: &JFields,
    kept: &Kept,
) -> Result<KeptBody, NoMemory>
    requires place { (v : ℕ) × (slice_get all.now.items v ≡ Some s.now) }
    requires fills { fills.now ≡ laws.fills_at all.now s.now }
    requires body { IsBodyOf sides.spoke s.now.fit body.now }
    requires order { are_in_order kept.now ≡ true }
    ensures { IfOk result (λ m. ComesOver all.now s.now body.now kept.now m.fields m.kept) }
{
    given();
    let _ = all.items();
    let _ = body.len();
    let fitted = s.fitted();
    let KeptBody { fields, kept: left } = match convert(alloc, fitted, Side::Spoke, body, kept) {
        Ok(made) => made,
        Err(refused) => return Err(refused),
    };
    match complete(alloc, fitted, fills, fields) {
        Ok(full) => {
            let _ = full.len();
            Ok(KeptBody {
                fields: full,
                kept: left,
            })
        }
        Err(refused) => {
            drop(left);
            Err(refused)
        }
    }
}

// What an object of a spoke with this body and these annotations becomes at the hub.
fn shape_over(
    alloc: Global,
    all: &Spokes,
    s: &Spoke,
    fills: &Fills,
    body: &JFields,
    annotations: TextMap,
) -> Result<Shape, KeepFault>
    requires place { (v : ℕ) × (slice_get all.now.items v ≡ Some s.now) }
    requires fills { fills.now ≡ laws.fills_at all.now s.now }
    requires body { IsBodyOf sides.spoke s.now.fit body.now }
    ensures over { IfOk result (λ p. ShapesOver all.now s.now body.now annotations p) }
    ensures err { IfErr result (IsFaultOf all.now (Some s.now.name) annotations) }
{
    given();
    let _ = all.items();
    let kept = match kept_at(alloc, &annotations, hub_key()) {
        Ok(kept) => kept,
        Err(fault) => {
            drop(annotations);
            return Err(fault);
        }
    };
    let made = full_over(alloc, all, s, fills, body, &kept);
    drop(kept);
    let KeptBody {
        fields: full,
        kept: left,
    } = match made {
        Ok(made) => made,
        Err(NoMemory) => {
            drop(annotations);
            return Err(KeepFault::NoMemory);
        }
    };
    let notes = match carried_over(alloc, all, Some(s), &full, annotations) {
        Ok(notes) => notes,
        Err(fault) => {
            drop(full);
            drop(left);
            return Err(fault);
        }
    };
    let shape = shape_with(alloc, all, s, full, &left, notes);
    drop(left);
    match shape {
        Ok(shape) => Ok(shape),
        Err(NoMemory) => Err(KeepFault::NoMemory),
    }
}

// The shape at the hub of a body, where this is kept of the spoke, and these annotations beside.
fn shape_with(
    alloc: Global,
    all: &Spokes,
    s: &Spoke,
    body: JFields,
    left: &Kept,
    annotations: TextMap,
) -> Result<Shape, NoMemory>
    requires order { are_in_order left.now ≡ true }
    requires levels { depth (kept_json left.now) ≤ KEPT_LEVELS }
    ensures { IfOk result (IsShapeOf all.now s.now body left.now annotations) }
{
    let mut notes = annotations;
    match put_kept(alloc, s.key(), left, &mut notes) {
        Ok(()) => shape_named(alloc, all.group(), all.hub(), notes, body),
        Err(refused) => {
            drop(notes);
            drop(body);
            Err(refused)
        }
    }
}

/// The object of the hub that a settled object of the spoke at place `v` becomes. Its metadata are moved. What its
/// annotations keep of other spokes isn't asked, since all of it is alive, and no name is completed, since each that has
/// a default is there.
pub fn back_to_hub(alloc: Global, all: &Spokes, v: u8, x: Object) -> Result<Object, NoMemory>
    requires { (s : laws.Spoke) × (slice_get all.now.items v ≡ Some s) × IsSettledAt all.now s (object_of x) }
    ensures { (s : laws.Spoke) → slice_get all.now.items v ≡ Some s
        → IfOk result (λ h. GoesOver all.now s (object_of x) (object_of h)) }
{
    back(alloc, all, all.at(v), x)
}

// What a settled object of a spoke keeps of the hub. It can be read.
fn hub_kept(alloc: Global, annotations: &TextMap) -> Result<Kept, NoMemory>
    requires { (all : laws.Spokes) × (s : laws.Spoke) × (x : ObjectView) × (x.meta.annotations ≡ annotations.now) × IsSettledAt all s x }
    ensures { IfOk result (Spells (field hub_key annotations.now)) }
{
    match kept_at(alloc, annotations, hub_key()) {
        Ok(kept) => Ok(kept),
        Err(KeepFault::NoMemory) => Err(NoMemory),
        Err(KeepFault::BadKept { annotation: _ }) => unreachable!(),
    }
}

fn back(alloc: Global, all: &Spokes, s: &Spoke, x: Object) -> Result<Object, NoMemory>
    requires place { (v : ℕ) × (slice_get all.now.items v ≡ Some s.now) }
    requires settled { IsSettledAt all.now s.now (object_of x) }
    ensures { IfOk result (λ h. GoesOver all.now s.now (object_of x) (object_of h)) }
{
    let mut hub = x;
    let annotations = mem::replace(&mut hub.meta.annotations, TextMap::new(alloc));
    match shape_back(alloc, all, s, &hub.body, annotations) {
        Ok(made) => Ok(reshaped(hub, made)),
        Err(refused) => {
            drop(hub);
            Err(refused)
        }
    }
}

// The body at the hub of a settled object of a spoke with these annotations, and what the hub can't hold beside it.
fn body_back(
    alloc: Global,
    all: &Spokes,
    s: &Spoke,
    body: &JFields,
    annotations: &TextMap,
) -> Result<KeptBody, NoMemory>
    requires place { (v : ℕ) × (slice_get all.now.items v ≡ Some s.now) }
    requires settled { (x : ObjectView) × (x.body ≡ body.now) × (x.meta.annotations ≡ annotations.now) × IsSettledAt all.now s.now x }
    ensures { IfOk result (λ m. (es : List Entry) × Spells (field hub_key annotations.now) es
        × (with_entries m.fields m.kept ≡ converted sides.spoke s.now.fit.level (with_entries body.now es))) }
{
    given();
    let _ = all.items();
    let _ = body.len();
    match hub_kept(alloc, annotations) {
        Ok(kept) => {
            let made = convert(alloc, s.fitted(), Side::Spoke, body, &kept);
            drop(kept);
            made
        }
        Err(refused) => Err(refused),
    }
}

// What a settled object of a spoke with this body and these annotations becomes at the hub.
fn shape_back(
    alloc: Global,
    all: &Spokes,
    s: &Spoke,
    body: &JFields,
    annotations: TextMap,
) -> Result<Shape, NoMemory>
    requires place { (v : ℕ) × (slice_get all.now.items v ≡ Some s.now) }
    requires settled { (x : ObjectView) × (x.body ≡ body.now) × (x.meta.annotations ≡ annotations) × IsSettledAt all.now s.now x }
    ensures { IfOk result (λ p. ShapesOver all.now s.now body.now annotations p) }
{
    given();
    let _ = all.items();
    let _ = body.len();
    let mut notes = annotations;
    match body_back(alloc, all, s, body, &notes) {
        Ok(made) => {
            let KeptBody { fields, kept: left } = made;
            drop(notes.remove(hub_key()));
            let shape = shape_with(alloc, all, s, fields, &left, notes);
            drop(left);
            shape
        }
        Err(refused) => {
            drop(notes);
            Err(refused)
        }
    }
}
