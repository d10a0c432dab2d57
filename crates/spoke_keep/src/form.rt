//! From the hub to a spoke.
ghost use Rattle.std.specs.Prelude.{◌≡◌, ◌<◌, ◌≤◌, ℕ, List, Option, Some, true, length, slice_get, IfOk};
ghost use Rattle.kj_value.specs.Json.{depth};
ghost use Rattle.kj_value.specs.Fields.{without_field};
ghost use Rattle.kube_meta.specs.View.{object_of};
ghost use Rattle.kube_meta.specs.Shapes.{shaped};
ghost use Rattle.kept_entries.specs.Entry.{are_in_order};
ghost use Rattle.kept_entries.specs.Text.{kept_json};
ghost use Rattle.kept_entries.specs.declared.entry.Entry.{Entry};
ghost use Rattle.hub_cells.specs.Side as sides;
ghost use Rattle.hub_cells.specs.Level.{Name};
ghost use Rattle.keep_laws.specs.Settle.{converted};
ghost use Rattle.keep_laws.specs.Spokes as laws;
ghost use Rattle.keep_laws.specs.Spokes.{api_version};
ghost use Rattle.keep_laws.specs.Keys.{hub_key, spoke_key};
ghost use Rattle.keep_laws.specs.Notes.{noted, Spells, IsNoteOf, with_note, with_entries};
ghost use Rattle.keep_laws.specs.Pair.{IsPairOf};
ghost use Rattle.keep_laws.specs.WholeHub.{IsWholeHub, IsSettledAt};
ghost use Rattle.spoke_keep.specs.inner.Shaping.{IsMadeOf};

use crate::fault::KeepFault;
use crate::keys::{hub_key, version_text};
use crate::notes::{kept_at, put_kept};
use crate::spokes::{Spoke, Spokes};
use hub_cells::Side;
use keep_bodies::{KeptBody, convert};
use keep_laws::object_laws::given;
use kept_entries::{KEPT_LEVELS, Kept};
use kj_value::{JFields, NoMemory, TextMap, Txt};
use kube_meta::{Object, Shape, copy_shaped};
use std::alloc::Global;

/// What a whole object of the hub becomes at the spoke at place `v`.
pub fn shape_at(alloc: Global, all: &Spokes, v: u8, h: &Object) -> Result<Shape, NoMemory>
    requires place { v < length all.now.items }
    requires whole { IsWholeHub all.now (object_of h.now) }
    ensures pair { (s : laws.Spoke) → slice_get all.now.items v ≡ Some s
        → IfOk result (λ p. IsPairOf all.now s (shaped p (object_of h.now)) (object_of h.now)) }
    ensures settled { (s : laws.Spoke) → slice_get all.now.items v ≡ Some s
        → IfOk result (λ p. IsSettledAt all.now s (shaped p (object_of h.now))) }
{
    shape_for(alloc, all, all.at(v), h)
}

/// The object of the spoke at place `v` that pairs with a whole object of the hub.
pub fn from_hub(alloc: Global, all: &Spokes, v: u8, h: &Object) -> Result<Object, NoMemory>
    requires place { v < length all.now.items }
    requires whole { IsWholeHub all.now (object_of h.now) }
    ensures pair { (s : laws.Spoke) → slice_get all.now.items v ≡ Some s
        → IfOk result (λ x. IsPairOf all.now s (object_of x) (object_of h.now)) }
    ensures settled { (s : laws.Spoke) → slice_get all.now.items v ≡ Some s
        → IfOk result (λ x. IsSettledAt all.now s (object_of x)) }
{
    form(alloc, all, all.at(v), h)
}

/// The same object, where the hub's isn't wanted any more: its metadata are moved.
pub fn into_spoke(alloc: Global, all: &Spokes, v: u8, h: Object) -> Result<Object, NoMemory>
    requires place { v < length all.now.items }
    requires whole { IsWholeHub all.now (object_of h) }
    ensures pair { (s : laws.Spoke) → slice_get all.now.items v ≡ Some s
        → IfOk result (λ x. IsPairOf all.now s (object_of x) (object_of h)) }
    ensures settled { (s : laws.Spoke) → slice_get all.now.items v ≡ Some s
        → IfOk result (λ x. IsSettledAt all.now s (object_of x)) }
{
    formed(alloc, all, all.at(v), h)
}

// What a whole object keeps of the spoke. It can be read.
fn own_kept(alloc: Global, all: &Spokes, s: &Spoke, h: &Object) -> Result<Kept, NoMemory>
    requires place { (v : ℕ) × (slice_get all.now.items v ≡ Some s.now) }
    requires whole { IsWholeHub all.now (object_of h.now) }
    ensures { IfOk result (Spells (noted (spoke_key s.now.name) (object_of h.now))) }
{
    given();
    let _ = all.items();
    match kept_at(alloc, &h.meta.annotations, s.key()) {
        Ok(kept) => Ok(kept),
        Err(KeepFault::NoMemory) => Err(NoMemory),
        Err(KeepFault::BadKept { annotation: _ }) => unreachable!(),
    }
}

// The body at a spoke of a whole object, and what the spoke can't hold beside it.
fn body_for(alloc: Global, all: &Spokes, s: &Spoke, h: &Object) -> Result<KeptBody, NoMemory>
    requires place { (v : ℕ) × (slice_get all.now.items v ≡ Some s.now) }
    requires whole { IsWholeHub all.now (object_of h.now) }
    ensures { IfOk result (λ m. (es : List Entry) × Spells (noted (spoke_key s.now.name) (object_of h.now)) es
        × (with_entries m.fields m.kept ≡ converted sides.hub s.now.fit.level (with_entries h.now.body es))) }
{
    given();
    let _ = all.items();
    match own_kept(alloc, all, s, h) {
        Ok(kept) => {
            let made = convert(alloc, s.fitted(), Side::Hub, &h.body, &kept);
            drop(kept);
            made
        }
        Err(refused) => Err(refused),
    }
}

// A copy of annotations without that of the key, and with what is kept of the hub.
fn notes_for(
    alloc: Global,
    key: &str,
    annotations: &TextMap,
    left: &Kept,
) -> Result<TextMap, NoMemory>
    requires order { are_in_order left.now ≡ true }
    requires levels { depth (kept_json left.now) ≤ KEPT_LEVELS }
    ensures { IfOk result (λ ns. (o : Option Name) × IsNoteOf left.now o
        × (ns ≡ with_note hub_key o (without_field key.now annotations.now))) }
{
    match annotations.copied(alloc) {
        Ok(copy) => {
            let mut notes = copy;
            drop(notes.remove(key));
            match put_kept(alloc, hub_key(), left, &mut notes) {
                Ok(()) => Ok(notes),
                Err(refused) => {
                    drop(notes);
                    Err(refused)
                }
            }
        }
        Err(refused) => Err(refused),
    }
}

// The shape at the version of this name, with these annotations and this body.
pub(crate) fn shape_named(
    alloc: Global,
    group: &Txt,
    name: &Txt,
    notes: TextMap,
    body: JFields,
) -> Result<Shape, NoMemory>
    ensures { IfOk result (λ p. IsMadeOf (api_version group.now.bytes name.now.bytes) notes body p) }
{
    let _ = notes.len();
    let _ = body.len();
    match version_text(alloc, group, name) {
        Ok(version) => Ok(Shape {
            version,
            notes,
            body,
        }),
        Err(refused) => {
            drop(notes);
            drop(body);
            Err(refused)
        }
    }
}

fn shape_for(alloc: Global, all: &Spokes, s: &Spoke, h: &Object) -> Result<Shape, NoMemory>
    requires place { (v : ℕ) × (slice_get all.now.items v ≡ Some s.now) }
    requires whole { IsWholeHub all.now (object_of h.now) }
    ensures pair { IfOk result (λ p. IsPairOf all.now s.now (shaped p (object_of h.now)) (object_of h.now)) }
    ensures settled { IfOk result (λ p. IsSettledAt all.now s.now (shaped p (object_of h.now))) }
{
    given();
    let _ = all.items();
    let KeptBody { fields, kept: left } = match body_for(alloc, all, s, h) {
        Ok(made) => made,
        Err(refused) => return Err(refused),
    };
    let notes = notes_for(alloc, s.key(), &h.meta.annotations, &left);
    drop(left);
    match notes {
        Ok(notes) => shape_named(alloc, all.group(), s.name(), notes, fields),
        Err(refused) => {
            drop(fields);
            Err(refused)
        }
    }
}

// The object of a shape, its kind and its other metadata copied.
fn form(alloc: Global, all: &Spokes, s: &Spoke, h: &Object) -> Result<Object, NoMemory>
    requires place { (v : ℕ) × (slice_get all.now.items v ≡ Some s.now) }
    requires whole { IsWholeHub all.now (object_of h.now) }
    ensures pair { IfOk result (λ x. IsPairOf all.now s.now (object_of x) (object_of h.now)) }
    ensures settled { IfOk result (λ x. IsSettledAt all.now s.now (object_of x)) }
{
    match shape_for(alloc, all, s, h) {
        Ok(made) => copy_shaped(alloc, h, made),
        Err(refused) => Err(refused),
    }
}

// The object of a shape, its kind and its other metadata moved.
pub(crate) fn formed(alloc: Global, all: &Spokes, s: &Spoke, h: Object) -> Result<Object, NoMemory>
    requires place { (v : ℕ) × (slice_get all.now.items v ≡ Some s.now) }
    requires whole { IsWholeHub all.now (object_of h) }
    ensures pair { IfOk result (λ x. IsPairOf all.now s.now (object_of x) (object_of h)) }
    ensures settled { IfOk result (λ x. IsSettledAt all.now s.now (object_of x)) }
{
    match shape_for(alloc, all, s, &h) {
        Ok(made) => Ok(reshaped(h, made)),
        Err(refused) => {
            drop(h);
            Err(refused)
        }
    }
}

// The object of a shape, its kind and its other metadata moved.
#[inline(always)]
pub(crate) fn reshaped(h: Object, p: Shape) -> Object
    ensures { object_of result ≡ shaped p (object_of h) }
{
    let Shape {
        version,
        notes,
        body,
    } = p;
    let Object {
        api_version,
        kind,
        meta,
        body: old,
    } = h;
    drop(api_version);
    drop(old);
    let mut rest = meta;
    rest.annotations = notes;
    Object {
        api_version: version,
        kind,
        meta: rest,
        body,
    }
}
