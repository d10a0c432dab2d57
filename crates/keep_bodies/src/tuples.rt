//! The values at a cell's names, read and put.
ghost use Rattle.std.specs.Prelude.{◌≡◌, [], ◌∷◌, map, true, IfOk, OnOk, option_map};
ghost use Rattle.kj_value.specs.Seen.{json};
ghost use Rattle.kj_value.specs.Fields.{field};
ghost use Rattle.hub_cells.specs.Side as sides;
ghost use Rattle.hub_cells.specs.Level.{Place, tuple_of, places, names};
ghost use Rattle.hub_cells.specs.Seen.{side, tuple, place_list, cell};
ghost use Rattle.keep_laws.specs.Entry.{put};
ghost use Rattle.keep_laws.specs.Body.{object_in};
ghost use Rattle.keep_laws.specs.Settle.{value_same, tuple_same};
ghost use Rattle.keep_bodies.specs.inner.Names.{name_list};

use hub_cells::{Cell, Name, Names, Side, Tuple};
use kj_value::{JFields, JVal, NoMemory, Txt, copy, same};
use std::alloc::Global;

pub(crate) fn other(on: Side) -> Side
    ensures { side result ≡ sides.other (side on) }
{
    match on {
        Side::Spoke => Side::Hub,
        Side::Hub => Side::Spoke,
    }
}

pub(crate) fn names_on(c: &Cell, on: Side) -> &Names
    ensures { name_list result.now ≡ names (side on) (cell c.entry.now) }
{
    match on {
        Side::Spoke => &c.spoke,
        Side::Hub => &c.hub,
    }
}

fn value_at(alloc: Global, name: &Name, x: &JFields) -> Result<Option<JVal>, NoMemory>
    ensures { IfOk result (λ o. option_map json o ≡ field name.now.text.bytes x.now) }
{
    match x.get(name.text.as_str()) {
        Some(v) => Ok(Some(copy(alloc, v)?)),
        None => Ok(None),
    }
}

pub(crate) fn read_tuple(alloc: Global, names: &Names, x: &JFields) -> Result<Tuple, NoMemory>
    ensures { IfOk result (λ t. tuple t ≡ tuple_of (name_list names.now) x.now) }
{
    match names {
        Names::Empty => Ok(Tuple::Empty),
        Names::One(n) => Ok(Tuple::One(value_at(alloc, n, x)?)),
        Names::Two(m, n) => {
            let first = value_at(alloc, m, x)?;
            let second = value_at(alloc, n, x)?;
            Ok(Tuple::Two(first, second))
        }
    }
}

fn put_value(
    alloc: Global,
    name: &Name,
    value: Option<JVal>,
    into: &mut JFields,
) -> Result<(), NoMemory>
    ensures { OnOk result (into.new
        ≡ put (name.now.text.bytes ∷ []) (option_map json value ∷ []) into.old) }
{
    match value {
        Some(v) => {
            let at = Txt::of(alloc, name.text.as_str())?;
            into.set(at, v)
        }
        None => Ok(()),
    }
}

pub(crate) fn put_tuple(
    alloc: Global,
    names: &Names,
    values: Tuple,
    into: &mut JFields,
) -> Result<(), NoMemory>
    ensures { OnOk result (into.new ≡ put (name_list names.now) (tuple values) into.old) }
{
    match names {
        Names::Empty => Ok(()),
        Names::One(n) => match values {
            Tuple::Empty => Ok(()),
            Tuple::One(v) => put_value(alloc, n, v, into),
            Tuple::Two(v, _) => put_value(alloc, n, v, into),
        },
        Names::Two(m, n) => match values {
            Tuple::Empty => Ok(()),
            Tuple::One(v) => put_value(alloc, m, v, into),
            Tuple::Two(v, w) => {
                put_value(alloc, m, v, into)?;
                put_value(alloc, n, w, into)
            }
        },
    }
}

// The value at the name `own`, where there is one, copied to the name `theirs`.
fn copy_value(
    alloc: Global,
    own: &Name,
    theirs: &Name,
    x: &JFields,
    into: &mut JFields,
) -> Result<(), NoMemory>
    ensures { OnOk result (into.new
        ≡ put (theirs.now.text.bytes ∷ []) (field own.now.text.bytes x.now ∷ []) into.old) }
{
    match x.get(own.text.as_str()) {
        Some(v) => {
            let copied = copy(alloc, v)?;
            into.set(Txt::of(alloc, theirs.text.as_str())?, copied)
        }
        None => Ok(()),
    }
}

// The values at the names `own`, copied to the names `theirs`.
pub(crate) fn copy_over(
    alloc: Global,
    own: &Names,
    theirs: &Names,
    x: &JFields,
    into: &mut JFields,
) -> Result<(), NoMemory>
    ensures { OnOk result (into.new
        ≡ put (name_list theirs.now) (tuple_of (name_list own.now) x.now) into.old) }
{
    match (own, theirs) {
        (Names::One(m), Names::One(n)) => copy_value(alloc, m, n, x, into),
        _ => {
            let values = read_tuple(alloc, own, x)?;
            put_tuple(alloc, theirs, values, into)
        }
    }
}

fn value_same(a: &Option<JVal>, b: &Option<JVal>) -> bool
    ensures { result ≡ value_same (option_map json a.now) (option_map json b.now) }
{
    match (a, b) {
        (None, None) => true,
        (Some(v), Some(w)) => same(v, w),
        (None, Some(_)) => false,
        (Some(_), None) => false,
    }
}

pub(crate) fn tuple_same(a: &Tuple, b: &Tuple) -> bool
    ensures { result ≡ tuple_same (tuple a.now) (tuple b.now) }
{
    match (a, b) {
        (Tuple::Empty, Tuple::Empty) => true,
        (Tuple::One(v), Tuple::One(w)) => value_same(v, w),
        (Tuple::Two(v, w), Tuple::Two(x, y)) => value_same(v, x) && value_same(w, y),
        (Tuple::Empty, Tuple::One(_)) => false,
        (Tuple::Empty, Tuple::Two(_, _)) => false,
        (Tuple::One(_), Tuple::Empty) => false,
        (Tuple::One(_), Tuple::Two(_, _)) => false,
        (Tuple::Two(_, _), Tuple::Empty) => false,
        (Tuple::Two(_, _), Tuple::One(_)) => false,
    }
}

// The object at a name, where there is one.
pub(crate) fn object_at<'a>(x: &'a JFields, name: &str) -> Option<&'a JFields>
    ensures { option_map (λ y. y.now) result ≡ object_in (field name.entry.now x.entry.now) }
{
    match x.get(name) {
        Some(v) => v.as_object(),
        None => None,
    }
}
