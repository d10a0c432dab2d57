//! A level's cells taken over.
ghost use Rattle.std.specs.Prelude.{◌≡◌, [], ◌∷◌, ◌++◌, map, true, cond, Some, None, IfOk, IsTrue, OnOk, option_map};
ghost use Rattle.hub_cells.specs.Side as sides;
ghost use Rattle.hub_cells.specs.Answer.{CanCross};
ghost use Rattle.hub_cells.specs.Cell.{same};
ghost use Rattle.hub_cells.specs.Level.{CellFits, CellsFit, allows, names};
ghost use Rattle.hub_cells.specs.Seen.{side, kind, tuple, cell};
ghost use Rattle.kept_entries.specs.Entry.{are_in_order};
ghost use Rattle.keep_laws.specs.Entry.{put, kept_of};
ghost use Rattle.keep_laws.specs.Marked.{crossed_mark};
ghost use Rattle.keep_laws.specs.Body.{entry_of, read_cells};
ghost use Rattle.keep_laws.specs.Settle.{alive, living, CellsAllowed};
ghost use Rattle.keep_bodies.specs.inner.Left.{entries_left};
ghost use Rattle.keep_bodies.specs.inner.Turned.{turned};
ghost use Rattle.keep_bodies.specs.inner.Over.{tuple_here, mark_over, cell_fields, cell_kept};

use crate::entries::{keep, kept_of};
use crate::left::Left;
use crate::tuples::{copy_over, names_on, other, put_tuple, read_tuple, tuple_same};
use hub_cells::{Cell, CellKind, Crossed, Names, Side, Tuple, allowed_crosses, cross};
use kept_entries::Entry;
use kj_value::{JFields, NoMemory, copy};
use std::alloc::Global;

// Whether the values are kept beside what stands here: the other side allows them, they have no match
// here, and they show what stands here.
fn alive(
    alloc: Global,
    c: &Cell,
    from: Side,
    beside: &Tuple,
    kept: &Tuple,
) -> Result<bool, NoMemory>
    requires { CellFits (cell c.now) }
    ensures { IfOk result
        (λ b. b ≡ alive (side from) (cell c.now) (tuple beside.now) (tuple kept.now)) }
{
    allowed_crosses();
    let there = other(from);
    let allowed = c.allows(alloc, there, kept);
    if !allowed {
        return Ok(false);
    }
    let crossed = cross(alloc, c, there, kept)?;
    if crossed.matched {
        return Ok(false);
    }
    Ok(tuple_same(beside, &crossed.tuple))
}

// What is kept of the cell's other side, where it is alive.
fn living(
    alloc: Global,
    c: &Cell,
    from: Side,
    beside: &Tuple,
    kept: &Left<'_>,
) -> Result<Option<Tuple>, NoMemory>
    requires fits { CellFits (cell c.now) }
    requires order { are_in_order (entries_left kept.now) ≡ true }
    ensures { IfOk result (λ o. option_map tuple o ≡ living (side from) (cell c.now) (tuple beside.now)
        (kept_of (names (sides.other (side from)) (cell c.now)) (entries_left kept.entry.now))) }
{
    match kept_of(alloc, names_on(c, other(from)), kept)? {
        Some(values) => {
            let lives = alive(alloc, c, from, beside, &values)?;
            if lives { Ok(Some(values)) } else { Ok(None) }
        }
        None => Ok(None),
    }
}

// Whether the cell's values are equal on the two sides.
fn is_same(c: &Cell) -> bool
    ensures { IsTrue result → kind c.now.kind ≡ same }
{
    match &c.kind {
        CellKind::Same => true,
        CellKind::SpokeOnly => false,
        CellKind::HubOnly => false,
        CellKind::Split => false,
        CellKind::Table { .. } => false,
        CellKind::Scale { by: _ } => false,
    }
}

// Puts what the values cross to, and tells whether it matches them.
fn put_crossed(
    alloc: Global,
    c: &Cell,
    from: Side,
    values: &Tuple,
    fields: &mut JFields,
) -> Result<bool, NoMemory>
    requires { CanCross (side from) (kind c.now.kind) (tuple values.now) }
    ensures fields { OnOk result (fields.new ≡ put (names (sides.other (side from)) (cell c.now))
        (crossed_mark (side from) (kind c.now.kind) (tuple values.now) None).0 fields.old) }
    ensures matched { IfOk result (λ b. cond b None (Some (tuple values.now))
        ≡ (crossed_mark (side from) (kind c.now.kind) (tuple values.now) None).1) }
{
    let crossed = cross(alloc, c, from, values)?;
    let Crossed { tuple, matched } = crossed;
    put_tuple(alloc, names_on(c, other(from)), tuple, fields)?;
    Ok(matched)
}

// A cell with these values, of whose other side nothing that is kept is alive.
fn cross_values(
    alloc: Global,
    c: &Cell,
    from: Side,
    values: Tuple,
    fields: &mut JFields,
    entries: &mut Vec<Entry>,
) -> Result<(), NoMemory>
    requires { CanCross (side from) (kind c.now.kind) (tuple values) }
    ensures fields { OnOk result (fields.new ≡ put (names (sides.other (side from)) (cell c.now))
        (crossed_mark (side from) (kind c.now.kind) (tuple values) None).0 fields.old) }
    ensures entries { OnOk result (map turned entries.new.items ≡ map turned entries.old.items
        ++ entry_of (names (side from) (cell c.now))
        (crossed_mark (side from) (kind c.now.kind) (tuple values) None).1 []) }
{
    let matched = put_crossed(alloc, c, from, &values, fields)?;
    if matched {
        Ok(())
    } else {
        keep(alloc, names_on(c, from), values, entries)
    }
}

// A cell of whose other side nothing is kept. Where nothing stands at its names, nothing goes over.
fn cross_bare(
    alloc: Global,
    c: &Cell,
    from: Side,
    x: &JFields,
    fields: &mut JFields,
    entries: &mut Vec<Entry>,
) -> Result<(), NoMemory>
    requires fits { CellFits (cell c.now) }
    requires allowed { allows (side from) (cell c.now) (tuple_here (side from) (cell c.now) x.now) ≡ true }
    ensures fields { OnOk result (fields.new ≡ put (names (sides.other (side from)) (cell c.now))
        (mark_over (side from) (cell c.now) x.now []).0 fields.old) }
    ensures entries { OnOk result (map turned entries.new.items ≡ map turned entries.old.items
        ++ entry_of (names (side from) (cell c.now)) (mark_over (side from) (cell c.now) x.now []).1 []) }
{
    allowed_crosses();
    let own = names_on(c, from);
    match own {
        Names::Empty => Ok(()),
        Names::One(n) => match x.get(n.text.as_str()) {
            None => Ok(()),
            Some(v) => {
                let values = Tuple::One(Some(copy(alloc, v)?));
                cross_values(alloc, c, from, values, fields, entries)
            }
        },
        Names::Two(_, _) => {
            let values = read_tuple(alloc, own, x)?;
            cross_values(alloc, c, from, values, fields, entries)
        }
    }
}

// A cell with entries that may be kept of its other side.
fn cross_kept(
    alloc: Global,
    c: &Cell,
    from: Side,
    x: &JFields,
    kept: &Left<'_>,
    fields: &mut JFields,
    entries: &mut Vec<Entry>,
) -> Result<(), NoMemory>
    requires fits { CellFits (cell c.now) }
    requires order { are_in_order (entries_left kept.now) ≡ true }
    requires allowed { allows (side from) (cell c.now) (tuple_here (side from) (cell c.now) x.now) ≡ true }
    ensures fields { OnOk result (fields.new ≡ put (names (sides.other (side from)) (cell c.now))
        (mark_over (side from) (cell c.now) x.now (entries_left kept.entry.now)).0 fields.old) }
    ensures entries { OnOk result (map turned entries.new.items ≡ map turned entries.old.items
        ++ entry_of (names (side from) (cell c.now))
        (mark_over (side from) (cell c.now) x.now (entries_left kept.entry.now)).1 []) }
{
    allowed_crosses();
    let values = read_tuple(alloc, names_on(c, from), x)?;
    match living(alloc, c, from, &values, kept)? {
        Some(was) => put_tuple(alloc, names_on(c, other(from)), was, fields),
        None => cross_values(alloc, c, from, values, fields, entries),
    }
}

fn cross_cell(
    alloc: Global,
    c: &Cell,
    from: Side,
    x: &JFields,
    kept: &Left<'_>,
    fields: &mut JFields,
    entries: &mut Vec<Entry>,
) -> Result<(), NoMemory>
    requires fits { CellFits (cell c.now) }
    requires order { are_in_order (entries_left kept.now) ≡ true }
    requires allowed { allows (side from) (cell c.now) (tuple_here (side from) (cell c.now) x.now) ≡ true }
    ensures fields { OnOk result (fields.new ≡ put (names (sides.other (side from)) (cell c.now))
        (mark_over (side from) (cell c.now) x.now (entries_left kept.entry.now)).0 fields.old) }
    ensures entries { OnOk result (map turned entries.new.items ≡ map turned entries.old.items
        ++ entry_of (names (side from) (cell c.now))
        (mark_over (side from) (cell c.now) x.now (entries_left kept.entry.now)).1 []) }
{
    // Equal values are copied to where they go: nothing that is kept of them is alive.
    if is_same(c) {
        return copy_over(
            alloc,
            names_on(c, from),
            names_on(c, other(from)),
            x,
            fields,
        );
    }
    if kept.entries.is_empty() {
        return cross_bare(alloc, c, from, x, fields, entries);
    }
    cross_kept(alloc, c, from, x, kept, fields, entries)
}

pub(crate) fn cross_cells(
    alloc: Global,
    cells: &[Cell],
    from: Side,
    x: &JFields,
    kept: &Left<'_>,
    fields: &mut JFields,
    entries: &mut Vec<Entry>,
) -> Result<(), NoMemory>
    requires fits { CellsFit (map cell cells.now) }
    requires order { are_in_order (entries_left kept.now) ≡ true }
    requires allowed { CellsAllowed (side from) (map cell cells.now)
        (read_cells (side from) (map cell cells.now) x.now (entries_left kept.now)) }
    ensures fields { OnOk result (fields.new
        ≡ cell_fields (side from) (map cell cells.now) x.now (entries_left kept.entry.now) fields.old) }
    ensures entries { OnOk result (map turned entries.new.items ≡ map turned entries.old.items
        ++ cell_kept (side from) (map cell cells.now) x.now (entries_left kept.entry.now)) }
{
    for c in cells {
        cross_cell(alloc, c, from, x, kept, fields, entries)?;
    }
    Ok(())
}
