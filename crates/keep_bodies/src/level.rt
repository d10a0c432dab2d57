//! A level taken over with its inner objects.
ghost use Rattle.std.specs.Prelude.{◌≡◌, true, [], ◌∷◌, ◌++◌, map, IfOk, OnOk};
ghost use Rattle.kj_value.specs.Fields.{field};
ghost use Rattle.kj_value.specs.Texts.{bytes_of};
ghost use Rattle.hub_cells.specs.Side as sides;
ghost use Rattle.hub_cells.specs.Level.{named};
ghost use Rattle.hub_cells.specs.Seen.{side};
ghost use Rattle.hub_cells.specs.SeenFit.{inners_of};
ghost use Rattle.kept_entries.specs.Entry.{are_in_order};
ghost use Rattle.keep_laws.specs.Entry.{put, inside, under};
ghost use Rattle.keep_laws.specs.Marked.{IfThere, OrAbsent, there};
ghost use Rattle.keep_laws.specs.Body.{object_in, as_field, body, all_entries, with_inside, read, read_inners};
ghost use Rattle.keep_laws.specs.Settle.{IsAllowed, InnersAllowed};
ghost use Rattle.keep_bodies.specs.inner.Left.{entries_left};
ghost use Rattle.keep_bodies.specs.inner.Turned.{turned};
ghost use Rattle.keep_bodies.specs.inner.Over.{marks_over, inner_marks, inner_fields, inner_kept};

use crate::crossing::cross_cells;
use crate::left::{Left, inside};
use crate::tuples::{object_at, other};
use crate::under::put_under;
use hub_cells::{Fitted, Inner, Side};
use kept_entries::Entry;
use kj_value::{JFields, JVal, NoMemory, Txt};
use std::alloc::Global;

// A body, and the entries that go with it, in the order of the level's cells and inner objects.
#[derive(Drop)]
pub(crate) struct Made {
    pub(crate) fields: JFields,
    pub(crate) entries: Vec<Entry>,
}

#[cycle(over)]
pub(crate) fn level_over(
    alloc: Global,
    f: &Fitted,
    from: Side,
    x: &JFields,
    kept: &Left<'_>,
) -> Result<Made, NoMemory>
    requires order { are_in_order (entries_left kept.now) ≡ true }
    requires allowed { IsAllowed (side from) f.now.level (read (side from) f.now.level x.now (entries_left kept.now)) }
    ensures fields { IfOk result (λ m. m.fields ≡ body (sides.other (side from)) f.now.level
        (marks_over (side from) f.now.level x.now (entries_left kept.entry.now))) }
    ensures entries { IfOk result (λ m. map turned m.entries.items ≡ all_entries (sides.other (side from)) f.now.level
        (marks_over (side from) f.now.level x.now (entries_left kept.entry.now))) }
{
    let cells = f.cells();
    let inner = f.inner();
    // A cell may have two names here, and the document of an object adds three fields.
    let names = cells.len().saturating_add(inner.len());
    let mut fields = JFields::with_room(alloc, names.saturating_add(4))?;
    let mut entries = Vec::new(alloc);
    cross_cells(alloc, cells, from, x, kept, &mut fields, &mut entries)?;
    inners_over(alloc, inner, from, x, kept, &mut fields, &mut entries)?;
    Ok(Made { fields, entries })
}

#[cycle(over)]
#[tactic(auto, using(hub_cells::specs::laws::Inside::inner_depth))]
fn inners_over(
    alloc: Global,
    inners: &[Inner],
    from: Side,
    x: &JFields,
    kept: &Left<'_>,
    fields: &mut JFields,
    entries: &mut Vec<Entry>,
) -> Result<(), NoMemory>
    requires order { are_in_order (entries_left kept.now) ≡ true }
    requires allowed { InnersAllowed (side from) (inners_of inners.now)
        (read_inners (side from) (inners_of inners.now) x.now (entries_left kept.now)) }
    ensures fields { OnOk result (fields.new
        ≡ inner_fields (side from) (inners_of inners.now) x.now (entries_left kept.entry.now) fields.old) }
    ensures entries { OnOk result (map turned entries.new.items ≡ map turned entries.old.items
        ++ inner_kept (side from) (inners_of inners.now) x.now (entries_left kept.entry.now)) }
{
    for o in inners {
        inner_over(alloc, o, from, x, kept, fields, entries)?;
    }
    Ok(())
}

fn inner_name(o: &Inner, on: Side) -> &Txt
    ensures { result.now.bytes ≡ named (side on) o.entry.now.spoke.bytes o.entry.now.hub.bytes }
{
    match on {
        Side::Spoke => &o.spoke,
        Side::Hub => &o.hub,
    }
}

#[cycle(over)]
fn inner_over(
    alloc: Global,
    o: &Inner,
    from: Side,
    x: &JFields,
    kept: &Left<'_>,
    fields: &mut JFields,
    entries: &mut Vec<Entry>,
) -> Result<(), NoMemory>
    requires order { are_in_order (entries_left kept.now) ≡ true }
    requires allowed { OrAbsent o.now.required (IsAllowed (side from) o.now.fitted.level)
        (there (λ y. read (side from) o.now.fitted.level y
        (inside (named (sides.other (side from)) o.now.spoke.bytes o.now.hub.bytes) (entries_left kept.now)))
        (object_in (field (named (side from) o.now.spoke.bytes o.now.hub.bytes) x.now))) }
    ensures fields { OnOk result (fields.new ≡ put (named (sides.other (side from)) o.now.spoke.bytes o.now.hub.bytes ∷ [])
        (as_field (there (body (sides.other (side from)) o.now.fitted.level) (inner_marks (side from) o.now.fitted.level
        (field (named (side from) o.now.spoke.bytes o.now.hub.bytes) x.now)
        (inside (named (sides.other (side from)) o.now.spoke.bytes o.now.hub.bytes) (entries_left kept.entry.now)))) ∷ []) fields.old) }
    ensures entries { OnOk result (map turned entries.new.items ≡ map turned entries.old.items
        ++ with_inside (named (side from) o.now.spoke.bytes o.now.hub.bytes) (all_entries (sides.other (side from)) o.now.fitted.level)
        (inner_marks (side from) o.now.fitted.level
        (field (named (side from) o.now.spoke.bytes o.now.hub.bytes) x.now)
        (inside (named (sides.other (side from)) o.now.spoke.bytes o.now.hub.bytes) (entries_left kept.entry.now))) []) }
{
    let own = inner_name(o, from);
    let theirs = inner_name(o, other(from));
    object_over(
        alloc, own, theirs, &o.fitted, from, x, kept, fields, entries,
    )
}

// The object at the name `own`, where there is one, to the name `theirs`.
#[cycle(over)]
fn object_over(
    alloc: Global,
    own: &Txt,
    theirs: &Txt,
    f: &Fitted,
    from: Side,
    x: &JFields,
    kept: &Left<'_>,
    fields: &mut JFields,
    entries: &mut Vec<Entry>,
) -> Result<(), NoMemory>
    requires order { are_in_order (entries_left kept.now) ≡ true }
    requires allowed { IfThere (IsAllowed (side from) f.now.level)
        (there (λ y. read (side from) f.now.level y (inside theirs.now.bytes (entries_left kept.now)))
        (object_in (field own.now.bytes x.now))) }
    ensures fields { OnOk result (fields.new ≡ put (theirs.now.bytes ∷ [])
        (as_field (there (body (sides.other (side from)) f.now.level) (inner_marks (side from) f.now.level
        (field own.now.bytes x.now) (inside theirs.now.bytes (entries_left kept.entry.now)))) ∷ []) fields.old) }
    ensures entries { OnOk result (map turned entries.new.items ≡ map turned entries.old.items
        ++ with_inside own.now.bytes (all_entries (sides.other (side from)) f.now.level)
        (inner_marks (side from) f.now.level (field own.now.bytes x.now)
        (inside theirs.now.bytes (entries_left kept.entry.now))) []) }
{
    match object_at(x, own.as_str()) {
        Some(y) => {
            let within = inside(theirs.as_str(), kept);
            let made = level_over(alloc, f, from, y, &within)?;
            let Made {
                fields: there,
                entries: found,
            } = made;
            fields.set(Txt::of(alloc, theirs.as_str())?, JVal::Obj(there))?;
            put_under(alloc, own.as_str(), found, entries)?;
            Ok(())
        }
        None => Ok(()),
    }
}
