//! A body of the hub with the names that aren't there filled.
ghost use Rattle.std.specs.Prelude.{◌≡◌, ◌||◌, map, is_none, IfOk, OnOk, option_map};
ghost use Rattle.kj_value.specs.Seen.{json};
ghost use Rattle.kj_value.specs.Json.{Json, object, members_of};
ghost use Rattle.kj_value.specs.Fields.{field, with_field};
ghost use Rattle.hub_cells.specs.Side.{hub};
ghost use Rattle.hub_cells.specs.Seen.{cell, place_list};
ghost use Rattle.hub_cells.specs.SeenFit.{inners_of};
ghost use Rattle.hub_fills.specs.Right.{RightFills};
ghost use Rattle.hub_fills.specs.SeenFills.{within_of};
ghost use Rattle.hub_fills.specs.Depth.{values_in, within_in};
ghost use Rattle.keep_laws.specs.Body.{object_in};
ghost use Rattle.keep_laws.specs.Known.{IsKnown};
ghost use Rattle.keep_laws.specs.Complete.{completed};
ghost use Rattle.keep_bodies.specs.inner.Filling.{fill_place, fill_cells, put_object, fill_level, fill_inners, is_absent, cells_lack, object_lacks, lacks, inners_lack};

use crate::tuples::object_at;
use hub_cells::{Cell, Fitted, Inner, Name, Names};
use hub_fills::{Deeper, Fills};
use kj_value::{JFields, JVal, NoMemory, Txt, copy};
use std::alloc::Global;

/// The body with each name of the hub's that isn't there and has a value among these fills, in the root and in each
/// object that is there. Where none is lacking the body is moved, and no memory is taken.
pub fn complete(alloc: Global, f: &Fitted, fills: &Fills, x: JFields) -> Result<JFields, NoMemory>
    requires right { RightFills f.now.level fills.now }
    requires known { IsKnown hub f.now.level x }
    ensures { IfOk result (λ r. r ≡ completed fills.now f.now.level x) }
{
    let _ = f.cells();
    if !fills.any() {
        return Ok(x);
    }
    if !level_lacks(f, fills, &x) {
        return Ok(x);
    }
    fill_level(alloc, f, fills, x)
}

// ---- whether a name is lacking

fn name_lacks(n: &Name, value: &Option<JVal>, x: &JFields) -> bool
    ensures { result ≡ is_absent (place_list (Names.One n.now)) (option_map json value.now) x.now }
{
    match value {
        None => false,
        Some(_) => x.get(n.text.as_str()).is_none(),
    }
}

fn cell_lacks(c: &Cell, value: &Option<JVal>, x: &JFields) -> bool
    ensures { result ≡ is_absent (cell c.now).hub (option_map json value.now) x.now }
{
    match &c.hub {
        Names::Empty => false,
        Names::One(n) => name_lacks(n, value, x),
        Names::Two(_, _) => false,
    }
}

fn cells_lack(cells: &[Cell], values: &[Option<JVal>], x: &JFields) -> bool
    ensures { result ≡ cells_lack (map cell cells.now) (map (option_map json) values.now) x.now }
{
    for i in 0..cells.len() {
        if i >= values.len() {
            return false;
        }
        if cell_lacks(&cells[i], &values[i], x) {
            return true;
        }
    }
    false
}

#[cycle(lacking)]
fn level_lacks(f: &Fitted, fills: &Fills, x: &JFields) -> bool
    ensures { result ≡ lacks f.now.level fills.now x.now }
{
    cells_lack(f.cells(), fills.values(), x) || inners_lack(f.inner(), fills.inner(), x)
}

#[cycle(lacking)]
#[tactic(auto, using(hub_cells::specs::laws::Inside::inner_depth))]
fn inners_lack(inners: &[Inner], fills: &[Deeper], x: &JFields) -> bool
    ensures { result ≡ inners_lack (inners_of inners.now) (within_of fills.now) x.now }
{
    for i in 0..inners.len() {
        if i >= fills.len() {
            return false;
        }
        if inner_lacks(&inners[i], &fills[i].fills, x) {
            return true;
        }
    }
    false
}

#[cycle(lacking)]
fn inner_lacks(o: &Inner, fills: &Fills, x: &JFields) -> bool
    ensures { result ≡ object_lacks (lacks o.now.fitted.level fills.now) (object_in (field o.now.hub.bytes x.now)) }
{
    match object_at(x, o.hub.as_str()) {
        None => false,
        Some(y) => level_lacks(&o.fitted, fills, y),
    }
}

// ---- what is lacking is put

fn fill_name(alloc: Global, n: &Name, value: &JVal, x: &mut JFields) -> Result<(), NoMemory>
    ensures { OnOk result (x.new ≡ with_field n.now.text.bytes (json value.now) x.old) }
{
    let name = Txt::of(alloc, n.text.as_str())?;
    let v = copy(alloc, value)?;
    x.set(name, v)?;
    Ok(())
}

fn fill_absent(
    alloc: Global,
    n: &Name,
    value: &Option<JVal>,
    x: &mut JFields,
) -> Result<(), NoMemory>
    ensures { OnOk result (x.new ≡ fill_place (place_list (Names.One n.now)) (option_map json value.now) x.old) }
{
    match value {
        None => Ok(()),
        Some(v) => {
            let is_there = x.get(n.text.as_str()).is_some();
            if is_there {
                Ok(())
            } else {
                fill_name(alloc, n, v, x)
            }
        }
    }
}

fn fill_cell(alloc: Global, c: &Cell, value: &Option<JVal>, x: &mut JFields) -> Result<(), NoMemory>
    ensures { OnOk result (x.new ≡ fill_place (cell c.now).hub (option_map json value.now) x.old) }
{
    match &c.hub {
        Names::Empty => Ok(()),
        Names::One(n) => fill_absent(alloc, n, value, x),
        Names::Two(_, _) => Ok(()),
    }
}

fn fill_cells(
    alloc: Global,
    cells: &[Cell],
    values: &[Option<JVal>],
    x: &mut JFields,
) -> Result<(), NoMemory>
    ensures { OnOk result (x.new ≡ fill_cells (map cell cells.now) (map (option_map json) values.now) x.old) }
{
    for i in 0..cells.len() {
        if i >= values.len() {
            return Ok(());
        }
        fill_cell(alloc, &cells[i], &values[i], x)?;
    }
    Ok(())
}

#[cycle(filling)]
fn fill_level(alloc: Global, f: &Fitted, fills: &Fills, x: JFields) -> Result<JFields, NoMemory>
    ensures { IfOk result (λ r. r ≡ fill_level f.now.level fills.now x) }
{
    let mut full = x;
    fill_cells(alloc, f.cells(), fills.values(), &mut full)?;
    fill_inners(alloc, f.inner(), fills.inner(), &mut full)?;
    Ok(full)
}

#[cycle(filling)]
#[tactic(auto, using(hub_cells::specs::laws::Inside::inner_depth))]
fn fill_inners(
    alloc: Global,
    inners: &[Inner],
    fills: &[Deeper],
    x: &mut JFields,
) -> Result<(), NoMemory>
    ensures { OnOk result (x.new ≡ fill_inners (inners_of inners.now) (within_of fills.now) x.old) }
{
    for i in 0..inners.len() {
        if i >= fills.len() {
            return Ok(());
        }
        fill_inner(alloc, &inners[i], &fills[i].fills, x)?;
    }
    Ok(())
}

#[cycle(filling)]
fn fill_inner(alloc: Global, o: &Inner, fills: &Fills, x: &mut JFields) -> Result<(), NoMemory>
    ensures { OnOk result (x.new ≡ put_object o.now.hub.bytes (fill_level o.now.fitted.level fills.now)
        (object_in (field o.now.hub.bytes x.old)) x.old) }
{
    match x.get(o.hub.as_str()) {
        None => Ok(()),
        Some(v) => {
            let again = copy(alloc, v)?;
            put_filled(alloc, o, fills, again, x)
        }
    }
}

#[cycle(filling)]
fn put_filled(
    alloc: Global,
    o: &Inner,
    fills: &Fills,
    v: JVal,
    x: &mut JFields,
) -> Result<(), NoMemory>
    ensures { OnOk result (x.new ≡ put_object o.now.hub.bytes (fill_level o.now.fitted.level fills.now)
        (object_in (Some (json v))) x.old) }
{
    match v {
        JVal::Null => Ok(()),
        JVal::Bool(_) => Ok(()),
        JVal::Int(_) => Ok(()),
        JVal::Text(_) => Ok(()),
        JVal::List(_) => Ok(()),
        JVal::Obj(y) => {
            let full = fill_level(alloc, &o.fitted, fills, y)?;
            let name = Txt::of(alloc, o.hub.as_str())?;
            x.set(name, JVal::Obj(full))?;
            Ok(())
        }
    }
}
