//! The first name whose default comes too late.
ghost use Rattle.std.specs.Prelude.{◌≡◌, ◌++◌, [], ◌∷◌, Some, None, map, option_map, fold, IfOk};
ghost use Rattle.kj_value.specs.Texts.{bytes_of};
ghost use Rattle.struct_schema.specs.Fault.{lesser};
ghost use Rattle.hub_cells.specs.Level.{have_default};
ghost use Rattle.hub_cells.specs.Seen.{kind, cell, place_list};
ghost use Rattle.hub_cells.specs.SeenFit.{inners_of};
ghost use Rattle.hub_fills.specs.Lookups.{level_under};
ghost use Rattle.hub_fills.specs.Late.{is_plain, pairs_plainly, all_pair, is_late};
ghost use Rattle.hub_fills.specs.LateNames.{joined, late_cells, late_in, late_within, late_among, first_late};
ghost use Rattle.hub_fills.specs.inner.UnderLaws.{levels_under};

use crate::choosing::longer;
use crate::lookups::{cell_at, level_under};
use hub_cells::{Cell, CellKind, Fitted, Inner, Name, Names};
use kj_value::{NoMemory, Txt};
use std::alloc::Global;

fn is_plain(k: &CellKind) -> bool
    ensures { result ≡ is_plain (kind k.now) }
{
    match k {
        CellKind::Same => true,
        CellKind::SpokeOnly => false,
        CellKind::HubOnly => false,
        CellKind::Split => false,
        CellKind::Table {
            pairs: _,
            spoke_blank: _,
            hub_blank: _,
        } => false,
        CellKind::Scale { by: _ } => true,
    }
}

fn has_default(n: &Name) -> bool
    ensures { result ≡ have_default (place_list (Names.One n.now)) }
{
    n.schema.default_value.is_some()
}

fn have_default(names: &Names) -> bool
    ensures { result ≡ have_default (place_list names.now) }
{
    match names {
        Names::Empty => false,
        Names::One(n) => has_default(n),
        Names::Two(m, n) => has_default(m) || has_default(n),
    }
}

// A spoke pairs the name of the hub's, in the object to which the path leads, with one that is equal or scaled.
fn pairs_plainly(f: &Fitted, path: &[Txt], name: &Txt) -> bool
    ensures { result ≡ all_pair (level_under (map bytes_of path.now) (Some f.now.level) ∷ []) name.now.bytes }
{
    match level_under(f, path, 0) {
        None => false,
        Some(l) => match cell_at(l.cells(), name.as_str()) {
            None => false,
            Some(c) => is_plain(&c.kind),
        },
    }
}

fn all_pair(fits: &[Fitted], path: &[Txt], name: &Txt) -> bool
    ensures { result ≡ all_pair (levels_under (map bytes_of path.now) fits.now) name.now.bytes }
{
    for f in fits {
        if !pairs_plainly(f, path, name) {
            return false;
        }
    }
    true
}

fn is_late(fits: &[Fitted], path: &[Txt], c: &Cell) -> bool
    ensures { result ≡ is_late (levels_under (map bytes_of path.now) fits.now) (cell c.now) }
{
    match &c.hub {
        Names::Empty => false,
        Names::Two(_, _) => false,
        Names::One(q) => have_default(&c.spoke)
            && !has_default(q)
            && !all_pair(fits, path, &q.text),
    }
}

// ---- the first of them by the bytes of its path

fn path_text(alloc: Global, path: &[Txt], name: &Txt) -> Result<Txt, NoMemory>
    ensures { IfOk result (λ t. t.bytes ≡ joined (map bytes_of path.now ++ name.now.bytes ∷ [])) }
{
    let mut text = String::new(alloc);
    for k in path {
        text.push_str(k.as_str())?;
        text.push_str(".")?;
    }
    text.push_str(name.as_str())?;
    Ok(Txt::of_string(text))
}

fn better(best: Option<Txt>, name: Txt) -> Txt
    ensures { Some result.bytes ≡ lesser (option_map bytes_of best) name.bytes }
{
    match best {
        None => name,
        Some(b) => { if name.as_str() < b.as_str() { name } else { b } }
    }
}

// The better of what was found and the name of a late cell.
fn late_cell(
    alloc: Global,
    fits: &[Fitted],
    path: &[Txt],
    c: &Cell,
    best: Option<Txt>,
) -> Result<Option<Txt>, NoMemory>
    ensures { IfOk result (λ o. option_map bytes_of o ≡ fold lesser (option_map bytes_of best)
        (map joined (late_cells (levels_under (map bytes_of path.now) fits.now) (map bytes_of path.now) (cell c.now ∷ [])))) }
{
    if !is_late(fits, path, c) {
        return Ok(best);
    }
    match &c.hub {
        Names::Empty => Ok(best),
        Names::Two(_, _) => Ok(best),
        Names::One(q) => {
            let name = path_text(alloc, path, &q.text)?;
            Ok(Some(better(best, name)))
        }
    }
}

fn late_cells(
    alloc: Global,
    fits: &[Fitted],
    path: &[Txt],
    cells: &[Cell],
    best: Option<Txt>,
) -> Result<Option<Txt>, NoMemory>
    ensures { IfOk result (λ o. option_map bytes_of o ≡ fold lesser (option_map bytes_of best)
        (map joined (late_cells (levels_under (map bytes_of path.now) fits.now) (map bytes_of path.now) (map cell cells.now)))) }
{
    let mut first = best;
    for c in cells {
        first = late_cell(alloc, fits, path, c, first)?;
    }
    Ok(first)
}

#[cycle(late)]
fn late_level(
    alloc: Global,
    fits: &[Fitted],
    path: &[Txt],
    f: &Fitted,
    best: Option<Txt>,
) -> Result<Option<Txt>, NoMemory>
    ensures { IfOk result (λ o. option_map bytes_of o ≡ fold lesser (option_map bytes_of best)
        (map joined (late_in (levels_under (map bytes_of path.now) fits.now) (map bytes_of path.now) f.now.level))) }
{
    let first = late_cells(alloc, fits, path, f.cells(), best)?;
    late_inner(alloc, fits, path, f.inner(), first)
}

#[cycle(late)]
#[tactic(auto, using(hub_cells::specs::laws::Inside::inner_depth))]
fn late_inner(
    alloc: Global,
    fits: &[Fitted],
    path: &[Txt],
    inners: &[Inner],
    best: Option<Txt>,
) -> Result<Option<Txt>, NoMemory>
    ensures { IfOk result (λ o. option_map bytes_of o ≡ fold lesser (option_map bytes_of best)
        (map joined (late_within (levels_under (map bytes_of path.now) fits.now) (map bytes_of path.now) (inners_of inners.now)))) }
{
    let mut first = best;
    for o in inners {
        let below = longer(alloc, path, &o.hub)?;
        first = late_level(alloc, fits, below.as_slice(), &o.fitted, first)?;
    }
    Ok(first)
}

/// The first name by the bytes of its path whose default comes too late, if there is one: a spoke has one for a name of
/// the hub's that has none, and some spoke doesn't hold that name's values as they are, or scaled.
pub fn late(alloc: Global, fits: &[Fitted]) -> Result<Option<Txt>, NoMemory>
    ensures { IfOk result (λ o. option_map bytes_of o ≡ first_late (map (λ f. Some f.level) fits.now)) }
{
    let root = Vec::new(alloc);
    let mut first = None;
    for f in fits {
        first = late_level(alloc, fits, root.as_slice(), f, first)?;
    }
    Ok(first)
}
