//! What the names of a spoke's level become, among all spokes.
ghost use Rattle.std.specs.Prelude.{◌≡◌, ◌<◌, ◌++◌, [], ◌∷◌, Some, length, map, option_map, slice_get, IfOk, OnOk};
ghost use Rattle.kj_value.specs.Seen.{json};
ghost use Rattle.kj_value.specs.Texts.{bytes_of};
ghost use Rattle.hub_cells.specs.Side.{spoke};
ghost use Rattle.hub_cells.specs.Cell.{one};
ghost use Rattle.hub_cells.specs.Level.{CellFits};
ghost use Rattle.hub_cells.specs.Answer.{CanCross};
ghost use Rattle.hub_cells.specs.Fit.{Fit};
ghost use Rattle.hub_cells.specs.Seen.{kind, tuple, place, cell};
ghost use Rattle.hub_cells.specs.SeenFit.{inners_of};
ghost use Rattle.hub_fills.specs.Fills.{one_value, match_of, spoke_default, default_from, first_default, fill_of, fills_of, fills_within};
ghost use Rattle.hub_fills.specs.Lookups.{level_under};
ghost use Rattle.hub_fills.specs.Right.{DefaultsAllowed, AllowDefaults};
ghost use Rattle.hub_fills.specs.SeenFills.{within_of};
ghost use Rattle.hub_fills.specs.inner.UnderLaws.{levels_under};
ghost use Rattle.hub_fills.specs.EachFit.{EachAllows};

use crate::fills::{Deeper, Fills};
use crate::lookups::{cell_at, level_under};
use hub_cells::{Cell, Crossed, Fitted, Inner, Name, Names, Side, Tuple, allowed_crosses, cross};
use kj_value::{JVal, NoMemory, Txt, copy};
use std::alloc::Global;

fn only_value(values: Tuple) -> Option<JVal>
    ensures { option_map json result ≡ one_value (tuple values) }
{
    match values {
        Tuple::Empty => None,
        Tuple::One(v) => v,
        Tuple::Two(_, _) => None,
    }
}

// The hub's value that matches the spoke's, where one does.
fn match_of(alloc: Global, c: &Cell, v: &JVal) -> Result<Option<JVal>, NoMemory>
    requires { CanCross spoke (kind c.now.kind) (one (json v.now)) }
    ensures { IfOk result
        (λ o. option_map json o ≡ match_of (kind c.now.kind) (Some (json v.now))) }
{
    let values = Tuple::One(Some(copy(alloc, v)?));
    let crossed = cross(alloc, c, Side::Spoke, &values)?;
    let Crossed { tuple, matched } = crossed;
    if matched {
        Ok(only_value(tuple))
    } else {
        Ok(None)
    }
}

// The hub's value that matches the spoke's default.
fn spoke_default(alloc: Global, c: &Cell) -> Result<Option<JVal>, NoMemory>
    requires fits { CellFits (cell c.now) }
    requires defaults { DefaultsAllowed (cell c.now).depth (cell c.now).spoke }
    ensures { IfOk result (λ o. option_map json o ≡ spoke_default (cell c.now)) }
{
    allowed_crosses();
    match &c.spoke {
        Names::Empty => Ok(None),
        Names::Two(_, _) => Ok(None),
        Names::One(n) => match &n.schema.default_value {
            None => Ok(None),
            Some(v) => match_of(alloc, c, v),
        },
    }
}

// What a spoke has for a hub's name by default, at the object to which the path leads.
fn default_from(alloc: Global, f: &Fitted, path: &[Txt], q: &Name) -> Result<Option<JVal>, NoMemory>
    requires { AllowDefaults f.now.level }
    ensures { IfOk result (λ o. option_map json o
        ≡ default_from (level_under (map bytes_of path.now) (Some f.now.level)) (place q.now ∷ [])) }
{
    match level_under(f, path, 0) {
        None => Ok(None),
        Some(l) => match cell_at(l.cells(), q.text.as_str()) {
            None => Ok(None),
            Some(c) => spoke_default(alloc, c),
        },
    }
}

fn first_default(
    alloc: Global,
    fits: &[Fitted],
    path: &[Txt],
    q: &Name,
) -> Result<Option<JVal>, NoMemory>
    requires { EachAllows fits.now }
    ensures { IfOk result (λ o. option_map json o
        ≡ first_default (levels_under (map bytes_of path.now) fits.now) (place q.now ∷ [])) }
{
    for f in fits {
        if let Some(v) = default_from(alloc, f, path, q)? {
            return Ok(Some(v));
        }
    }
    Ok(None)
}

// What the hub's name of a cell becomes.
fn fill_of(alloc: Global, fits: &[Fitted], path: &[Txt], c: &Cell) -> Result<Option<JVal>, NoMemory>
    requires { EachAllows fits.now }
    ensures { IfOk result (λ o. option_map json o
        ≡ fill_of (levels_under (map bytes_of path.now) fits.now) (cell c.now)) }
{
    match &c.hub {
        Names::Empty => Ok(None),
        Names::Two(_, _) => Ok(None),
        Names::One(q) => match &q.schema.default_value {
            Some(v) => Ok(Some(copy(alloc, v)?)),
            None => first_default(alloc, fits, path, q),
        },
    }
}

fn fill_cells(
    alloc: Global,
    fits: &[Fitted],
    path: &[Txt],
    cells: &[Cell],
) -> Result<Vec<Option<JVal>>, NoMemory>
    requires { EachAllows fits.now }
    ensures { IfOk result (λ vs. map (option_map json) vs.items
        ≡ map (fill_of (levels_under (map bytes_of path.now) fits.now)) (map cell cells.now)) }
{
    let mut values = Vec::new(alloc);
    for c in cells {
        let value = fill_of(alloc, fits, path, c)?;
        values.push(value)?;
    }
    Ok(values)
}

pub(crate) fn longer(alloc: Global, path: &[Txt], name: &Txt) -> Result<Vec<Txt>, NoMemory>
    ensures { IfOk result (λ ts. map bytes_of ts.items ≡ map bytes_of path.now ++ name.now.bytes ∷ []) }
{
    let mut names = Vec::new(alloc);
    for k in path {
        names.push(Txt::of(alloc, k.as_str())?)?;
    }
    names.push(Txt::of(alloc, name.as_str())?)?;
    Ok(names)
}

#[cycle(choosing)]
fn level_fills(alloc: Global, fits: &[Fitted], path: &[Txt], f: &Fitted) -> Result<Fills, NoMemory>
    requires { EachAllows fits.now }
    ensures { IfOk result (λ r. r ≡ fills_of (levels_under (map bytes_of path.now) fits.now) f.now.level) }
{
    let values = fill_cells(alloc, fits, path, f.cells())?;
    let inner = inner_fills(alloc, fits, path, f.inner())?;
    Ok(Fills::new(values, inner))
}

#[cycle(choosing)]
#[tactic(auto, using(hub_cells::specs::laws::Inside::inner_depth))]
fn inner_fills(
    alloc: Global,
    fits: &[Fitted],
    path: &[Txt],
    inners: &[Inner],
) -> Result<Vec<Deeper>, NoMemory>
    requires { EachAllows fits.now }
    ensures { IfOk result (λ ds. within_of ds.items
        ≡ fills_within (levels_under (map bytes_of path.now) fits.now) (inners_of inners.now)) }
{
    let mut deeper = Vec::new(alloc);
    for o in inners {
        let below = longer(alloc, path, &o.hub)?;
        let fills = level_fills(alloc, fits, below.as_slice(), &o.fitted)?;
        deeper.push(Deeper { fills })?;
    }
    Ok(deeper)
}

/// What the hub's names become where they aren't there, along the level of the fit at place `i`: the hub's default,
/// or else the hub's value that matches the default of the first fit that has one. Each default has to be a value
/// that its side allows.
pub fn fills_of(alloc: Global, fits: &[Fitted], i: usize) -> Result<Fills, NoMemory>
    requires place { i < length fits.now }
    requires defaults { EachAllows fits.now }
    ensures { (f : Fit) → slice_get fits.now i ≡ Some f
        → IfOk result (λ r. r ≡ fills_of (map (λ g. Some g.level) fits.now) f.level) }
{
    let root = Vec::new(alloc);
    level_fills(alloc, fits, root.as_slice(), &fits[i])
}
