//! From a side's values to the other side's.
ghost use Rattle.std.specs.Prelude.{◌≡◌, ◌<◌, ◌*◌, ℕ, pos, ◌*ℤ◌, [], ◌∷◌, ◌++◌, true, false, cond, IfOk, MatchOption, Some, None, FitsSigned, option_map, MatchBool};
ghost use Rattle.std.specs.Int.{w64};
ghost use Rattle.kj_value.specs.Json.{text, whole};
ghost use Rattle.kj_value.specs.Seen.{json};
ghost use Rattle.hub_cells.specs.Seen.{side, kind, tuple};
ghost use Rattle.hub_cells.specs.Colon.{at_colon, has_colon};
ghost use Rattle.hub_cells.specs.Cell.{same, spoke_only, hub_only, split, scale, one};
ghost use Rattle.hub_cells.specs.Cross.{quotient, partner, blank, by_table};
ghost use Rattle.hub_cells.specs.Side.{spoke, hub};
ghost use Rattle.hub_cells.specs.Answer.{answer, answer_by, CanCross};

use crate::cell::{Cell, CellKind, Side, Tuple};
use crate::pairs::PairItems;
use crate::tables::shown_blank;
use crate::tuples::copy_tuple;
use kj_value::{JVal, NoMemory, Txt, copy};
use std::alloc::Global;

/// Values of the other side, and whether they match.
#[derive(Drop)]
pub struct Crossed {
    pub tuple: Tuple,
    pub matched: bool,
}

/// The values of the other side that match, or else those that are shown for values that have no match.
pub fn cross(alloc: Global, cell: &Cell, from: Side, values: &Tuple) -> Result<Crossed, NoMemory>
    requires { CanCross (side from) (kind cell.now.kind) (tuple values.now) }
    ensures { IfOk result (λ r. (tuple r.tuple, r.matched)
        ≡ answer (side from) (kind cell.now.kind) (tuple values.now)) }
{
    cross_kind(alloc, &cell.kind, from, values)
}

fn cross_kind(
    alloc: Global,
    cell: &CellKind,
    from: Side,
    values: &Tuple,
) -> Result<Crossed, NoMemory>
    requires { CanCross (side from) (kind cell.now) (tuple values.now) }
    ensures { IfOk result (λ r. (tuple r.tuple, r.matched)
        ≡ answer (side from) (kind cell.now) (tuple values.now)) }
{
    match (cell, from) {
        (CellKind::Same, _) => Ok(matching(copy_tuple(alloc, values)?)),
        (CellKind::SpokeOnly, Side::Spoke) => Ok(without_own(values)),
        (CellKind::SpokeOnly, Side::Hub) => Ok(without_other(values)),
        (CellKind::HubOnly, Side::Spoke) => Ok(without_other(values)),
        (CellKind::HubOnly, Side::Hub) => Ok(without_own(values)),
        (CellKind::Split, Side::Spoke) => parted(alloc, values),
        (CellKind::Split, Side::Hub) => joined(alloc, values),
        (
            CellKind::Table {
                pairs,
                hub_blank,
                ..
            },
            Side::Spoke,
        ) => { listed(alloc, pairs, hub_blank, from, values) }
        (
            CellKind::Table {
                pairs,
                spoke_blank,
                ..
            },
            Side::Hub,
        ) => { listed(alloc, pairs, spoke_blank, from, values) }
        (CellKind::Scale { by }, Side::Spoke) => Ok(times(*by, values)),
        (CellKind::Scale { by }, Side::Hub) => Ok(divided(*by, values)),
    }
}

fn matching(tuple: Tuple) -> Crossed
    ensures { result ≡ record { tuple = tuple; matched = true } }
{
    Crossed {
        tuple,
        matched: true,
    }
}

fn showing(tuple: Tuple) -> Crossed
    ensures { result ≡ record { tuple = tuple; matched = false } }
{
    Crossed {
        tuple,
        matched: false,
    }
}

// The side of the one name: only its absence matches.
fn without_own(values: &Tuple) -> Crossed
    ensures spoke { (tuple result.tuple, result.matched) ≡ answer spoke spoke_only (tuple values.now) }
    ensures hub { (tuple result.tuple, result.matched) ≡ answer hub hub_only (tuple values.now) }
{
    match values {
        Tuple::One(None) => matching(Tuple::Empty),
        Tuple::Empty => showing(Tuple::Empty),
        Tuple::One(Some(_)) => showing(Tuple::Empty),
        Tuple::Two(_, _) => showing(Tuple::Empty),
    }
}

// The side without a name.
fn without_other(values: &Tuple) -> Crossed
    ensures hub { (tuple result.tuple, result.matched) ≡ answer hub spoke_only (tuple values.now) }
    ensures spoke { (tuple result.tuple, result.matched) ≡ answer spoke hub_only (tuple values.now) }
{
    match values {
        Tuple::Empty => matching(Tuple::One(None)),
        Tuple::One(_) => showing(Tuple::One(None)),
        Tuple::Two(_, _) => showing(Tuple::One(None)),
    }
}

fn parted(alloc: Global, values: &Tuple) -> Result<Crossed, NoMemory>
    ensures { IfOk result (λ r. (tuple r.tuple, r.matched) ≡ answer spoke split (tuple values.now)) }
{
    match values {
        Tuple::One(None) => Ok(matching(Tuple::Two(None, None))),
        Tuple::One(Some(JVal::Text(t))) => at_last_colon(alloc, t.as_str()),
        Tuple::One(Some(JVal::Null)) => Ok(showing(Tuple::Two(None, None))),
        Tuple::One(Some(JVal::Bool(_))) => Ok(showing(Tuple::Two(None, None))),
        Tuple::One(Some(JVal::Int(_))) => Ok(showing(Tuple::Two(None, None))),
        Tuple::One(Some(JVal::List(_))) => Ok(showing(Tuple::Two(None, None))),
        Tuple::One(Some(JVal::Obj(_))) => Ok(showing(Tuple::Two(None, None))),
        Tuple::Empty => Ok(showing(Tuple::Two(None, None))),
        Tuple::Two(_, _) => Ok(showing(Tuple::Two(None, None))),
    }
}

fn at_last_colon(alloc: Global, t: &str) -> Result<Crossed, NoMemory>
    ensures { IfOk result (λ r. (tuple r.tuple, r.matched) ≡ answer spoke split (Some (text t.now) ∷ [])) }
{
    match t.rfind(':') {
        Some(i) => {
            let first = Txt::of(alloc, &t[..i])?;
            let second = Txt::of(alloc, &t[i + 1..])?;
            Ok(matching(Tuple::Two(Some(JVal::Text(first)), Some(JVal::Text(second)))))
        }
        None => Ok(showing(Tuple::Two(None, None))),
    }
}

fn joined(alloc: Global, values: &Tuple) -> Result<Crossed, NoMemory>
    ensures { IfOk result (λ r. (tuple r.tuple, r.matched) ≡ answer hub split (tuple values.now)) }
{
    match values {
        Tuple::Two(None, None) => Ok(matching(Tuple::One(None))),
        Tuple::Two(Some(a), Some(b)) => joined_values(alloc, a, b),
        Tuple::Two(None, Some(_)) => Ok(showing(Tuple::One(None))),
        Tuple::Two(Some(_), None) => Ok(showing(Tuple::One(None))),
        Tuple::Empty => Ok(showing(Tuple::One(None))),
        Tuple::One(_) => Ok(showing(Tuple::One(None))),
    }
}

fn joined_values(alloc: Global, a: &JVal, b: &JVal) -> Result<Crossed, NoMemory>
    ensures { IfOk result (λ r. (tuple r.tuple, r.matched) ≡ answer hub split (Some (json a.now) ∷ Some (json b.now) ∷ [])) }
{
    match a {
        JVal::Text(s) => match b {
            JVal::Text(t) => joined_texts(alloc, s.as_str(), t.as_str()),
            _ => Ok(showing(Tuple::One(None))),
        },
        _ => Ok(showing(Tuple::One(None))),
    }
}

fn joined_texts(alloc: Global, a: &str, b: &str) -> Result<Crossed, NoMemory>
    ensures { IfOk result (λ r. (tuple r.tuple, r.matched) ≡ answer hub split (Some (text a.now) ∷ Some (text b.now) ∷ [])) }
{
    if has_colon(b) {
        return Ok(showing(Tuple::One(None)));
    }
    Ok(matching(Tuple::One(Some(JVal::Text(with_colon(alloc, a, b)?)))))
}

fn has_colon(b: &str) -> bool
    ensures { result ≡ has_colon b.now }
{
    for x in b.as_bytes() {
        if *x == 58 {
            return true;
        }
    }
    false
}

fn with_colon(alloc: Global, a: &str, b: &str) -> Result<Txt, NoMemory>
    ensures { IfOk result (λ t. t.bytes ≡ a.now ++ 58 ∷ b.now) }
{
    let mut joined = String::from_str(alloc, a)?;
    joined.push_str(":")?;
    joined.push_str(b)?;
    Ok(Txt::of_string(joined))
}

// By a table, whose other side has this blank.
fn listed(
    alloc: Global,
    pairs: &PairItems,
    theirs: &JVal,
    from: Side,
    values: &Tuple,
) -> Result<Crossed, NoMemory>
    ensures { IfOk result (λ r. (tuple r.tuple, r.matched)
        ≡ answer_by (by_table (side from) pairs.now (tuple values.now)) (blank (json theirs.now))) }
{
    match values {
        Tuple::One(None) => Ok(matching(Tuple::One(None))),
        Tuple::One(Some(v)) => listed_value(alloc, pairs, theirs, from, v),
        Tuple::Empty => Ok(showing(shown_blank(alloc, theirs)?)),
        Tuple::Two(_, _) => Ok(showing(shown_blank(alloc, theirs)?)),
    }
}

fn listed_value(
    alloc: Global,
    pairs: &PairItems,
    theirs: &JVal,
    from: Side,
    value: &JVal,
) -> Result<Crossed, NoMemory>
    ensures { IfOk result (λ r. (tuple r.tuple, r.matched)
        ≡ answer_by (option_map one (partner (side from) (json value.now) pairs.now)) (blank (json theirs.now))) }
{
    match pairs.partner(from, value) {
        Some(v) => Ok(matching(Tuple::One(Some(copy(alloc, v)?)))),
        None => Ok(showing(shown_blank(alloc, theirs)?)),
    }
}

fn times(by: u32, values: &Tuple) -> Crossed
    requires { CanCross spoke (scale by) (tuple values.now) }
    ensures { (tuple result.tuple, result.matched) ≡ answer spoke (scale by) (tuple values.now) }
{
    match values {
        Tuple::One(None) => matching(Tuple::One(None)),
        Tuple::One(Some(JVal::Int(n))) => {
            matching(Tuple::One(Some(JVal::Int(i64::from(by) * *n))))
        }
        Tuple::One(Some(JVal::Null)) => showing(Tuple::One(None)),
        Tuple::One(Some(JVal::Bool(_))) => showing(Tuple::One(None)),
        Tuple::One(Some(JVal::Text(_))) => showing(Tuple::One(None)),
        Tuple::One(Some(JVal::List(_))) => showing(Tuple::One(None)),
        Tuple::One(Some(JVal::Obj(_))) => showing(Tuple::One(None)),
        Tuple::Empty => showing(Tuple::One(None)),
        Tuple::Two(_, _) => showing(Tuple::One(None)),
    }
}

fn divided(by: u32, values: &Tuple) -> Crossed
    requires { 0 < by }
    ensures { (tuple result.tuple, result.matched) ≡ answer hub (scale by) (tuple values.now) }
{
    match values {
        Tuple::One(None) => matching(Tuple::One(None)),
        Tuple::One(Some(JVal::Int(n))) => quotient_of(by, *n),
        Tuple::One(Some(JVal::Null)) => showing(Tuple::One(None)),
        Tuple::One(Some(JVal::Bool(_))) => showing(Tuple::One(None)),
        Tuple::One(Some(JVal::Text(_))) => showing(Tuple::One(None)),
        Tuple::One(Some(JVal::List(_))) => showing(Tuple::One(None)),
        Tuple::One(Some(JVal::Obj(_))) => showing(Tuple::One(None)),
        Tuple::Empty => showing(Tuple::One(None)),
        Tuple::Two(_, _) => showing(Tuple::One(None)),
    }
}

fn quotient_of(by: u32, n: i64) -> Crossed
    requires { 0 < by }
    ensures { (tuple result.tuple, result.matched) ≡ answer hub (scale by) (Some (whole n) ∷ []) }
{
    let factor = i64::from(by);
    let quotient = n.div_euclid(factor);
    if n.rem_euclid(factor) == 0 {
        matching(Tuple::One(Some(JVal::Int(quotient))))
    } else {
        showing(Tuple::One(Some(JVal::Int(quotient))))
    }
}
