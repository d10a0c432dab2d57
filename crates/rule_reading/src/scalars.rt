//! Scalars, the pairs of a table, and factors.
ghost use Rattle.std.specs.Prelude.{◌≡◌, ◌≤◌, IfOk, map};
ghost use Rattle.kj_value.specs.Json.{items_of, members_of};
ghost use Rattle.kj_value.specs.Seen.{json};
ghost use Rattle.hub_cells.specs.Pairs.{values_of};
ghost use Rattle.hub_rules.specs.Sound.{IsScalar, AreScalars};
ghost use Rattle.rule_reading.specs.Words.{word};
ghost use Rattle.rule_reading.specs.Shapes.{scalar_read, pair_read, pairs_from, pairs_read, factor_read, field_read};
ghost use Rattle.rule_reading.specs.Told.{answer};

use crate::fields::value_at;
use crate::spot::{Tried, here, in_item, in_name};
use crate::texts::two_items;
use crate::words::Word;
use hub_cells::{Pair, PairItems};
use kj_value::{JFields, JVal, Txt};
use std::alloc::Global;

fn read_scalar(alloc: Global, v: &JVal) -> Tried<JVal>
    ensures read { IfOk result (λ r. answer json r ≡ scalar_read (json v.now)) }
    ensures scalar { IfOk result (λ r. IfOk r (λ x. IsScalar (json x))) }
{
    match v {
        JVal::Null => Ok(Ok(JVal::Null)),
        JVal::Bool(b) => Ok(Ok(JVal::Bool(*b))),
        JVal::Int(z) => Ok(Ok(JVal::Int(*z))),
        JVal::Text(t) => Ok(Ok(JVal::Text(Txt::of(alloc, t.as_str())?))),
        JVal::List(_) => Ok(Err(here(alloc))),
        JVal::Obj(_) => Ok(Err(here(alloc))),
    }
}

// A list of two scalars.
fn read_pair(alloc: Global, v: &JVal) -> Tried<Pair>
    ensures read { IfOk result (λ r. answer values_of r ≡ pair_read (json v.now)) }
    ensures scalars { IfOk result
        (λ r. IfOk r (λ p. IsScalar (json p.spoke) × IsScalar (json p.hub))) }
{
    match two_items(v) {
        None => Ok(Err(here(alloc))),
        Some((a, b)) => match read_scalar(alloc, a)? {
            Err(spot) => Ok(Err(in_item(alloc, 0, spot)?)),
            Ok(spoke) => match read_scalar(alloc, b)? {
                Err(spot) => Ok(Err(in_item(alloc, 1, spot)?)),
                Ok(hub) => Ok(Ok(Pair { spoke, hub })),
            },
        },
    }
}

fn read_pairs_of(alloc: Global, items: &[JVal]) -> Tried<PairItems>
    ensures read { IfOk result (λ r. answer (λ ps. ps) r
        ≡ pairs_from 0 (items_of (map json items.now))) }
    ensures scalars { IfOk result (λ r. IfOk r AreScalars) }
{
    let mut pairs = PairItems::new(alloc);
    for i in 0..items.len() {
        match read_pair(alloc, &items[i])? {
            Err(spot) => return Ok(Err(in_item(alloc, i, spot)?)),
            Ok(pair) => pairs.push(pair)?,
        }
    }
    Ok(Ok(pairs))
}

// A list of lists of two scalars.
fn read_pairs(alloc: Global, v: &JVal) -> Tried<PairItems>
    ensures read { IfOk result (λ r. answer (λ ps. ps) r ≡ pairs_read (json v.now)) }
    ensures scalars { IfOk result (λ r. IfOk r AreScalars) }
{
    match v {
        JVal::List(items) => read_pairs_of(alloc, items.as_slice()),
        _ => Ok(Err(here(alloc))),
    }
}

fn read_factor(alloc: Global, v: &JVal) -> Tried<u32>
    ensures read { IfOk result (λ r. answer (λ k. k) r ≡ factor_read (json v.now)) }
    ensures range { IfOk result (λ r. IfOk r (λ k. (2 ≤ k) × (k ≤ 1000000000))) }
{
    match v {
        JVal::Int(z) => {
            if *z >= 2 && *z <= 1_000_000_000 {
                Ok(Ok(*z as u32))
            } else {
                Ok(Err(here(alloc)))
            }
        }
        _ => Ok(Err(here(alloc))),
    }
}

pub(crate) fn scalar_at(alloc: Global, fields: &JFields, i: usize, keyword: Word) -> Tried<JVal>
    ensures read { IfOk result (λ r. answer json r
        ≡ field_read (word keyword) scalar_read i (members_of fields.now)) }
    ensures scalar { IfOk result (λ r. IfOk r (λ x. IsScalar (json x))) }
{
    match value_at(alloc, fields, i, keyword)? {
        Err(spot) => Ok(Err(spot)),
        Ok(v) => match read_scalar(alloc, v)? {
            Err(spot) => Ok(Err(in_name(alloc, keyword.text(), spot)?)),
            Ok(x) => Ok(Ok(x)),
        },
    }
}

pub(crate) fn pairs_at(alloc: Global, fields: &JFields, i: usize, keyword: Word) -> Tried<PairItems>
    ensures read { IfOk result (λ r. answer (λ ps. ps) r
        ≡ field_read (word keyword) pairs_read i (members_of fields.now)) }
    ensures scalars { IfOk result (λ r. IfOk r AreScalars) }
{
    match value_at(alloc, fields, i, keyword)? {
        Err(spot) => Ok(Err(spot)),
        Ok(v) => match read_pairs(alloc, v)? {
            Err(spot) => Ok(Err(in_name(alloc, keyword.text(), spot)?)),
            Ok(pairs) => Ok(Ok(pairs)),
        },
    }
}

pub(crate) fn factor_at(alloc: Global, fields: &JFields, i: usize, keyword: Word) -> Tried<u32>
    ensures read { IfOk result (λ r. answer (λ k. k) r
        ≡ field_read (word keyword) factor_read i (members_of fields.now)) }
    ensures range { IfOk result (λ r. IfOk r (λ k. (2 ≤ k) × (k ≤ 1000000000))) }
{
    match value_at(alloc, fields, i, keyword)? {
        Err(spot) => Ok(Err(spot)),
        Ok(v) => match read_factor(alloc, v)? {
            Err(spot) => Ok(Err(in_name(alloc, keyword.text(), spot)?)),
            Ok(by) => Ok(Ok(by)),
        },
    }
}
