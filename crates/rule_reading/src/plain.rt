//! Rules without others inside them.
ghost use Rattle.std.specs.Prelude.{◌≡◌, IfOk};
ghost use Rattle.kj_value.specs.Json.{object, members_of};
ghost use Rattle.kj_value.specs.Seen.{json};
ghost use Rattle.hub_rules.specs.Rule.{rule_depth, table};
ghost use Rattle.hub_rules.specs.Seen.{rule};
ghost use Rattle.hub_rules.specs.Sound.{AreScalars, IsScalar, IsSoundRule};
ghost use Rattle.rule_reading.specs.RuleRead.{same_read, spoke_only_read, hub_only_read, split_read, table_read, scale_read, plain_read, Plain};
ghost use Rattle.rule_reading.specs.Shapes.{field_read, names_read, pairs_read, scalar_read};
ghost use Rattle.rule_reading.specs.Told.{answer};
ghost use Rattle.rule_reading.specs.Tried.{as_read, both};
ghost use Rattle.rule_reading.specs.Words.{word};

use crate::fields::beyond;
use crate::scalars::{factor_at, pairs_at, scalar_at};
use crate::spot::{Tried, here};
use crate::texts::{names_at, read_names, read_text, text_at};
use crate::words::Word;
use hub_cells::PairItems;
use hub_rules::Line;
use kj_value::{JFields, JVal};
use std::alloc::Global;

fn read_same(alloc: Global, v: &JVal) -> Tried<Line>
    ensures read { IfOk result (λ r. answer rule r ≡ same_read (json v.now)) }
    ensures plain { IfOk result (λ r. IfOk r (λ l. Plain (rule l))) }
{
    match read_names(alloc, v)? {
        Err(spot) => Ok(Err(spot)),
        Ok((spoke, hub)) => Ok(Ok(Line::Same { spoke, hub })),
    }
}

fn read_spoke_only(alloc: Global, v: &JVal) -> Tried<Line>
    ensures read { IfOk result (λ r. answer rule r ≡ spoke_only_read (json v.now)) }
    ensures plain { IfOk result (λ r. IfOk r (λ l. Plain (rule l))) }
{
    match read_text(alloc, v)? {
        Err(spot) => Ok(Err(spot)),
        Ok(name) => Ok(Ok(Line::SpokeOnly { name })),
    }
}

fn read_hub_only(alloc: Global, v: &JVal) -> Tried<Line>
    ensures read { IfOk result (λ r. answer rule r ≡ hub_only_read (json v.now)) }
    ensures plain { IfOk result (λ r. IfOk r (λ l. Plain (rule l))) }
{
    match read_text(alloc, v)? {
        Err(spot) => Ok(Err(spot)),
        Ok(name) => Ok(Ok(Line::HubOnly { name })),
    }
}

fn read_split_of(alloc: Global, fields: &JFields) -> Tried<Line>
    ensures read { IfOk result (λ r. answer rule r ≡ split_read (object (members_of fields.now))) }
    ensures plain { IfOk result (λ r. IfOk r (λ l. Plain (rule l))) }
{
    let (first, second) = match names_at(alloc, fields, 0, Word::Hub)? {
        Err(spot) => return Ok(Err(spot)),
        Ok(names) => names,
    };
    let spoke = match text_at(alloc, fields, 1, Word::Spoke)? {
        Err(spot) => return Ok(Err(spot)),
        Ok(name) => name,
    };
    match beyond(alloc, fields, 2)? {
        Some(spot) => Ok(Err(spot)),
        None => Ok(Ok(Line::Split {
            spoke,
            first,
            second,
        })),
    }
}

// The pairs of a table, and the spoke's blank.
fn pairs_and_blank(alloc: Global, fields: &JFields) -> Tried<(PairItems, JVal)>
    ensures read { IfOk result (λ r. answer (λ p. (p.0, json p.1)) r
        ≡ both (field_read (word Word.Pairs) pairs_read 2 (members_of fields.now)) (field_read (word Word.SpokeBlank) scalar_read 3 (members_of fields.now))) }
    ensures scalars { IfOk result (λ r. IfOk r (λ p. AreScalars p.0 × IsScalar (json p.1))) }
{
    let pairs = match pairs_at(alloc, fields, 2, Word::Pairs)? {
        Err(spot) => return Ok(Err(spot)),
        Ok(pairs) => pairs,
    };
    match scalar_at(alloc, fields, 3, Word::SpokeBlank) {
        Err(e) => {
            drop(pairs);
            Err(e)
        }
        Ok(Err(spot)) => {
            drop(pairs);
            Ok(Err(spot))
        }
        Ok(Ok(blank)) => Ok(Ok((pairs, blank))),
    }
}

// A table whose hub's blank is read.
fn table_with(alloc: Global, fields: &JFields, hub_blank: JVal) -> Tried<Line>
    requires { IsScalar (json hub_blank) }
    ensures read { IfOk result (λ r. answer rule r ≡ as_read (λ p. table p.0.0 p.0.1 p.1.0 p.1.1 (json hub_blank))
        (both (field_read (word Word.Names) names_read 1 (members_of fields.now))
        (both (field_read (word Word.Pairs) pairs_read 2 (members_of fields.now)) (field_read (word Word.SpokeBlank) scalar_read 3 (members_of fields.now))))) }
    ensures plain { IfOk result (λ r. IfOk r (λ l. Plain (rule l))) }
{
    let (spoke, hub) = match names_at(alloc, fields, 1, Word::Names) {
        Err(e) => {
            drop(hub_blank);
            return Err(e);
        }
        Ok(Err(spot)) => {
            drop(hub_blank);
            return Ok(Err(spot));
        }
        Ok(Ok(names)) => names,
    };
    match pairs_and_blank(alloc, fields) {
        Err(e) => {
            drop(hub_blank);
            Err(e)
        }
        Ok(Err(spot)) => {
            drop(hub_blank);
            Ok(Err(spot))
        }
        Ok(Ok((pairs, spoke_blank))) => Ok(Ok(Line::Table {
            spoke,
            hub,
            pairs,
            spoke_blank,
            hub_blank,
        })),
    }
}

fn read_table_of(alloc: Global, fields: &JFields) -> Tried<Line>
    ensures read { IfOk result (λ r. answer rule r ≡ table_read (object (members_of fields.now))) }
    ensures plain { IfOk result (λ r. IfOk r (λ l. Plain (rule l))) }
{
    let hub_blank = match scalar_at(alloc, fields, 0, Word::HubBlank)? {
        Err(spot) => return Ok(Err(spot)),
        Ok(x) => x,
    };
    let table = match table_with(alloc, fields, hub_blank)? {
        Err(spot) => return Ok(Err(spot)),
        Ok(table) => table,
    };
    match beyond(alloc, fields, 4) {
        Err(e) => {
            drop(table);
            Err(e)
        }
        Ok(Some(spot)) => {
            drop(table);
            Ok(Err(spot))
        }
        Ok(None) => Ok(Ok(table)),
    }
}

fn read_scale_of(alloc: Global, fields: &JFields) -> Tried<Line>
    ensures read { IfOk result (λ r. answer rule r ≡ scale_read (object (members_of fields.now))) }
    ensures plain { IfOk result (λ r. IfOk r (λ l. Plain (rule l))) }
{
    let by = match factor_at(alloc, fields, 0, Word::By)? {
        Err(spot) => return Ok(Err(spot)),
        Ok(by) => by,
    };
    let (spoke, hub) = match names_at(alloc, fields, 1, Word::Names)? {
        Err(spot) => return Ok(Err(spot)),
        Ok(names) => names,
    };
    match beyond(alloc, fields, 2)? {
        Some(spot) => Ok(Err(spot)),
        None => Ok(Ok(Line::Scale { spoke, hub, by })),
    }
}

fn read_split(alloc: Global, v: &JVal) -> Tried<Line>
    ensures read { IfOk result (λ r. answer rule r ≡ split_read (json v.now)) }
    ensures plain { IfOk result (λ r. IfOk r (λ l. Plain (rule l))) }
{
    match v {
        JVal::Obj(fields) => read_split_of(alloc, fields),
        _ => Ok(Err(here(alloc))),
    }
}

fn read_table(alloc: Global, v: &JVal) -> Tried<Line>
    ensures read { IfOk result (λ r. answer rule r ≡ table_read (json v.now)) }
    ensures plain { IfOk result (λ r. IfOk r (λ l. Plain (rule l))) }
{
    match v {
        JVal::Obj(fields) => read_table_of(alloc, fields),
        _ => Ok(Err(here(alloc))),
    }
}

fn read_scale(alloc: Global, v: &JVal) -> Tried<Line>
    ensures read { IfOk result (λ r. answer rule r ≡ scale_read (json v.now)) }
    ensures plain { IfOk result (λ r. IfOk r (λ l. Plain (rule l))) }
{
    match v {
        JVal::Obj(fields) => read_scale_of(alloc, fields),
        _ => Ok(Err(here(alloc))),
    }
}

// A rule of this name that has no rules inside it.
pub(crate) fn read_plain(alloc: Global, name: &str, v: &JVal) -> Tried<Line>
    ensures read { IfOk result (λ r. answer rule r ≡ plain_read name.now (json v.now)) }
    ensures plain { IfOk result (λ r. IfOk r (λ l. Plain (rule l))) }
{
    if name == Word::Same.text() {
        return read_same(alloc, v);
    }
    if name == Word::SpokeOnly.text() {
        return read_spoke_only(alloc, v);
    }
    if name == Word::HubOnly.text() {
        return read_hub_only(alloc, v);
    }
    if name == Word::Split.text() {
        return read_split(alloc, v);
    }
    if name == Word::Table.text() {
        return read_table(alloc, v);
    }
    if name == Word::Scale.text() {
        return read_scale(alloc, v);
    }
    Ok(Err(here(alloc)))
}
