//! The rules of one spoke.
ghost use Rattle.std.specs.Prelude.{◌≡◌, ◌≤◌, ◌+◌, IfOk, option_map, map, Ok};
ghost use Rattle.kj_value.specs.Json.{object, items_of, members_of};
ghost use Rattle.kj_value.specs.Seen.{json};
ghost use Rattle.hub_rules.specs.Rule.{rule_depth, inner_depth, rules_of};
ghost use Rattle.hub_rules.specs.Seen.{rule};
ghost use Rattle.hub_rules.specs.Sound.{IsSoundRule};
ghost use Rattle.rule_reading.specs.RuleRead.{rule_size, rules_size, rule_by, rule_read, within_read, rules_read, rules_from, one_field};
ghost use Rattle.rule_reading.specs.Told.{answer};

use crate::fields::{beyond, place, value_at};
use crate::plain::read_plain;
use crate::spot::{Tried, here, in_item, in_name};
use crate::texts::names_at;
use crate::words::Word;
use hub_rules::{Line, MAX_OBJECTS, Rules};
use kj_value::{JFields, JVal};
use std::alloc::Global;

/// How many rules a spoke may have, those inside others among them.
pub const MAX_RULES: u32 = 64;

// The one name of an object, with its value.
fn one_field(v: &JVal) -> Option<(&str, &JVal)>
    ensures { option_map (λ p. (p.0.now, json p.1.now)) result ≡ one_field (json v.now) }
{
    match v {
        JVal::Obj(fields) => match place(fields, 1) {
            Some(_) => None,
            None => place(fields, 0),
        },
        _ => None,
    }
}

// A rule so many `object` rules deep, after so many others.
#[cycle(read_rule)]
#[tactic(auto, using(crate::proofs::Within::rule_is, crate::proofs::Within::rule_is_none, crate::proofs::Within::one_depth))]
fn read_rule(alloc: Global, depth: u32, count: &mut u32, v: &JVal) -> Tried<Line>
    requires { depth ≤ MAX_OBJECTS }
    ensures read { IfOk result (λ r. answer rule r ≡ rule_read depth count.old (json v.now)) }
    ensures sound { IfOk result (λ r. IfOk r (λ l. IsSoundRule (rule l))) }
    ensures depth { IfOk result (λ r. IfOk r (λ l. depth + rule_depth (rule l) ≤ MAX_OBJECTS)) }
    ensures count { IfOk result
        (λ r. IfOk r (λ l. count.new ≡ count.old + rule_size (rule l))) }
{
    let (name, value) = match one_field(v) {
        None => return Ok(Err(here(alloc))),
        Some(field) => field,
    };
    if *count >= MAX_RULES {
        return Ok(Err(here(alloc)));
    }
    *count += 1;
    if name == Word::Object.text() {
        if depth >= MAX_OBJECTS {
            return Ok(Err(here(alloc)));
        }
        match read_within(alloc, depth + 1, count, value)? {
            Err(spot) => Ok(Err(in_name(alloc, name, spot)?)),
            Ok(line) => Ok(Ok(line)),
        }
    } else {
        match read_plain(alloc, name, value)? {
            Err(spot) => Ok(Err(in_name(alloc, name, spot)?)),
            Ok(line) => Ok(Ok(line)),
        }
    }
}

// The value of an `object` rule.
#[cycle(read_rule)]
fn read_within(alloc: Global, depth: u32, count: &mut u32, v: &JVal) -> Tried<Line>
    requires { depth ≤ MAX_OBJECTS }
    ensures read { IfOk result (λ r. answer rule r ≡ within_read depth count.old (json v.now)) }
    ensures sound { IfOk result (λ r. IfOk r (λ l. IsSoundRule (rule l))) }
    ensures depth { IfOk result
        (λ r. IfOk r (λ l. depth + rule_depth (rule l) ≤ MAX_OBJECTS + 1)) }
    ensures count { IfOk result
        (λ r. IfOk r (λ l. count.new + 1 ≡ count.old + rule_size (rule l))) }
{
    match v {
        JVal::Obj(fields) => read_object(alloc, depth, count, fields),
        _ => Ok(Err(here(alloc))),
    }
}

#[cycle(read_rule)]
#[tactic(auto, using(crate::proofs::Within::within_is, crate::proofs::Within::value_depth))]
fn read_object(alloc: Global, depth: u32, count: &mut u32, fields: &JFields) -> Tried<Line>
    requires { depth ≤ MAX_OBJECTS }
    ensures read { IfOk result
        (λ r. answer rule r ≡ within_read depth count.old (object (members_of fields.now))) }
    ensures sound { IfOk result (λ r. IfOk r (λ l. IsSoundRule (rule l))) }
    ensures depth { IfOk result
        (λ r. IfOk r (λ l. depth + rule_depth (rule l) ≤ MAX_OBJECTS + 1)) }
    ensures count { IfOk result
        (λ r. IfOk r (λ l. count.new + 1 ≡ count.old + rule_size (rule l))) }
{
    let (spoke, hub) = match names_at(alloc, fields, 0, Word::Names)? {
        Err(spot) => return Ok(Err(spot)),
        Ok(names) => names,
    };
    let inner = match value_at(alloc, fields, 1, Word::Rules)? {
        Err(spot) => return Ok(Err(spot)),
        Ok(inner) => inner,
    };
    let rules = match read_rules_in(alloc, depth, count, inner)? {
        Err(spot) => return Ok(Err(in_name(alloc, Word::Rules.text(), spot)?)),
        Ok(rules) => rules,
    };
    let _ = rules.as_slice();
    match beyond(alloc, fields, 2)? {
        Some(spot) => Ok(Err(spot)),
        None => Ok(Ok(Line::Object { spoke, hub, rules })),
    }
}

// A list of rules.
#[cycle(read_rule)]
pub(crate) fn read_rules_in(alloc: Global, depth: u32, count: &mut u32, v: &JVal) -> Tried<Rules>
    requires { depth ≤ MAX_OBJECTS }
    ensures read { IfOk result (λ r. answer (λ rs. rs) r ≡ rules_read depth count.old (json v.now)) }
    ensures depth { IfOk result
        (λ r. IfOk r (λ rs. depth + inner_depth (rules_of rs) ≤ MAX_OBJECTS)) }
    ensures count { IfOk result
        (λ r. IfOk r (λ rs. count.new ≡ count.old + rules_size (rules_of rs))) }
{
    match v {
        JVal::List(items) => read_lines(alloc, depth, count, items.as_slice()),
        _ => Ok(Err(here(alloc))),
    }
}

#[cycle(read_rule)]
#[tactic(auto, using(kj_value::specs::laws::Inside::item_depth, crate::proofs::Within::depth_push, crate::proofs::Within::size_push))]
fn read_lines(alloc: Global, depth: u32, count: &mut u32, items: &[JVal]) -> Tried<Rules>
    requires { depth ≤ MAX_OBJECTS }
    ensures read { IfOk result (λ r. answer (λ rs. rs) r
        ≡ rules_from depth count.old 0 (items_of (map json items.now))) }
    ensures depth { IfOk result
        (λ r. IfOk r (λ rs. depth + inner_depth (rules_of rs) ≤ MAX_OBJECTS)) }
    ensures count { IfOk result
        (λ r. IfOk r (λ rs. count.new ≡ count.old + rules_size (rules_of rs))) }
{
    let mut rules = Rules::new(alloc);
    for i in 0..items.len() {
        match read_rule(alloc, depth, count, &items[i])? {
            Err(spot) => return Ok(Err(in_item(alloc, i, spot)?)),
            Ok(line) => rules.push(line)?,
        }
    }
    Ok(Ok(rules))
}
