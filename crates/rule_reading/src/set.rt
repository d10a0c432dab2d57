//! The set of rules of a document.
ghost use Rattle.std.specs.Prelude.{◌≡◌, ◌++◌, [], ◌∷◌, IfOk, IfErr, OnOk, OnErr, map, length, option_map, Ok};
ghost use Rattle.kj_value.specs.Json.{object, members_of};
ghost use Rattle.kj_value.specs.Seen.{json};
ghost use Rattle.kj_value.specs.Pair.{pair_of};
ghost use Rattle.kj_value.specs.Fields.{AreInOrder};
ghost use Rattle.rule_reading.specs.SetRead.{spoke_read, spokes_from, spokes_read, set_read};
ghost use Rattle.rule_reading.specs.SeenSet.{spoke_pair};
ghost use Rattle.rule_reading.specs.Words.{word};
ghost use Rattle.rule_reading.specs.Shapes.{field_read, ended};
ghost use Rattle.rule_reading.specs.Told.{answer, set_of, NamesRulesFault};

use crate::fields::{beyond, value_at};
use crate::rules::read_rules_in;
use crate::spot::{Tried, here, in_name};
use crate::texts::text_at;
use crate::words::Word;
use hub_rules::Rules;
use kj_value::{Field, JFields, JVal, NoMemory, Txt};
use std::alloc::Global;
use std::cmp::Ordering;
use std::marker::Model;

/// A spoke, by the name of its version, with its rules.
pub struct SpokeRules {
    /// Unlike every other name of its map.
    pub name: Txt,
    pub rules: Rules,
}

impl Drop for SpokeRules {
    fn drop(self) {
        let SpokeRules { name: _, rules: _ } = self;
    }
}

/// The rules of each spoke, the names strictly rising by bytes.
pub struct RuleMap {
    spokes: Vec<SpokeRules>,
}

impl Drop for RuleMap {
    fn drop(self) {
        let RuleMap { spokes: _ } = self;
    }
}

impl Model for RuleMap {
    ghost use Rattle.std.specs.Prelude.{List, map, ℕ};
    ghost use Rattle.std.specs.Coded.{coded_list, coded_ℕ, coded×};
    ghost use Rattle.kj_value.specs.Fields.{AreInOrder};
    ghost use Rattle.hub_rules.specs.Rule.{Rule};
    ghost use Rattle.hub_rules.specs.laws.RuleCode.{rule_code};
    ghost use Rattle.rule_reading.specs.SeenSet.{spoke_pair};

    ghost Value = { List (List ℕ × List Rule) };

    ghost coded = { coded_list (coded× (coded_list coded_ℕ) (coded_list rule_code)) };

    ghost view = { λ a. map spoke_pair a.spokes.items };

    ghost invariant = { λ a. AreInOrder (map spoke_pair a.spokes.items) };
}

impl RuleMap {
    ghost use Rattle.kj_value.specs.Fields.{field};

    /// How many spokes there are.
    pub fn len(&self) -> usize
        ensures { result ≡ length self.now }
    {
        self.spokes.len()
    }

    /// The spokes in the order of their names.
    pub fn as_slice(&self) -> &[SpokeRules]
        ensures value { map spoke_pair result.now ≡ self.now }
        ensures order { AreInOrder self.now }
    {
        self.spokes.as_slice()
    }

    /// The rules of a spoke. It takes no memory.
    pub fn get(&self, name: &str) -> Option<&Rules>
        ensures { option_map (λ rs. rs.now) result ≡ field name.now self.now }
    {
        let spokes = self.spokes.as_slice();
        for s in spokes {
            match name.cmp(s.name.as_str()) {
                Ordering::Equal => return Some(&s.rules),
                Ordering::Less => {}
                Ordering::Greater => {}
            }
        }
        None
    }
}

/// The rules by which each spoke goes over to the hub.
pub struct RuleSet {
    /// The name of the hub's version.
    pub hub: Txt,
    pub spokes: RuleMap,
}

impl Drop for RuleSet {
    fn drop(self) {
        let RuleSet { hub: _, spokes: _ } = self;
    }
}

/// Why a rule document is refused.
#[derive(Drop)]
pub enum RulesFault {
    /// The path of the first thing that is refused: names joined by points, with items in brackets, as
    /// `spokes.v1beta1[0].split.hub`, the whole document as the empty text.
    Refused { path: Txt },
    NoMemory,
}

impl From<NoMemory> for RulesFault {
    ghost use Rattle.std.specs.Prelude.{◌≡◌};
    ghost use Rattle.rule_reading.specs.declared.set.RulesFault.{RulesFault};

    ghost from_gives = { λ _ e. e ≡ RulesFault.NoMemory };

    fn from(_e: NoMemory) -> RulesFault {
        RulesFault::NoMemory
    }
}

fn read_spoke(alloc: Global, hub: &str, f: &Field) -> Tried<SpokeRules>
    ensures name { IfOk result (λ r. IfOk r (λ s. s.name.bytes ≡ f.now.name.bytes)) }
    ensures read { IfOk result (λ r. answer spoke_pair r
        ≡ spoke_read hub.now f.now.name.bytes (json f.now.value)) }
{
    let name = f.name.as_str();
    if name == hub {
        return Ok(Err(in_name(alloc, name, here(alloc))?));
    }
    let mut count = 0;
    match read_rules_in(alloc, 0, &mut count, &f.value)? {
        Err(spot) => Ok(Err(in_name(alloc, name, spot)?)),
        Ok(rules) => {
            let name = Txt::of(alloc, name)?;
            Ok(Ok(SpokeRules { name, rules }))
        }
    }
}

fn read_spokes_of(alloc: Global, hub: &str, fields: &[Field]) -> Tried<RuleMap>
    requires { AreInOrder (map pair_of fields.now) }
    ensures { IfOk result (λ r. answer (λ m. m) r
        ≡ spokes_from hub.now (members_of (map pair_of fields.now))) }
{
    let mut spokes = Vec::new(alloc);
    for i in 0..fields.len() {
        match read_spoke(alloc, hub, &fields[i])? {
            Err(spot) => return Ok(Err(spot)),
            Ok(spoke) => spokes.push(spoke)?,
        }
    }
    Ok(Ok(RuleMap { spokes }))
}

fn read_spokes(alloc: Global, hub: &str, v: &JVal) -> Tried<RuleMap>
    ensures { IfOk result (λ r. answer (λ m. m) r ≡ spokes_read hub.now (json v.now)) }
{
    match v {
        JVal::Obj(fields) => read_spokes_of(alloc, hub, fields.as_slice()),
        _ => Ok(Err(here(alloc))),
    }
}

fn spokes_at(alloc: Global, hub: &str, fields: &JFields) -> Tried<RuleMap>
    ensures { IfOk result (λ r. answer (λ m. m) r
        ≡ field_read (word Word.Spokes) (spokes_read hub.now) 1 (members_of fields.now)) }
{
    match value_at(alloc, fields, 1, Word::Spokes)? {
        Err(spot) => Ok(Err(spot)),
        Ok(v) => match read_spokes(alloc, hub, v)? {
            Err(spot) => Ok(Err(in_name(alloc, Word::Spokes.text(), spot)?)),
            Ok(spokes) => Ok(Ok(spokes)),
        },
    }
}

fn read_set_of(alloc: Global, fields: &JFields) -> Tried<RuleSet>
    ensures { IfOk result (λ r. answer set_of r ≡ set_read (object (members_of fields.now))) }
{
    let hub = match text_at(alloc, fields, 0, Word::Hub)? {
        Err(spot) => return Ok(Err(spot)),
        Ok(hub) => hub,
    };
    let spokes = match spokes_at(alloc, hub.as_str(), fields)? {
        Err(spot) => return Ok(Err(spot)),
        Ok(spokes) => spokes,
    };
    match beyond(alloc, fields, 2)? {
        Some(spot) => Ok(Err(spot)),
        None => Ok(Ok(RuleSet { hub, spokes })),
    }
}

fn read_set(alloc: Global, doc: &JVal) -> Tried<RuleSet>
    ensures { IfOk result (λ r. answer set_of r ≡ set_read (json doc.now)) }
{
    match doc {
        JVal::Obj(fields) => read_set_of(alloc, fields),
        _ => Ok(Err(here(alloc))),
    }
}

/// The rules that the document spells, `{"hub": VERSION, "spokes": {VERSION: [RULE, ..], ..}}`, or else the
/// path of the first thing that is refused.
///
/// In each object the names are tried in their order, each value before the next name; an unknown name is
/// refused at its path, and an absent one at the path that it would have, in its place. A spoke that is the
/// hub is refused, and so are a spoke's 65th rule, where a rule is counted before those inside it and these
/// before the next one, and an `object` rule inside eight others: each at its path, before what stands
/// inside it. `NoMemory` may come for any document.
pub fn read_rules(alloc: Global, doc: &JVal) -> Result<RuleSet, RulesFault>
    ensures read { IfOk result (λ s. set_read (json doc.now) ≡ Ok (set_of s)) }
    ensures refused { IfErr result (λ e. NamesRulesFault (set_read (json doc.now)) e) }
{
    match read_set(alloc, doc)? {
        Ok(set) => Ok(set),
        Err(spot) => Err(RulesFault::Refused { path: spot.path }),
    }
}
