//! The rules of one spoke.
ghost use Rattle.std.specs.Prelude.{◌≡◌, ◌≤◌, ◌++◌, [], ◌∷◌, length, map, OnOk, OnErr};
ghost use Rattle.hub_rules.specs.Rule.{rules_of, rule_depth, inner_depth};
ghost use Rattle.hub_rules.specs.Sound.{IsSoundRule, AreSoundRules};
ghost use Rattle.hub_rules.specs.Seen.{rule};

use hub_cells::PairItems;
use kj_value::{JVal, NoMemory, Txt};
use std::alloc::Global;
use std::marker::Model;

/// How many `object` rules may stand around a rule.
pub const MAX_OBJECTS: u32 = 8;

/// One rule.
#[cycle(rules)]
pub enum Line {
    /// The spoke's name is the hub's.
    Same {
        spoke: Txt,
        hub: Txt,
    },
    /// Both are objects, whose names go over by rules of their own.
    Object {
        spoke: Txt,
        hub: Txt,
        rules: Rules,
    },
    /// The hub has nothing for the name.
    SpokeOnly {
        name: Txt,
    },
    /// The spoke has nothing for the name.
    HubOnly {
        name: Txt,
    },
    /// The spoke's text is the first, a colon and the second, which has no colon.
    Split {
        spoke: Txt,
        first: Txt,
        second: Txt,
    },
    /// Listed pairs of scalars match. A blank shows for a value that isn't listed; null means absent.
    Table {
        spoke: Txt,
        hub: Txt,
        pairs: PairItems,
        spoke_blank: JVal,
        hub_blank: JVal,
    },
    /// The hub's whole number is so many times the spoke's, from 2 to 1,000,000,000.
    Scale {
        spoke: Txt,
        hub: Txt,
        by: u32,
    },
}

impl Drop for Line {
    #[cycle(rules_drop)]
    fn drop(self) {
        match self {
            Line::Same { spoke: _, hub: _ } => {}
            Line::Object {
                spoke: _,
                hub: _,
                rules: _,
            } => {}
            Line::SpokeOnly { name: _ } => {}
            Line::HubOnly { name: _ } => {}
            Line::Split {
                spoke: _,
                first: _,
                second: _,
            } => {}
            Line::Table {
                spoke: _,
                hub: _,
                pairs: _,
                spoke_blank: _,
                hub_blank: _,
            } => {}
            Line::Scale {
                spoke: _,
                hub: _,
                by: _,
            } => {}
        }
    }
}

/// The rules of one level in the order of their document. A table's values are scalars, a factor is
/// from 2 to 1,000,000,000, and no `object` rule stands inside eight others.
#[cycle(rules)]
pub struct Rules {
    lines: Vec<Line>,
}

impl Drop for Rules {
    #[cycle(rules_drop)]
    fn drop(self) {
        let Rules { lines: _ } = self;
    }
}

impl Model for Rules {
    ghost use Rattle.std.specs.Prelude.{List, map, ◌≤◌};
    ghost use Rattle.std.specs.Coded.{coded_list};
    ghost use Rattle.hub_rules.specs.Rule.{Rule, rules_of, inner_depth};
    ghost use Rattle.hub_rules.specs.laws.RuleCode.{rule_code};

    ghost Value = { List Rule };

    ghost coded = { coded_list rule_code };

    ghost use Rattle.hub_rules.specs.Seen.{rule};
    ghost use Rattle.hub_rules.specs.Sound.{AreSoundRules};
    ghost use Rattle.hub_rules.specs.declared.rules.TheConstants.{MAX_OBJECTS};

    ghost view = { λ a. map rule a.lines.items };

    ghost invariant = { λ a. AreSoundRules (rules_of (map rule a.lines.items))
        × (inner_depth (rules_of (map rule a.lines.items)) ≤ MAX_OBJECTS) };

    ghost size = { λ rs. inner_depth (rules_of rs) };

    ghost use Rattle.hub_rules.specs.inner.RuleFalls.{most-rules};

    ghost size_decreases = { λ a h. most-rules a.lines.items };
}

impl Rules {
    ghost use Rattle.std.specs.Prelude.{◌≡◌, ◌≤◌, ◌++◌, [], ◌∷◌, length, map, OnOk, OnErr};
    ghost use Rattle.hub_rules.specs.Rule.{rules_of, rule_depth, inner_depth};
    ghost use Rattle.hub_rules.specs.Sound.{IsSoundRule, AreSoundRules};
    ghost use Rattle.hub_rules.specs.Seen.{rule};

    /// No rules. It takes no memory.
    pub fn new(alloc: Global) -> Rules
        ensures { result ≡ [] }
    {
        Rules {
            lines: Vec::new(alloc),
        }
    }

    /// How many rules the level has.
    pub fn len(&self) -> usize
        ensures { result ≡ length self.now }
    {
        self.lines.len()
    }

    /// The rules in order.
    pub fn as_slice(&self) -> &[Line]
        ensures value { map rule result.now ≡ self.now }
        ensures sound { AreSoundRules (rules_of self.now) }
        ensures depth { inner_depth (rules_of self.now) ≤ MAX_OBJECTS }
    {
        self.lines.as_slice()
    }

    /// Adds a rule at the end. After an error the rules are as they were.
    pub fn push(&mut self, line: Line) -> Result<(), NoMemory>
        requires sound { IsSoundRule (rule line) }
        requires depth { rule_depth (rule line) ≤ MAX_OBJECTS }
        ensures ok { OnOk result (self.new ≡ self.old ++ rule line ∷ []) }
        ensures err { OnErr result (self.new ≡ self.old) }
    {
        self.lines.push(line)?;
        Ok(())
    }
}
