//! The law of what is accepted. The function does nothing, and its clause is the law.
ghost use Rattle.std.specs.Prelude.{◌≡◌, ◌↔◌, List, Ok};
ghost use Rattle.kj_value.specs.Json.{Json};
ghost use Rattle.hub_cells.specs.Level.{Name};
ghost use Rattle.rule_reading.specs.SetRead.{Spoke, set_read};
ghost use Rattle.rule_reading.specs.Written.{Spells};

/// A document is read as a set of rules exactly where it spells that set, which is said with no walk and no
/// order in it. So a document is refused exactly where it spells no set.
pub fn accepts()
    ensures { (j : Json) (s : Name × List Spoke) → (set_read j ≡ Ok s) ↔ Spells j s }
{}
