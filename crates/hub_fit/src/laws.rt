//! The law of what fits. The function does nothing, and its clause is the law.
ghost use Rattle.std.specs.Prelude.{◌≡◌, ◌↔◌, None};
ghost use Rattle.struct_schema.specs.Shape.{Shape};
ghost use Rattle.hub_rules.specs.Rule.{Rules};
ghost use Rattle.hub_rules.specs.Refusal.{fit_fault};
ghost use Rattle.hub_fit.specs.Conditions.{AreFitting};

/// Nothing of some rules is refused exactly where they fit the two schemas, which is said with no walk and no
/// order in it: six conditions that hold at every level.
pub fn accepts()
    ensures { (s : Shape) (h : Shape) (rs : Rules) → (fit_fault s h rs ≡ None) ↔ AreFitting s h rs }
{}
