//! The law of faults. The function does nothing, and its clause is the law.
ghost use Rattle.std.specs.Prelude.{◌≡◌, ◌↔◌, None, true};
ghost use Rattle.kj_value.specs.Json.{Json};
ghost use Rattle.struct_schema.specs.Shape.{Shape};
ghost use Rattle.struct_schema.specs.Valid.{valid};
ghost use Rattle.struct_schema.specs.Fault.{fault};

/// A value has no first fault exactly where it is valid, which is said with no path and no order in it.
pub fn faults()
    ensures { (s : Shape) → (j : Json) → (fault s j ≡ None) ↔ (valid s j ≡ true) }
{}
