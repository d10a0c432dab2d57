//! Laws of fills. Each function does nothing, and its clause is the law.
ghost use Rattle.std.specs.Prelude.{◌≡◌, ℕ, List, Option, None, Some};
ghost use Rattle.struct_schema.specs.Shape.{Shape};
ghost use Rattle.hub_cells.specs.Level.{Level};
ghost use Rattle.hub_fills.specs.Fills.{fills_of};
ghost use Rattle.hub_fills.specs.Right.{RightFills};
ghost use Rattle.hub_fills.specs.Late.{NoLate};
ghost use Rattle.hub_fills.specs.LateNames.{first_late};
ghost use Rattle.hub_fills.specs.Sound.{EachLevel, AreAmong, HasLevel};

/// What the names of a spoke's level become is right, where no default is late: the hub allows it, it stands in a
/// cell that can have a default, and each name with a default on either side has one. `ms` are the levels of all
/// spokes at one object of the hub, which has the schema `h`.
pub fn right()
    ensures { (n : ℕ) (h : Shape) (ms : List (Option Level)) (l : Level) → HasLevel (Some l) ms
        → AreAmong n h ms → RightFills l (fills_of ms l) }
{}

/// Where there is no first late name of some spokes, no name of any of them is late.
pub fn none_late()
    ensures { (ms : List (Option Level)) → first_late ms ≡ None → EachLevel (NoLate ms) ms }
{}
