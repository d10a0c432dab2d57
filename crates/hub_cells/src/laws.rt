//! Laws of cells. Each function does nothing, and its clause is the law.
ghost use Rattle.std.specs.Prelude.{◌≡◌, true, Some};
ghost use Rattle.hub_cells.specs.Side as sides;
ghost use Rattle.hub_cells.specs.Cell.{Kind, Tuple, MatchesFrom, IsRegular};
ghost use Rattle.hub_cells.specs.Cross.{matched};
ghost use Rattle.hub_cells.specs.Answer.{CanCross};
ghost use Rattle.hub_cells.specs.Level.{Cell, CellFits, allows};

/// What crossing answers as a match is one, and each match is what crossing answers.
pub fn matching()
    ensures sound { (d : sides.Side) (k : Kind) (t u : Tuple) → matched d k t ≡ Some u
        → MatchesFrom d k t u }
    ensures whole { (d : sides.Side) (k : Kind) (t u : Tuple) → IsRegular k → MatchesFrom d k t u
        → matched d k t ≡ Some u }
{}

/// A match is one-to-one: what goes over as a match comes back as what it was.
pub fn one_to_one()
    ensures { (d : sides.Side) (k : Kind) (t u : Tuple) → IsRegular k → matched d k t ≡ Some u
        → matched (sides.other d) k u ≡ Some t }
{}

/// What a fitted cell's side allows can cross.
pub fn allowed_crosses()
    ensures { (c : Cell) (d : sides.Side) (t : Tuple) → CellFits c → allows d c t ≡ true
        → CanCross d c.kind t }
{}
