//! Laws of cells. Each function does nothing, and its clause is the law.
ghost use Rattle.std.specs.Prelude.{List};
ghost use Rattle.struct_schema.specs.Shape.{Shape};
ghost use Rattle.hub_cells.specs.Side as sides;
ghost use Rattle.hub_cells.specs.Cell.{Kind, Tuple, IsRegular};
ghost use Rattle.hub_cells.specs.Level.{Name};
ghost use Rattle.body_laws.specs.Cell.{Cell, IsCell, cell_of, AreFunctions, turned};
ghost use Rattle.body_laws.specs.Kinds.{rule_cell, IsNamed};
ghost use Rattle.body_laws.specs.Frame.{IsFrame};
ghost use Rattle.body_laws.specs.Reach.{same_level, NamesDiffer};

/// Any two functions that take nothing to nothing are a cell: a match is one-to-one, since it says that the other leads back.
pub fn any_functions()
    ensures { (ns : sides.Side → List Name) (f : sides.Side → Tuple → Tuple) → AreFunctions ns f → IsCell (cell_of ns f) }
{}

/// The rules `same`, `split`, `table` and `scale` are cells, of all values.
pub fn rules()
    ensures { (ns : sides.Side → List Name) (k : Kind) → IsRegular k → IsNamed ns k → IsCell (rule_cell ns k) }
{}

/// A cell with its sides changed is a cell.
pub fn sides_changed()
    ensures { (c : Cell) → IsCell c → IsCell (turned c) }
{}

/// `same` of two objects reaches inside by a frame: cells are cells, and no name stands twice.
pub fn same_reaches_inside()
    ensures { (s t : Shape) → NamesDiffer s → IsFrame (same_level s t) }
{}
