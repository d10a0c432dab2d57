//! The rules of one spoke, fitted to its schema and the hub's.
ghost use Rattle.std.specs.Prelude.{◌≡◌, map};
ghost use Rattle.struct_schema.specs.ShapeOf.{shape_of};
ghost use Rattle.hub_cells.specs.Level.{level, cells_in, inners_in};
ghost use Rattle.hub_cells.specs.Fit.{IsFitted};
ghost use Rattle.hub_cells.specs.Seen.{cell};

use crate::cell::Cell;
use kj_value::Txt;
use std::marker::Model;
use struct_schema::Schema;

/// One level of rules with the levels of its inner objects, fitted to the two schemas that it stands
/// for: every name of either schema is in one cell or is one inner object's, and what a cell's side
/// allows goes over to what the other side allows.
#[cycle(fitted)]
pub struct Fitted {
    spoke: Schema,
    hub: Schema,
    depth: u32,
    cells: Vec<Cell>,
    inner: Vec<Inner>,
}

impl Drop for Fitted {
    #[cycle(fitted_drop)]
    fn drop(self) {
        let Fitted {
            spoke: _,
            hub: _,
            depth: _,
            cells: _,
            inner: _,
        } = self;
    }
}

/// An object that both sides have or neither.
#[cycle(fitted)]
pub struct Inner {
    /// Its name on the spoke's side.
    pub spoke: Txt,
    /// Its name on the hub's side.
    pub hub: Txt,
    /// Whether both sides require it; else neither does.
    pub required: bool,
    pub fitted: Fitted,
}

impl Drop for Inner {
    #[cycle(fitted_drop)]
    fn drop(self) {
        let Inner {
            spoke: _,
            hub: _,
            required: _,
            fitted: _,
        } = self;
    }
}

impl Model for Fitted {
    ghost use Rattle.hub_cells.specs.Fit.{Fit, IsFitted};
    ghost use Rattle.hub_cells.specs.laws.FitCode.{fit_code};

    ghost Value = { Fit };

    ghost coded = { fit_code };

    ghost use Rattle.hub_cells.specs.SeenFit.{fit_of};
    ghost use Rattle.hub_cells.specs.LevelDepth.{level_depth};

    ghost view = { fit_of };

    ghost invariant = { λ a. IsFitted (fit_of a) };

    ghost size = { λ f. level_depth f.level };

    ghost use Rattle.hub_cells.specs.inner.FitFalls.{most-inner};

    ghost size_decreases = { λ a h. most-inner a.inner.items };
}

impl Fitted {
    ghost use Rattle.std.specs.Prelude.{◌≡◌, map};
    ghost use Rattle.struct_schema.specs.ShapeOf.{shape_of};
    ghost use Rattle.hub_cells.specs.Level.{level, cells_in, inners_in};
    ghost use Rattle.hub_cells.specs.Fit.{IsFitted};
    ghost use Rattle.hub_cells.specs.Seen.{cell};
    ghost use Rattle.hub_cells.specs.SeenFit.{inners_of};

    /// A level that fits both schemas, to which `depth` names of objects lead. It takes no memory.
    pub fn new(
        spoke: Schema,
        hub: Schema,
        depth: u32,
        cells: Vec<Cell>,
        inner: Vec<Inner>,
    ) -> Fitted
        requires { IsFitted (record {
          spoke = shape_of spoke;
          hub = shape_of hub;
          depth = depth;
          level = level (map cell cells.items) (inners_of inner.items);
        }) }
        ensures { result ≡ record {
          spoke = shape_of spoke;
          hub = shape_of hub;
          depth = depth;
          level = level (map cell cells.items) (inners_of inner.items);
        } }
    {
        Fitted {
            spoke,
            hub,
            depth,
            cells,
            inner,
        }
    }

    /// The spoke's schema.
    pub fn spoke(&self) -> &Schema
        ensures { shape_of result.now ≡ self.now.spoke }
    {
        &self.spoke
    }

    /// The hub's schema.
    pub fn hub(&self) -> &Schema
        ensures { shape_of result.now ≡ self.now.hub }
    {
        &self.hub
    }

    /// How many names of objects lead to the level.
    pub fn depth(&self) -> u32
        ensures { result ≡ self.now.depth }
    {
        self.depth
    }

    /// The cells of the level.
    pub fn cells(&self) -> &[Cell]
        ensures cells { map cell result.now ≡ cells_in self.now.level }
        ensures fitted { IsFitted self.now }
    {
        self.cells.as_slice()
    }

    /// The inner objects of the level.
    pub fn inner(&self) -> &[Inner]
        ensures inner { inners_of result.now ≡ inners_in self.now.level }
        ensures fitted { IsFitted self.now }
    {
        self.inner.as_slice()
    }
}
