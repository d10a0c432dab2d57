//! What the names of a level become where they aren't there.
ghost use Rattle.std.specs.Prelude.{◌≡◌, map, option_map};
ghost use Rattle.kj_value.specs.Seen.{json};
ghost use Rattle.hub_fills.specs.Fills.{fills};
ghost use Rattle.hub_fills.specs.Depth.{has_value, has_fill, has_within, values_in, within_in};
ghost use Rattle.hub_fills.specs.SeenFills.{within_of};

use kj_value::JVal;
use std::marker::Model;

/// For the cells of a level in their order, what the hub's name becomes where it isn't there, if anything; and the
/// same of the objects inside, in theirs.
#[cycle(fills)]
pub struct Fills {
    values: Vec<Option<JVal>>,
    inner: Vec<Deeper>,
    any: bool,
}

impl Drop for Fills {
    #[cycle(fills_drop)]
    fn drop(self) {
        let Fills {
            values: _,
            inner: _,
            any: _,
        } = self;
    }
}

/// The fills of an object inside.
#[cycle(fills)]
pub struct Deeper {
    pub fills: Fills,
}

impl Drop for Deeper {
    #[cycle(fills_drop)]
    fn drop(self) {
        let Deeper { fills: _ } = self;
    }
}

impl Model for Fills {
    ghost use Rattle.hub_fills.specs.Fills as trees;
    ghost use Rattle.hub_fills.specs.inner.FillsCode.{fills_code};

    ghost Value = { trees.Fills };

    ghost coded = { fills_code };

    ghost use Rattle.hub_fills.specs.SeenFills.{fills_seen};
    ghost use Rattle.hub_fills.specs.Depth.{fills_depth, has_fill};

    ghost view = { fills_seen };

    ghost use Rattle.std.specs.Prelude.{◌≡◌};

    ghost invariant = { λ a. a.any ≡ has_fill (fills_seen a) };

    ghost size = { fills_depth };

    ghost use Rattle.hub_fills.specs.inner.FillsFalls.{most-deeper};

    ghost size_decreases = { λ a h. most-deeper a.inner.items };
}

fn has_value(values: &[Option<JVal>]) -> bool
    ensures { result ≡ has_value (map (option_map json) values.now) }
{
    for v in values {
        if v.is_some() {
            return true;
        }
    }
    false
}

fn has_deeper(inner: &[Deeper]) -> bool
    ensures { result ≡ has_within (within_of inner.now) }
{
    for d in inner {
        if d.fills.any() {
            return true;
        }
    }
    false
}

impl Fills {
    ghost use Rattle.std.specs.Prelude.{◌≡◌, map, option_map};
    ghost use Rattle.kj_value.specs.Seen.{json};
    ghost use Rattle.hub_fills.specs.Fills.{fills};
    ghost use Rattle.hub_fills.specs.Depth.{has_fill, values_in, within_in};
    ghost use Rattle.hub_fills.specs.SeenFills.{within_of};

    /// The fills of a level with those of the objects inside. It takes no memory.
    pub fn new(values: Vec<Option<JVal>>, inner: Vec<Deeper>) -> Fills
        ensures { result ≡ fills (map (option_map json) values.items) (within_of inner.items) }
    {
        let here = has_value(values.as_slice());
        let below = has_deeper(inner.as_slice());
        let any = here || below;
        Fills { values, inner, any }
    }

    /// For the cells of the level.
    pub fn values(&self) -> &[Option<JVal>]
        ensures { map (option_map json) result.now ≡ values_in self.now }
    {
        self.values.as_slice()
    }

    /// For the objects inside.
    pub fn inner(&self) -> &[Deeper]
        ensures { within_of result.now ≡ within_in self.now }
    {
        self.inner.as_slice()
    }

    /// Whether there is one, here or below.
    pub fn any(&self) -> bool
        ensures { result ≡ has_fill self.now }
    {
        self.any
    }
}
