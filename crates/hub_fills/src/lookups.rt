//! What a level has at a name of the hub's.
ghost use Rattle.std.specs.Prelude.{◌≡◌, ◌≤◌, Some, length, map, drop, option_map};
ghost use Rattle.kj_value.specs.Texts.{bytes_of};
ghost use Rattle.hub_cells.specs.Side.{hub};
ghost use Rattle.hub_cells.specs.Fit.{has_name};
ghost use Rattle.hub_cells.specs.Level.{names};
ghost use Rattle.hub_cells.specs.Seen.{cell};
ghost use Rattle.hub_cells.specs.SeenFit.{inners_of};
ghost use Rattle.hub_fills.specs.Lookups.{cell_at, level_at, level_under};

use hub_cells::{Cell, Fitted, Inner, Names};
use kj_value::Txt;

fn has_name(c: &Cell, name: &str) -> bool
    ensures { result ≡ has_name name.now (names hub (cell c.now)) }
{
    match &c.hub {
        Names::Empty => false,
        Names::One(n) => name == n.text.as_str(),
        Names::Two(m, n) => name == m.text.as_str() || name == n.text.as_str(),
    }
}

// The first cell that has the name at the hub.
pub(crate) fn cell_at<'a>(cells: &'a [Cell], name: &str) -> Option<&'a Cell>
    ensures { option_map (λ c. cell c.now) result ≡ cell_at name.now (map cell cells.now) }
{
    for c in cells {
        if has_name(c, name) {
            return Some(c);
        }
    }
    None
}

// The first object that has the name at the hub.
fn level_at<'a>(inners: &'a [Inner], name: &str) -> Option<&'a Fitted>
    ensures { option_map (λ f. f.now.level) result ≡ level_at name.now (inners_of inners.now) }
{
    for o in inners {
        if name == o.hub.as_str() {
            return Some(&o.fitted);
        }
    }
    None
}

// The level to which the names from the place i on lead.
pub(crate) fn level_under<'a>(f: &'a Fitted, path: &[Txt], i: usize) -> Option<&'a Fitted>
    requires { i ≤ length path.now }
    ensures { option_map (λ g. g.now.level) result
        ≡ level_under (map bytes_of (drop i path.now)) (Some f.now.level) }
{
    if i == path.len() {
        return Some(f);
    }
    match level_at(f.inner(), path[i].as_str()) {
        None => None,
        Some(g) => level_under(g, path, i + 1),
    }
}
