//! What each kind of refusal asks of one rule.
ghost use Rattle.std.specs.Prelude.{◌≡◌, ◌<◌, ◌≤◌, ◌&&◌, ◌||◌, not, map, option_map};
ghost use Rattle.kj_value.specs.Seen.{json};
ghost use Rattle.struct_schema.specs.ShapeOf.{shape_of, own_of};
ghost use Rattle.std.specs.Prelude.{is_none};
ghost use Rattle.hub_cells.specs.Side.{spoke, hub};
ghost use Rattle.hub_cells.specs.Fit.{is_required};
ghost use Rattle.hub_cells.specs.Pairs.{values_of};
ghost use Rattle.hub_rules.specs.Sound.{IsSoundRule};
ghost use Rattle.hub_rules.specs.Seen.{rule};
ghost use Rattle.hub_rules.specs.inner.Spots.{why};
ghost use Rattle.hub_rules.specs.Refusal.{node_at, default_at, schema_passes, default_passes, required_passes, range_passes, rule_passes, is_value, is_pair, defaults_pair, plain_text, all_valid, valid_blank, once, is_null, scale_fits};
ghost use Rattle.struct_schema.specs.ShapeSame.{shape_same};

use crate::bounds::scale_fits;
use crate::doubles::once;
use crate::nodes::{
    AnyNode, alike, alike_below, alike_nodes, alike_required, is_closed, is_null, is_required,
    is_text_node, is_whole_node, lacks_default, node_at,
};
use crate::rules::Line;
use crate::spot::Why;
use hub_cells::{Pair, PairItems, Side};
use kj_value::{JVal, Txt};
use std::alloc::Global;
use struct_schema::{NodeKind, Schema, is_valid};

fn schema_passes(line: &Line, spoke: &Schema, hub: &Schema, any: &AnyNode) -> bool
    ensures { result ≡ schema_passes (shape_of spoke.now) (shape_of hub.now) (rule line.now) }
{
    match line {
        Line::Same { spoke: a, hub: b } => {
            alike_below(node_at(spoke, a, any), node_at(hub, b, any))
                && alike_required(a, b, spoke, hub)
        }
        Line::Object {
            spoke: a,
            hub: b,
            ..
        } => {
            is_closed(node_at(spoke, a, any))
                && is_closed(node_at(hub, b, any))
                && alike_required(a, b, spoke, hub)
        }
        Line::SpokeOnly { .. } => true,
        Line::HubOnly { .. } => true,
        Line::Split {
            spoke: a,
            first: b,
            second: c,
        } => {
            is_text_node(node_at(spoke, a, any))
                && is_text_node(node_at(hub, b, any))
                && is_text_node(node_at(hub, c, any))
        }
        Line::Table {
            spoke: a,
            hub: b,
            ..
        } => !node_at(spoke, a, any).nullable && !node_at(hub, b, any).nullable,
        Line::Scale {
            spoke: a,
            hub: b,
            ..
        } => is_whole_node(node_at(spoke, a, any)) && is_whole_node(node_at(hub, b, any)),
    }
}

fn is_pair(pairs: &PairItems, i: &JVal, j: &JVal) -> bool
    ensures { result ≡ is_pair pairs.now (json i.now) (json j.now) }
{
    match pairs.partner(Side::Spoke, i) {
        Some(v) => alike(v, j),
        None => false,
    }
}

fn are_listed(pairs: &PairItems, a: &Option<JVal>, b: &Option<JVal>) -> bool
    ensures { result ≡ defaults_pair (is_pair pairs.now) (option_map json a.now) (option_map json b.now) }
{
    match (a, b) {
        (None, None) => true,
        (Some(i), Some(j)) => is_pair(pairs, i, j),
        (None, Some(_)) => false,
        (Some(_), None) => false,
    }
}

fn are_values(a: &JVal, b: &JVal) -> bool
    ensures { result ≡ (not (is_null (json a.now)) && not (is_null (json b.now))) }
{
    !is_null(a) && !is_null(b)
}

fn default_passes(line: &Line, spoke: &Schema, hub: &Schema, any: &AnyNode) -> bool
    ensures { result ≡ default_passes (shape_of spoke.now) (shape_of hub.now) (rule line.now) }
{
    match line {
        Line::Same { .. } => true,
        Line::Object {
            spoke: a,
            hub: b,
            ..
        } => lacks_default(a, spoke, any) && lacks_default(b, hub, any),
        Line::SpokeOnly { name } => lacks_default(name, spoke, any),
        Line::HubOnly { name } => lacks_default(name, hub, any),
        Line::Split {
            spoke: a,
            first: b,
            second: c,
        } => {
            lacks_default(a, spoke, any) && lacks_default(b, hub, any) && lacks_default(c, hub, any)
        }
        Line::Table {
            spoke: a,
            hub: b,
            pairs,
            spoke_blank: x,
            hub_blank: y,
        } => {
            are_listed(
                pairs,
                &node_at(spoke, a, any).default_value,
                &node_at(hub, b, any).default_value,
            ) && (lacks_default(a, spoke, any) || are_values(x, y))
        }
        Line::Scale { .. } => true,
    }
}

fn is_kept(name: &Txt, s: &Schema, blank: &JVal) -> bool
    ensures { result ≡ (not (is_required name.now.bytes (shape_of s.now)) || not (is_null (json blank.now))) }
{
    !is_required(name, s) || !is_null(blank)
}

fn required_passes(line: &Line, spoke: &Schema, hub: &Schema) -> bool
    ensures { result ≡ required_passes (shape_of spoke.now) (shape_of hub.now) (rule line.now) }
{
    match line {
        Line::Same { .. } => true,
        Line::Object { .. } => true,
        Line::SpokeOnly { name } => !is_required(name, spoke),
        Line::HubOnly { name } => !is_required(name, hub),
        Line::Split {
            spoke: a,
            first: b,
            second: c,
        } => !is_required(a, spoke) && !is_required(b, hub) && !is_required(c, hub),
        Line::Table {
            spoke: a,
            hub: b,
            spoke_blank: x,
            hub_blank: y,
            ..
        } => alike_required(a, b, spoke, hub) && is_kept(a, spoke, x) && is_kept(b, hub, y),
        Line::Scale {
            spoke: a,
            hub: b,
            ..
        } => alike_required(a, b, spoke, hub),
    }
}

// Whether the node is of type string with no other keyword.
fn is_plain_text(alloc: Global, s: &Schema) -> bool
    ensures { result ≡ shape_same (shape_of s.now) plain_text }
{
    let plain = Schema::of_kind(alloc, NodeKind::Text);
    alike_nodes(s, &plain)
}

fn all_valid(alloc: Global, s: &Schema, h: &Schema, pairs: &[Pair]) -> bool
    ensures { result ≡ all_valid (shape_of s.now) (shape_of h.now) (map values_of pairs.now) }
{
    for p in pairs {
        let first = is_valid(alloc, s, &p.spoke);
        if !first {
            return false;
        }
        let second = is_valid(alloc, h, &p.hub);
        if !second {
            return false;
        }
    }
    true
}

fn valid_blank(alloc: Global, s: &Schema, v: &JVal) -> bool
    ensures { result ≡ valid_blank (shape_of s.now) (json v.now) }
{
    is_null(v) || is_valid(alloc, s, v)
}

fn table_passes(
    alloc: Global,
    s: &Schema,
    h: &Schema,
    pairs: &PairItems,
    x: &JVal,
    y: &JVal,
) -> bool
    ensures { result ≡ (all_valid (shape_of s.now) (shape_of h.now) pairs.now
        && valid_blank (shape_of s.now) (json x.now) && valid_blank (shape_of h.now) (json y.now)
        && once spoke pairs.now && once hub pairs.now) }
{
    let items = pairs.as_slice();
    all_valid(alloc, s, h, items)
        && valid_blank(alloc, s, x)
        && valid_blank(alloc, h, y)
        && once(alloc, Side::Spoke, items)
        && once(alloc, Side::Hub, items)
}

fn range_passes(alloc: Global, line: &Line, spoke: &Schema, hub: &Schema, any: &AnyNode) -> bool
    requires { IsSoundRule (rule line.now) }
    ensures { result ≡ range_passes (shape_of spoke.now) (shape_of hub.now) (rule line.now) }
{
    match line {
        Line::Same { .. } => true,
        Line::Object { .. } => true,
        Line::SpokeOnly { .. } => true,
        Line::HubOnly { .. } => true,
        Line::Split {
            spoke: a,
            first: b,
            second: c,
        } => {
            is_plain_text(alloc, node_at(spoke, a, any))
                && is_plain_text(alloc, node_at(hub, b, any))
                && is_plain_text(alloc, node_at(hub, c, any))
        }
        Line::Table {
            spoke: a,
            hub: b,
            pairs,
            spoke_blank: x,
            hub_blank: y,
        } => table_passes(
            alloc,
            node_at(spoke, a, any),
            node_at(hub, b, any),
            pairs,
            x,
            y,
        ),
        Line::Scale {
            spoke: a,
            hub: b,
            by,
        } => scale_passes(*by, node_at(spoke, a, any), node_at(hub, b, any)),
    }
}

fn scale_passes(by: u32, s: &Schema, h: &Schema) -> bool
    requires factor { 0 < by }
    requires most { by ≤ 1000000000 }
    ensures { result ≡ (is_none (own_of s.now).choices && is_none (own_of h.now).choices
        && scale_fits by (own_of s.now) (own_of h.now)) }
{
    s.choices.is_none() && h.choices.is_none() && scale_fits(by, s, h)
}

// Whether the rule isn't refused for this reason, which looks at it whole.
pub(crate) fn passes(
    alloc: Global,
    reason: Why,
    line: &Line,
    spoke: &Schema,
    hub: &Schema,
    any: &AnyNode,
) -> bool
    requires { IsSoundRule (rule line.now) }
    ensures { result ≡ rule_passes (why reason) (shape_of spoke.now) (shape_of hub.now) (rule line.now) }
{
    match reason {
        Why::NameTwice => true,
        Why::NameMissing => true,
        Why::SchemaDiffers => schema_passes(line, spoke, hub, any),
        Why::UnpairedDefault => default_passes(line, spoke, hub, any),
        Why::RequiredLost => required_passes(line, spoke, hub),
        Why::RangeLost => range_passes(alloc, line, spoke, hub, any),
    }
}
