//! The first refusal at one level.
ghost use Rattle.std.specs.Prelude.{◌≡◌, map, option_map};
ghost use Rattle.struct_schema.specs.ShapeOf.{shape_of};
ghost use Rattle.struct_schema.specs.Fault.{or_else};
ghost use Rattle.hub_rules.specs.Rule.{rules_of};
ghost use Rattle.hub_rules.specs.Sound.{AreSoundRules};
ghost use Rattle.hub_rules.specs.Seen.{rule};
ghost use Rattle.hub_rules.specs.inner.Spots.{why};
ghost use Rattle.hub_rules.specs.inner.SeenSpot.{spot};
ghost use Rattle.hub_rules.specs.Refusal.{head_spot, refused, schema_spot, required_spot, level_spot, unpaired_default, range_lost};

use crate::names::{differing_spot, lost_each, missing, spot_of, twice};
use crate::nodes::AnyNode;
use crate::passing::passes;
use crate::rules::Line;
use crate::spot::{Spot, Why};
use hub_cells::Side;
use std::alloc::Global;
use struct_schema::Schema;

fn head(line: &Line, reason: Why) -> Spot<'_>
    ensures { spot result ≡ head_spot (why reason) (rule line.now) }
{
    match line {
        Line::Same { spoke, .. } => spot_of(spoke, Side::Spoke, reason),
        Line::Object { spoke, .. } => spot_of(spoke, Side::Spoke, reason),
        Line::SpokeOnly { name } => spot_of(name, Side::Spoke, reason),
        Line::HubOnly { name } => spot_of(name, Side::Hub, reason),
        Line::Split { spoke, .. } => spot_of(spoke, Side::Spoke, reason),
        Line::Table { spoke, .. } => spot_of(spoke, Side::Spoke, reason),
        Line::Scale { spoke, .. } => spot_of(spoke, Side::Spoke, reason),
    }
}

// The first rule that is refused for this reason.
fn refused<'a>(
    alloc: Global,
    reason: Why,
    lines: &'a [Line],
    s: &Schema,
    h: &Schema,
    any: &AnyNode,
) -> Option<Spot<'a>>
    requires { AreSoundRules (rules_of (map rule lines.now)) }
    ensures { option_map spot result
        ≡ refused (why reason) (shape_of s.now) (shape_of h.now) (rules_of (map rule lines.now)) }
{
    for line in lines {
        if !passes(alloc, reason, line, s, h, any) {
            return Some(head(line, reason));
        }
    }
    None
}

fn schema_spot<'a>(
    alloc: Global,
    lines: &'a [Line],
    s: &'a Schema,
    h: &'a Schema,
    any: &AnyNode,
) -> Option<Spot<'a>>
    requires { AreSoundRules (rules_of (map rule lines.now)) }
    ensures { option_map spot result
        ≡ schema_spot (shape_of s.now) (shape_of h.now) (rules_of (map rule lines.now)) }
{
    match refused(alloc, Why::SchemaDiffers, lines, s, h, any) {
        Some(p) => Some(p),
        None => differing_spot(lines, s, h, any),
    }
}

fn required_spot<'a>(
    alloc: Global,
    lines: &'a [Line],
    s: &'a Schema,
    h: &'a Schema,
    any: &AnyNode,
) -> Option<Spot<'a>>
    requires { AreSoundRules (rules_of (map rule lines.now)) }
    ensures { option_map spot result
        ≡ required_spot (shape_of s.now) (shape_of h.now) (rules_of (map rule lines.now)) }
{
    match refused(alloc, Why::RequiredLost, lines, s, h, any) {
        Some(p) => Some(p),
        None => lost_each(s, h),
    }
}

fn late_spot<'a>(
    alloc: Global,
    lines: &'a [Line],
    s: &'a Schema,
    h: &'a Schema,
    any: &AnyNode,
) -> Option<Spot<'a>>
    requires { AreSoundRules (rules_of (map rule lines.now)) }
    ensures { let rs = rules_of (map rule lines.now) in option_map spot result ≡ or_else
        (refused unpaired_default (shape_of s.now) (shape_of h.now) rs)
        (or_else (required_spot (shape_of s.now) (shape_of h.now) rs)
        (refused range_lost (shape_of s.now) (shape_of h.now) rs)) }
{
    match refused(alloc, Why::UnpairedDefault, lines, s, h, any) {
        Some(p) => Some(p),
        None => match required_spot(alloc, lines, s, h, any) {
            Some(p) => Some(p),
            None => refused(alloc, Why::RangeLost, lines, s, h, any),
        },
    }
}

pub(crate) fn level_spot<'a>(
    alloc: Global,
    lines: &'a [Line],
    s: &'a Schema,
    h: &'a Schema,
    any: &AnyNode,
) -> Option<Spot<'a>>
    requires { AreSoundRules (rules_of (map rule lines.now)) }
    ensures { option_map spot result
        ≡ level_spot (shape_of s.now) (shape_of h.now) (rules_of (map rule lines.now)) }
{
    match twice(lines) {
        Some(p) => Some(p),
        None => match missing(lines, s, h) {
            Some(p) => Some(p),
            None => match schema_spot(alloc, lines, s, h, any) {
                Some(p) => Some(p),
                None => late_spot(alloc, lines, s, h, any),
            },
        },
    }
}
