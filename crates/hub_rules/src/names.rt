//! The names of a level: which rules have them, and which no rule has.
ghost use Rattle.std.specs.Prelude.{◌≡◌, ◌||◌, ◌&&◌, not, [], ◌∷◌, map, option_map};
ghost use Rattle.struct_schema.specs.Shape.{properties, shapes_of};
ghost use Rattle.struct_schema.specs.ShapeOf.{shape_of, named_shape};
ghost use Rattle.struct_schema.specs.Fault.{or_else};
ghost use Rattle.hub_cells.specs.Side.{spoke, hub, other};
ghost use Rattle.hub_cells.specs.Seen.{side};
ghost use Rattle.hub_cells.specs.Fit.{has_name};
ghost use Rattle.hub_rules.specs.Rule.{rules_of, rule_names, names_on};
ghost use Rattle.hub_rules.specs.Seen.{rule};
ghost use Rattle.hub_rules.specs.inner.SeenSpot.{spot};
ghost use Rattle.hub_rules.specs.inner.Spots.{why};
ghost use Rattle.hub_rules.specs.Refusal.{is_free, at_name, again, spot_at, name_twice, name_missing, twice_in, twice, absent, absent_in, absent_from, unpaired, differing, lost, missing, first_failing, node_at, alike_below, alike_required, schema_differs, required_lost};

use crate::nodes::{AnyNode, alike_below, alike_required, is_there, node_at};
use crate::rules::Line;
use crate::spot::{Spot, Why};
use hub_cells::Side;
use kj_value::Txt;
use struct_schema::{Schema, SchemaField, lesser};

fn is_name(name: &str, t: &Txt) -> bool
    ensures { result ≡ has_name name.now (t.now.bytes ∷ []) }
{
    name == t.as_str()
}

fn is_in(name: &str, line: &Line, on: Side) -> bool
    ensures { result ≡ has_name name.now (rule_names (side on) (rule line.now)) }
{
    match (line, on) {
        (Line::Same { spoke, .. }, Side::Spoke) => is_name(name, spoke),
        (Line::Same { hub, .. }, Side::Hub) => is_name(name, hub),
        (Line::Object { spoke, .. }, Side::Spoke) => is_name(name, spoke),
        (Line::Object { hub, .. }, Side::Hub) => is_name(name, hub),
        (Line::SpokeOnly { name: a }, Side::Spoke) => is_name(name, a),
        (Line::SpokeOnly { .. }, Side::Hub) => false,
        (Line::HubOnly { .. }, Side::Spoke) => false,
        (Line::HubOnly { name: b }, Side::Hub) => is_name(name, b),
        (Line::Split { spoke, .. }, Side::Spoke) => is_name(name, spoke),
        (Line::Split { first, second, .. }, Side::Hub) => {
            is_name(name, first) || is_name(name, second)
        }
        (Line::Table { spoke, .. }, Side::Spoke) => is_name(name, spoke),
        (Line::Table { hub, .. }, Side::Hub) => is_name(name, hub),
        (Line::Scale { spoke, .. }, Side::Spoke) => is_name(name, spoke),
        (Line::Scale { hub, .. }, Side::Hub) => is_name(name, hub),
    }
}

/// Whether a rule has the name on the side. It takes no memory.
pub fn is_ruled(lines: &[Line], on: Side, name: &str) -> bool
    ensures { result ≡ has_name name.now (names_on (side on) (rules_of (map rule lines.now))) }
{
    for line in lines {
        if is_in(name, line, on) {
            return true;
        }
    }
    false
}

fn is_free(lines: &[Line], on: Side, s: &Schema, name: &str) -> bool
    ensures { result ≡ is_free (side on) (shape_of s.now) (rules_of (map rule lines.now)) name.now }
{
    is_there(s, name) && !is_ruled(lines, on, name)
}

pub(crate) fn spot_of(name: &Txt, on: Side, reason: Why) -> Spot<'_>
    ensures { spot result ≡ at_name (side on) name.now.bytes (why reason) }
{
    Spot {
        side: on,
        name,
        why: reason,
    }
}

// ---- a name that stands twice

fn again<'a>(name: &'a Txt, on: Side, later: &[Line]) -> Option<Spot<'a>>
    ensures { option_map spot result ≡ spot_at (side on) name_twice
        (again (name.now.bytes ∷ []) (names_on (side on) (rules_of (map rule later.now)))) }
{
    if is_ruled(later, on, name.as_str()) {
        Some(spot_of(name, on, Why::NameTwice))
    } else {
        None
    }
}

fn again_two<'a>(first: &'a Txt, second: &'a Txt, later: &[Line]) -> Option<Spot<'a>>
    ensures { option_map spot result ≡ spot_at hub name_twice
        (again (first.now.bytes ∷ second.now.bytes ∷ []) (names_on hub (rules_of (map rule later.now)))) }
{
    let name = first.as_str();
    if is_name(name, second) || is_ruled(later, Side::Hub, name) {
        Some(spot_of(first, Side::Hub, Why::NameTwice))
    } else {
        again(second, Side::Hub, later)
    }
}

fn again_each<'a>(a: &'a Txt, b: &'a Txt, later: &[Line]) -> Option<Spot<'a>>
    ensures { let rs = rules_of (map rule later.now) in option_map spot result ≡ or_else
        (spot_at spoke name_twice (again (a.now.bytes ∷ []) (names_on spoke rs)))
        (spot_at hub name_twice (again (b.now.bytes ∷ []) (names_on hub rs))) }
{
    match again(a, Side::Spoke, later) {
        Some(p) => Some(p),
        None => again(b, Side::Hub, later),
    }
}

fn twice_in<'a>(line: &'a Line, later: &[Line]) -> Option<Spot<'a>>
    ensures { option_map spot result ≡ twice_in (rule line.now) (rules_of (map rule later.now)) }
{
    match line {
        Line::Same { spoke, hub } => again_each(spoke, hub, later),
        Line::Object { spoke, hub, .. } => again_each(spoke, hub, later),
        Line::SpokeOnly { name } => match again(name, Side::Spoke, later) {
            Some(p) => Some(p),
            None => None,
        },
        Line::HubOnly { name } => again(name, Side::Hub, later),
        Line::Split {
            spoke,
            first,
            second,
        } => match again(spoke, Side::Spoke, later) {
            Some(p) => Some(p),
            None => again_two(first, second, later),
        },
        Line::Table { spoke, hub, .. } => again_each(spoke, hub, later),
        Line::Scale { spoke, hub, .. } => again_each(spoke, hub, later),
    }
}

pub(crate) fn twice(lines: &[Line]) -> Option<Spot<'_>>
    ensures { option_map spot result ≡ twice (rules_of (map rule lines.now)) }
{
    for i in 0..lines.len() {
        if let Some(p) = twice_in(&lines[i], &lines[i + 1..]) {
            return Some(p);
        }
    }
    None
}

// ---- a name that isn't there

fn absent<'a>(name: &'a Txt, on: Side, s: &Schema) -> Option<Spot<'a>>
    ensures { option_map spot result ≡ spot_at (side on) name_missing
        (absent (shape_of s.now) (name.now.bytes ∷ [])) }
{
    if is_there(s, name.as_str()) {
        None
    } else {
        Some(spot_of(name, on, Why::NameMissing))
    }
}

fn absent_two<'a>(first: &'a Txt, second: &'a Txt, h: &Schema) -> Option<Spot<'a>>
    ensures { option_map spot result ≡ spot_at hub name_missing
        (absent (shape_of h.now) (first.now.bytes ∷ second.now.bytes ∷ [])) }
{
    if is_there(h, first.as_str()) {
        absent(second, Side::Hub, h)
    } else {
        Some(spot_of(first, Side::Hub, Why::NameMissing))
    }
}

fn absent_each<'a>(a: &'a Txt, b: &'a Txt, s: &Schema, h: &Schema) -> Option<Spot<'a>>
    ensures { option_map spot result ≡ or_else
        (spot_at spoke name_missing (absent (shape_of s.now) (a.now.bytes ∷ [])))
        (spot_at hub name_missing (absent (shape_of h.now) (b.now.bytes ∷ []))) }
{
    match absent(a, Side::Spoke, s) {
        Some(p) => Some(p),
        None => absent(b, Side::Hub, h),
    }
}

fn absent_in<'a>(line: &'a Line, s: &Schema, h: &Schema) -> Option<Spot<'a>>
    ensures { option_map spot result ≡ absent_in (shape_of s.now) (shape_of h.now) (rule line.now) }
{
    match line {
        Line::Same { spoke, hub } => absent_each(spoke, hub, s, h),
        Line::Object { spoke, hub, .. } => absent_each(spoke, hub, s, h),
        Line::SpokeOnly { name } => match absent(name, Side::Spoke, s) {
            Some(p) => Some(p),
            None => None,
        },
        Line::HubOnly { name } => absent(name, Side::Hub, h),
        Line::Split {
            spoke,
            first,
            second,
        } => match absent(spoke, Side::Spoke, s) {
            Some(p) => Some(p),
            None => absent_two(first, second, h),
        },
        Line::Table { spoke, hub, .. } => absent_each(spoke, hub, s, h),
        Line::Scale { spoke, hub, .. } => absent_each(spoke, hub, s, h),
    }
}

fn absent_from<'a>(lines: &'a [Line], s: &Schema, h: &Schema) -> Option<Spot<'a>>
    ensures { option_map spot result
        ≡ absent_from (shape_of s.now) (shape_of h.now) (rules_of (map rule lines.now)) }
{
    for line in lines {
        if let Some(p) = absent_in(line, s, h) {
            return Some(p);
        }
    }
    None
}

// The first name of the first schema that no rule has and that isn't such a name of the other.
fn unpaired<'a>(lines: &[Line], on: Side, s: &'a Schema, o: &Schema) -> Option<&'a Txt>
    ensures { option_map (λ t. t.now.bytes) result
        ≡ unpaired (side on) (shape_of s.now) (shape_of o.now) (rules_of (map rule lines.now)) }
{
    match &s.properties {
        None => None,
        Some(named) => unpaired_among(lines, on, named.as_slice(), o),
    }
}

fn other(on: Side) -> Side
    ensures { side result ≡ other (side on) }
{
    match on {
        Side::Spoke => Side::Hub,
        Side::Hub => Side::Spoke,
    }
}

fn is_paired(lines: &[Line], on: Side, name: &str, o: &Schema) -> bool
    ensures { let rs = rules_of (map rule lines.now) in result ≡ (has_name name.now (names_on (side on) rs)
        || is_free (other (side on)) (shape_of o.now) rs name.now) }
{
    is_ruled(lines, on, name) || is_free(lines, other(on), o, name)
}

fn unpaired_among<'a>(
    lines: &[Line],
    on: Side,
    fields: &'a [SchemaField],
    o: &Schema,
) -> Option<&'a Txt>
    ensures { let rs = rules_of (map rule lines.now) in option_map (λ t. t.now.bytes) result
        ≡ first_failing (λ k t. has_name k (names_on (side on) rs)
        || is_free (other (side on)) (shape_of o.now) rs k) (shapes_of (map named_shape fields.now)) }
{
    for f in fields {
        if !is_paired(lines, on, f.name.as_str(), o) {
            return Some(&f.name);
        }
    }
    None
}

fn spot_at<'a>(name: Option<&'a Txt>, on: Side, reason: Why) -> Option<Spot<'a>>
    ensures { option_map spot result
        ≡ spot_at (side on) (why reason) (option_map (λ t. t.now.bytes) name.entry) }
{
    match name {
        None => None,
        Some(t) => Some(spot_of(t, on, reason)),
    }
}

fn unpaired_each<'a>(lines: &[Line], s: &'a Schema, h: &'a Schema) -> Option<Spot<'a>>
    ensures { let rs = rules_of (map rule lines.now) in option_map spot result ≡ or_else
        (spot_at spoke name_missing (unpaired spoke (shape_of s.now) (shape_of h.now) rs))
        (spot_at hub name_missing (unpaired hub (shape_of h.now) (shape_of s.now) rs)) }
{
    match spot_at(
        unpaired(lines, Side::Spoke, s, h),
        Side::Spoke,
        Why::NameMissing,
    ) {
        Some(p) => Some(p),
        None => spot_at(
            unpaired(lines, Side::Hub, h, s),
            Side::Hub,
            Why::NameMissing,
        ),
    }
}

pub(crate) fn missing<'a>(lines: &'a [Line], s: &'a Schema, h: &'a Schema) -> Option<Spot<'a>>
    ensures { option_map spot result
        ≡ missing (shape_of s.now) (shape_of h.now) (rules_of (map rule lines.now)) }
{
    match absent_from(lines, s, h) {
        Some(p) => Some(p),
        None => unpaired_each(lines, s, h),
    }
}

// ---- names that no rule has, whose schemas differ

fn is_alike(lines: &[Line], f: &SchemaField, s: &Schema, h: &Schema, any: &AnyNode) -> bool
    ensures { let k = f.now.name.bytes in result
        ≡ (has_name k (names_on spoke (rules_of (map rule lines.now)))
        || (alike_below (shape_of f.now.schema) (node_at k (shape_of h.now))
        && alike_required k k (shape_of s.now) (shape_of h.now))) }
{
    is_ruled(lines, Side::Spoke, f.name.as_str())
        || (alike_below(&f.schema, node_at(h, &f.name, any))
            && alike_required(&f.name, &f.name, s, h))
}

fn differing_among<'a>(
    lines: &[Line],
    fields: &'a [SchemaField],
    s: &Schema,
    h: &Schema,
    any: &AnyNode,
) -> Option<&'a Txt>
    ensures { option_map (λ t. t.now.bytes) result
        ≡ first_failing (λ k t. has_name k (names_on spoke (rules_of (map rule lines.now)))
        || (alike_below t (node_at k (shape_of h.now))
        && alike_required k k (shape_of s.now) (shape_of h.now))) (shapes_of (map named_shape fields.now)) }
{
    for f in fields {
        if !is_alike(lines, f, s, h, any) {
            return Some(&f.name);
        }
    }
    None
}

fn differing<'a>(lines: &[Line], s: &'a Schema, h: &Schema, any: &AnyNode) -> Option<&'a Txt>
    ensures { option_map (λ t. t.now.bytes) result
        ≡ differing (shape_of s.now) (shape_of h.now) (rules_of (map rule lines.now)) }
{
    match &s.properties {
        None => None,
        Some(named) => differing_among(lines, named.as_slice(), s, h, any),
    }
}

pub(crate) fn differing_spot<'a>(
    lines: &[Line],
    s: &'a Schema,
    h: &Schema,
    any: &AnyNode,
) -> Option<Spot<'a>>
    ensures { option_map spot result ≡ spot_at spoke schema_differs
        (differing (shape_of s.now) (shape_of h.now) (rules_of (map rule lines.now))) }
{
    spot_at(differing(lines, s, h, any), Side::Spoke, Why::SchemaDiffers)
}

// ---- required names that the schema doesn't have

fn lost(s: &Schema) -> Option<&Txt>
    ensures { option_map (λ t. t.now.bytes) result ≡ lost (shape_of s.now) }
{
    let mut first: Option<&Txt> = None;
    for name in s.required.as_slice() {
        if !is_there(s, name.as_str()) {
            first = Some(lesser(first, name));
        }
    }
    first
}

pub(crate) fn lost_each<'a>(s: &'a Schema, h: &'a Schema) -> Option<Spot<'a>>
    ensures { option_map spot result ≡ or_else
        (spot_at spoke required_lost (lost (shape_of s.now)))
        (spot_at hub required_lost (lost (shape_of h.now))) }
{
    match spot_at(lost(s), Side::Spoke, Why::RequiredLost) {
        Some(p) => Some(p),
        None => spot_at(lost(h), Side::Hub, Why::RequiredLost),
    }
}
