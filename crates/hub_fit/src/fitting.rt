//! Rules fitted to two schemas.
ghost use Rattle.std.specs.Prelude.{◌≡◌, ◌<◌, ◌+◌, ◌^◌, map, None, true, IfOk, IfErr, OnOk};
ghost use Rattle.struct_schema.specs.ShapeOf.{shape_of};
ghost use Rattle.hub_cells.specs.Fit.{IsFitted};
ghost use Rattle.hub_cells.specs.SeenFit.{inners_of};
ghost use Rattle.hub_rules.specs.Rule.{rules_of, inner_depth, rule_depth};
ghost use Rattle.hub_rules.specs.Seen.{rule};
ghost use Rattle.hub_rules.specs.Refusal.{is_closed, fault, inner_fault, within_fault, refused, schema_differs, schema_passes, fit_fault};
ghost use Rattle.hub_fit.specs.Chosen.{fit_of, with_inner, inners_of as inners_chosen};
ghost use Rattle.hub_cells.specs.Level.{Inners};
ghost use Rattle.hub_fit.specs.inner.InnerFits.{InnerFits, AllInnerFit, joined};
ghost use Rattle.hub_fit.specs.inner.Differ.{AllDiffer};
ghost use Rattle.struct_schema.specs.Shape.{properties};
ghost use Rattle.hub_fit.specs.Refuses.{RefusesFit};

use crate::cells::cells;
use hub_cells::{Fitted, Inner};
use hub_rules::{AnyNode, FitFault, Line, Rules, check_fit, is_required, node_at};
use kj_value::{NoMemory, Txt};
use std::alloc::Global;
use struct_schema::{Schema, copy_schema};

// No name of `properties` has two schemas.
fn names_differ(s: &Schema)
    ensures { AllDiffer (properties (shape_of s.now)) }
{
    match &s.properties {
        None => {}
        Some(named) => {
            let _ = named.len();
        }
    }
}

// The level of rules of which nothing is refused, to which so many names of objects lead.
#[cycle(build)]
#[tactic(auto, using(hub_rules::specs::laws::Inside::line_depth))]
fn build(
    alloc: Global,
    rules: &Rules,
    s: &Schema,
    h: &Schema,
    depth: u32,
    any: &AnyNode,
) -> Result<Fitted, NoMemory>
    requires spoke { is_closed (shape_of s.now) ≡ true }
    requires hub { is_closed (shape_of h.now) ≡ true }
    requires fits { fault (shape_of s.now) (shape_of h.now) (rules_of rules.now) ≡ None }
    requires depth { depth + inner_depth (rules_of rules.now) < 2 ^ 32 }
    ensures level { IfOk result (λ f. f ≡ fit_of depth (shape_of s.now) (shape_of h.now) (rules_of rules.now)) }
    ensures fitted { IfOk result (λ f. IsFitted (fit_of depth (shape_of s.now) (shape_of h.now) (rules_of rules.now))) }
{
    names_differ(s);
    let lines = rules.as_slice();
    let cells = cells(alloc, lines, s, h, depth, any)?;
    let inner = inner(alloc, lines, s, h, depth, any)?;
    let spoke = copy_schema(alloc, s)?;
    let hub = copy_schema(alloc, h)?;
    Ok(Fitted::new(spoke, hub, depth, cells, inner))
}

#[cycle(build)]
#[tactic(auto, using(hub_rules::specs::laws::Inside::line_depth))]
fn inner(
    alloc: Global,
    lines: &[Line],
    s: &Schema,
    h: &Schema,
    depth: u32,
    any: &AnyNode,
) -> Result<Vec<Inner>, NoMemory>
    requires schemas { refused schema_differs (shape_of s.now) (shape_of h.now) (rules_of (map rule lines.now)) ≡ None }
    requires fits { inner_fault (shape_of s.now) (shape_of h.now) (rules_of (map rule lines.now)) ≡ None }
    requires depth { depth + inner_depth (rules_of (map rule lines.now)) < 2 ^ 32 }
    ensures inners { IfOk result (λ v. inners_of v.items ≡ inners_chosen depth (shape_of s.now) (shape_of h.now) (rules_of (map rule lines.now))) }
    ensures fitted { IfOk result (λ v. AllInnerFit depth (shape_of s.now) (shape_of h.now) (rules_of (map rule lines.now))) }
{
    let mut inner = Vec::new(alloc);
    for line in lines {
        push_inner(alloc, line, s, h, depth, any, &mut inner)?;
    }
    Ok(inner)
}

#[cycle(build)]
#[tactic(auto, using(hub_rules::specs::laws::Inside::line_depth))]
fn push_inner(
    alloc: Global,
    line: &Line,
    s: &Schema,
    h: &Schema,
    depth: u32,
    any: &AnyNode,
    inner: &mut Vec<Inner>,
) -> Result<(), NoMemory>
    requires schema { schema_passes (shape_of s.now) (shape_of h.now) (rule line.now) ≡ true }
    requires fits { within_fault (shape_of s.now) (shape_of h.now) (rule line.now) ≡ None }
    requires depth { depth + rule_depth (rule line.now) < 2 ^ 32 }
    ensures inners { OnOk result ((is : Inners) → joined inner.new.items is
        ≡ joined inner.old.items (with_inner depth (shape_of s.now) (shape_of h.now) (rule line.now) is)) }
    ensures fitted { OnOk result (InnerFits depth (shape_of s.now) (shape_of h.now) (rule line.now)) }
{
    match line {
        Line::Object {
            spoke: a,
            hub: b,
            rules,
        } => {
            let fitted = build(
                alloc,
                rules,
                node_at(s, a, any),
                node_at(h, b, any),
                depth + 1,
                any,
            )?;
            let required = is_required(a, s);
            let spoke = Txt::of(alloc, a.as_str())?;
            let hub = Txt::of(alloc, b.as_str())?;
            inner.push(Inner {
                spoke,
                hub,
                required,
                fitted,
            })?;
            Ok(())
        }
        Line::Same { .. } => Ok(()),
        Line::SpokeOnly { .. } => Ok(()),
        Line::HubOnly { .. } => Ok(()),
        Line::Split { .. } => Ok(()),
        Line::Table { .. } => Ok(()),
        Line::Scale { .. } => Ok(()),
    }
}

fn build_root(
    alloc: Global,
    rules: &Rules,
    spoke: &Schema,
    hub: &Schema,
) -> Result<Fitted, NoMemory>
    requires { fit_fault (shape_of spoke.now) (shape_of hub.now) (rules_of rules.now) ≡ None }
    ensures { IfOk result (λ f. f ≡ fit_of 0 (shape_of spoke.now) (shape_of hub.now) (rules_of rules.now)) }
{
    let any = AnyNode::new(alloc);
    let _ = rules.as_slice();
    build(alloc, rules, spoke, hub, 0, &any)
}

/// The levels of cells that the rules mean for the spoke's schema and the hub's. It is refused exactly
/// where `check_fit` refuses, with the same answer. `NoMemory` may come anywhere.
pub fn fit(alloc: Global, rules: &Rules, spoke: &Schema, hub: &Schema) -> Result<Fitted, FitFault>
    ensures ok { IfOk result (λ f. f ≡ fit_of 0 (shape_of spoke.now) (shape_of hub.now) (rules_of rules.now)) }
    ensures fits { IfOk result (λ f. fit_fault (shape_of spoke.now) (shape_of hub.now) (rules_of rules.now) ≡ None) }
    ensures err { IfErr result (λ e. RefusesFit (fit_fault (shape_of spoke.now) (shape_of hub.now) (rules_of rules.now)) e) }
{
    match check_fit(alloc, rules, spoke, hub) {
        Err(refused) => Err(refused),
        Ok(()) => match build_root(alloc, rules, spoke, hub) {
            Ok(fitted) => Ok(fitted),
            Err(_) => Err(FitFault::NoMemory),
        },
    }
}
