//! Why rules don't fit, and the path to where.
ghost use Rattle.std.specs.Prelude.{◌≡◌, ◌++◌, [], ◌∷◌, map, MatchResult, OnOk, IfOk, IfErr, option_map, Option, Some, None, codes};
ghost use Rattle.struct_schema.specs.ShapeOf.{shape_of, own_of};
ghost use Rattle.hub_cells.specs.Level.{named};
ghost use Rattle.hub_cells.specs.Seen.{side};
ghost use Rattle.hub_rules.specs.Rule.{rules_of};
ghost use Rattle.hub_rules.specs.Sound.{IsSoundRule, AreSoundRules};
ghost use Rattle.hub_rules.specs.Seen.{rule};
ghost use Rattle.hub_rules.specs.inner.Spots.{why};
ghost use Rattle.hub_rules.specs.inner.SeenSpot.{spot};
ghost use Rattle.hub_rules.specs.Told.{StopsFit, NamesFitFault, path_text};
ghost use Rattle.hub_rules.specs.Refusal.{Fault, told, under, at_root, fault, inner_fault, within_fault, root_fault, fit_fault};

use crate::level::level_spot;
use crate::nodes::{AnyNode, is_closed, node_at};
use crate::rules::{Line, Rules};
use crate::spot::{Spot, Why};
use hub_cells::Side;
use kj_value::{NoMemory, Txt};
use std::alloc::Global;
use struct_schema::Schema;

/// Why rules don't fit two schemas, with the path of the name: names joined by points, through the
/// names that the objects around it have on its side. The root is the empty path.
#[derive(Drop)]
pub enum FitFault {
    /// A name stands in two rules of a level on one side.
    NameTwice { path: Txt },
    /// A rule names what its schema doesn't have, or a name without a rule has no equal name without a
    /// rule on the other side.
    NameMissing { path: Txt },
    /// The schemas of two names don't go together. Where the values are equal, they may differ in their
    /// defaults alone.
    SchemaDiffers { path: Txt },
    /// A default where the rule can hold none: in a table, one that has none that matches it on the other
    /// side.
    UnpairedDefault { path: Txt },
    /// The other side may lack what one side requires.
    RequiredLost { path: Txt },
    /// The other side's schema doesn't allow what goes over.
    RangeLost { path: Txt },
    NoMemory,
}

// A refusal on its way out.
#[derive(Drop)]
pub(crate) struct Found {
    side: Side,
    path: Txt,
    why: Why,
}

#[derive(Drop)]
pub(crate) enum Stop {
    Found(Found),
    Starved,
}

fn told(alloc: Global, p: Spot) -> Stop
    ensures { StopsFit (Some (told (spot p.entry))) result }
{
    match Txt::of(alloc, p.name.as_str()) {
        Ok(path) => Stop::Found(Found {
            side: p.side,
            path,
            why: p.why,
        }),
        Err(_) => Stop::Starved,
    }
}

fn name_on<'a>(on: Side, a: &'a Txt, b: &'a Txt) -> &'a Txt
    ensures { result.now.bytes ≡ named (side on) a.now.bytes b.now.bytes }
{
    match on {
        Side::Spoke => a,
        Side::Hub => b,
    }
}

fn stepped(alloc: Global, name: &str, path: &str) -> Result<Txt, NoMemory>
    ensures { IfOk result (λ t. t.bytes ≡ name.now ++ codes "." ++ path.now) }
{
    let mut text = String::from_str(alloc, name)?;
    text.push_str(".")?;
    text.push_str(path)?;
    Ok(Txt::of_string(text))
}

// The refusal inside two objects, as one around them.
fn under(alloc: Global, a: &Txt, b: &Txt, stop: Stop) -> Stop
    ensures { (o : Option Fault) → StopsFit o stop → StopsFit (under a.now.bytes b.now.bytes o) result }
{
    match stop {
        Stop::Starved => Stop::Starved,
        Stop::Found(found) => {
            match stepped(
                alloc,
                name_on(found.side, a, b).as_str(),
                found.path.as_str(),
            ) {
                Ok(path) => Stop::Found(Found {
                    side: found.side,
                    path,
                    why: found.why,
                }),
                Err(_) => Stop::Starved,
            }
        }
    }
}

// The first refusal of the rules at all of their levels.
#[cycle(refusal)]
#[tactic(auto, using(crate::specs::laws::Inside::line_depth))]
fn rules_fault(
    alloc: Global,
    rules: &Rules,
    s: &Schema,
    h: &Schema,
    any: &AnyNode,
) -> Result<(), Stop>
    ensures { let o = fault (shape_of s.now) (shape_of h.now) (rules_of rules.now) in
        MatchResult result (λ _. o ≡ None) (λ e. StopsFit o e) }
{
    let lines = rules.as_slice();
    match level_spot(alloc, lines, s, h, any) {
        Some(p) => Err(told(alloc, p)),
        None => inner_fault(alloc, lines, s, h, any),
    }
}

#[cycle(refusal)]
#[tactic(auto, using(crate::specs::laws::Inside::line_depth))]
fn inner_fault(
    alloc: Global,
    lines: &[Line],
    s: &Schema,
    h: &Schema,
    any: &AnyNode,
) -> Result<(), Stop>
    ensures { let o = inner_fault (shape_of s.now) (shape_of h.now) (rules_of (map rule lines.now)) in
        MatchResult result (λ _. o ≡ None) (λ e. StopsFit o e) }
{
    for line in lines {
        if let Err(stop) = within_fault(alloc, line, s, h, any) {
            return Err(stop);
        }
    }
    Ok(())
}

#[cycle(refusal)]
#[tactic(auto, using(crate::specs::laws::Inside::line_depth))]
fn within_fault(
    alloc: Global,
    line: &Line,
    s: &Schema,
    h: &Schema,
    any: &AnyNode,
) -> Result<(), Stop>
    ensures { let o = within_fault (shape_of s.now) (shape_of h.now) (rule line.now) in
        MatchResult result (λ _. o ≡ None) (λ e. StopsFit o e) }
{
    match line {
        Line::Object {
            spoke: a,
            hub: b,
            rules,
        } => match rules_fault(alloc, rules, node_at(s, a, any), node_at(h, b, any), any) {
            Ok(()) => Ok(()),
            Err(stop) => Err(under(alloc, a, b, stop)),
        },
        Line::Same { .. } => Ok(()),
        Line::SpokeOnly { .. } => Ok(()),
        Line::HubOnly { .. } => Ok(()),
        Line::Split { .. } => Ok(()),
        Line::Table { .. } => Ok(()),
        Line::Scale { .. } => Ok(()),
    }
}

fn fault_at(path: Txt, reason: Why) -> FitFault
    ensures { (f : Fault) → path.bytes ≡ path_text f.path → why reason ≡ f.why
        → NamesFitFault (Some f) result }
{
    match reason {
        Why::NameTwice => FitFault::NameTwice { path },
        Why::NameMissing => FitFault::NameMissing { path },
        Why::SchemaDiffers => FitFault::SchemaDiffers { path },
        Why::UnpairedDefault => FitFault::UnpairedDefault { path },
        Why::RequiredLost => FitFault::RequiredLost { path },
        Why::RangeLost => FitFault::RangeLost { path },
    }
}

fn fault_of(stop: Stop) -> FitFault
    ensures { (o : Option Fault) → StopsFit o stop → NamesFitFault o result }
{
    match stop {
        Stop::Starved => FitFault::NoMemory,
        Stop::Found(Found { path, why, .. }) => fault_at(path, why),
    }
}

// A refusal of the roots themselves.
fn at_root(alloc: Global, reason: Why) -> FitFault
    ensures { NamesFitFault (Some (at_root (why reason))) result }
{
    fault_at(Txt::of_string(String::new(alloc)), reason)
}

fn root_fault(alloc: Global, s: &Schema, h: &Schema) -> Result<(), FitFault>
    ensures { let o = root_fault (shape_of s.now) (shape_of h.now) in
        MatchResult result (λ _. o ≡ None) (λ e. NamesFitFault o e) }
{
    let closed = is_closed(s) && is_closed(h);
    if !closed {
        return Err(at_root(alloc, Why::SchemaDiffers));
    }
    let bare = s.default_value.is_none() && h.default_value.is_none();
    if !bare {
        return Err(at_root(alloc, Why::UnpairedDefault));
    }
    Ok(())
}

fn below_root(alloc: Global, rules: &Rules, s: &Schema, h: &Schema) -> Result<(), FitFault>
    ensures { let o = fault (shape_of s.now) (shape_of h.now) (rules_of rules.now) in
        MatchResult result (λ _. o ≡ None) (λ e. NamesFitFault o e) }
{
    let any = AnyNode::new(alloc);
    match rules_fault(alloc, rules, s, h, &any) {
        Ok(()) => Ok(()),
        Err(stop) => Err(fault_of(stop)),
    }
}

/// Whether the rules fit the spoke's schema and the hub's: Ok exactly where nothing is refused, and else
/// the first refusal. A level is tried whole before the levels inside it. At a level the refusals come
/// in the order of `FitFault`, each over the rules in their order and then over the names without a
/// rule. `NoMemory` comes only where something is refused.
pub fn check_fit(alloc: Global, rules: &Rules, spoke: &Schema, hub: &Schema) -> Result<(), FitFault>
    ensures { let o = fit_fault (shape_of spoke.now) (shape_of hub.now) (rules_of rules.now) in
        MatchResult result (λ _. o ≡ None) (λ e. NamesFitFault o e) }
{
    match root_fault(alloc, spoke, hub) {
        Err(refused) => Err(refused),
        Ok(()) => below_root(alloc, rules, spoke, hub),
    }
}
