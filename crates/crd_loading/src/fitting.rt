//! The rules of the spokes, fitted to their schemas and the hub's.
ghost use Rattle.std.specs.Prelude.{◌≡◌, ◌++◌, ◌∷◌, [], cond, true, Option, Some, Ok, IfOk, IfErr, IfNone, OnOk, None, map, option_map, slice_get};
ghost use Rattle.struct_schema.specs.ShapeOf.{shape_of};
ghost use Rattle.hub_rules.specs.Refusal.{Fault, fit_fault};
ghost use Rattle.hub_rules.specs.Rule.{rules_of};
ghost use Rattle.hub_rules.specs.inner.Spots.{why};
ghost use Rattle.hub_fit.specs.Chosen.{fit_of};
ghost use Rattle.hub_fit.specs.Refuses.{RefusesFit};
ghost use Rattle.rule_reading.specs.Told.{set_of};
ghost use Rattle.crd_reading.specs.Seen.{version_of};
ghost use Rattle.crd_reading.specs.Offered.{has_version};
ghost use Rattle.crd_loading.specs.Words.{fit_word};
ghost use Rattle.crd_loading.specs.Blame.{blame, of_fit};
ghost use Rattle.hub_fills.specs.LateNames.{first_late};
ghost use Rattle.crd_loading.specs.Fits.{IsRuled, version_from, spokes_of, rules_or_none, rules_for, fits_blame, fits_of, levels_in, late_blame, fit_blame};
ghost use Rattle.crd_loading.specs.View.{FitVersions, FitHub, placed_by};
ghost use Rattle.crd_loading.specs.Told.{blame_of, blamed_in};
ghost use Rattle.crd_loading.specs.inner.AllFitted.{AllFitted};

use crate::blamed::{Blamed, blame};
use crate::words::fit_word;
use crd_reading::Version;
use hub_cells::Fitted;
use hub_fills::late;
use hub_fit::fit;
use hub_rules::{FitFault, Rules, Why};
use kj_value::{NoMemory, Txt};
use rule_reading::{RuleMap, RuleSet};
use std::alloc::Global;
use struct_schema::Schema;

// The first version of the name, with its place.
fn version_named<'a>(versions: &'a [Version], name: &str) -> Option<(usize, &'a Version)>
    ensures { option_map (λ p. (p.0, version_of p.1.now)) result
        ≡ version_from 0 name.now (map version_of versions.now) }
{
    for i in 0..versions.len() {
        if name == versions[i].name.as_str() {
            return Some((i, &versions[i]));
        }
    }
    None
}

fn unfit(alloc: Global, path: Txt, reason: Why) -> Result<Blamed, NoMemory>
    ensures { IfOk result (λ b. blame_of b ≡ blame path.bytes (fit_word (why reason))) }
{
    blame(alloc, path, fit_word(reason))
}

// Why rules don't fit.
fn told(alloc: Global, fault: FitFault) -> Result<Blamed, NoMemory>
    ensures { IfOk result (λ b. (o : Option Fault) → RefusesFit o fault
        → of_fit o ≡ Some (blame_of b)) }
{
    match fault {
        FitFault::NameTwice { path } => unfit(alloc, path, Why::NameTwice),
        FitFault::NameMissing { path } => unfit(alloc, path, Why::NameMissing),
        FitFault::SchemaDiffers { path } => unfit(alloc, path, Why::SchemaDiffers),
        FitFault::UnpairedDefault { path } => unfit(alloc, path, Why::UnpairedDefault),
        FitFault::RequiredLost { path } => unfit(alloc, path, Why::RequiredLost),
        FitFault::RangeLost { path } => unfit(alloc, path, Why::RangeLost),
        FitFault::NoMemory => Err(NoMemory),
    }
}

// Rules fitted to two schemas, with what their type keeps of them.
fn fit_rules(alloc: Global, rules: &Rules, spoke: &Schema, hub: &Schema) -> Result<Fitted, FitFault>
    ensures ok { IfOk result (λ f. f ≡ fit_of 0 (shape_of spoke.now) (shape_of hub.now) (rules_of rules.now)) }
    ensures ruled { IfOk result IsRuled }
    ensures fits { OnOk result (fit_fault (shape_of spoke.now) (shape_of hub.now) (rules_of rules.now) ≡ None) }
    ensures err { IfErr result (RefusesFit (fit_fault (shape_of spoke.now) (shape_of hub.now) (rules_of rules.now))) }
{
    let _ = rules.as_slice();
    match fit(alloc, rules, spoke, hub) {
        Err(fault) => Err(fault),
        Ok(f) => {
            let _ = f.cells();
            Ok(f)
        }
    }
}

// Rules, or none, fitted to two schemas.
fn fit_given(
    alloc: Global,
    rules: Option<&Rules>,
    spoke: &Schema,
    hub: &Schema,
) -> Result<Fitted, FitFault>
    ensures ok { IfOk result (λ f. f ≡ fit_of 0 (shape_of spoke.now) (shape_of hub.now)
        (rules_or_none (option_map (λ rs. rs.now) rules.entry))) }
    ensures ruled { IfOk result IsRuled }
    ensures fits { OnOk result (fit_fault (shape_of spoke.now) (shape_of hub.now)
        (rules_or_none (option_map (λ rs. rs.now) rules.entry)) ≡ None) }
    ensures err { IfErr result (RefusesFit (fit_fault (shape_of spoke.now) (shape_of hub.now)
        (rules_or_none (option_map (λ rs. rs.now) rules.entry)))) }
{
    match rules {
        None => fit_rules(alloc, &Rules::new(alloc), spoke, hub),
        Some(rules) => fit_rules(alloc, rules, spoke, hub),
    }
}

fn fit_version(
    alloc: Global,
    v: &Version,
    hub: &Schema,
    spokes: &RuleMap,
) -> Result<Result<Fitted, Blamed>, NoMemory>
    ensures fit { IfOk result (λ r. IfOk r (λ f. f ≡ fit_of 0 (version_of v.now).schema
        (shape_of hub.now) (rules_for (version_of v.now).name spokes.now))) }
    ensures ruled { IfOk result (λ r. IfOk r IsRuled) }
    ensures blame { IfOk result (λ r. blamed_in r ≡ of_fit (fit_fault (version_of v.now).schema
        (shape_of hub.now) (rules_for (version_of v.now).name spokes.now))) }
{
    match fit_given(alloc, spokes.get(v.name.as_str()), &v.schema, hub) {
        Ok(f) => Ok(Ok(f)),
        Err(fault) => Ok(Err(told(alloc, fault)?)),
    }
}

// Adds the fit of a version, but for the hub.
#[tactic(auto, using(crate::proofs::Fits::all_push))]
fn fit_spoke(
    alloc: Global,
    is_hub: bool,
    v: &Version,
    schema: &Schema,
    spokes: &RuleMap,
    fits: &mut Vec<Fitted>,
) -> Result<Option<Blamed>, NoMemory>
    requires { AllFitted fits.old.items }
    ensures fits { IfOk result (λ o. IfNone o (fits.new.items ≡ cond is_hub fits.old.items
        (fits.old.items ++ fit_of 0 (version_of v.now).schema (shape_of schema.now)
        (rules_for (version_of v.now).name spokes.now) ∷ []))) }
    ensures all { IfOk result (λ o. IfNone o (AllFitted fits.new.items)) }
    ensures blame { IfOk result (λ o. option_map blame_of o ≡ cond is_hub None (of_fit
        (fit_fault (version_of v.now).schema (shape_of schema.now)
        (rules_for (version_of v.now).name spokes.now)))) }
{
    if is_hub {
        return Ok(None);
    }
    match fit_version(alloc, v, schema, spokes)? {
        Err(blamed) => Ok(Some(blamed)),
        Ok(f) => {
            fits.push(f)?;
            Ok(None)
        }
    }
}

// The fits of all versions but the hub, in their order.
fn fit_spokes(
    alloc: Global,
    versions: &[Version],
    hub: usize,
    schema: &Schema,
    spokes: &RuleMap,
) -> Result<Result<Vec<Fitted>, Blamed>, NoMemory>
    ensures fits { IfOk result (λ r. IfOk r (λ fs. fs.items
        ≡ fits_of (shape_of schema.now) spokes.now (spokes_of hub (map version_of versions.now)))) }
    ensures all { IfOk result (λ r. IfOk r (λ fs. AllFitted fs.items)) }
    ensures blame { IfOk result (λ r. blamed_in r
        ≡ fits_blame (shape_of schema.now) spokes.now (spokes_of hub (map version_of versions.now))) }
{
    let mut fits = Vec::new(alloc);
    for i in 0..versions.len() {
        match fit_spoke(alloc, i == hub, &versions[i], schema, spokes, &mut fits)? {
            Some(blamed) => return Ok(Err(blamed)),
            None => {}
        }
    }
    Ok(Ok(fits))
}

// The first name whose default comes too late for some spoke.
fn late_name(alloc: Global, fits: &[Fitted]) -> Result<Option<Blamed>, NoMemory>
    ensures blame { IfOk result (λ o. option_map blame_of o ≡ late_blame fits.now) }
    ensures none { IfOk result (λ o. IfNone o (first_late (levels_in fits.now) ≡ None)) }
{
    match late(alloc, fits)? {
        None => Ok(None),
        Some(path) => Ok(Some(unfit(alloc, path, Why::UnpairedDefault)?)),
    }
}

// The hub's place, and the fits of the spokes.
pub(crate) fn fit_set(
    alloc: Global,
    versions: &[Version],
    set: &RuleSet,
) -> Result<Result<(usize, Vec<Fitted>), Blamed>, NoMemory>
    requires { has_version set.now.hub.bytes (map version_of versions.now) ≡ true }
    ensures placed { IfOk result (λ r. IfOk r (λ p.
        (p.0, p.1.items) ≡ placed_by (Ok (set_of set.now)) (map version_of versions.now))) }
    ensures together { IfOk result (λ r. IfOk r (λ p. FitHub
        (slice_get (map version_of versions.now) p.0) p.0 (map version_of versions.now) p.1.items)) }
    ensures late { IfOk result (λ r. IfOk r (λ p. first_late (levels_in p.1.items) ≡ None)) }
    ensures blame { IfOk result (λ r. blamed_in r
        ≡ fit_blame (Ok (set_of set.now)) (map version_of versions.now)) }
{
    match version_named(versions, set.hub.as_str()) {
        None => unreachable!(),
        Some((hub, version)) => {
            match fit_spokes(alloc, versions, hub, &version.schema, &set.spokes)? {
                Err(blamed) => Ok(Err(blamed)),
                Ok(fits) => match late_name(alloc, fits.as_slice())? {
                    Some(blamed) => Ok(Err(blamed)),
                    None => Ok(Ok((hub, fits))),
                },
            }
        }
    }
}
