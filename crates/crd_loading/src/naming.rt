//! The versions but the hub, by their names, with their rules.
ghost use Rattle.std.specs.Prelude.{◌≡◌, ◌++◌, ◌<◌, ◌+◌, [], ◌∷◌, length, map, Some, IfOk, slice_get};
ghost use Rattle.hub_fills.specs.Fills.{fills_of};
ghost use Rattle.hub_fills.specs.EachFit.{EachAllows};
ghost use Rattle.keep_laws.specs.FittedBody.{HasRoom};
ghost use Rattle.keep_laws.specs.Spokes.{IsDefinition};
ghost use Rattle.crd_reading.specs.Seen.{version_of};
ghost use Rattle.crd_loading.specs.Fits.{IsRuled, spokes_of, levels_in};
ghost use Rattle.crd_loading.specs.View.{IsTogether};
ghost use Rattle.crd_loading.specs.Set.{spokes_in, named_fits};

use crd_reading::{Definition, Version, valid_defaults};
use hub_cells::Fitted;
use hub_fills::{Fills, fills_of, none_late};
use keep_laws::fitted_laws::room_of_rules;
use kj_value::{NoMemory, Txt};
use spoke_keep::{Spoke, Spokes};
use std::alloc::Global;

// The place among all versions of the one but the hub that has so many others before it.
fn place_of(versions: &[Version], hub: usize, i: usize) -> usize
    requires { i < length (spokes_of hub (map version_of versions.now)) }
    ensures place { slice_get (spokes_of hub (map version_of versions.now)) i
        ≡ slice_get (map version_of versions.now) result }
    ensures within { result < length versions.now }
{
    let _ = versions.len();
    if i < hub { i } else { i + 1 }
}

fn other_version(versions: &[Version], hub: usize, i: usize) -> &Version
    requires { i < length (spokes_of hub (map version_of versions.now)) }
    ensures { slice_get (spokes_of hub (map version_of versions.now)) i
        ≡ Some (version_of result.now) }
{
    let place = place_of(versions, hub, i);
    &versions[place]
}

// What the hub's names become, for each fit.
fn all_fills(alloc: Global, fits: &[Fitted]) -> Result<Vec<Fills>, NoMemory>
    requires { EachAllows fits.now }
    ensures { IfOk result (λ fs. fs.items ≡ map (λ f. fills_of (levels_in fits.now) f.level) fits.now) }
{
    let mut fills = Vec::new(alloc);
    for i in 0..fits.len() {
        let fill = fills_of(alloc, fits, i)?;
        fills.push(fill)?;
    }
    Ok(fills)
}

fn named_spoke(alloc: Global, name: &Txt, fitted: Fitted) -> Result<Spoke, NoMemory>
    ensures { IfOk result (λ s. s ≡ record { name = name.now.bytes; fit = fitted }) }
{
    let name = Txt::of(alloc, name.as_str())?;
    Spoke::new(alloc, name, fitted)
}

// All versions but the hub, each with its rules.
fn named_spokes(
    alloc: Global,
    versions: &[Version],
    hub: usize,
    fits: Vec<Fitted>,
) -> Result<Vec<Spoke>, NoMemory>
    requires { length fits.items ≡ length (spokes_of hub (map version_of versions.now)) }
    ensures { IfOk result (λ ss. ss.items ≡ named_fits (spokes_of hub (map version_of versions.now)) fits.items) }
{
    let mut spokes = Vec::new(alloc);
    for fitted in fits {
        let version = other_version(versions, hub, spokes.as_slice().len());
        let spoke = named_spoke(alloc, &version.name, fitted)?;
        spokes.push(spoke)?;
    }
    Ok(spokes)
}

// The hub's name, and the other versions with their rules.
pub(crate) fn name_spokes(
    alloc: Global,
    definition: &Definition,
    hub: usize,
    fits: Vec<Fitted>,
) -> Result<Spokes, NoMemory>
    requires { IsTogether (record { definition = definition.now; hub = hub; spokes = fits.items }) }
    ensures spokes { IfOk result (λ a. a ≡ spokes_in (record {
      definition = definition.now;
      hub = hub;
      spokes = fits.items;
    })) }
    ensures definition { IfOk result IsDefinition }
{
    room_of_rules();
    valid_defaults();
    none_late();
    let versions = definition.versions();
    let group = Txt::of(alloc, definition.group().as_str())?;
    let name = Txt::of(alloc, versions[hub].name.as_str())?;
    let fills = all_fills(alloc, fits.as_slice())?;
    let items = named_spokes(alloc, versions, hub, fits)?;
    let spokes = Spokes::new(group, name, items, fills);
    let _ = spokes.items();
    Ok(spokes)
}
