//! A loaded definition.
ghost use Rattle.std.specs.Prelude.{◌≡◌, ◌<◌, MatchOption, slice_get, Some};
ghost use Rattle.keep_laws.specs.Spokes.{Spoke as SpokeView};
ghost use Rattle.crd_reading.specs.Seen.{version_of};
ghost use Rattle.crd_meaning.specs.Definition.{IsLoaded, count_of, version_at, seat, at_hub, at_spoke};

use crd_reading::{Definition, Version};
use spoke_keep::Spokes;
use std::marker::Model;

/// A definition, the place of the hub among its versions, and the other versions, with their rules, in the definition's order.
pub struct LoadedVersions {
    definition: Definition,
    hub: u8,
    spokes: Spokes,
}

impl Drop for LoadedVersions {
    fn drop(self) {
        let LoadedVersions {
            definition: _,
            hub: _,
            spokes: _,
        } = self;
    }
}

impl Model for LoadedVersions {
    ghost use Rattle.crd_meaning.specs.Definition as meaning;
    ghost use Rattle.crd_loading.specs.inner.SetCode.{set_code};

    ghost Value = { meaning.Definition };

    ghost coded = { set_code };

    ghost view = { λ s. record { view = s.definition; hub = s.hub; spokes = s.spokes } };

    ghost invariant = { λ s. meaning.IsLoaded (record { view = s.definition; hub = s.hub; spokes = s.spokes }) };
}

impl LoadedVersions {
    /// A definition with its hub and spokes.
    pub fn new(definition: Definition, hub: u8, spokes: Spokes) -> LoadedVersions
        requires { IsLoaded (record { view = definition; hub = hub; spokes = spokes }) }
        ensures { result ≡ record { view = definition; hub = hub; spokes = spokes } }
    {
        LoadedVersions {
            definition,
            hub,
            spokes,
        }
    }

    /// What the definition says.
    pub fn definition(&self) -> &Definition
        ensures value { result.now ≡ self.now.view }
        ensures loaded { IsLoaded self.now }
    {
        &self.definition
    }

    /// The place of the hub among the versions, counted from 0.
    pub fn hub(&self) -> u8
        ensures value { result ≡ self.now.hub }
        ensures loaded { IsLoaded self.now }
    {
        self.hub
    }

    /// The versions but the hub, with their rules.
    pub fn spokes(&self) -> &Spokes
        ensures value { result.now ≡ self.now.spokes }
        ensures loaded { IsLoaded self.now }
    {
        &self.spokes
    }

    /// The version at a place, counted from 0.
    pub fn version(&self, v: u8) -> &Version
        requires { v < count_of self.now }
        ensures { version_of result.now ≡ version_at self.now v }
    {
        &self.definition().versions()[v as usize]
    }

    /// Where the objects of a version stand: the place of its spoke, or `None` at the hub.
    pub fn place(&self, v: u8) -> Option<u8>
        requires { v < count_of self.now }
        ensures { MatchOption result (seat self.now v ≡ at_hub)
            (λ p. (s : SpokeView) × (slice_get self.now.spokes.items p ≡ Some s) × (seat self.now v ≡ at_spoke s)) }
    {
        let hub = self.hub();
        if v == hub {
            return None;
        }
        if v < hub {
            return Some(v);
        }
        Some(v - 1)
    }
}
