//! A definition without rules.
ghost use Rattle.std.specs.Prelude.{◌≡◌, ◌<◌, length};
ghost use Rattle.crd_reading.specs.Seen.{version_of};
ghost use Rattle.crd_reading.specs.Whole.{IsWholeDefinition};
ghost use Rattle.crd_meaning.specs.Definition.{count_of, version_at};
ghost use Rattle.hook_versions.specs.Set.{without_rules};

use crd_reading::{Definition, Version};
use std::marker::Model;

/// A definition, and the place of the hub among its versions.
pub struct HookDefinition {
    definition: Definition,
    hub: u8,
}

impl Drop for HookDefinition {
    fn drop(self) {
        let HookDefinition {
            definition: _,
            hub: _,
        } = self;
    }
}

impl Model for HookDefinition {
    ghost use Rattle.std.specs.Prelude.{◌<◌};
    ghost use Rattle.crd_meaning.specs.Definition as meaning;
    ghost use Rattle.crd_loading.specs.inner.SetCode.{set_code};
    ghost use Rattle.hook_versions.specs.Set.{without_rules};

    ghost Value = { meaning.Definition };

    ghost coded = { set_code };

    ghost view = { λ s. without_rules s.definition s.hub };

    ghost invariant = { λ s. s.hub < meaning.count_of (without_rules s.definition s.hub) };
}

impl HookDefinition {
    /// A definition with the version of that place as its hub.
    pub(crate) fn new(definition: Definition, hub: u8) -> HookDefinition
        requires { hub < count_of (without_rules definition hub) }
        ensures { result ≡ without_rules definition hub }
    {
        HookDefinition { definition, hub }
    }

    /// The same with another hub.
    pub(crate) fn with_hub(self, hub: u8) -> HookDefinition
        requires { hub < count_of self }
        ensures { result ≡ without_rules self.view hub }
    {
        let HookDefinition { definition, hub: _ } = self;
        HookDefinition { definition, hub }
    }

    /// What the definition says.
    pub fn definition(&self) -> &Definition
        ensures { result.now ≡ self.now.view }
    {
        &self.definition
    }

    /// The place of the hub among the versions, counted from 0.
    pub fn hub(&self) -> u8
        ensures value { result ≡ self.now.hub }
        ensures known { self.now.hub < count_of self.now }
    {
        self.hub
    }

    /// The versions, in order.
    pub(crate) fn versions(&self) -> &[Version]
        ensures whole { IsWholeDefinition self.now.view }
        ensures count { count_of self.now ≡ length result.now }
    {
        self.definition.versions()
    }

    /// The version at a place, counted from 0.
    pub(crate) fn version(&self, v: u8) -> &Version
        requires { v < count_of self.now }
        ensures { version_of result.now ≡ version_at self.now v }
    {
        &self.definition.versions()[v as usize]
    }
}
