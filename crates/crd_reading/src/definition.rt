//! A definition and its versions.
ghost use Rattle.std.specs.Prelude.{◌≡◌, map};
ghost use Rattle.kj_value.specs.Seen.{json};
ghost use Rattle.crd_reading.specs.Seen.{version_of};
ghost use Rattle.crd_reading.specs.Whole.{IsWholeDefinition};

use kj_value::{JVal, Txt};
use std::marker::Model;
use struct_schema::Schema;

/// A version of a definition.
pub struct Version {
    pub name: Txt,
    pub served: bool,
    pub storage: bool,
    pub schema: Schema,
}

impl Drop for Version {
    fn drop(self) {
        let Version {
            name: _,
            served: _,
            storage: _,
            schema: _,
        } = self;
    }
}

/// A definition that was accepted. It has 2 to 8 versions, whose names differ; one of them is the storage
/// version, and one at least is served.
pub struct Definition {
    group: Txt,
    plural: Txt,
    kind: Txt,
    list_kind: Txt,
    versions: Vec<Version>,
    spec: JVal,
}

impl Drop for Definition {
    fn drop(self) {
        let Definition {
            group: _,
            plural: _,
            kind: _,
            list_kind: _,
            versions: _,
            spec: _,
        } = self;
    }
}

impl Model for Definition {
    ghost use Rattle.std.specs.Prelude.{map};
    ghost use Rattle.kj_value.specs.Seen.{json};
    ghost use Rattle.crd_reading.specs.View.{DefinitionView};
    ghost use Rattle.crd_reading.specs.laws.ViewCode.{definition_code};
    ghost use Rattle.crd_reading.specs.Seen.{version_of};
    ghost use Rattle.crd_reading.specs.Whole.{IsWholeDefinition};

    ghost Value = { DefinitionView };

    ghost coded = { definition_code };

    ghost view = { λ d. record {
      group = d.group.bytes;
      plural = d.plural.bytes;
      kind = d.kind.bytes;
      list_kind = d.list_kind.bytes;
      versions = map version_of d.versions.items;
      spec = json d.spec;
    } };

    ghost invariant = { λ d. IsWholeDefinition (record {
      group = d.group.bytes;
      plural = d.plural.bytes;
      kind = d.kind.bytes;
      list_kind = d.list_kind.bytes;
      versions = map version_of d.versions.items;
      spec = json d.spec;
    }) };
}

impl Definition {
    pub(crate) fn new(
        group: Txt,
        plural: Txt,
        kind: Txt,
        list_kind: Txt,
        versions: Vec<Version>,
        spec: JVal,
    ) -> Definition
        requires { IsWholeDefinition (record {
          group = group.bytes;
          plural = plural.bytes;
          kind = kind.bytes;
          list_kind = list_kind.bytes;
          versions = map version_of versions.items;
          spec = json spec;
        }) }
        ensures { result ≡ record {
          group = group.bytes;
          plural = plural.bytes;
          kind = kind.bytes;
          list_kind = list_kind.bytes;
          versions = map version_of versions.items;
          spec = json spec;
        } }
    {
        Definition {
            group,
            plural,
            kind,
            list_kind,
            versions,
            spec,
        }
    }

    /// `spec.group`.
    pub fn group(&self) -> &Txt
        ensures { result.now.bytes ≡ self.now.group }
    {
        &self.group
    }

    /// `spec.names.plural`.
    pub fn plural(&self) -> &Txt
        ensures { result.now.bytes ≡ self.now.plural }
    {
        &self.plural
    }

    /// `spec.names.kind`.
    pub fn kind(&self) -> &Txt
        ensures { result.now.bytes ≡ self.now.kind }
    {
        &self.kind
    }

    /// `spec.names.listKind`, or the kind and `List` where that is absent.
    pub fn list_kind(&self) -> &Txt
        ensures { result.now.bytes ≡ self.now.list_kind }
    {
        &self.list_kind
    }

    /// The versions in the order of `spec.versions`.
    pub fn versions(&self) -> &[Version]
        ensures value { map version_of result.now ≡ self.now.versions }
        ensures whole { IsWholeDefinition self.now }
    {
        self.versions.as_slice()
    }

    /// `spec` as it was loaded.
    pub fn spec(&self) -> &JVal
        ensures { json result.now ≡ self.now.spec }
    {
        &self.spec
    }
}
