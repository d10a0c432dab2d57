//! The versions of a loaded definition.
ghost use Rattle.std.specs.Prelude.{◌≡◌, ◌≤◌, ◌<◌, IfOk, IfErr};
ghost use Rattle.kj_value.specs.Json.{depth};
ghost use Rattle.kj_value.specs.Seen.{json};
ghost use Rattle.api_calls.specs.Versions.{Refused};
ghost use Rattle.api_calls.specs.declared.versions.TheConstants.{OBJECT_LEVELS};
ghost use Rattle.keep_laws.specs.Given.{OneList};
ghost use Rattle.crd_reading.specs.Accepted.{AreOffered};
ghost use Rattle.crd_meaning.specs.Definition.{IsLoaded, count_of};
ghost use Rattle.crd_meaning.specs.Converted.{IsConverted};
ghost use Rattle.crd_meaning.specs.Unconverted.{IsUnconverted};
ghost use Rattle.crd_laws.specs.laws.OneText.{OneList-prop};
ghost use Rattle.crd_settings.specs.Pieces.{AreItsPieces, AreItsPieces-prop};

use crate::admission::admitted;
use crate::forms::{form, into_form};
use crate::hub_values::hub_of;
use crate::names::{count, find, name};
use api_calls::{AdmitFault, Admitted, ConvFault, Flags, Incoming, NoTool, StoredList, Versions};
use crd_admission::convert;
use crd_loading::LoadedVersions;
use crd_settings::{Pieces, opening, read_flags, read_keep};
use kept_entries::one_list;
use kj_value::{JVal, Txt};
use kube_meta::Object;
use std::alloc::Global;

/// A definition of several versions as it was loaded, with the pieces of its document. It asks nothing of the outside, so its tool
/// has no faults.
pub struct VersionSet {
    set: LoadedVersions,
    pieces: Pieces,
    ghost one_list: { OneList } by { OneList-prop },
    ghost loaded: { ∥ IsLoaded set ∥₁ },
    ghost offered: { AreOffered set.view.versions },
    ghost its_pieces: { AreItsPieces set.view pieces } by { AreItsPieces-prop set.view pieces },
}

impl Drop for VersionSet {
    fn drop(self) {
        let VersionSet { set: _, pieces: _ } = self;
    }
}

impl VersionSet {
    pub(crate) fn new(set: LoadedVersions, pieces: Pieces) -> VersionSet
        requires { AreItsPieces set.view pieces }
        ensures { result.set ≡ set }
    {
        one_list();
        let _ = set.definition().versions();
        VersionSet { set, pieces }
    }

    /// The document at a version, counted from 0, that is one with a document of any version, with the metadata of that
    /// document but for `annotations`. It is at most 64 levels deep.
    ///
    /// `BadRequest` comes where the document is no object; `Invalid` where it is of no version of the definition or of another
    /// kind, where its metadata, whose name and namespace aren't looked at, break a rule, where its filled body does, and where
    /// an annotation that is read spells no entries. Of several faults the answer is the first in this order. `Tool` never comes.
    pub fn convert(&self, alloc: Global, doc: JVal, to: u8) -> Result<JVal, AdmitFault>
        requires levels { depth (json doc) ≤ OBJECT_LEVELS }
        requires known { to < count_of self.now.set }
        ensures converted { IfOk result (λ k. IsConverted self.now.set (json doc) to (json k)) }
        ensures levels { IfOk result (λ k. depth (json k) ≤ OBJECT_LEVELS) }
        ensures refused { IfErr result (Refused (IsUnconverted self.now.set (json doc)) ⊥) }
    {
        convert(alloc, &self.set, doc, to)
    }
}

impl Versions for VersionSet {
    ghost use Rattle.std.specs.Prelude.{true, refl};
    ghost use Rattle.crd_settings.specs.SettledLaws.{settings_of};
    ghost use Rattle.crd_settings.specs.Decided.{decides_flags, decides_keep};
    ghost use Rattle.crd_laws.specs.Loaded.{loaded_meaning};
    ghost use Rattle.crd_laws.specs.DefinitionLaws.{few, opens, names, stand, unstamped, one_to_one, same_key, finalizers, admits_whole, decides, refuses_once, unread};

    type Tool = NoTool;

    ghost HONEST = { true };

    const HONEST: bool = true;

    ghost meaning = { λ it. loaded_meaning it.set (settings_of it.set.view) };

    ghost told = { λ it. refl };

    ghost few = { λ it. few it.set it.loaded };

    ghost opens = { λ it. opens it.set it.loaded it.offered };

    ghost names = { λ it. names it.set (settings_of it.set.view) it.offered };

    ghost stand = { λ it. stand it.set (settings_of it.set.view) it.one_list it.loaded };

    ghost unstamped = { λ it. unstamped it.set (settings_of it.set.view) };

    ghost one_to_one = { λ it honest. one_to_one it.set (settings_of it.set.view) it.one_list };

    ghost same_key = { λ it honest. same_key it.set (settings_of it.set.view) };

    ghost finalizers = { λ it honest. finalizers it.set (settings_of it.set.view) };

    ghost admitted = { λ it. admits_whole it.set (settings_of it.set.view) it.one_list };

    ghost decides = { λ it honest. decides it.set (settings_of it.set.view) it.one_list };

    ghost refuses_once = { λ it honest. refuses_once it.set (settings_of it.set.view) it.one_list it.loaded };

    ghost unread = { λ it honest. unread it.set (settings_of it.set.view) };

    ghost decides_flags = { λ it. decides_flags it.set.view };

    ghost decides_keep = { λ it. decides_keep it.set.view };

    fn count(&self) -> u8 {
        count(&self.set)
    }

    fn name(&self, v: u8) -> &Txt {
        name(&self.set, v)
    }

    fn find(&self, name: &str) -> Option<u8> {
        find(&self.set, name)
    }

    fn opening(&self) -> Flags {
        opening(self.set.definition())
    }

    fn plural(&self) -> &Txt {
        self.set.definition().plural()
    }

    fn group(&self) -> &Txt {
        self.set.definition().group()
    }

    fn kind(&self) -> &Txt {
        self.set.definition().kind()
    }

    fn list_kind(&self) -> &Txt {
        self.set.definition().list_kind()
    }

    fn admit(
        &self,
        alloc: Global,
        _tool: &mut NoTool,
        input: &Incoming<'_>,
        storage: u8,
    ) -> Result<Admitted, AdmitFault> {
        admitted(alloc, &self.set, input, storage)
    }

    fn hub_of(
        &self,
        alloc: Global,
        _tool: &mut NoTool,
        v: u8,
        stored: &[u8],
    ) -> Result<Object, ConvFault> {
        let _ = self.set.hub();
        Ok(hub_of(alloc, &self.set, v, stored)?)
    }

    fn form(
        &self,
        alloc: Global,
        _tool: &mut NoTool,
        v: u8,
        hub: &Object,
    ) -> Result<Object, ConvFault> {
        Ok(form(alloc, &self.set, v, hub)?)
    }

    fn into_form(
        &self,
        alloc: Global,
        _tool: &mut NoTool,
        v: u8,
        hub: Object,
    ) -> Result<Object, ConvFault> {
        Ok(into_form(alloc, &self.set, v, hub)?)
    }

    fn read_flags(&self, alloc: Global, bytes: &[u8]) -> Result<Flags, AdmitFault> {
        read_flags(alloc, self.set.definition(), bytes)
    }

    fn read_keep(&self, alloc: Global, bytes: &[u8]) -> Result<StoredList, AdmitFault> {
        read_keep(alloc, self.set.definition(), bytes)
    }

    fn show_room(&self) -> u64 {
        self.pieces.room()
    }

    fn show(&self, flags: &Flags, stored: &StoredList, out: &mut Txt) {
        self.pieces.show(flags, stored, out)
    }
}
