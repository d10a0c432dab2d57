//! The versions of a definition with a converter.
ghost use Rattle.std.specs.Prelude.{◌≡◌, ◌≤◌, ◌<◌, ◌↔◌, IfOk, IfErr, IfSome, IsErrOf, IsSome, IsTrue};
ghost use Rattle.kj_value.specs.Json.{depth};
ghost use Rattle.kube_meta.specs.Document.{document};
ghost use Rattle.kube_meta.specs.Shapes.{shaped};
ghost use Rattle.kube_meta.specs.View.{ObjectView, object_of};
ghost use Rattle.api_calls.specs.Meaning.{Weighs};
ghost use Rattle.api_calls.specs.Spelled.{IsTextOf};
ghost use Rattle.api_calls.specs.Versions.{IsRequest, IsStored, Refused, request_of};
ghost use Rattle.api_calls.specs.declared.versions.TheConstants.{OBJECT_LEVELS};
ghost use Rattle.keep_laws.specs.Given.{OneList};
ghost use Rattle.crd_reading.specs.Accepted.{AreOffered};
ghost use Rattle.crd_meaning.specs.Definition.{count_of};
ghost use Rattle.crd_laws.specs.laws.OneText.{OneList-prop};
ghost use Rattle.crd_settings.specs.Pieces.{AreItsPieces, AreItsPieces-prop};
ghost use Rattle.crd_settings.specs.SettledLaws.{settings_of};
ghost use Rattle.crd_laws.specs.Hook.{HaveSoundDefaults, Admits, Refuses, IsForm, IsWhole, hook_meaning};
ghost use Rattle.crd_laws.specs.Turning.{AdmitsBy, Becomes, OfTurns};
ghost use Rattle.hook_versions.specs.Facts.{hooked};
ghost use Rattle.hook_versions.specs.Taken.{AreFew, BlamesTurn, BlamesRequest};

use crate::admission::admitted;
use crate::definition::HookDefinition;
use crate::forms::{form, hub_of, into_form};
use crate::names::{count, find, name};
use api_calls::{AdmitFault, Admitted, ConvFault, Flags, Incoming, StoredList, Versions};
use converters::Converter;
use crd_settings::{Pieces, opening, read_flags, read_keep};
use kept_entries::one_list;
use kj_value::Txt;
use kube_meta::Object;
use std::alloc::Global;
use std::marker::PhantomData;

/// A definition of several versions without rules, with the pieces of its document. Its objects are turned by the tool, a converter.
pub struct HookSet<C: Converter> {
    set: HookDefinition,
    pieces: Pieces,
    of: PhantomData<C>,
    ghost one_list: { OneList } by { OneList-prop },
    ghost few: { (2 ≤ count_of set) × (count_of set ≤ 8) },
    ghost known: { set.hub < count_of set },
    ghost offered: { AreOffered set.view.versions },
    ghost sound: { ∥ HaveSoundDefaults (hooked set C.HONEST C.turned) ∥₁ },
    ghost its_pieces: { AreItsPieces set.view pieces } by { AreItsPieces-prop set.view pieces },
}

impl<C: Converter> Drop for HookSet<C> {
    fn drop(self) {
        let HookSet {
            set: _,
            pieces: _,
            of: _,
        } = self;
    }
}

impl<C: Converter> HookSet<C> {
    pub(crate) fn new(set: HookDefinition, pieces: Pieces) -> HookSet<C>
        requires { AreItsPieces set.view pieces }
        ensures { result.set ≡ set }
    {
        one_list();
        let _ = set.hub();
        let _ = set.versions();
        HookSet {
            set,
            pieces,
            of: PhantomData,
        }
    }
}

impl<C: Converter> Versions for HookSet<C> {
    ghost use Rattle.std.specs.Prelude.{refl};
    ghost use Rattle.crd_settings.specs.Decided.{decides_flags, decides_keep};
    ghost use Rattle.hook_versions.specs.Laws.{opens, names, stand, unstamped, one_to_one, same_key, finalizers, admits_whole, decides, refuses_once, unread};
    ghost use Rattle.hook_versions.specs.Facts.{facts};

    type Tool = C;

    ghost HONEST = { C.HONEST };

    const HONEST: bool = C::HONEST;

    ghost meaning = { λ it. hook_meaning (hooked it.set C.HONEST C.turned) (settings_of it.set.view) };

    ghost told = { λ it. refl };

    ghost few = { λ it. it.few };

    ghost opens = { λ it. opens (hooked it.set C.HONEST C.turned) (settings_of it.set.view) (facts it.set C.HONEST C.turned it.few it.known it.offered C.stays C.unstamped) };

    ghost names = { λ it. names (hooked it.set C.HONEST C.turned) (settings_of it.set.view) (facts it.set C.HONEST C.turned it.few it.known it.offered C.stays C.unstamped) };

    ghost stand = { λ it. stand (hooked it.set C.HONEST C.turned) (settings_of it.set.view) (facts it.set C.HONEST C.turned it.few it.known it.offered C.stays C.unstamped) };

    ghost unstamped = { λ it. unstamped (hooked it.set C.HONEST C.turned) (settings_of it.set.view) (facts it.set C.HONEST C.turned it.few it.known it.offered C.stays C.unstamped) };

    ghost one_to_one = { λ it honest. one_to_one (hooked it.set C.HONEST C.turned) (settings_of it.set.view) (facts it.set C.HONEST C.turned it.few it.known it.offered C.stays C.unstamped) honest };

    ghost same_key = { λ it honest. same_key (hooked it.set C.HONEST C.turned) (settings_of it.set.view) };

    ghost finalizers = { λ it honest. finalizers (hooked it.set C.HONEST C.turned) (settings_of it.set.view) };

    ghost admitted = { λ it. admits_whole (hooked it.set C.HONEST C.turned) (settings_of it.set.view) };

    ghost decides = { λ it honest. decides (hooked it.set C.HONEST C.turned) (settings_of it.set.view) it.one_list honest };

    ghost refuses_once = { λ it honest. refuses_once (hooked it.set C.HONEST C.turned) (settings_of it.set.view) it.one_list it.sound honest };

    ghost unread = { λ it honest. unread (hooked it.set C.HONEST C.turned) (settings_of it.set.view) };

    ghost decides_flags = { λ it. decides_flags it.set.view };

    ghost decides_keep = { λ it. decides_keep it.set.view };

    fn count(&self) -> u8 {
        count(&self.set)
    }

    fn name(&self, v: u8) -> &Txt {
        name(&self.set, v)
    }

    fn find(&self, name: &str) -> Option<u8> {
        find(&self.set, name)
    }

    fn opening(&self) -> Flags {
        opening(self.set.definition())
    }

    fn plural(&self) -> &Txt {
        self.set.definition().plural()
    }

    fn group(&self) -> &Txt {
        self.set.definition().group()
    }

    fn kind(&self) -> &Txt {
        self.set.definition().kind()
    }

    fn list_kind(&self) -> &Txt {
        self.set.definition().list_kind()
    }

    fn admit(
        &self,
        alloc: Global,
        tool: &mut C,
        input: &Incoming<'_>,
        storage: u8,
    ) -> Result<Admitted, AdmitFault>
        requires known { IsRequest (hook_meaning (hooked self.now.set C.HONEST C.turned) (settings_of self.now.set.view)) (request_of input.now) }
        requires creating { IsTrue input.now.creating ↔ (IsSome input.now.name → ⊥) }
        ensures ok { IfOk result (λ a. Admits (hooked self.now.set C.HONEST C.turned) (request_of input.now) (object_of a.hub) a.expected) }
        ensures weighs { IfOk result (λ a. IsTrue C.HONEST → Weighs (hook_meaning (hooked self.now.set C.HONEST C.turned) (settings_of self.now.set.view)) (object_of a.hub) a.weight) }
        ensures weight { IfOk result (λ a. 0 < a.weight) }
        ensures shape { IfOk result (λ a. IfSome a.shape (λ p. IsForm (hooked self.now.set C.HONEST C.turned) storage (object_of a.hub) (shaped p (object_of a.hub)))) }
        ensures levels { IfOk result (λ a. depth (document (object_of a.hub)) ≤ OBJECT_LEVELS) }
        ensures refused { IfErr result (Refused (Refuses (hooked self.now.set C.HONEST C.turned) (request_of input.now)) (C.faults tool.old < C.faults tool.new)) }
        ensures rises { C.faults tool.old ≤ C.faults tool.new }

        // The hub value has the parts of what passed, or of the answer to its turn to the hub, and came back from each other version.
        ensures rests { IfOk result (λ a. OfTurns (C.turns tool.old) (C.turns tool.new) (λ ts. AdmitsBy self.now.set ts (request_of input.now) (object_of a.hub) a.expected)) }
        // At most 2n - 2 turns are made for n versions, and one more where the object isn't what its hub value is turned to at its version.
        ensures few { IfOk result (λ a. OfTurns (C.turns tool.old) (C.turns tool.new) (AreFew self.now.set (request_of input.now) (object_of a.hub))) }
        // Each fault has its cause among the turns of the call.
        ensures blames { IfErr result (BlamesRequest self.now.set (C.turns tool.old) (C.turns tool.new) (request_of input.now)) }
    {
        admitted(alloc, &self.set, tool, input, storage)
    }

    fn hub_of(&self, alloc: Global, tool: &mut C, v: u8, stored: &[u8]) -> Result<Object, ConvFault>
        requires { (h : ObjectView) × IsStored (hook_meaning (hooked self.now.set C.HONEST C.turned) (settings_of self.now.set.view)) v h stored.now }
        ensures ok { IfOk result (λ h. IsStored (hook_meaning (hooked self.now.set C.HONEST C.turned) (settings_of self.now.set.view)) v (object_of h) stored.now) }
        ensures levels { IfOk result (λ h. depth (document (object_of h)) ≤ OBJECT_LEVELS) }
        ensures tool { IsErrOf result ConvFault.Tool → C.faults tool.old < C.faults tool.new }
        ensures rises { C.faults tool.old ≤ C.faults tool.new }

        ensures becomes { IfOk result (λ h. (x : ObjectView) × IsTextOf x stored.now × OfTurns (C.turns tool.old) (C.turns tool.new) (λ ts. Becomes self.now.set ts v x self.now.set.hub (object_of h))) }
        ensures blames { IfErr result (BlamesTurn self.now.set (C.turns tool.old) (C.turns tool.new)) }
    {
        hub_of(alloc, &self.set, tool, v, stored)
    }

    fn form(&self, alloc: Global, tool: &mut C, v: u8, hub: &Object) -> Result<Object, ConvFault>
        requires known { v < count_of self.now.set }
        requires whole { IsWhole (hooked self.now.set C.HONEST C.turned) (object_of hub.now) }
        ensures ok { IfOk result (λ x. IsForm (hooked self.now.set C.HONEST C.turned) v (object_of hub.now) (object_of x)) }
        ensures levels { IfOk result (λ x. depth (document (object_of x)) ≤ OBJECT_LEVELS) }
        ensures tool { IsErrOf result ConvFault.Tool → C.faults tool.old < C.faults tool.new }
        ensures rises { C.faults tool.old ≤ C.faults tool.new }

        ensures becomes { IfOk result (λ x. OfTurns (C.turns tool.old) (C.turns tool.new) (λ ts. Becomes self.now.set ts self.now.set.hub (object_of hub.now) v (object_of x))) }
        ensures blames { IfErr result (BlamesTurn self.now.set (C.turns tool.old) (C.turns tool.new)) }
    {
        form(alloc, &self.set, tool, v, hub)
    }

    fn into_form(
        &self,
        alloc: Global,
        tool: &mut C,
        v: u8,
        hub: Object,
    ) -> Result<Object, ConvFault>
        requires known { v < count_of self.now.set }
        requires whole { IsWhole (hooked self.now.set C.HONEST C.turned) (object_of hub) }
        ensures ok { IfOk result (λ x. IsForm (hooked self.now.set C.HONEST C.turned) v (object_of hub) (object_of x)) }
        ensures levels { IfOk result (λ x. depth (document (object_of x)) ≤ OBJECT_LEVELS) }
        ensures tool { IsErrOf result ConvFault.Tool → C.faults tool.old < C.faults tool.new }
        ensures rises { C.faults tool.old ≤ C.faults tool.new }

        ensures becomes { IfOk result (λ x. OfTurns (C.turns tool.old) (C.turns tool.new) (λ ts. Becomes self.now.set ts self.now.set.hub (object_of hub) v (object_of x))) }
        ensures blames { IfErr result (BlamesTurn self.now.set (C.turns tool.old) (C.turns tool.new)) }
    {
        into_form(alloc, &self.set, tool, v, hub)
    }

    fn read_flags(&self, alloc: Global, bytes: &[u8]) -> Result<Flags, AdmitFault> {
        read_flags(alloc, self.set.definition(), bytes)
    }

    fn read_keep(&self, alloc: Global, bytes: &[u8]) -> Result<StoredList, AdmitFault> {
        read_keep(alloc, self.set.definition(), bytes)
    }

    fn show_room(&self) -> u64 {
        self.pieces.room()
    }

    fn show(&self, flags: &Flags, stored: &StoredList, out: &mut Txt) {
        self.pieces.show(flags, stored, out)
    }
}
