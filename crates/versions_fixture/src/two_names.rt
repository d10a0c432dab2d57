//! The definition as an implementation of `Versions`.
ghost use Rattle.std.specs.Prelude.{◌≡◌, codes};

use crate::admission::admitted;
use crate::forms::{hub_form, stored_hub};
use crate::settings::{SHOW_ROOM, flags_in, keep_in, show, storing};
use api_calls::{AdmitFault, Admitted, ConvFault, Flags, Incoming, NoTool, StoredList, Versions};
use kj_value::{NoMemory, Txt};
use kube_meta::Object;
use std::alloc::Global;

/// Two versions that name their one property differently.
pub struct TwoNames {
    v1: Txt,
    v1beta1: Txt,
    plural: Txt,
    group: Txt,
    kind: Txt,
    list_kind: Txt,
    ghost v1_is: { v1.bytes ≡ codes "v1" },
    ghost v1beta1_is: { v1beta1.bytes ≡ codes "v1beta1" },
    ghost plural_is: { plural.bytes ≡ codes "crontabs" },
    ghost group_is: { group.bytes ≡ codes "example.com" },
    ghost kind_is: { kind.bytes ≡ codes "CronTab" },
    ghost list_kind_is: { list_kind.bytes ≡ codes "CronTabList" },
}

impl Drop for TwoNames {
    fn drop(self) {
        let TwoNames {
            v1: _,
            v1beta1: _,
            plural: _,
            group: _,
            kind: _,
            list_kind: _,
        } = self;
    }
}

impl TwoNames {
    /// The definition, with copies of its names.
    pub fn new(alloc: Global) -> Result<TwoNames, NoMemory> {
        Ok(TwoNames {
            v1: Txt::of(alloc, "v1")?,
            v1beta1: Txt::of(alloc, "v1beta1")?,
            plural: Txt::of(alloc, "crontabs")?,
            group: Txt::of(alloc, "example.com")?,
            kind: Txt::of(alloc, "CronTab")?,
            list_kind: Txt::of(alloc, "CronTabList")?,
        })
    }
}

impl Versions for TwoNames {
    ghost use Rattle.std.specs.Prelude.{true, refl};
    ghost use Rattle.std.proofs.Common.{arith};
    ghost use Rattle.versions_fixture.specs.Definition.{two_names};
    ghost use Rattle.versions_fixture.specs.Laws.{admits_whole, decides, decides_flags, decides_keep, finalizers, legal_opening, names_differ, one_to_one, refuses_once, same_key, stand, unread, unstamped};

    type Tool = NoTool;

    ghost HONEST = { true };

    const HONEST: bool = true;

    ghost meaning = { λ it. two_names };

    ghost told = { λ it. refl };

    ghost few = { λ it. (Prim.omega arith, Prim.omega arith) };

    ghost opens = { λ it. legal_opening };

    ghost names = { λ it. names_differ };

    ghost stand = { λ it. stand };

    ghost unstamped = { λ it. unstamped };

    ghost one_to_one = { λ it honest. one_to_one };

    ghost same_key = { λ it honest. same_key };

    ghost finalizers = { λ it honest. finalizers };

    ghost admitted = { λ it. admits_whole };

    ghost decides = { λ it honest. decides };

    ghost refuses_once = { λ it honest. refuses_once };

    ghost unread = { λ it honest. unread };

    ghost decides_flags = { λ it. decides_flags };

    ghost decides_keep = { λ it. decides_keep };

    fn count(&self) -> u8 {
        2
    }

    fn name(&self, v: u8) -> &Txt {
        if v == 0 { &self.v1 } else { &self.v1beta1 }
    }

    fn find(&self, name: &str) -> Option<u8> {
        if name == self.v1.as_str() {
            return Some(0);
        }
        if name == self.v1beta1.as_str() {
            return Some(1);
        }
        None
    }

    fn opening(&self) -> Flags {
        storing(1)
    }

    fn plural(&self) -> &Txt {
        &self.plural
    }

    fn group(&self) -> &Txt {
        &self.group
    }

    fn kind(&self) -> &Txt {
        &self.kind
    }

    fn list_kind(&self) -> &Txt {
        &self.list_kind
    }

    fn admit(
        &self,
        alloc: Global,
        _tool: &mut NoTool,
        input: &Incoming<'_>,
        _storage: u8,
    ) -> Result<Admitted, AdmitFault> {
        admitted(alloc, input)
    }

    fn hub_of(
        &self,
        alloc: Global,
        _tool: &mut NoTool,
        v: u8,
        stored: &[u8],
    ) -> Result<Object, ConvFault> {
        stored_hub(alloc, v, stored)
    }

    fn form(
        &self,
        alloc: Global,
        _tool: &mut NoTool,
        v: u8,
        hub: &Object,
    ) -> Result<Object, ConvFault> {
        hub_form(alloc, v, hub)
    }

    fn into_form(
        &self,
        alloc: Global,
        _tool: &mut NoTool,
        v: u8,
        hub: Object,
    ) -> Result<Object, ConvFault> {
        hub_form(alloc, v, &hub)
    }

    fn read_flags(&self, _alloc: Global, bytes: &[u8]) -> Result<Flags, AdmitFault> {
        flags_in(bytes)
    }

    fn read_keep(&self, _alloc: Global, bytes: &[u8]) -> Result<StoredList, AdmitFault> {
        keep_in(bytes)
    }

    fn show_room(&self) -> u64 {
        SHOW_ROOM
    }

    fn show(&self, flags: &Flags, stored: &StoredList, out: &mut Txt) {
        show(flags, stored, out)
    }
}
