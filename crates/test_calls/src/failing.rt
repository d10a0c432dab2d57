//! A definition whose calls may fail, and may wait, by the tool of the tests.
use crate::tool::{Chosen, Place};
use api_calls::{AdmitFault, Admitted, ConvFault, Flags, Incoming, NoTool, StoredList, Versions};
use kj_value::Txt;
use kube_meta::Object;
use std::alloc::Global;

/// A definition that asks nothing of the outside, as one that may fail: what it means stays.
#[derive(Drop)]
pub struct Failing<V: Versions<Tool = NoTool> + Drop> {
    inner: V,
}

impl<V: Versions<Tool = NoTool> + Drop> Failing<V> {
    /// The definition, with the tool of the tests.
    pub fn of(inner: V) -> Failing<V> {
        Failing { inner }
    }
}

impl<V: Versions<Tool = NoTool> + Drop> Versions for Failing<V> {
    type Tool = Chosen;

    ghost HONEST = { V.HONEST };

    const HONEST: bool = V::HONEST;

    ghost meaning = { λ it. V.meaning it.inner };

    ghost told = { λ it. V.told it.inner };

    ghost few = { λ it. V.few it.inner };

    ghost opens = { λ it. V.opens it.inner };

    ghost names = { λ it. V.names it.inner };

    ghost stand = { λ it. V.stand it.inner };

    ghost unstamped = { λ it. V.unstamped it.inner };

    ghost one_to_one = { λ it honest. V.one_to_one it.inner honest };

    ghost same_key = { λ it honest. V.same_key it.inner honest };

    ghost finalizers = { λ it honest. V.finalizers it.inner honest };

    ghost admitted = { λ it. V.admitted it.inner };

    ghost decides = { λ it honest. V.decides it.inner honest };

    ghost refuses_once = { λ it honest. V.refuses_once it.inner honest };

    ghost unread = { λ it honest. V.unread it.inner honest };

    ghost decides_flags = { λ it. V.decides_flags it.inner };

    ghost decides_keep = { λ it. V.decides_keep it.inner };

    fn count(&self) -> u8 {
        self.inner.count()
    }

    fn name(&self, v: u8) -> &Txt {
        self.inner.name(v)
    }

    fn find(&self, name: &str) -> Option<u8> {
        self.inner.find(name)
    }

    fn opening(&self) -> Flags {
        self.inner.opening()
    }

    fn plural(&self) -> &Txt {
        self.inner.plural()
    }

    fn group(&self) -> &Txt {
        self.inner.group()
    }

    fn kind(&self) -> &Txt {
        self.inner.kind()
    }

    fn list_kind(&self) -> &Txt {
        self.inner.list_kind()
    }

    fn admit(
        &self,
        alloc: Global,
        tool: &mut Chosen,
        input: &Incoming<'_>,
        storage: u8,
    ) -> Result<Admitted, AdmitFault> {
        tool.meet(Place::Admit);
        match self.inner.admit(alloc, &mut NoTool, input, storage) {
            Ok(admitted) => Ok(admitted),
            Err(AdmitFault::BadRequest(why)) => Err(AdmitFault::BadRequest(why)),
            Err(AdmitFault::Invalid { name, cause }) => Err(AdmitFault::Invalid { name, cause }),
            Err(AdmitFault::Tool) => unreachable!(),
            Err(AdmitFault::NoMemory) => Err(AdmitFault::NoMemory),
        }
    }

    fn hub_of(
        &self,
        alloc: Global,
        tool: &mut Chosen,
        v: u8,
        stored: &[u8],
    ) -> Result<Object, ConvFault> {
        tool.meet(Place::HubOf);
        if tool.fails() {
            return Err(ConvFault::Tool);
        }
        match self.inner.hub_of(alloc, &mut NoTool, v, stored) {
            Ok(hub) => Ok(hub),
            Err(ConvFault::Tool) => unreachable!(),
            Err(ConvFault::NoMemory) => Err(ConvFault::NoMemory),
        }
    }

    fn form(
        &self,
        alloc: Global,
        tool: &mut Chosen,
        v: u8,
        hub: &Object,
    ) -> Result<Object, ConvFault> {
        tool.meet(Place::Form);
        if tool.fails() {
            return Err(ConvFault::Tool);
        }
        match self.inner.form(alloc, &mut NoTool, v, hub) {
            Ok(form) => Ok(form),
            Err(ConvFault::Tool) => unreachable!(),
            Err(ConvFault::NoMemory) => Err(ConvFault::NoMemory),
        }
    }

    fn into_form(
        &self,
        alloc: Global,
        tool: &mut Chosen,
        v: u8,
        hub: Object,
    ) -> Result<Object, ConvFault> {
        let form = self.form(alloc, tool, v, &hub);
        drop(hub);
        form
    }

    fn read_flags(&self, alloc: Global, bytes: &[u8]) -> Result<Flags, AdmitFault> {
        self.inner.read_flags(alloc, bytes)
    }

    fn read_keep(&self, alloc: Global, bytes: &[u8]) -> Result<StoredList, AdmitFault> {
        self.inner.read_keep(alloc, bytes)
    }

    fn show_room(&self) -> u64 {
        self.inner.show_room()
    }

    fn show(&self, flags: &Flags, stored: &StoredList, out: &mut Txt) {
        self.inner.show(flags, stored, out)
    }
}
