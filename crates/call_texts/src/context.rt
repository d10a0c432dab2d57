//! What no request changes, and what is shown by it.
ghost use Rattle.std.specs.Prelude.{◌≡◌, ◌<◌, ◌≤◌, IfOk, IsErrOf};
ghost use Rattle.kube_meta.specs.View.{object_of};
ghost use Rattle.api_calls.specs.Replies.{IsShown};
ghost use Rattle.api_calls.specs.Versions.{IsStored};

use crate::documents::{reply_text, stored_text};
use api_calls::{BORN_END, ConvFault, Versions};
use kj_value::Txt;
use kube_meta::Object;
use std::alloc::Global;

/// The definition, lent, and the number of the server's start.
#[derive(Drop)]
pub struct Context<'a, V: Versions> {
    pub alloc: Global,
    pub versions: &'a V,
    pub boot: u64,
}

impl<V: Versions> Context<'_, V> {
    /// The text that shows a hub value at a version, with its number and that of its creation.
    pub fn shown(
        &self,
        tool: &mut V::Tool,
        v: u8,
        number: u64,
        born: u64,
        hub: &Object,
    ) -> Result<Txt, ConvFault>
        requires known { v < (V.meaning self.now.versions.now).count }
        requires whole { (V.meaning self.now.versions.now).whole (object_of hub.now) }
        requires born { born < BORN_END }
        ensures shown { IfOk result (λ t. IsShown (V.meaning self.now.versions.now) self.now.boot v (object_of hub.now) number born t.bytes) }
        ensures tool { IsErrOf result ConvFault.Tool → V.Tool.faults tool.old < V.Tool.faults tool.new }
        ensures rises { V.Tool.faults tool.old ≤ V.Tool.faults tool.new }
    {
        let form = self.versions.form(self.alloc, tool, v, hub)?;
        let text = reply_text(self.alloc, self.boot, number, born, &form);
        drop(form);
        Ok(text?)
    }

    /// The same text, where the hub value isn't wanted any more.
    pub fn into_shown(
        &self,
        tool: &mut V::Tool,
        v: u8,
        number: u64,
        born: u64,
        hub: Object,
    ) -> Result<Txt, ConvFault>
        requires known { v < (V.meaning self.now.versions.now).count }
        requires whole { (V.meaning self.now.versions.now).whole (object_of hub) }
        requires born { born < BORN_END }
        ensures shown { IfOk result (λ t. IsShown (V.meaning self.now.versions.now) self.now.boot v (object_of hub) number born t.bytes) }
        ensures tool { IsErrOf result ConvFault.Tool → V.Tool.faults tool.old < V.Tool.faults tool.new }
        ensures rises { V.Tool.faults tool.old ≤ V.Tool.faults tool.new }
    {
        let form = self.versions.into_form(self.alloc, tool, v, hub)?;
        let text = reply_text(self.alloc, self.boot, number, born, &form);
        drop(form);
        Ok(text?)
    }

    /// The text in which a hub value is stored at a version.
    pub fn stored(&self, tool: &mut V::Tool, at: u8, hub: &Object) -> Result<Txt, ConvFault>
        requires known { at < (V.meaning self.now.versions.now).count }
        requires whole { (V.meaning self.now.versions.now).whole (object_of hub.now) }
        ensures stored { IfOk result (λ t. IsStored (V.meaning self.now.versions.now) at (object_of hub.now) t.bytes) }
        ensures tool { IsErrOf result ConvFault.Tool → V.Tool.faults tool.old < V.Tool.faults tool.new }
        ensures rises { V.Tool.faults tool.old ≤ V.Tool.faults tool.new }
    {
        let form = self.versions.form(self.alloc, tool, at, hub)?;
        let text = stored_text(self.alloc, &form);
        drop(form);
        Ok(text?)
    }

    /// The same text, where the hub value isn't wanted any more.
    pub fn into_stored(&self, tool: &mut V::Tool, at: u8, hub: Object) -> Result<Txt, ConvFault>
        requires known { at < (V.meaning self.now.versions.now).count }
        requires whole { (V.meaning self.now.versions.now).whole (object_of hub) }
        ensures stored { IfOk result (λ t. IsStored (V.meaning self.now.versions.now) at (object_of hub) t.bytes) }
        ensures tool { IsErrOf result ConvFault.Tool → V.Tool.faults tool.old < V.Tool.faults tool.new }
        ensures rises { V.Tool.faults tool.old ≤ V.Tool.faults tool.new }
    {
        let form = self.versions.into_form(self.alloc, tool, at, hub)?;
        let text = stored_text(self.alloc, &form);
        drop(form);
        Ok(text?)
    }
}
