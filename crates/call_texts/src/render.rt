//! The text that shows at a version what is stored.
ghost use Rattle.std.specs.Prelude.{◌≡◌, ◌<◌, ◌≤◌, IfOk, IsErrOf};
ghost use Rattle.kube_meta.specs.View.{ObjectView};
ghost use Rattle.api_calls.specs.Replies.{IsShown};
ghost use Rattle.api_calls.specs.Versions.{IsStored};

use crate::context::Context;
use api_calls::{BORN_END, ConvFault, Versions, one_stored, uid_of};
use api_core::Seen;
use document_text::numbered;
use itoa::Buffer;
use kj_value::{NoMemory, Txt};

impl<V: Versions> Context<'_, V> {
    // The text that shows what is stored at the version at which it stands: the stored one, with a number and a uid. It
    // converts nothing, and reads no value.
    fn as_it_stands(&self, seen: &Seen) -> Result<Txt, NoMemory>
        requires stored { (h : ObjectView) × IsStored (V.meaning self.now.versions.now) seen.now.at h seen.now.bytes.bytes }
        requires born { seen.now.born < BORN_END }
        ensures { IfOk result (λ t. (h : ObjectView) → IsStored (V.meaning self.now.versions.now) seen.now.at h seen.now.bytes.bytes
            → IsShown (V.meaning self.now.versions.now) self.now.boot seen.now.at h seen.now.rv seen.now.born t.bytes) }
    {
        let mut buffer = Buffer::new();
        let uid = uid_of(self.alloc, self.boot, seen.born)?;
        numbered(
            self.alloc,
            seen.bytes.as_str(),
            buffer.format(seen.rv),
            uid.as_str(),
        )
    }

    // The text that shows at a version what is stored at another one.
    fn converted(&self, tool: &mut V::Tool, v: u8, seen: &Seen) -> Result<Txt, ConvFault>
        requires known { v < (V.meaning self.now.versions.now).count }
        requires stored { (h : ObjectView) × IsStored (V.meaning self.now.versions.now) seen.now.at h seen.now.bytes.bytes }
        requires born { seen.now.born < BORN_END }
        ensures shows { IfOk result (λ t. (h : ObjectView) → IsStored (V.meaning self.now.versions.now) seen.now.at h seen.now.bytes.bytes
            → IsShown (V.meaning self.now.versions.now) self.now.boot v h seen.now.rv seen.now.born t.bytes) }
        ensures tool { IsErrOf result ConvFault.Tool → V.Tool.faults tool.old < V.Tool.faults tool.new }
        ensures rises { V.Tool.faults tool.old ≤ V.Tool.faults tool.new }
    {
        // Asked for what its clause says: a stored text has one hub value.
        one_stored::<V>();
        let bytes = seen.bytes.as_str().as_bytes();
        let hub = self.versions.hub_of(self.alloc, tool, seen.at, bytes)?;
        let text = self.into_shown(tool, v, seen.rv, seen.born, hub)?;
        Ok(text)
    }

    /// The text that shows at a version what is stored. What stands at that version isn't converted.
    pub fn render(&self, tool: &mut V::Tool, v: u8, seen: &Seen) -> Result<Txt, ConvFault>
        requires known { v < (V.meaning self.now.versions.now).count }
        requires stored { (h : ObjectView) × IsStored (V.meaning self.now.versions.now) seen.now.at h seen.now.bytes.bytes }
        requires born { seen.now.born < BORN_END }
        ensures shows { IfOk result (λ t. (h : ObjectView) → IsStored (V.meaning self.now.versions.now) seen.now.at h seen.now.bytes.bytes
            → IsShown (V.meaning self.now.versions.now) self.now.boot v h seen.now.rv seen.now.born t.bytes) }
        ensures tool { IsErrOf result ConvFault.Tool → V.Tool.faults tool.old < V.Tool.faults tool.new }
        ensures rises { V.Tool.faults tool.old ≤ V.Tool.faults tool.new }
    {
        if v == seen.at {
            let text = self.as_it_stands(seen)?;
            return Ok(text);
        }
        self.converted(tool, v, seen)
    }
}
