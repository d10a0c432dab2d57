//! A get of an object at a version.
ghost use Rattle.std.specs.Prelude.{◌≡◌, ◌<◌, ◌≤◌, ◌^◌, [], List, None, IfOk, IsErrOf};
ghost use Rattle.kube_meta.specs.View.{ObjectView};
ghost use Rattle.api_calls.specs.Calls.{get};
ghost use Rattle.api_calls.specs.Item.{Item};
ghost use Rattle.api_calls.specs.Replies.{GetReply, IsShown, code_ok};
ghost use Rattle.api_calls.specs.State.{revision, state};
ghost use Rattle.api_calls.specs.Versions.{AreFlags, IsStored};
ghost use Rattle.api_core.specs.Prepared.{Sees};
ghost use Rattle.call_texts.specs.Cached.{AreCached, WasSeen};
ghost use Rattle.call_texts.specs.Told.{Came, decided};

use crate::context::Context;
use crate::refused::Refused;
use api_calls::{BORN_END, ConvFault, Refusal, Reply, Versions, is_served};
use api_core::{Peeked, Seen};
use form_cache::FormCache;
use kj_value::{NoMemory, Txt};
use kube_meta::Key;

impl<V: Versions> Context<'_, V> {
    /// The reply that shows at a version what is stored.
    pub fn show(&self, tool: &mut V::Tool, v: u8, seen: &Seen) -> Result<Reply, ConvFault>
        requires known { v < (V.meaning self.now.versions.now).count }
        requires stored { (h : ObjectView) × IsStored (V.meaning self.now.versions.now) seen.now.at h seen.now.bytes.bytes }
        requires born { seen.now.born < BORN_END }
        ensures shows { IfOk result (λ r. (h : ObjectView) → IsStored (V.meaning self.now.versions.now) seen.now.at h seen.now.bytes.bytes
            → IsShown (V.meaning self.now.versions.now) self.now.boot v h seen.now.rv seen.now.born r.text.bytes) }
        ensures code { IfOk result (λ r. r.code ≡ code_ok) }
        ensures tool { IsErrOf result ConvFault.Tool → V.Tool.faults tool.old < V.Tool.faults tool.new }
        ensures rises { V.Tool.faults tool.old ≤ V.Tool.faults tool.new }
    {
        let text = self.render(tool, v, seen)?;
        Ok(Reply { code: 200, text })
    }

    // The text that shows at a version what was seen: the one that was kept, or one that is made and then kept.
    fn show_seen(
        &self,
        tool: &mut V::Tool,
        cache: &mut FormCache,
        v: u8,
        seen: &Seen,
    ) -> Result<Txt, ConvFault>
        requires known { v < (V.meaning self.now.versions.now).count }
        requires stored { (h : ObjectView) × IsStored (V.meaning self.now.versions.now) seen.now.at h seen.now.bytes.bytes }
        requires born { seen.now.born < BORN_END }
        ensures shows { (log : List Item) (w : WasSeen (V.meaning self.now.versions.now) log seen.now) → AreCached (V.meaning self.now.versions.now) self.now.boot log cache.old.forms
            → IfOk result (λ t. IsShown (V.meaning self.now.versions.now) self.now.boot v w.object.h w.object.number w.object.born t.bytes) }
        ensures cached { (log : List Item) → WasSeen (V.meaning self.now.versions.now) log seen.now → AreCached (V.meaning self.now.versions.now) self.now.boot log cache.old.forms
            → AreCached (V.meaning self.now.versions.now) self.now.boot log cache.new.forms }
        ensures most { cache.new.most ≡ cache.old.most }
        ensures tool { IsErrOf result ConvFault.Tool → V.Tool.faults tool.old < V.Tool.faults tool.new }
        ensures rises { V.Tool.faults tool.old ≤ V.Tool.faults tool.new }
    {
        let kept = self.kept_text(cache, v, seen)?;
        if let Some(text) = kept {
            return Ok(text);
        }
        let text = self.render(tool, v, seen)?;
        self.keep_copy(cache, v, seen, &text);
        Ok(text)
    }

    /// The reply to a get of what a look saw. A text that the cache holds of it isn't made again.
    pub fn got(
        &self,
        tool: &mut V::Tool,
        cache: &mut FormCache,
        v: u8,
        key: &Key,
        looked: Result<Peeked, NoMemory>,
    ) -> Result<Reply, Refused>
        requires flags { IfOk looked (λ p. AreFlags (V.meaning self.now.versions.now).count p.flags) }
        requires sees { (log : List Item) × IfOk looked (λ p. Sees (V.meaning self.now.versions.now) log key.now p) × (revision log ≤ 2 ^ 61) }
        ensures came { (log : List Item) → IfOk looked (λ p. Sees (V.meaning self.now.versions.now) log key.now p) → AreCached (V.meaning self.now.versions.now) self.now.boot log cache.old.forms
            → Came (V.Tool.faults tool.old < V.Tool.faults tool.new)
            (GetReply (V.meaning self.now.versions.now) self.now.boot (state (V.meaning self.now.versions.now) log) v key.now) (decided result) None }
        ensures cached { (log : List Item) → IfOk looked (λ p. Sees (V.meaning self.now.versions.now) log key.now p) → AreCached (V.meaning self.now.versions.now) self.now.boot log cache.old.forms
            → AreCached (V.meaning self.now.versions.now) self.now.boot log cache.new.forms }
        ensures most { cache.new.most ≡ cache.old.most }
        ensures rises { V.Tool.faults tool.old ≤ V.Tool.faults tool.new }
    {
        let peeked = looked?;
        let Peeked {
            flags,
            revision: _,
            found,
        } = peeked;
        if !is_served(&flags, v) {
            return Err(Refused {
                refusal: Refusal::NoResource,
            });
        }
        let Some(seen) = found else {
            let name = Txt::of(self.alloc, key.name())?;
            return Err(Refused {
                refusal: Refusal::NotFound { name },
            });
        };
        let text = self.show_seen(tool, cache, v, &seen)?;
        Ok(Reply { code: 200, text })
    }
}
