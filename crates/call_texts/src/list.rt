//! Lists of objects at a version, page by page.
ghost use Rattle.std.specs.Prelude.{◌≡◌, ◌<◌, ◌≤◌, ◌++◌, [], List, None, IfErr, IfOk, IsErrOf, Some, string_bytes};
ghost use Rattle.kj_value.specs.Json.{Json};
ghost use Rattle.kj_value.specs.Text.{text_of};
ghost use Rattle.api_calls.specs.Calls.{list};
ghost use Rattle.api_calls.specs.Documents.{object_list};
ghost use Rattle.api_calls.specs.Item.{Item};
ghost use Rattle.api_calls.specs.Legal.{Each};
ghost use Rattle.api_calls.specs.Pages.{PageEnd};
ghost use Rattle.api_calls.specs.Refusal.{refusal_of};
ghost use Rattle.api_calls.specs.Replies.{Pages};
ghost use Rattle.api_calls.specs.Token.{token_text};
ghost use Rattle.api_core.specs.Pages.{RefusesPage, ShowsPage};
ghost use Rattle.call_texts.specs.Cached.{AreCached, WasSeen};
ghost use Rattle.call_texts.specs.Told.{Came, decided};
ghost use Rattle.call_texts.specs.Listing.{AddsItems, AreSeenShown, IsSeen, ShowsSeen, place_behind};
ghost use Rattle.call_texts.specs.PageTexts.{Adds, comma_before};

use crate::context::Context;
use crate::page_text::{add, add_back, add_front, comma_before};
use crate::refused::Refused;
use api_calls::{ConvFault, Refusal, Reply, Token, Versions, Why, one_stored, write_token};
use api_core::{Page, PageFault, Seen};
use form_cache::FormCache;
use kj_value::{NoMemory, Txt};
use kube_meta::Key;
use std::alloc::Global;

impl From<PageFault> for Refused {
    ghost use Rattle.std.specs.Prelude.{◌≡◌};
    ghost use Rattle.api_calls.specs.Refusal.{refusal_of};
    ghost use Rattle.call_texts.specs.Faults.{not_listed};

    ghost from_gives = { λ f e. refusal_of e.refusal ≡ not_listed f };

    fn from(fault: PageFault) -> Refused {
        match fault {
            PageFault::Unserved => Refused {
                refusal: Refusal::NoResource,
            },
            PageFault::Ahead { revision: _ } => Refused {
                refusal: Refusal::BadRequest { why: Why::BadToken },
            },
            PageFault::Expired { floor } => Refused {
                refusal: Refusal::Expired { floor },
            },
            PageFault::NoMemory => Refused {
                refusal: Refusal::NoMemory,
            },
        }
    }
}

// The text of the token of a number and a key.
fn token_at(alloc: Global, rv: u64, key: &Key) -> Result<Txt, NoMemory>
    ensures { IfOk result (λ t. t.bytes ≡ token_text rv key.now) }
{
    let key = key.shared()?;
    write_token(alloc, &Token { rv, key })
}

// The token that goes on behind a page. Behind the last one it is empty.
fn token_behind(alloc: Global, page: &Page) -> Result<Txt, NoMemory>
    ensures { IfOk result (λ t. t.bytes ≡ place_behind page.now) }
{
    if page.remaining == 0 {
        return Txt::of(alloc, "");
    }
    match page.items.as_slice().last() {
        Some(seen) => token_at(alloc, page.rv, &seen.key),
        None => Txt::of(alloc, ""),
    }
}

impl<V: Versions> Context<'_, V> {
    // Adds the object that stands at a place of a page: the text that was kept, or one that is made and then kept.
    fn add_item(
        &self,
        tool: &mut V::Tool,
        cache: &mut FormCache,
        v: u8,
        i: usize,
        seen: &Seen,
        text: &mut String,
    ) -> Result<(), ConvFault>
        requires known { v < (V.meaning self.now.versions.now).count }
        requires seen { IsSeen (V.meaning self.now.versions.now) seen.now }
        ensures added { (log : List Item) → WasSeen (V.meaning self.now.versions.now) log seen.now → AreCached (V.meaning self.now.versions.now) self.now.boot log cache.old.forms
            → IfOk result (λ _. (j : Json) × ShowsSeen (V.meaning self.now.versions.now) self.now.boot v seen.now j
            × Adds (string_bytes text.old) (comma_before i ++ text_of j) (string_bytes text.new)) }
        ensures cached { (log : List Item) → WasSeen (V.meaning self.now.versions.now) log seen.now → AreCached (V.meaning self.now.versions.now) self.now.boot log cache.old.forms
            → AreCached (V.meaning self.now.versions.now) self.now.boot log cache.new.forms }
        ensures most { cache.new.most ≡ cache.old.most }
        ensures tool { IsErrOf result ConvFault.Tool → V.Tool.faults tool.old < V.Tool.faults tool.new }
        ensures rises { V.Tool.faults tool.old ≤ V.Tool.faults tool.new }
    {
        // Asked for what its clause says: a stored text has one hub value.
        one_stored::<V>();
        add(text, comma_before(i))?;
        let kept = self.add_kept(cache, v, seen, text)?;
        if kept {
            return Ok(());
        }
        let shown = self.render(tool, v, seen)?;
        add(text, shown.as_str())?;
        self.keep_text(cache, v, seen, shown, i);
        Ok(())
    }

    // Adds the objects of a page, with commas between.
    fn add_items(
        &self,
        tool: &mut V::Tool,
        cache: &mut FormCache,
        v: u8,
        items: &[Seen],
        text: &mut String,
    ) -> Result<(), ConvFault>
        requires known { v < (V.meaning self.now.versions.now).count }
        requires seen { Each (IsSeen (V.meaning self.now.versions.now)) items.now }
        ensures added { (log : List Item) → Each (WasSeen (V.meaning self.now.versions.now) log) items.now → AreCached (V.meaning self.now.versions.now) self.now.boot log cache.old.forms
            → IfOk result (λ _. AddsItems (V.meaning self.now.versions.now) self.now.boot v (string_bytes text.old) items.now (string_bytes text.new)) }
        ensures cached { (log : List Item) → Each (WasSeen (V.meaning self.now.versions.now) log) items.now → AreCached (V.meaning self.now.versions.now) self.now.boot log cache.old.forms
            → AreCached (V.meaning self.now.versions.now) self.now.boot log cache.new.forms }
        ensures most { cache.new.most ≡ cache.old.most }
        ensures tool { IsErrOf result ConvFault.Tool → V.Tool.faults tool.old < V.Tool.faults tool.new }
        ensures rises { V.Tool.faults tool.old ≤ V.Tool.faults tool.new }
    {
        for i in 0..items.len() {
            self.add_item(tool, cache, v, i, &items[i], text)?;
        }
        Ok(())
    }

    // The text that shows a page, into which each object is written as soon as it is shown.
    fn page_text(
        &self,
        tool: &mut V::Tool,
        cache: &mut FormCache,
        v: u8,
        page: &Page,
    ) -> Result<Txt, ConvFault>
        requires known { v < (V.meaning self.now.versions.now).count }
        requires seen { Each (IsSeen (V.meaning self.now.versions.now)) page.now.items }
        ensures shows { (log : List Item) → Each (WasSeen (V.meaning self.now.versions.now) log) page.now.items → AreCached (V.meaning self.now.versions.now) self.now.boot log cache.old.forms
            → IfOk result (λ t. (js : List Json) × AreSeenShown (V.meaning self.now.versions.now) self.now.boot v page.now.items js
            × (t.bytes ≡ text_of (object_list (V.meaning self.now.versions.now) v js (place_behind page.now) page.now.rv page.now.remaining))) }
        ensures cached { (log : List Item) → Each (WasSeen (V.meaning self.now.versions.now) log) page.now.items → AreCached (V.meaning self.now.versions.now) self.now.boot log cache.old.forms
            → AreCached (V.meaning self.now.versions.now) self.now.boot log cache.new.forms }
        ensures most { cache.new.most ≡ cache.old.most }
        ensures tool { IsErrOf result ConvFault.Tool → V.Tool.faults tool.old < V.Tool.faults tool.new }
        ensures rises { V.Tool.faults tool.old ≤ V.Tool.faults tool.new }
    {
        let token = token_behind(self.alloc, page)?;
        let mut text = String::new(self.alloc);
        add_front(self.alloc, &mut text, self.versions, v)?;
        self.add_items(tool, cache, v, page.items.as_slice(), &mut text)?;
        add_back(
            self.alloc,
            &mut text,
            self.versions,
            token.as_str(),
            page.rv,
            page.remaining,
        )?;
        Ok(Txt::of_string(text))
    }

    /// The reply to a list of what a look saw. A text that the cache holds of an object isn't made again.
    pub fn listed(
        &self,
        tool: &mut V::Tool,
        cache: &mut FormCache,
        v: u8,
        looked: Result<Page, PageFault>,
    ) -> Result<Reply, Refused>
        requires known { IfOk looked (λ _. v < (V.meaning self.now.versions.now).count) }
        requires seen { IfOk looked (λ p. Each (IsSeen (V.meaning self.now.versions.now)) p.items) }
        ensures came { (log : List Item) (d : PageEnd) → IfOk looked (λ p. Each (WasSeen (V.meaning self.now.versions.now) log) p.items) → AreCached (V.meaning self.now.versions.now) self.now.boot log cache.old.forms
            → IfOk looked (λ p. ShowsPage (V.meaning self.now.versions.now) p d) → IfErr looked (λ f. RefusesPage f d)
            → Came (V.Tool.faults tool.old < V.Tool.faults tool.new)
            (λ a i. (i ≡ None) × Pages (V.meaning self.now.versions.now) self.now.boot v d a) (decided result) None }
        ensures cached { (log : List Item) → IfOk looked (λ p. Each (WasSeen (V.meaning self.now.versions.now) log) p.items) → AreCached (V.meaning self.now.versions.now) self.now.boot log cache.old.forms
            → AreCached (V.meaning self.now.versions.now) self.now.boot log cache.new.forms }
        ensures most { cache.new.most ≡ cache.old.most }
        ensures rises { V.Tool.faults tool.old ≤ V.Tool.faults tool.new }
    {
        let page = looked?;
        let text = self.page_text(tool, cache, v, &page)?;
        Ok(Reply { code: 200, text })
    }
}
