//! Texts that were shown before, and are kept by a cache.
ghost use Rattle.std.specs.Prelude.{◌≡◌, ◌⊎◌, ◌≤◌, ℕ, IfOk, IfSome, List, MatchBool, length, option_map, string_bytes};
ghost use Rattle.api_calls.specs.Item.{Item};
ghost use Rattle.api_calls.specs.Replies.{IsShown};
ghost use Rattle.call_texts.specs.Cached.{AreCached, WasSeen};
ghost use Rattle.call_texts.specs.PageTexts.{Adds};
ghost use Rattle.form_cache.specs.Forms.{Form, forms_of, found as found_in, kept, shows, used};
ghost use Rattle.form_cache.specs.Limits.{longest_text};

use crate::context::Context;
use api_calls::Versions;
use api_core::Seen;
use form_cache::{FormCache, PASS_FORMS, TEXT_BYTES};
use kj_value::{NoMemory, Txt};
use kube_meta::Key;
use std::alloc::Global;

// The text that was kept for a key, a number and a version, copied.
fn found(
    alloc: Global,
    cache: &mut FormCache,
    key: &Key,
    number: u64,
    v: u8,
) -> Result<Option<Txt>, NoMemory>
    ensures text { IfOk result (λ t. option_map (λ b. b.bytes) t ≡ option_map (λ f. f.text) (found_in (shows key.now number v) cache.old.forms)) }
    ensures cache { cache.new ≡ forms_of (used key.now number v cache.old.forms) cache.old.most }
{
    match cache.find(key, number, v) {
        Some(text) => {
            let copy = Txt::of(alloc, text.as_str())?;
            Ok(Some(copy))
        }
        None => Ok(None),
    }
}

// Adds the text that was kept for a key, a number and a version, if there is one, and tells whether there is.
fn add_found(
    cache: &mut FormCache,
    key: &Key,
    number: u64,
    v: u8,
    text: &mut String,
) -> Result<bool, NoMemory>
    ensures text { IfOk result (λ b. MatchBool b
        ((f : Form) × (found_in (shows key.now number v) cache.old.forms ≡ Some f) × Adds (string_bytes text.old) f.text (string_bytes text.new))
        (string_bytes text.new ≡ string_bytes text.old)) }
    ensures cache { cache.new ≡ forms_of (used key.now number v cache.old.forms) cache.old.most }
{
    match cache.find(key, number, v) {
        Some(found) => {
            text.push_str(found.as_str())?;
            Ok(true)
        }
        None => Ok(false),
    }
}

// Keeps a text for a key, a number and a version. Where it is too long, or there is no memory, nothing is kept.
fn keep(cache: &mut FormCache, key: &Key, number: u64, v: u8, text: Txt)
    ensures { (cache.new ≡ cache.old)
        ⊎ ((length text.bytes ≤ longest_text) × (cache.new ≡ forms_of (kept (record { key = key.now; number = number; version = v; text = text.bytes }) cache.old) cache.old.most)) }
{
    if text.len() > TEXT_BYTES {
        return;
    }
    let Ok(key) = key.shared() else {
        return;
    };
    let _ = cache.keep(key, number, v, text);
}

impl<V: Versions> Context<'_, V> {
    /// The text that was kept of what was seen at a version, copied.
    pub(crate) fn kept_text(
        &self,
        cache: &mut FormCache,
        v: u8,
        seen: &Seen,
    ) -> Result<Option<Txt>, NoMemory>
        ensures shows { (log : List Item) (w : WasSeen (V.meaning self.now.versions.now) log seen.now)
            → AreCached (V.meaning self.now.versions.now) self.now.boot log cache.old.forms
            → IfOk result (λ o. IfSome o (λ t. IsShown (V.meaning self.now.versions.now) self.now.boot v w.object.h w.object.number w.object.born t.bytes)) }
        ensures cached { (log : List Item) → AreCached (V.meaning self.now.versions.now) self.now.boot log cache.old.forms
            → AreCached (V.meaning self.now.versions.now) self.now.boot log cache.new.forms }
        ensures most { cache.new.most ≡ cache.old.most }
    {
        found(self.alloc, cache, &seen.key, seen.rv, v)
    }

    /// Adds the text that was kept of what was seen at a version, if there is one, and tells whether there is.
    pub(crate) fn add_kept(
        &self,
        cache: &mut FormCache,
        v: u8,
        seen: &Seen,
        text: &mut String,
    ) -> Result<bool, NoMemory>
        ensures shows { (log : List Item) (w : WasSeen (V.meaning self.now.versions.now) log seen.now)
            → AreCached (V.meaning self.now.versions.now) self.now.boot log cache.old.forms
            → IfOk result (λ b. MatchBool b
            ((t : List ℕ) × IsShown (V.meaning self.now.versions.now) self.now.boot v w.object.h w.object.number w.object.born t
            × Adds (string_bytes text.old) t (string_bytes text.new))
            (string_bytes text.new ≡ string_bytes text.old)) }
        ensures cached { (log : List Item) → AreCached (V.meaning self.now.versions.now) self.now.boot log cache.old.forms
            → AreCached (V.meaning self.now.versions.now) self.now.boot log cache.new.forms }
        ensures most { cache.new.most ≡ cache.old.most }
    {
        add_found(cache, &seen.key, seen.rv, v, text)
    }

    /// Keeps a text that shows at a version what was seen, which stands at a place of a page. Where it is too long, there is no memory, or the
    /// cache has no room for as many, nothing is kept: so those of a long page don't push each other out.
    pub(crate) fn keep_text(&self, cache: &mut FormCache, v: u8, seen: &Seen, text: Txt, i: usize)
        ensures cached { (log : List Item) (w : WasSeen (V.meaning self.now.versions.now) log seen.now)
            → IsShown (V.meaning self.now.versions.now) self.now.boot v w.object.h w.object.number w.object.born text.bytes
            → AreCached (V.meaning self.now.versions.now) self.now.boot log cache.old.forms
            → AreCached (V.meaning self.now.versions.now) self.now.boot log cache.new.forms }
        ensures most { cache.new.most ≡ cache.old.most }
    {
        if (i as u64) < PASS_FORMS {
            keep(cache, &seen.key, seen.rv, v, text);
        }
    }

    /// Keeps a copy of a text that shows at a version what was seen. Where it is too long, or there is no memory, nothing is
    /// kept.
    pub(crate) fn keep_copy(&self, cache: &mut FormCache, v: u8, seen: &Seen, text: &Txt)
        ensures cached { (log : List Item) (w : WasSeen (V.meaning self.now.versions.now) log seen.now)
            → IsShown (V.meaning self.now.versions.now) self.now.boot v w.object.h w.object.number w.object.born text.now.bytes
            → AreCached (V.meaning self.now.versions.now) self.now.boot log cache.old.forms
            → AreCached (V.meaning self.now.versions.now) self.now.boot log cache.new.forms }
        ensures most { cache.new.most ≡ cache.old.most }
    {
        if text.len() > TEXT_BYTES {
            return;
        }
        let Ok(copy) = Txt::of(self.alloc, text.as_str()) else {
            return;
        };
        self.keep_text(cache, v, seen, copy, 0);
    }
}
