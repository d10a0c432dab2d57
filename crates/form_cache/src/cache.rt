//! The cache.
ghost use Rattle.std.specs.Prelude.{◌≡◌, ◌<◌, ◌≤◌, [], length, option_map, IfOk, OnOk, OnErr, IsOk, IsSome};
ghost use Rattle.std.specs.Borrow.{sem};
ghost use Rattle.form_cache.specs.Forms.{forms_of, found, shows, used, kept};
ghost use Rattle.form_cache.specs.Limits.{longest_text};

use crate::name::{FormName, Sought};
use kj_value::{NoMemory, Txt};
use kube_meta::Key;
use lru::LruCache;
use std::alloc::Global;
use std::marker::Model;
use std::num::NonZeroUsize;

/// How many forms the cache of one pass holds at most.
pub const PASS_FORMS: u64 = 256;

/// How many bytes a text has at most that is kept.
pub const TEXT_BYTES: usize = 16_384;

/// The forms that were last shown, each once, at most as many as it was opened for. Contracts see them as a list, the last
/// used first.
///
/// Names are hashed with a fixed seed. A client that picks names which collide makes a call look at each of the forms that are
/// held, and at no more.
pub struct FormCache {
    forms: LruCache<FormName, Txt>,
}

impl Drop for FormCache {
    fn drop(self) {
        let FormCache { forms: _ } = self;
    }
}

impl Model for FormCache {
    ghost use Rattle.form_cache.specs.Forms.{Forms, forms_of};

    ghost Value = { Forms };

    ghost use Rattle.form_cache.specs.View.{shown};

    ghost view = { λ c. forms_of (shown c.forms.entries) c.forms.cap };
}

impl FormCache {
    ghost use Rattle.form_cache.specs.Brings.{EndsAs};

    /// An empty cache that takes so many forms, and all room for finding them.
    pub fn open(alloc: Global, forms: u64) -> Result<FormCache, NoMemory>
        requires { 0 < forms }
        ensures { IfOk result (λ c. c ≡ forms_of [] forms) }
    {
        let Some(most) = NonZeroUsize::new(forms as usize) else {
            unreachable!()
        };
        let forms = LruCache::new(alloc, most)?;
        Ok(FormCache { forms })
    }

    /// The text that was last kept for this key, number and version, lent; or `None`, exactly where the cache holds none.
    /// What is found goes to the front. It takes no memory.
    pub fn find(&mut self, key: &Key, number: u64, version: u8) -> Option<&Txt>
        ensures* brings { sem 𝓛 (EndsAs self.entry (used key.now number version self.old.forms)) }
        ensures text { option_map (λ t. t.now.bytes) result
            ≡ option_map (λ f. f.text) (found (shows key.now number version) self.old.forms) }
    {
        self.forms.get(Sought {
            key,
            number,
            version,
        })
    }

    /// Keeps a text for this key, number and version, in front of all others. The text that was kept for them before goes, or
    /// where there was none and the cache is full, the last form does. At `NoMemory` nothing was kept and nothing went; a form
    /// that is there is always replaced.
    pub fn keep(&mut self, key: Key, number: u64, version: u8, text: Txt) -> Result<(), NoMemory>
        requires { length text.bytes ≤ longest_text }
        ensures kept { OnOk result (self.new ≡ forms_of (kept (record { key = key; number = number; version = version; text = text.bytes }) self.old) self.old.most) }
        ensures unchanged { OnErr result (self.new ≡ self.old) }
        ensures replaces { IsSome (found (shows key number version) self.old.forms) → IsOk result }
    {
        self.forms.put(
            FormName {
                key,
                number,
                version,
            },
            text,
        )?;
        Ok(())
    }
}
