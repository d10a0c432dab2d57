//! The words, as they are kept for `clap`.
ghost use Rattle.std.specs.Prelude.{◌≡◌, ◌++◌, ◌∷◌, [], map, option_map, slice_get, string_bytes, OnErr, OnOk};

use kj_value::{NoMemory, Txt};
use std::alloc::Global;
use std::marker::Model;

/// The words of the command line, without the program's name.
pub struct Words {
    texts: Vec<String>,
}

impl Drop for Words {
    fn drop(self) {
        let Words { texts: _ } = self;
    }
}

impl Model for Words {
    ghost use Rattle.std.specs.Prelude.{List, map, string_bytes, ℕ};

    ghost Value = { List (List ℕ) };

    ghost view = { λ a. map string_bytes a.texts.items };
}

impl Words {
    /// No words. It takes no memory.
    pub fn new(alloc: Global) -> Words
        ensures { result ≡ [] }
    {
        Words {
            texts: Vec::new(alloc),
        }
    }

    /// The word at a place, counted from 0.
    pub fn get(&self, i: usize) -> Option<&String>
        ensures { option_map (λ t. string_bytes t.now) result ≡ slice_get self.now i }
    {
        self.texts.get(i)
    }

    /// The words in order.
    pub(crate) fn as_slice(&self) -> &[String]
        ensures { map string_bytes result.now ≡ self.now }
    {
        self.texts.as_slice()
    }

    /// Adds a word at the end. After an error the words are as they were.
    pub fn push(&mut self, word: Txt) -> Result<(), NoMemory>
        ensures ok { OnOk result (self.new ≡ self.old ++ word.bytes ∷ []) }
        ensures err { OnErr result (self.new ≡ self.old) }
    {
        self.texts.push(word.into_string())?;
        Ok(())
    }
}
