//! What is told of a case: words with a space before each.
use kj_value::{JVal, MAX_JSON_LEVELS, Txt, depth, write};
use std::alloc::Global;
use std::fmt::Debug;

/// What a case is answered with. Words are added to it without a word of how that went: where one finds no memory, or something isn't as a
/// case is to be, there is no answer.
pub(crate) struct Told {
    text: String,
    is_lost: bool,
}

impl Drop for Told {
    fn drop(self) {
        let Told {
            text: _,
            is_lost: _,
        } = self;
    }
}

impl Told {
    /// No word.
    pub(crate) fn new(alloc: Global) -> Told {
        Told {
            text: String::new(alloc),
            is_lost: false,
        }
    }

    /// The words, if there is an answer.
    pub(crate) fn line(&self) -> Option<&str> {
        if self.is_lost {
            return None;
        }
        Some(self.text.as_str().get(1..).unwrap_or(""))
    }

    /// Whether there is an answer, and it is the other one.
    pub(crate) fn is_as(&self, other: &Told) -> bool {
        !self.is_lost && self.text.as_str() == other.text.as_str()
    }

    /// There is no answer.
    pub(crate) fn lose(&mut self) {
        self.is_lost = true;
    }

    /// Adds a piece with no space before it.
    pub(crate) fn push(&mut self, piece: &str) {
        if self.text.push_str(piece).is_err() {
            self.is_lost = true;
        }
    }

    /// Adds a word.
    pub(crate) fn add(&mut self, word: &str) {
        self.push(" ");
        self.push(word);
    }

    /// Adds what prints itself.
    pub(crate) fn add_shown<T: Debug>(&mut self, alloc: Global, it: &T) {
        match format!(in alloc; "{it:?}") {
            Ok(word) => self.add(word.as_str()),
            Err(_) => self.is_lost = true,
        }
    }

    /// Adds a number.
    pub(crate) fn add_number(&mut self, alloc: Global, n: u64) {
        match format!(in alloc; "{n}") {
            Ok(word) => self.add(word.as_str()),
            Err(_) => self.is_lost = true,
        }
    }

    /// Adds bytes that are a text.
    pub(crate) fn add_bytes(&mut self, bytes: &[u8]) {
        match str::from_utf8(bytes) {
            Ok(word) => self.add(word),
            Err(_) => self.is_lost = true,
        }
    }

    /// Adds whether it is so.
    pub(crate) fn add_is(&mut self, is_so: bool) {
        self.add(if is_so { "yes" } else { "no" });
    }

    /// Adds the text of a value with no space before it.
    pub(crate) fn push_value(&mut self, alloc: Global, v: &JVal) {
        if depth(v) > MAX_JSON_LEVELS {
            self.is_lost = true;
            return;
        }
        match write(alloc, v) {
            Ok(text) => self.push(text.as_str()),
            Err(_) => self.is_lost = true,
        }
    }

    /// Adds the text of a value.
    pub(crate) fn add_value(&mut self, alloc: Global, v: &JVal) {
        self.push(" ");
        self.push_value(alloc, v);
    }

    /// Adds bytes that are a text, as a JSON text.
    pub(crate) fn add_text(&mut self, alloc: Global, bytes: &[u8]) {
        match text_of(alloc, bytes) {
            Some(text) => self.add_value(alloc, &JVal::Text(text)),
            None => self.is_lost = true,
        }
    }
}

fn text_of(alloc: Global, bytes: &[u8]) -> Option<Txt> {
    match bytes.to_vec(alloc) {
        Ok(bytes) => Txt::of_bytes(bytes),
        Err(_) => None,
    }
}
