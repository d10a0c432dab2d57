//! Lines that are told.
use std::alloc::Global;

/// Lines that are told one behind the other. Each is added without a word of how that went: where one finds no memory, or something isn't as a
/// case is to be, none are told.
pub(crate) struct Lines {
    text: String,
    is_lost: bool,
}

impl Drop for Lines {
    fn drop(self) {
        let Lines {
            text: _,
            is_lost: _,
        } = self;
    }
}

impl Lines {
    /// No line.
    pub(crate) fn new(alloc: Global) -> Lines {
        Lines {
            text: String::new(alloc),
            is_lost: false,
        }
    }

    /// None are told.
    pub(crate) fn lose(&mut self) {
        self.is_lost = true;
    }

    /// Adds a text, which has its ends of lines.
    pub(crate) fn push(&mut self, text: &str) {
        if self.text.push_str(text).is_err() {
            self.is_lost = true;
        }
    }

    /// Adds a text that was made, if it was.
    pub(crate) fn add(&mut self, made: Option<String>) {
        match made {
            Some(text) => self.push(text.as_str()),
            None => self.is_lost = true,
        }
    }

    /// The lines, if none was lost.
    pub(crate) fn told(self) -> Option<String> {
        let Lines { text, is_lost } = self;
        if is_lost { None } else { Some(text) }
    }
}
