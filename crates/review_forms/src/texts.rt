//! The texts of reviews, a piece after the other.
ghost use Rattle.std.specs.Prelude.{◌≡◌, ◌≤◌, ◌++◌, [], length, IfOk, OnOk};
ghost use Rattle.kj_value.specs.Text.{quoted};
ghost use Rattle.review_forms.specs.Page.{PageView};
ghost use Rattle.review_forms.specs.Spelling.{comma_before};

use kj_value::{JVal, NoMemory, Txt, write};
use std::alloc::Global;
use std::marker::Model;

/// A text that is being written, of at most so many bytes.
#[derive(Drop)]
pub struct Page {
    text: String,
    most: usize,
}

impl Model for Page {
    ghost use Rattle.std.specs.Prelude.{◌≤◌, string_bytes, length};
    ghost use Rattle.review_forms.specs.Page.{PageView};

    ghost Value = { PageView };

    ghost view = { λ p. record { text = string_bytes p.text; most = p.most } };

    ghost invariant = { λ p. length (string_bytes p.text) ≤ p.most };
}

impl Page {
    /// An empty text of at most `most` bytes, with memory for `room`.
    pub fn new(alloc: Global, room: usize, most: usize) -> Result<Page, NoMemory>
        ensures { IfOk result (λ p. p ≡ record { text = []; most = most }) }
    {
        let text = String::with_capacity(alloc, room)?;
        Ok(Page { text, most })
    }

    /// One more piece. `NoMemory` comes also where the text would be too long.
    pub fn add(&mut self, piece: &str) -> Result<(), NoMemory>
        ensures { OnOk result (self.new ≡ record self.old { text = self.old.text ++ piece.now }) }
    {
        let room = self.most - self.text.len();
        if piece.len() > room {
            return Err(NoMemory);
        }
        self.text.push_str(piece)?;
        Ok(())
    }

    /// The text.
    pub fn into_txt(self) -> Txt
        ensures text { result.bytes ≡ self.text }
        ensures short { length self.text ≤ self.most }
    {
        Txt::of_string(self.text)
    }
}

/// What stands before the item at a place of a list.
pub fn comma_before(i: usize) -> &'static str
    ensures { result.now ≡ comma_before i }
{
    if i == 0 { "" } else { "," }
}

/// A text as JSON spells it.
pub fn quoted(alloc: Global, text: Txt) -> Result<Txt, NoMemory>
    ensures { IfOk result (λ t. t.bytes ≡ quoted text.bytes) }
{
    write(alloc, &JVal::Text(text))
}
