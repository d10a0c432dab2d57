//! Lists and maps of texts.
ghost use Rattle.std.specs.Prelude.{◌≡◌, [], ◌∷◌, ◌++◌, length, map, slice_get, option_map, IfOk, OnOk, OnErr};
ghost use Rattle.kj_value.specs.Fields.{AreInOrder};
ghost use Rattle.kj_value.specs.Texts.{bytes_of, text_pair};

use crate::error::NoMemory;
use crate::names::{Named, find, seek_last};
use crate::txt::Txt;
use std::alloc::Global;
use std::marker::Model;

/// Texts in order.
pub struct TextList {
    texts: Vec<Txt>,
}

impl Drop for TextList {
    fn drop(self) {
        let TextList { texts: _ } = self;
    }
}

impl Model for TextList {
    ghost use Rattle.std.specs.Prelude.{List, map, ℕ};
    ghost use Rattle.kj_value.specs.Texts.{bytes_of};

    ghost Value = { List (List ℕ) };

    ghost view = { λ a. map bytes_of a.texts.items };
}

impl TextList {
    /// The empty list. It takes no memory.
    pub fn new(alloc: Global) -> TextList
        ensures { result ≡ [] }
    {
        TextList {
            texts: Vec::new(alloc),
        }
    }

    /// The empty list, with memory for so many texts.
    pub fn with_room(alloc: Global, texts: usize) -> Result<TextList, NoMemory>
        ensures { IfOk result (λ ts. ts ≡ []) }
    {
        Ok(TextList {
            texts: Vec::with_capacity(alloc, texts)?,
        })
    }

    /// How many texts there are.
    pub fn len(&self) -> usize
        ensures { result ≡ length self.now }
    {
        self.texts.len()
    }

    /// The text at a place, counted from 0.
    pub fn get(&self, i: usize) -> Option<&Txt>
        ensures { option_map (λ t. t.now.bytes) result ≡ slice_get self.now i }
    {
        self.texts.get(i)
    }

    /// The texts in order.
    pub fn as_slice(&self) -> &[Txt]
        ensures { map bytes_of result.now ≡ self.now }
    {
        self.texts.as_slice()
    }

    /// The texts in order, to be moved out of the list.
    pub fn into_vec(self) -> Vec<Txt>
        ensures { map bytes_of result.items ≡ self }
    {
        let TextList { texts } = self;
        texts
    }

    /// The same texts again, in memory of their own.
    pub fn copied(&self, alloc: Global) -> Result<TextList, NoMemory>
        ensures { IfOk result (λ ts. ts ≡ self.now) }
    {
        let mut copies = TextList::with_room(alloc, self.len())?;
        for t in self.as_slice() {
            copies.push(Txt::of(alloc, t.as_str())?)?;
        }
        Ok(copies)
    }

    /// Adds a text at the end. After an error the list is as it was.
    pub fn push(&mut self, x: Txt) -> Result<(), NoMemory>
        ensures ok { OnOk result (self.new ≡ self.old ++ x.bytes ∷ []) }
        ensures err { OnErr result (self.new ≡ self.old) }
    {
        self.texts.push(x)?;
        Ok(())
    }
}

/// One name of a map of texts, with its text.
#[derive(Drop)]
pub struct TextField {
    /// Unlike every other name of its map.
    pub name: Txt,
    pub value: Txt,
}

impl Named for TextField {
    ghost name_of = { λ f. f.name.bytes };

    fn name(&self) -> &str {
        self.name.as_str()
    }
}

/// Texts by name, the names strictly rising by bytes.
pub struct TextMap {
    fields: Vec<TextField>,
}

impl Drop for TextMap {
    fn drop(self) {
        let TextMap { fields: _ } = self;
    }
}

impl Model for TextMap {
    ghost use Rattle.std.specs.Prelude.{List, map, ℕ};
    ghost use Rattle.kj_value.specs.Fields.{AreInOrder};
    ghost use Rattle.kj_value.specs.Texts.{text_pair};

    ghost Value = { List (List ℕ × List ℕ) };

    ghost view = { λ a. map text_pair a.fields.items };

    ghost invariant = { λ a. AreInOrder (map text_pair a.fields.items) };
}

impl TextMap {
    ghost use Rattle.kj_value.specs.Fields.{field, with_field, without_field};

    /// The empty map. It takes no memory.
    pub fn new(alloc: Global) -> TextMap
        ensures { result ≡ [] }
    {
        TextMap {
            fields: Vec::new(alloc),
        }
    }

    /// The empty map, with memory for so many names.
    pub fn with_room(alloc: Global, names: usize) -> Result<TextMap, NoMemory>
        ensures { IfOk result (λ ts. ts ≡ []) }
    {
        Ok(TextMap {
            fields: Vec::with_capacity(alloc, names)?,
        })
    }

    /// How many names there are.
    pub fn len(&self) -> usize
        ensures len { result ≡ length self.now }
        ensures order { AreInOrder self.now }
    {
        self.fields.len()
    }

    /// The name and text at a place in the order of names, counted from 0.
    pub fn at(&self, i: usize) -> Option<(&str, &Txt)>
        ensures { option_map (λ p. (p.0.now, p.1.now.bytes)) result ≡ slice_get self.now i }
    {
        match self.fields.get(i) {
            Some(f) => Some((f.name.as_str(), &f.value)),
            None => None,
        }
    }

    /// The fields in the order of their names.
    pub fn as_slice(&self) -> &[TextField]
        ensures value { map text_pair result.now ≡ self.now }
        ensures order { AreInOrder self.now }
    {
        self.fields.as_slice()
    }

    /// The fields in the order of their names, to be moved out of the map.
    pub fn into_vec(self) -> Vec<TextField>
        ensures value { map text_pair result.items ≡ self }
        ensures order { AreInOrder self }
    {
        let TextMap { fields } = self;
        fields
    }

    /// The same texts again, in memory of their own.
    pub fn copied(&self, alloc: Global) -> Result<TextMap, NoMemory>
        ensures { IfOk result (λ ts. ts ≡ self.now) }
    {
        let mut copies = Vec::with_capacity(alloc, self.len())?;
        for t in self.as_slice() {
            let name = Txt::of(alloc, t.name.as_str())?;
            let value = Txt::of(alloc, t.value.as_str())?;
            copies.push(TextField { name, value })?;
        }
        Ok(TextMap { fields: copies })
    }

    /// The text at a name.
    pub fn get(&self, name: &str) -> Option<&Txt>
        ensures { option_map (λ t. t.now.bytes) result ≡ field name.now self.now }
    {
        match find(self.fields.as_slice(), name) {
            Some(i) => Some(&self.fields[i].value),
            None => None,
        }
    }

    /// Replaces the text at the name, or inserts the name. After an error the map is as it was.
    pub fn set(&mut self, name: Txt, v: Txt) -> Result<(), NoMemory>
        ensures ok { OnOk result (self.new ≡ with_field name.bytes v.bytes self.old) }
        ensures err { OnErr result (self.new ≡ self.old) }
    {
        match seek_last(self.fields.as_slice(), name.as_str()) {
            Ok(i) => {
                self.fields[i].value = v;
                Ok(())
            }
            Err(i) => {
                self.fields.insert(i, TextField { name, value: v })?;
                Ok(())
            }
        }
    }

    /// Takes the name out, with its text. It takes no memory.
    pub fn remove(&mut self, name: &str) -> Option<Txt>
        ensures value { option_map (λ t. t.bytes) result ≡ field name.now self.old }
        ensures fields { self.new ≡ without_field name.now self.old }
    {
        match find(self.fields.as_slice(), name) {
            Some(i) => {
                let TextField { name: _, value } = self.fields.remove(i);
                Some(value)
            }
            None => None,
        }
    }
}
