//! Where texts and whole numbers stand in a list of values, so that no one has to go over the list.
ghost use Rattle.std.specs.Prelude.{◌≡◌, ◌+◌, ℕ, List, [], ◌∷◌, map, IfOk, IfSome, OnOk};
ghost use Rattle.kj_value.specs.Json.{Json, whole, text};
ghost use Rattle.kj_value.specs.Seen.{json};
ghost use Rattle.kj_value.specs.Texts.{bytes_of};
ghost use Rattle.struct_schema.specs.Places.{ArePlaces, first_from, Tells};

use kj_value::{JVal, NoMemory, Txt};
use std::alloc::Global;
use std::collections::HashMap;

// From so many values on, a list is kept with their places.
const MANY: usize = 16;

/// The first place of each text and of each whole number of a list. Other values have none.
pub struct Places {
    texts: HashMap<String, usize>,
    wholes: HashMap<i64, usize>,
}

impl Drop for Places {
    fn drop(self) {
        let Places {
            texts: _,
            wholes: _,
        } = self;
    }
}

/// What places tell of a value.
#[derive(Clone, Copy, PartialEq, Eq, Drop)]
pub enum Place {
    /// Where it stands first.
    First(usize),
    /// It isn't in the list.
    Nowhere,
    /// It is neither a text nor a whole number, or no places are known.
    Unknown,
}

impl Places {
    /// The places of the list with no values, wherever it begins. It takes no memory.
    pub fn new(alloc: Global) -> Places
        ensures { (i : ℕ) → ArePlaces result i [] }
    {
        let texts = HashMap::new(alloc);
        let wholes = HashMap::new(alloc);
        Places { texts, wholes }
    }

    fn put_text(&mut self, alloc: Global, i: usize, t: &Txt) -> Result<(), NoMemory>
        ensures { OnOk result ((js : List Json) → ArePlaces self.old (i + 1) js
            → ArePlaces self.new i (text t.now.bytes ∷ js)) }
    {
        let key = String::from_str(alloc, t.as_str())?;
        self.texts.insert(key, i)?;
        Ok(())
    }

    fn put_whole(&mut self, i: usize, n: i64) -> Result<(), NoMemory>
        ensures { OnOk result ((js : List Json) → ArePlaces self.old (i + 1) js
            → ArePlaces self.new i (whole n ∷ js)) }
    {
        self.wholes.insert(n, i)?;
        Ok(())
    }

    /// Puts a value before the list. After an error nothing is known of the places.
    pub fn put(&mut self, alloc: Global, i: usize, value: &JVal) -> Result<(), NoMemory>
        ensures { OnOk result ((js : List Json) → ArePlaces self.old (i + 1) js
            → ArePlaces self.new i (json value.now ∷ js)) }
    {
        match value {
            JVal::Text(t) => self.put_text(alloc, i, t),
            JVal::Int(n) => self.put_whole(i, *n),
            JVal::Null => Ok(()),
            JVal::Bool(_) => Ok(()),
            JVal::List(_) => Ok(()),
            JVal::Obj(_) => Ok(()),
        }
    }

    fn find_text(&self, name: &str) -> Place
        ensures { (i : ℕ) (js : List Json) → ArePlaces self.now i js
            → Tells result (first_from i (text name.now) js) }
    {
        match self.texts.get(name) {
            Some(i) => Place::First(*i),
            None => Place::Nowhere,
        }
    }

    fn find_whole(&self, n: i64) -> Place
        ensures { (i : ℕ) (js : List Json) → ArePlaces self.now i js
            → Tells result (first_from i (whole n) js) }
    {
        match self.wholes.get(&n) {
            Some(i) => Place::First(*i),
            None => Place::Nowhere,
        }
    }

    /// Where the value stands first. It takes no memory.
    pub fn find(&self, value: &JVal) -> Place
        ensures { (i : ℕ) (js : List Json) → ArePlaces self.now i js
            → Tells result (first_from i (json value.now) js) }
    {
        match value {
            JVal::Text(t) => self.find_text(t.as_str()),
            JVal::Int(n) => self.find_whole(*n),
            _ => Place::Unknown,
        }
    }
}

/// Where the value stands first, as far as its places are known. It takes no memory.
pub fn find_in(places: &Option<Places>, value: &JVal) -> Place
    ensures { (js : List Json) → IfSome places.now (λ p. ArePlaces p 0 js)
        → Tells result (first_from 0 (json value.now) js) }
{
    match places {
        None => Place::Unknown,
        Some(places) => places.find(value),
    }
}

/// Where the text stands first, as far as its places are known. It takes no memory.
pub(crate) fn find_text_in(places: &Option<Places>, name: &str) -> Place
    ensures { (js : List Json) → IfSome places.now (λ p. ArePlaces p 0 js)
        → Tells result (first_from 0 (text name.now) js) }
{
    match places {
        None => Place::Unknown,
        Some(places) => places.find_text(name),
    }
}

fn all_places(alloc: Global, values: &[JVal]) -> Result<Places, NoMemory>
    ensures { IfOk result (λ p. ArePlaces p 0 (map json values.now)) }
{
    let mut places = Places::new(alloc);
    let mut i = values.len();
    while i > 0 {
        i -= 1;
        places.put(alloc, i, &values[i])?;
    }
    Ok(places)
}

/// The places of values, where they are many.
pub(crate) fn places_of(alloc: Global, values: &[JVal]) -> Result<Option<Places>, NoMemory>
    ensures { IfOk result (λ o. IfSome o (λ p. ArePlaces p 0 (map json values.now))) }
{
    if values.len() < MANY {
        return Ok(None);
    }
    Ok(Some(all_places(alloc, values)?))
}

fn all_text_places(alloc: Global, names: &[Txt]) -> Result<Places, NoMemory>
    ensures { IfOk result (λ p. ArePlaces p 0 (map text (map bytes_of names.now))) }
{
    let mut places = Places::new(alloc);
    let mut i = names.len();
    while i > 0 {
        i -= 1;
        places.put_text(alloc, i, &names[i])?;
    }
    Ok(places)
}

/// The places of texts, where they are many.
pub(crate) fn text_places(alloc: Global, names: &[Txt]) -> Result<Option<Places>, NoMemory>
    ensures { IfOk result (λ o. IfSome o (λ p. ArePlaces p 0 (map text (map bytes_of names.now)))) }
{
    if names.len() < MANY {
        return Ok(None);
    }
    Ok(Some(all_text_places(alloc, names)?))
}
