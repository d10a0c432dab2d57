//! The pieces of a definition's document.
ghost use Rattle.std.specs.Prelude.{◌≡◌, ◌+◌, ◌<◌, ◌≤◌, ◌++◌, [], ℕ, List, IfOk, length, map, slice_index_or};
ghost use Rattle.kj_value.specs.Json.{depth};
ghost use Rattle.kj_value.specs.Text.{quoted, text_of};
ghost use Rattle.kj_value.specs.Texts.{bytes_of};
ghost use Rattle.api_calls.specs.Versions.{IsStoredList, versions_of};
ghost use Rattle.crd_reading.specs.Seen.{version_of};
ghost use Rattle.crd_reading.specs.View.{DefinitionView};
ghost use Rattle.crd_settings.specs.Flags.{mark_of};
ghost use Rattle.crd_settings.specs.Shown.{document_with, show_room, shown, unmarked};
ghost use Rattle.crd_settings.specs.declared.parts.Mark.{Mark};
ghost use Rattle.crd_settings.specs.Pieces.{AreItsPieces, CanShow, before_name, before_spec, before_stored, behind_stored, comma_before, joined, name_at, names_from, part_text, parts_text, truth_text};

use crate::body::full_name;
use crate::cut::{Cut, Part, comma_before, into_parts, quoted, with_spec, with_text};
use api_calls::{Flags, StoredList};
use crd_reading::{Definition, Version};
use kj_value::{MAX_JSON_LEVELS, NoMemory, Txt};
use std::alloc::Global;

/// The text of a definition's document, cut where the flags and the stored versions stand, so that the definition is shown with
/// no memory taken and each byte copied once. It doesn't hold the definition.
pub struct Pieces {
    parts: Vec<Part>,
    names: Vec<Txt>,
    room: u64,
}

impl Drop for Pieces {
    fn drop(self) {
        let Pieces {
            parts: _,
            names: _,
            room: _,
        } = self;
    }
}

// ---- texts that are always the same

#[tactic(auto, unfolding(crate::specs::Pieces::before_name))]
fn before_name() -> &'static str
    ensures { result.now ≡ before_name }
{
    "{\"apiVersion\":\"apiextensions.k8s.io/v1\",\"kind\":\"CustomResourceDefinition\",\"metadata\":{\"name\":"
}

#[tactic(auto, unfolding(crate::specs::Pieces::before_spec))]
fn before_spec() -> &'static str
    ensures { result.now ≡ before_spec }
{
    "},\"spec\":"
}

#[tactic(auto, unfolding(crate::specs::Pieces::before_stored))]
fn before_stored() -> &'static str
    ensures { result.now ≡ before_stored }
{
    ",\"status\":{\"storedVersions\":["
}

#[tactic(auto, unfolding(crate::specs::Pieces::behind_stored))]
fn behind_stored() -> &'static str
    ensures { result.now ≡ behind_stored }
{
    "]}}"
}

// ---- parts

// The parts of the document up to the stored versions.
fn parts(alloc: Global, definition: &Definition) -> Result<Vec<Part>, NoMemory>
    requires { depth definition.now.spec ≤ MAX_JSON_LEVELS }
    ensures { IfOk result (λ parts. (m : ℕ → Mark) (stored : List (List ℕ))
        → text_of (document_with definition.now m stored) ≡ joined m parts.items (map quoted stored)) }
{
    let name = full_name(alloc, definition)?;
    let name = quoted(alloc, name.as_str())?;
    let empty = Cut {
        parts: Vec::new(alloc),
        text: String::new(alloc),
    };
    let begun = with_text(empty, before_name())?;
    let named = with_text(begun, name.as_str())?;
    let outer = with_text(named, before_spec())?;
    let inner = with_spec(alloc, outer, definition.spec())?;
    let whole = with_text(inner, before_stored())?;
    let parts = into_parts(whole)?;
    Ok(parts)
}

// The names of the versions in quotes.
fn names(alloc: Global, versions: &[Version]) -> Result<Vec<Txt>, NoMemory>
    ensures { IfOk result (λ ts. map bytes_of ts.items ≡ map (λ v. quoted v.name) (map version_of versions.now)) }
{
    let mut names = Vec::new(alloc);
    for i in 0..versions.len() {
        let name = quoted(alloc, versions[i].name.as_str())?;
        names.push(name)?;
    }
    Ok(names)
}

fn truth_text(b: bool) -> &'static str
    ensures { result.now ≡ truth_text b }
{
    if b { "true" } else { "false" }
}

// ---- the longest text

fn longest_part(part: &Part) -> &str
    ensures { result.now ≡ part_text unmarked part.now }
{
    match part {
        Part::Text(text) => text.as_str(),
        Part::Served(_) => truth_text(false),
        Part::Storage(_) => truth_text(false),
    }
}

fn longest_parts(alloc: Global, parts: &[Part]) -> Result<Txt, NoMemory>
    ensures { IfOk result (λ t. t.bytes ≡ parts_text unmarked parts.now) }
{
    let mut text = String::new(alloc);
    for part in parts {
        text.push_str(longest_part(part))?;
    }
    Ok(Txt::of_string(text))
}

fn all_names(alloc: Global, names: &[Txt]) -> Result<Txt, NoMemory>
    ensures { IfOk result (λ t. t.bytes ≡ names_from 0 (map bytes_of names.now)) }
{
    let mut text = String::new(alloc);
    for i in 0..names.len() {
        text.push_str(comma_before(i))?;
        text.push_str(names[i].as_str())?;
    }
    Ok(Txt::of_string(text))
}

// The text with neither flag at any version, and with every name.
fn longest(alloc: Global, parts: &[Part], names: &[Txt]) -> Result<Txt, NoMemory>
    ensures { IfOk result (λ t. t.bytes ≡ joined unmarked parts.now (map bytes_of names.now)) }
{
    let parts = longest_parts(alloc, parts)?;
    let names = all_names(alloc, names)?;
    let mut text = parts.into_string();
    text.push_str(names.as_str())?;
    text.push_str(behind_stored())?;
    Ok(Txt::of_string(text))
}

// ---- flags

fn served(flags: &Flags, v: usize) -> bool
    ensures { result ≡ (mark_of flags.now v).served }
{
    match flags.served.get(v) {
        Some(served) => *served,
        None => false,
    }
}

fn part_text<'a>(part: &'a Part, flags: &Flags) -> &'a str
    ensures { result.now ≡ part_text (mark_of flags.now) part.now }
{
    match part {
        Part::Text(text) => text.as_str(),
        Part::Served(v) => truth_text(served(flags, *v)),
        Part::Storage(v) => truth_text(*v == flags.storage as usize),
    }
}

fn add_parts(parts: &[Part], flags: &Flags, out: &mut Txt)
    requires { length (parts_text (mark_of flags.now) parts.now) ≤ out.old.room }
    ensures text { out.new.bytes ≡ out.old.bytes ++ parts_text (mark_of flags.now) parts.now }
    ensures room { out.new.room + length (parts_text (mark_of flags.now) parts.now) ≡ out.old.room }
{
    for part in parts {
        out.add(part_text(part, flags));
    }
}

fn add_name(name: &str, i: usize, out: &mut Txt)
    requires { length (comma_before i ++ name.now) ≤ out.old.room }
    ensures text { out.new.bytes ≡ out.old.bytes ++ (comma_before i ++ name.now) }
    ensures room { out.new.room + length (comma_before i ++ name.now) ≡ out.old.room }
{
    out.add(comma_before(i));
    out.add(name);
}

fn add_names(names: &[Txt], stored: &StoredList, out: &mut Txt)
    requires stored { IsStoredList (length names.now) stored.now }
    requires room { length (names_from 0 (map (name_at (map bytes_of names.now)) (versions_of stored.now))) ≤ out.old.room }
    ensures text { out.new.bytes ≡ out.old.bytes ++ names_from 0 (map (name_at (map bytes_of names.now)) (versions_of stored.now)) }
    ensures room { out.new.room + length (names_from 0 (map (name_at (map bytes_of names.now)) (versions_of stored.now))) ≡ out.old.room }
{
    for i in 0..stored.len as usize {
        let v = stored.items[i] as usize;
        add_name(names[v].as_str(), i, out);
    }
}

impl Pieces {
    /// The pieces of a definition's document. `spec` is at most 100 levels deep, as where the definition was read at so many.
    pub fn of(alloc: Global, definition: &Definition) -> Result<Pieces, NoMemory>
        requires { depth definition.now.spec ≤ MAX_JSON_LEVELS }
        ensures { IfOk result (AreItsPieces definition.now) }
    {
        let parts = parts(alloc, definition)?;
        let names = names(alloc, definition.versions())?;
        let longest = longest(alloc, parts.as_slice(), names.as_slice())?;
        let room = longest.len() as u64;
        Ok(Pieces { parts, names, room })
    }

    /// The most bytes that `show` appends. It takes no memory.
    pub fn room(&self) -> u64
        ensures { (d : DefinitionView) → AreItsPieces d self.now → result ≡ show_room d }
    {
        self.room
    }

    /// Appends the text of the definition's CustomResourceDefinition with these flags and this stored list. It takes no memory.
    pub fn show(&self, flags: &Flags, stored: &StoredList, out: &mut Txt)
        requires { CanShow self.now stored.now out.old.room }
        ensures text { (d : DefinitionView) → AreItsPieces d self.now
            → out.new.bytes ≡ out.old.bytes ++ shown d flags.now (versions_of stored.now) }
        ensures room { (d : DefinitionView) → AreItsPieces d self.now
            → out.new.room + length (shown d flags.now (versions_of stored.now)) ≡ out.old.room }
    {
        add_parts(self.parts.as_slice(), flags, out);
        add_names(self.names.as_slice(), stored, out);
        out.add(behind_stored());
    }
}
