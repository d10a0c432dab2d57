//! Annotations read and written.
ghost use Rattle.std.specs.Prelude.{◌≡◌, ◌≤◌, true, Option, IfOk, IfErr, OnOk, option_map};
ghost use Rattle.kj_value.specs.Json.{depth};
ghost use Rattle.kj_value.specs.Fields.{field};
ghost use Rattle.kj_value.specs.Texts.{bytes_of};
ghost use Rattle.kept_entries.specs.Entry.{are_in_order};
ghost use Rattle.kept_entries.specs.Text.{IsKept, kept_json};
ghost use Rattle.hub_cells.specs.Level.{Name};
ghost use Rattle.keep_laws.specs.Notes.{Spells, IsNoteOf, with_note};
ghost use Rattle.spoke_keep.specs.Fault.{IsBadText, IsBadAt};

use crate::fault::KeepFault;
use kept_entries::{KEPT_LEVELS, Kept, KeptFault, read_kept, write_kept};
use kj_value::{NoMemory, TextMap, Txt};
use std::alloc::Global;

pub(crate) fn read_note(alloc: Global, key: &str, text: &str) -> Result<Kept, KeepFault>
    ensures ok { IfOk result (IsKept text.now) }
    ensures err { IfErr result (IsBadText key.now text.now) }
{
    match read_kept(alloc, text) {
        Ok(kept) => Ok(kept),
        Err(KeptFault::BadKept) => match Txt::of(alloc, key) {
            Ok(annotation) => Err(KeepFault::BadKept { annotation }),
            Err(NoMemory) => Err(KeepFault::NoMemory),
        },
        Err(KeptFault::NoMemory) => Err(KeepFault::NoMemory),
    }
}

// What the annotation at the key keeps.
pub(crate) fn kept_at(alloc: Global, notes: &TextMap, key: &str) -> Result<Kept, KeepFault>
    ensures ok { IfOk result (Spells (field key.now notes.now)) }
    ensures err { IfErr result (IsBadAt key.now (field key.now notes.now)) }
{
    match notes.get(key) {
        Some(text) => read_note(alloc, key, text.as_str()),
        None => Ok(Kept::new(alloc)),
    }
}

pub(crate) fn write_note(alloc: Global, kept: &Kept) -> Result<Option<Txt>, NoMemory>
    requires order { are_in_order kept.now ≡ true }
    requires levels { depth (kept_json kept.now) ≤ KEPT_LEVELS }
    ensures { IfOk result (λ o. IsNoteOf kept.now (option_map bytes_of o)) }
{
    if kept.len() == 0 {
        return Ok(None);
    }
    match write_kept(alloc, kept) {
        Ok(text) => Ok(Some(text)),
        Err(refused) => Err(refused),
    }
}

fn put_note(
    alloc: Global,
    key: &str,
    note: Option<Txt>,
    notes: &mut TextMap,
) -> Result<(), NoMemory>
    ensures { OnOk result (notes.new ≡ with_note key.now (option_map bytes_of note) notes.old) }
{
    let Some(text) = note else {
        return Ok(());
    };
    match Txt::of(alloc, key) {
        Ok(name) => notes.set(name, text),
        Err(refused) => {
            drop(text);
            Err(refused)
        }
    }
}

// Annotations with what is kept at the key. Where nothing is, they stay.
pub(crate) fn put_kept(
    alloc: Global,
    key: &str,
    kept: &Kept,
    notes: &mut TextMap,
) -> Result<(), NoMemory>
    requires order { are_in_order kept.now ≡ true }
    requires levels { depth (kept_json kept.now) ≤ KEPT_LEVELS }
    ensures { OnOk result ((o : Option Name) × IsNoteOf kept.now o × (notes.new ≡ with_note key.now o notes.old)) }
{
    match write_note(alloc, kept) {
        Ok(note) => put_note(alloc, key, note, notes),
        Err(refused) => Err(refused),
    }
}
