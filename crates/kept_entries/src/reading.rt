//! From a text to its entries.
ghost use Rattle.std.specs.Prelude.{◌≡◌, [], ◌∷◌, IfOk, IfErr};
ghost use Rattle.kj_value.specs.Json.{text, list, items_of};
ghost use Rattle.kj_value.specs.Seen.{json};
ghost use Rattle.kj_value.specs.Pair.{pair_of};
ghost use Rattle.kept_entries.specs.Text.{IsCanonical, IsKept, path_json, part_json, entry_fields, entry_json, kept_json};
ghost use Rattle.kept_entries.specs.Refusal.{IsRefusedKeptText, IsNotCanonical, kept_fault, IsNoList, IsNoEntry, AreNoFields, IsNoPath, IsNoName, IsNoPart};

use crate::entry::Entry;
use crate::fault::KeptFault;
use crate::list::Kept;
use crate::order::are_in_order;
use kj_value::{
    Field, JFields, JItems, JVal, JsonFault, TextList, Txt, one_reading, one_text, read,
    reading_depth, text_reads, write,
};
use std::alloc::Global;

/// The most levels of a kept text: the list, the entry, the part, and the levels of a value.
pub const KEPT_LEVELS: u32 = 66;

/// The entries that a text spells.
pub fn read_kept(alloc: Global, text: &str) -> Result<Kept, KeptFault>
    ensures ok { IfOk result (IsKept text.now) }
    ensures err { IfErr result (IsRefusedKeptText text.now) }
{
    one_text();
    let value = read_value(alloc, text)?;
    let kept = entries_of(alloc, value)?;
    let rises = are_in_order(kept.as_slice());
    if !rises {
        return Err(KeptFault::BadKept);
    }
    Ok(kept)
}

fn fault_of(fault: JsonFault) -> KeptFault
    ensures { result ≡ kept_fault fault }
{
    match fault {
        JsonFault::NotJson => KeptFault::BadKept,
        JsonFault::TooDeep => KeptFault::BadKept,
        JsonFault::NotWhole => KeptFault::BadKept,
        JsonFault::NoMemory => KeptFault::NoMemory,
    }
}

// The value whose compact text this is.
fn read_value(alloc: Global, text: &str) -> Result<JVal, KeptFault>
    ensures ok { IfOk result (λ v. IsCanonical text.now (json v)) }
    ensures err { IfErr result (IsNotCanonical text.now) }
{
    text_reads();
    reading_depth();
    one_reading();
    let value = match read(alloc, text.as_bytes(), KEPT_LEVELS) {
        Ok(value) => value,
        Err(fault) => return Err(fault_of(fault)),
    };
    let again = write(alloc, &value)?;
    let same = again.as_str() == text;
    if !same {
        return Err(KeptFault::BadKept);
    }
    Ok(value)
}

fn entries_of(alloc: Global, value: JVal) -> Result<Kept, KeptFault>
    ensures ok { IfOk result (λ k. kept_json k ≡ json value) }
    ensures err { IfErr result (IsNoList (json value)) }
{
    match value {
        JVal::List(items) => read_items(alloc, items),
        _ => Err(KeptFault::BadKept),
    }
}

fn read_items(alloc: Global, items: JItems) -> Result<Kept, KeptFault>
    ensures ok { IfOk result (λ k. kept_json k ≡ list (items_of items)) }
    ensures err { IfErr result (IsNoList (list (items_of items))) }
{
    let mut kept = Kept::new(alloc);
    for item in items.into_vec() {
        kept.push(read_entry(alloc, item)?)?;
    }
    Ok(kept)
}

fn read_entry(alloc: Global, value: JVal) -> Result<Entry, KeptFault>
    ensures ok { IfOk result (λ e. entry_json e ≡ json value) }
    ensures err { IfErr result (IsNoEntry (json value)) }
{
    match value {
        JVal::Obj(fields) => of_fields(alloc, fields),
        _ => Err(KeptFault::BadKept),
    }
}

// The two names `at` and `was`, and no other.
fn of_fields(alloc: Global, fields: JFields) -> Result<Entry, KeptFault>
    ensures ok { IfOk result (λ e. entry_fields e ≡ fields) }
    ensures err { IfErr result (AreNoFields fields) }
{
    let mut fields = fields.into_vec();
    let Some(last) = fields.pop() else {
        return Err(KeptFault::BadKept);
    };
    let Some(first) = fields.pop() else {
        return Err(KeptFault::BadKept);
    };
    if !fields.is_empty() {
        return Err(KeptFault::BadKept);
    }
    of_two(alloc, first, last)
}

fn of_two(alloc: Global, first: Field, last: Field) -> Result<Entry, KeptFault>
    ensures ok { IfOk result (λ e. entry_fields e ≡ pair_of first ∷ pair_of last ∷ []) }
    ensures err { IfErr result (AreNoFields (pair_of first ∷ pair_of last ∷ [])) }
{
    let is_at = first.name.as_str() == "at";
    if !is_at {
        return Err(KeptFault::BadKept);
    }
    let is_was = last.name.as_str() == "was";
    if !is_was {
        return Err(KeptFault::BadKept);
    }
    let at = path_of(alloc, first.value)?;
    let was = part_of(last.value)?;
    Ok(Entry { at, was })
}

fn path_of(alloc: Global, value: JVal) -> Result<TextList, KeptFault>
    ensures ok { IfOk result (λ ns. path_json ns ≡ json value) }
    ensures err { IfErr result (IsNoPath (json value)) }
{
    match value {
        JVal::List(items) => read_path(alloc, items),
        _ => Err(KeptFault::BadKept),
    }
}

fn read_path(alloc: Global, items: JItems) -> Result<TextList, KeptFault>
    ensures ok { IfOk result (λ ns. path_json ns ≡ list (items_of items)) }
    ensures err { IfErr result (IsNoPath (list (items_of items))) }
{
    let mut path = TextList::new(alloc);
    for item in items.into_vec() {
        path.push(name_of(item)?)?;
    }
    Ok(path)
}

fn name_of(value: JVal) -> Result<Txt, KeptFault>
    ensures ok { IfOk result (λ n. text n.bytes ≡ json value) }
    ensures err { IfErr result (IsNoName (json value)) }
{
    match value {
        JVal::Text(name) => Ok(name),
        _ => Err(KeptFault::BadKept),
    }
}

fn part_of(value: JVal) -> Result<JFields, KeptFault>
    ensures ok { IfOk result (λ ps. part_json ps ≡ json value) }
    ensures err { IfErr result (IsNoPart (json value)) }
{
    match value {
        JVal::Obj(fields) => Ok(fields),
        _ => Err(KeptFault::BadKept),
    }
}
