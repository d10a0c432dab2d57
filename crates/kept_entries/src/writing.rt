//! From entries to their text.
ghost use Rattle.std.specs.Prelude.{◌≡◌, ◌≤◌, true, IfOk};
ghost use Rattle.kj_value.specs.Json.{depth};
ghost use Rattle.kj_value.specs.Seen.{json};
ghost use Rattle.kept_entries.specs.Entry.{are_in_order};
ghost use Rattle.kept_entries.specs.Text.{IsKept, path_json, entry_json, kept_json, kept_text};

use crate::entry::Entry;
use crate::list::Kept;
use crate::reading::KEPT_LEVELS;
use kj_value::{JFields, JItems, JVal, NoMemory, TextList, Txt, write};
use std::alloc::Global;

/// The text of a list of entries that is at most `KEPT_LEVELS` deep. Where the entries are in order
/// it reads back as them.
pub fn write_kept(alloc: Global, k: &Kept) -> Result<Txt, NoMemory>
    requires { depth (kept_json k.now) ≤ KEPT_LEVELS }
    ensures text { IfOk result (λ t. t.bytes ≡ kept_text k.now) }
    ensures kept { IfOk result (λ t. are_in_order k.now ≡ true → IsKept t.bytes k.now) }
{
    let value = kept_value(alloc, k)?;
    write(alloc, &value)
}

fn kept_value(alloc: Global, k: &Kept) -> Result<JVal, NoMemory>
    ensures { IfOk result (λ v. json v ≡ kept_json k.now) }
{
    let mut items = JItems::new(alloc);
    for e in k.as_slice() {
        items.push(entry_value(alloc, e)?)?;
    }
    Ok(JVal::List(items))
}

fn entry_value(alloc: Global, e: &Entry) -> Result<JVal, NoMemory>
    ensures { IfOk result (λ v. json v ≡ entry_json e.now) }
{
    let at = path_value(alloc, &e.at)?;
    let was = e.was.copied(alloc)?;
    let mut fields = JFields::new(alloc);
    fields.set(Txt::of(alloc, "at")?, at)?;
    fields.set(Txt::of(alloc, "was")?, JVal::Obj(was))?;
    Ok(JVal::Obj(fields))
}

fn path_value(alloc: Global, path: &TextList) -> Result<JVal, NoMemory>
    ensures { IfOk result (λ v. json v ≡ path_json path.now) }
{
    let mut items = JItems::new(alloc);
    for name in path.as_slice() {
        items.push(JVal::Text(Txt::of(alloc, name.as_str())?))?;
    }
    Ok(JVal::List(items))
}
