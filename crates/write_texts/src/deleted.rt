//! The Status of an object that was deleted.
ghost use Rattle.std.specs.Prelude.{◌≡◌, ◌<◌, IfOk, OnOk};
ghost use Rattle.kj_value.specs.Fields.{with_field};
ghost use Rattle.kj_value.specs.Json.{text};
ghost use Rattle.kj_value.specs.Seen.{json};
ghost use Rattle.kj_value.specs.Text.{text_of};
ghost use Rattle.api_calls.specs.Documents.{deleted_status};
ghost use Rattle.api_calls.specs.Uid.{uid};
ghost use Rattle.write_texts.specs.inner.Deleting.{deleted_details};

use api_calls::{BORN_END, Versions, uid_of};
use call_texts::Context;
use kj_value::{JFields, JVal, NoMemory, Txt, write};
use std::alloc::Global;

fn put(alloc: Global, fields: &mut JFields, name: &str, value: JVal) -> Result<(), NoMemory>
    ensures { OnOk result (fields.new ≡ with_field name.now (json value) fields.old) }
{
    fields.set(Txt::of(alloc, name)?, value)
}

fn put_text(alloc: Global, fields: &mut JFields, name: &str, value: &str) -> Result<(), NoMemory>
    ensures { OnOk result (fields.new ≡ with_field name.now (text value.now) fields.old) }
{
    put(alloc, fields, name, JVal::Text(Txt::of(alloc, value)?))
}

// Which object was deleted.
fn which<V: Versions>(lent: &Context<'_, V>, name: &str, id: Txt) -> Result<JVal, NoMemory>
    ensures { IfOk result (λ j. json j ≡ deleted_details (V.meaning lent.now.versions.now) name.now id.bytes) }
{
    let mut fields = JFields::new(lent.alloc);
    put_text(
        lent.alloc,
        &mut fields,
        "group",
        lent.versions.group().as_str(),
    )?;
    put_text(
        lent.alloc,
        &mut fields,
        "kind",
        lent.versions.plural().as_str(),
    )?;
    put_text(lent.alloc, &mut fields, "name", name)?;
    put(lent.alloc, &mut fields, "uid", JVal::Text(id))?;
    Ok(JVal::Obj(fields))
}

fn status<V: Versions>(lent: &Context<'_, V>, name: &str, id: Txt) -> Result<JVal, NoMemory>
    ensures { IfOk result (λ j. json j ≡ deleted_status (V.meaning lent.now.versions.now) name.now id.bytes) }
{
    let details = which(lent, name, id)?;
    let mut fields = JFields::new(lent.alloc);
    put_text(lent.alloc, &mut fields, "apiVersion", "v1")?;
    put(lent.alloc, &mut fields, "details", details)?;
    put_text(lent.alloc, &mut fields, "kind", "Status")?;
    put(
        lent.alloc,
        &mut fields,
        "metadata",
        JVal::Obj(JFields::new(lent.alloc)),
    )?;
    put_text(lent.alloc, &mut fields, "status", "Success")?;
    Ok(JVal::Obj(fields))
}

/// The text of the Status of the object of a name, which the entry `born` created, when it was deleted.
pub(crate) fn deleted_text<V: Versions>(
    lent: &Context<'_, V>,
    name: &str,
    born: u64,
) -> Result<Txt, NoMemory>
    requires { born < BORN_END }
    ensures { IfOk result (λ t. t.bytes ≡ text_of (deleted_status (V.meaning lent.now.versions.now) name.now (uid lent.now.boot born))) }
{
    let id = uid_of(lent.alloc, lent.boot, born)?;
    let status = status(lent, name, id)?;
    write(lent.alloc, &status)
}
