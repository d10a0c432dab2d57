//! The options of a delete.
ghost use Rattle.std.specs.Prelude.{◌≡◌, ◌↔◌, IfOk, IsTrue};
ghost use Rattle.kj_value.specs.Json.{object};
ghost use Rattle.kj_value.specs.Seen.{json};
ghost use Rattle.api_calls.specs.Bodies.{IsServedDelete, IsUnset};
ghost use Rattle.write_texts.specs.inner.Deleting.{HasUnset};

use api_calls::OBJECT_LEVELS;
use kj_value::{JFields, JVal, JsonFault, NoMemory, one_reading, read};
use std::alloc::Global;

// Whether the field is absent or null.
fn is_unset(fields: &JFields, name: &str) -> bool
    ensures { IsTrue result ↔ IsUnset name.now fields.now }
{
    match fields.get(name) {
        None => true,
        Some(value) => match value {
            JVal::Null => true,
            _ => false,
        },
    }
}

// Whether the document is an object that asks for no precondition and no dry run.
fn asks_nothing(document: &JVal) -> bool
    ensures { IsTrue result ↔ HasUnset (json document.now) }
{
    match document {
        JVal::Obj(fields) => is_unset(fields, "preconditions") && is_unset(fields, "dryRun"),
        _ => false,
    }
}

/// Whether a delete with this body is served (DeleteOptions of meta/v1): it is empty, or an object that asks for no
/// precondition and no dry run.
pub fn is_served_delete(alloc: Global, body: &[u8]) -> Result<bool, NoMemory>
    ensures { IfOk result (λ b. IsTrue b ↔ IsServedDelete body.now) }
{
    // Asked for what its clause says: bytes read as one value.
    one_reading();
    if body.len() == 0 {
        return Ok(true);
    }
    match read(alloc, body, OBJECT_LEVELS) {
        Ok(document) => Ok(asks_nothing(&document)),
        Err(JsonFault::NoMemory) => Err(NoMemory),
        Err(JsonFault::NotJson) => Ok(false),
        Err(JsonFault::TooDeep) => Ok(false),
        Err(JsonFault::NotWhole) => Ok(false),
    }
}
