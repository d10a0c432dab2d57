//! What is read of the texts of replies.
ghost use Rattle.std.specs.Prelude.{◌≡◌, ◌≤◌, [], IfOk, IfSome, MatchOption, Some, codes, option_map};
ghost use Rattle.kj_value.specs.Fields.{field, with_field};
ghost use Rattle.kj_value.specs.Json.{Json, depth, text};
ghost use Rattle.kj_value.specs.Reading.{Reads};
ghost use Rattle.kj_value.specs.Seen.{json};
ghost use Rattle.kj_value.specs.declared.reading.TheConstants.{MAX_JSON_LEVELS as most_levels};
ghost use Rattle.object_reading.specs.Fields.{object_at};
ghost use Rattle.drill_requests.specs.Bodies.{other_port};
ghost use Rattle.drill_requests.specs.Replies.{AsRead, IsEdited, edited, items_in, version_in};

use kj_value::{JFields, JVal, JsonFault, MAX_JSON_LEVELS, NoMemory, Txt, read, write};
use std::alloc::Global;

// The value that a text is, or `None` where it is no JSON.
fn read_text(alloc: Global, text: &str) -> Result<Option<JVal>, NoMemory>
    ensures value { IfOk result (λ o. MatchOption o ((j : Json) → Reads text.now most_levels j → ⊥) (λ v. Reads text.now most_levels (json v))) }
    ensures depth { IfOk result (λ o. IfSome o (λ v. depth (json v) ≤ most_levels)) }
{
    match read(alloc, text.as_bytes(), MAX_JSON_LEVELS) {
        Ok(value) => Ok(Some(value)),
        Err(JsonFault::NotJson) => Ok(None),
        Err(JsonFault::TooDeep) => Ok(None),
        Err(JsonFault::NotWhole) => Ok(None),
        Err(JsonFault::NoMemory) => Err(NoMemory),
    }
}

// ---- an object that is put back

// Sets another `hostPort`.
fn set_port(alloc: Global, fields: JFields, value: u64) -> Result<JFields, NoMemory>
    ensures { IfOk result (λ fs. fs ≡ with_field (codes "hostPort") (text (other_port value)) fields) }
{
    let mut fields = fields;
    let name = Txt::of(alloc, "hostPort")?;
    let port = format!(in alloc; "r:{value}")?;
    fields.set(name, JVal::Text(Txt::of_string(port)))?;
    Ok(fields)
}

// The object with another `hostPort`.
fn edit(alloc: Global, got: JVal, value: u64) -> Result<JVal, NoMemory>
    requires { depth (json got) ≤ most_levels }
    ensures edited { IfOk result (λ v. json v ≡ edited value (json got)) }
    ensures depth { IfOk result (λ v. depth (json v) ≤ most_levels) }
{
    match got {
        JVal::Obj(fields) => Ok(JVal::Obj(set_port(alloc, fields, value)?)),
        JVal::Null => Ok(JVal::Null),
        JVal::Bool(b) => Ok(JVal::Bool(b)),
        JVal::Int(n) => Ok(JVal::Int(n)),
        JVal::Text(text) => Ok(JVal::Text(text)),
        JVal::List(items) => Ok(JVal::List(items)),
    }
}

/// The body that puts an object back with another `hostPort`.
pub fn edited(alloc: Global, got: &str, value: u64) -> Result<Txt, NoMemory>
    ensures { IfOk result (λ t. IsEdited value got.now t.bytes) }
{
    match read_text(alloc, got)? {
        Some(object) => write(alloc, &edit(alloc, object, value)?),
        None => Txt::of(alloc, got),
    }
}

// ---- a list

fn field_of<'a>(value: &'a JVal, name: &str) -> Option<&'a JVal>
    ensures { option_map (λ v. json v.now) result ≡ field name.now (object_at (Some (json value.now))) }
{
    match value.as_object() {
        Some(fields) => fields.get(name),
        None => None,
    }
}

fn items_in(list: &JVal) -> usize
    ensures { result ≡ items_in (json list.now) }
{
    match field_of(list, "items") {
        Some(items) => match items.as_list() {
            Some(items) => items.len(),
            None => 0,
        },
        None => 0,
    }
}

fn version_in(list: &JVal) -> &str
    ensures { result.now ≡ version_in (json list.now) }
{
    match field_of(list, "metadata") {
        Some(metadata) => match field_of(metadata, "resourceVersion") {
            Some(version) => match version.as_text() {
                Some(text) => text,
                None => "",
            },
            None => "",
        },
        None => "",
    }
}

// How many objects a list has, and its resource version.
fn parts_of(alloc: Global, list: &JVal) -> Result<(usize, Txt), NoMemory>
    ensures { IfOk result (λ s. (s.0 ≡ items_in (json list.now)) × (s.1.bytes ≡ version_in (json list.now))) }
{
    let objects = items_in(list);
    let revision = Txt::of(alloc, version_in(list))?;
    Ok((objects, revision))
}

/// How many objects a list shows, and its resource version. A text that is no JSON shows none.
pub fn shown(alloc: Global, list: &str) -> Result<(usize, Txt), NoMemory>
    ensures { IfOk result (λ s. AsRead list.now (λ j. (s.0 ≡ items_in j) × (s.1.bytes ≡ version_in j)) ((s.0 ≡ 0) × (s.1.bytes ≡ []))) }
{
    match read_text(alloc, list)? {
        Some(list) => parts_of(alloc, &list),
        None => Ok((0, Txt::of(alloc, "")?)),
    }
}
