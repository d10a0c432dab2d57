//! The objects of a response with the metadata that were sent.
ghost use Rattle.std.specs.Prelude.{◌≡◌, None, length, option_map, IfOk, OnOk};
ghost use Rattle.kj_value.specs.Fields.{field};
ghost use Rattle.kj_value.specs.Seen.{json};
ghost use Rattle.object_reading.specs.Fields.{given, object_at};
ghost use Rattle.review_forms.specs.Form.{fields_of};
ghost use Rattle.review_forms.specs.Response.{metadata_of, metadata_from, put, taken, all_taken};

use kj_value::{JFields, JItems, JVal, NoMemory, Txt, copy};
use std::alloc::Global;

/// The objects, each with the metadata of the one that was sent but for its labels and annotations.
pub(crate) fn all_taken(alloc: Global, objects: JItems, sent: &JItems) -> Result<JItems, NoMemory>
    requires { length objects ≡ length sent.now }
    ensures { IfOk result (λ ks. ks ≡ all_taken objects sent.now) }
{
    let mut rest = objects;
    let others = sent.as_slice();
    let mut made = JItems::with_room(alloc, rest.len())?;
    for i in 0..others.len() {
        let object = rest.replace(i, JVal::Null);
        made.push(taken(alloc, object, &others[i])?)?;
    }
    Ok(made)
}

fn taken(alloc: Global, object: JVal, sent: &JVal) -> Result<JVal, NoMemory>
    ensures { IfOk result (λ v. json v ≡ taken (json object) (json sent.now)) }
{
    let mut fields = fields_of(alloc, object);
    let given = object_of(alloc, fields.remove("metadata"));
    let metadata = metadata_taken(alloc, given, sent_metadata(alloc, sent)?)?;
    fields.set(Txt::of(alloc, "metadata")?, JVal::Obj(metadata))?;
    Ok(JVal::Obj(fields))
}

fn metadata_taken(alloc: Global, given: JFields, sent: JFields) -> Result<JFields, NoMemory>
    ensures { IfOk result (λ ms. ms ≡ metadata_from given sent) }
{
    let mut given = given;
    let mut metadata = sent;
    let labels = given.remove("labels");
    let annotations = given.remove("annotations");
    put(alloc, &mut metadata, "labels", labels)?;
    put(alloc, &mut metadata, "annotations", annotations)?;
    Ok(metadata)
}

// A field with that value, or without one where it is absent or null.
fn put(alloc: Global, fields: &mut JFields, name: &str, value: Option<JVal>) -> Result<(), NoMemory>
    ensures { OnOk result (fields.new ≡ put name.now (given (option_map json value)) fields.old) }
{
    match value {
        None => take_out(fields, name),
        Some(JVal::Null) => take_out(fields, name),
        Some(JVal::Bool(b)) => fields.set(Txt::of(alloc, name)?, JVal::Bool(b)),
        Some(JVal::Int(n)) => fields.set(Txt::of(alloc, name)?, JVal::Int(n)),
        Some(JVal::Text(t)) => fields.set(Txt::of(alloc, name)?, JVal::Text(t)),
        Some(JVal::List(items)) => fields.set(Txt::of(alloc, name)?, JVal::List(items)),
        Some(JVal::Obj(inner)) => fields.set(Txt::of(alloc, name)?, JVal::Obj(inner)),
    }
}

fn take_out(fields: &mut JFields, name: &str) -> Result<(), NoMemory>
    ensures { OnOk result (fields.new ≡ put name.now None fields.old) }
{
    let _ = fields.remove(name);
    Ok(())
}

// The metadata that were sent, in memory of their own.
fn sent_metadata(alloc: Global, sent: &JVal) -> Result<JFields, NoMemory>
    ensures { IfOk result (λ ms. ms ≡ metadata_of (json sent.now)) }
{
    let Some(fields) = sent.as_object() else {
        return Ok(JFields::new(alloc));
    };
    let Some(metadata) = fields.get("metadata") else {
        return Ok(JFields::new(alloc));
    };
    Ok(fields_of(alloc, copy(alloc, metadata)?))
}

fn object_of(alloc: Global, value: Option<JVal>) -> JFields
    ensures { result ≡ object_at (option_map json value) }
{
    match value {
        Some(value) => fields_of(alloc, value),
        None => JFields::new(alloc),
    }
}

// The fields of an object, and none of another value.
fn fields_of(alloc: Global, value: JVal) -> JFields
    ensures { result ≡ fields_of (json value) }
{
    match value.into_object() {
        Some(fields) => fields,
        None => JFields::new(alloc),
    }
}
