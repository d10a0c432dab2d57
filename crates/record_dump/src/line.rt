//! The line of an object.
ghost use Rattle.std.specs.Prelude.{◌≡◌, ◌≤◌, codes, IfOk, IfErr, OnOk};
ghost use Rattle.kj_value.specs.Fields.{field, with_field, without_field};
ghost use Rattle.kj_value.specs.Json.{depth, items_depth, items_of, members_depth, members_of, object};
ghost use Rattle.kj_value.specs.Seen.{json};
ghost use Rattle.kj_value.specs.Text.{text_of};
ghost use Rattle.edge_io.specs.Causes.{HasCause, Rose};
ghost use Rattle.edge_io.specs.Sends.{Sends};
ghost use Rattle.object_reading.specs.Fields.{object_at};
ghost use Rattle.wire_client.specs.Forms.{fields_of};
ghost use Rattle.wire_client.specs.declared.buffer.TheConstants.{ANSWER_LEVELS};
ghost use Rattle.record_dump.specs.Lines.{carried, dumped as dumped_of, line_of, lines_of, ended};
ghost use Rattle.record_dump.specs.inner.Seen.{OnUnsent};

use edge_io::{Failed, Sink, send};
use kj_value::{JFields, JItems, JVal, NoMemory, Txt, write};
use std::alloc::Global;

/// Why a line wasn't written whole.
#[derive(Clone, Copy, Drop)]
pub(crate) enum Unsent {
    Failed,
    NoMemory,
}

// Takes out what a server sets anew.
fn strip(metadata: &mut JFields)
    ensures { metadata.new ≡ carried metadata.old }
{
    metadata.remove("creationTimestamp");
    metadata.remove("deletionTimestamp");
    metadata.remove("generation");
    metadata.remove("resourceVersion");
    metadata.remove("uid");
}

// The fields of the object that a value is, and none where it is none.
fn fields_in(alloc: Global, value: JVal) -> JFields
    ensures { result ≡ fields_of (json value) }
{
    match value.into_object() {
        Some(fields) => fields,
        None => JFields::new(alloc),
    }
}

// Takes the metadata out of the fields.
fn take_metadata(alloc: Global, fields: &mut JFields) -> JFields
    ensures metadata { result ≡ object_at (field (codes "metadata") fields.old) }
    ensures rest { fields.new ≡ without_field (codes "metadata") fields.old }
{
    match fields.remove("metadata") {
        Some(value) => fields_in(alloc, value),
        None => JFields::new(alloc),
    }
}

fn put_metadata(alloc: Global, fields: &mut JFields, metadata: JFields) -> Result<(), NoMemory>
    ensures { OnOk result (fields.new ≡ with_field (codes "metadata") (object (members_of metadata)) fields.old) }
{
    match Txt::of(alloc, "metadata") {
        Ok(name) => fields.set(name, JVal::Obj(metadata)),
        Err(NoMemory) => Err(NoMemory),
    }
}

// Takes what a server sets anew out of the fields of an object.
fn strip_object(alloc: Global, fields: &mut JFields) -> Result<(), NoMemory>
    ensures { OnOk result (fields.new ≡ with_field (codes "metadata") (object (members_of (carried (object_at (field (codes "metadata") fields.old)))))
        (without_field (codes "metadata") fields.old)) }
{
    let mut metadata = take_metadata(alloc, fields);
    strip(&mut metadata);
    put_metadata(alloc, fields, metadata)
}

// The object without what a server sets anew.
#[tactic(auto, unfolding(crate::specs::Lines::dumped))]
fn dumped(alloc: Global, object: JVal) -> Result<JVal, NoMemory>
    ensures { IfOk result (λ v. json v ≡ dumped_of (json object)) }
{
    let mut fields = fields_in(alloc, object);
    match strip_object(alloc, &mut fields) {
        Ok(()) => Ok(JVal::Obj(fields)),
        Err(NoMemory) => Err(NoMemory),
    }
}

// The compact text of the object without what a server sets anew.
#[tactic(auto, using(crate::proofs::Depths::dumped_low))]
fn line_text(alloc: Global, object: JVal) -> Result<Txt, NoMemory>
    requires { depth (json object) ≤ ANSWER_LEVELS }
    ensures { IfOk result (λ t. t.bytes ≡ text_of (dumped_of (json object))) }
{
    match dumped(alloc, object) {
        Ok(object) => write(alloc, &object),
        Err(NoMemory) => Err(NoMemory),
    }
}

// Writes a text and a line feed.
fn send_ended<K: Sink>(out: &mut K, text: &[u8]) -> Result<(), Failed>
    ensures sent { Sends (K.written out.old) (K.written out.new) (ended text.now) result }
    ensures cause { HasCause (K.faults out.old) (K.faults out.new) result }
{
    send(out, text)?;
    send(out, b"\n")
}

// Writes the line of an object.
fn send_object<K: Sink>(alloc: Global, out: &mut K, object: JVal) -> Result<(), Unsent>
    requires { depth (json object) ≤ ANSWER_LEVELS }
    ensures sent { Sends (K.written out.old) (K.written out.new) (line_of (json object)) result }
    ensures later { K.faults out.old ≤ K.faults out.new }
    ensures cause { IfErr result (OnUnsent (Rose (K.faults out.old) (K.faults out.new))) }
{
    match line_text(alloc, object) {
        Ok(text) => match send_ended(out, text.as_str().as_bytes()) {
            Ok(()) => Ok(()),
            Err(_) => Err(Unsent::Failed),
        },
        Err(NoMemory) => Err(Unsent::NoMemory),
    }
}

// Writes the lines of the objects.
fn send_all<K: Sink>(alloc: Global, out: &mut K, objects: JItems) -> Result<(), Unsent>
    requires { items_depth (items_of objects) ≤ ANSWER_LEVELS }
    ensures sent { Sends (K.written out.old) (K.written out.new) (lines_of objects) result }
    ensures later { K.faults out.old ≤ K.faults out.new }
    ensures cause { IfErr result (OnUnsent (Rose (K.faults out.old) (K.faults out.new))) }
{
    for object in objects.into_vec() {
        match send_object(alloc, out, object) {
            Ok(()) => {}
            Err(unsent) => return Err(unsent),
        }
    }
    Ok(())
}

/// Writes the lines of the objects, and hands them on.
pub(crate) fn send_page<K: Sink>(alloc: Global, out: &mut K, objects: JItems) -> Result<(), Unsent>
    requires { items_depth (items_of objects) ≤ ANSWER_LEVELS }
    ensures sent { Sends (K.written out.old) (K.written out.new) (lines_of objects) result }
    ensures flushed { OnOk result (K.flushed out.new ≡ K.written out.new) }
    ensures later { K.faults out.old ≤ K.faults out.new }
    ensures cause { IfErr result (OnUnsent (Rose (K.faults out.old) (K.faults out.new))) }
{
    match send_all(alloc, out, objects) {
        Ok(()) => match out.flush() {
            Ok(()) => Ok(()),
            Err(Failed) => Err(Unsent::Failed),
        },
        Err(unsent) => Err(unsent),
    }
}
