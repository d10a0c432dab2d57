//! The text of a definition's document, cut where flags stand.
ghost use Rattle.std.specs.Prelude.{◌≡◌, ◌≤◌, ◌++◌, [], ℕ, IfOk, map};
ghost use Rattle.kj_value.specs.Json.{depth, items_depth, items_of, list, members_depth, members_of, object};
ghost use Rattle.kj_value.specs.Seen.{json};
ghost use Rattle.kj_value.specs.Pair.{pair_of};
ghost use Rattle.kj_value.specs.Text.{quoted, text_of};
ghost use Rattle.crd_settings.specs.Flags.{flag_value, flagged, list_with, spec_fields, spec_value, spec_with, version_with, versions_with};
ghost use Rattle.crd_settings.specs.declared.parts.Mark.{Mark};
ghost use Rattle.crd_settings.specs.Pieces.{GoesOn, comma_before, cut_text, items_from, members_from, named_text, part_text, parts_text};

use crate::parts::{served_name, storage_name, versions_name};
use kj_value::{Field, JVal, MAX_JSON_LEVELS, NoMemory, Txt, write};
use std::alloc::Global;

// A piece of the text, or the place where a flag of the version at a place stands.
#[derive(Drop)]
pub(crate) enum Part {
    Text(Txt),
    Served(usize),
    Storage(usize),
}

// A text that is being written: its pieces, and what stands behind the last flag.
#[derive(Drop)]
pub(crate) struct Cut {
    pub(crate) parts: Vec<Part>,
    pub(crate) text: String,
}

// What stands before the thing at a place of a list or an object.
pub(crate) fn comma_before(i: usize) -> &'static str
    ensures { result.now ≡ comma_before i }
{
    if i == 0 { "" } else { "," }
}

pub(crate) fn quoted(alloc: Global, text: &str) -> Result<Txt, NoMemory>
    ensures { IfOk result (λ t. t.bytes ≡ quoted text.now) }
{
    let value = JVal::Text(Txt::of(alloc, text)?);
    write(alloc, &value)
}

pub(crate) fn with_text(cut: Cut, piece: &str) -> Result<Cut, NoMemory>
    ensures { IfOk result (λ after. GoesOn cut after (λ m. piece.now)) }
{
    let Cut { parts, mut text } = cut;
    text.push_str(piece)?;
    Ok(Cut { parts, text })
}

fn with_flag(alloc: Global, cut: Cut, flag: Part) -> Result<Cut, NoMemory>
    ensures { IfOk result (λ after. GoesOn cut after (λ m. part_text m flag)) }
{
    let Cut { mut parts, text } = cut;
    parts.push(Part::Text(Txt::of_string(text)))?;
    parts.push(flag)?;
    Ok(Cut {
        parts,
        text: String::new(alloc),
    })
}

// The pieces of what was written.
pub(crate) fn into_parts(cut: Cut) -> Result<Vec<Part>, NoMemory>
    ensures { IfOk result (λ parts. (m : ℕ → Mark) → parts_text m parts.items ≡ cut_text m cut) }
{
    let Cut { mut parts, text } = cut;
    parts.push(Part::Text(Txt::of_string(text)))?;
    Ok(parts)
}

fn with_value(alloc: Global, cut: Cut, v: &JVal) -> Result<Cut, NoMemory>
    requires { depth (json v.now) ≤ MAX_JSON_LEVELS }
    ensures { IfOk result (λ after. GoesOn cut after (λ m. text_of (json v.now))) }
{
    let text = write(alloc, v)?;
    with_text(cut, text.as_str())
}

// The name at a place of an object, with the colon.
fn with_name(alloc: Global, cut: Cut, i: usize, name: &str) -> Result<Cut, NoMemory>
    ensures { IfOk result (λ after. GoesOn cut after (λ m. named_text i name.now [])) }
{
    let name = quoted(alloc, name)?;
    let begun = with_text(cut, comma_before(i))?;
    let named = with_text(begun, name.as_str())?;
    with_text(named, ":")
}

// ---- versions

fn with_flag_value(
    alloc: Global,
    cut: Cut,
    v: usize,
    name: &str,
    value: &JVal,
) -> Result<Cut, NoMemory>
    requires { depth (json value.now) ≤ MAX_JSON_LEVELS }
    ensures { IfOk result (λ after. GoesOn cut after (λ m. text_of (flag_value (m v) name.now (json value.now)))) }
{
    if name == served_name() {
        return with_flag(alloc, cut, Part::Served(v));
    }
    if name == storage_name() {
        return with_flag(alloc, cut, Part::Storage(v));
    }
    with_value(alloc, cut, value)
}

fn with_flagged_field(
    alloc: Global,
    cut: Cut,
    v: usize,
    i: usize,
    field: &Field,
) -> Result<Cut, NoMemory>
    requires { depth (json field.now.value) ≤ MAX_JSON_LEVELS }
    ensures { IfOk result (λ after. GoesOn cut after
        (λ m. named_text i field.now.name.bytes (text_of (flag_value (m v) field.now.name.bytes (json field.now.value))))) }
{
    let name = field.name.as_str();
    let named = with_name(alloc, cut, i, name)?;
    with_flag_value(alloc, named, v, name, &field.value)
}

// The fields of the version at a place.
#[tactic(auto, using(kj_value::specs::laws::Inside::field_depth))]
fn with_flagged(alloc: Global, cut: Cut, v: usize, fields: &[Field]) -> Result<Cut, NoMemory>
    requires { members_depth (members_of (map pair_of fields.now)) ≤ MAX_JSON_LEVELS }
    ensures { IfOk result (λ after. GoesOn cut after
        (λ m. members_from 0 (flagged (m v) (members_of (map pair_of fields.now))))) }
{
    let mut cut = cut;
    for i in 0..fields.len() {
        cut = with_flagged_field(alloc, cut, v, i, &fields[i])?;
    }
    Ok(cut)
}

fn with_version_object(alloc: Global, cut: Cut, v: usize, fields: &[Field]) -> Result<Cut, NoMemory>
    requires { members_depth (members_of (map pair_of fields.now)) ≤ MAX_JSON_LEVELS }
    ensures { IfOk result (λ after. GoesOn cut after
        (λ m. text_of (object (flagged (m v) (members_of (map pair_of fields.now)))))) }
{
    let begun = with_text(cut, "{")?;
    let inside = with_flagged(alloc, begun, v, fields)?;
    let ended = with_text(inside, "}")?;
    Ok(ended)
}

fn with_version(alloc: Global, cut: Cut, v: usize, version: &JVal) -> Result<Cut, NoMemory>
    requires { depth (json version.now) ≤ MAX_JSON_LEVELS }
    ensures { IfOk result (λ after. GoesOn cut after (λ m. text_of (version_with (m v) (json version.now)))) }
{
    match version {
        JVal::Null => with_value(alloc, cut, version),
        JVal::Bool(_) => with_value(alloc, cut, version),
        JVal::Int(_) => with_value(alloc, cut, version),
        JVal::Text(_) => with_value(alloc, cut, version),
        JVal::List(_) => with_value(alloc, cut, version),
        JVal::Obj(fields) => with_version_object(alloc, cut, v, fields.as_slice()),
    }
}

fn with_version_item(alloc: Global, cut: Cut, v: usize, version: &JVal) -> Result<Cut, NoMemory>
    requires { depth (json version.now) ≤ MAX_JSON_LEVELS }
    ensures { IfOk result (λ after. GoesOn cut after
        (λ m. comma_before v ++ text_of (version_with (m v) (json version.now)))) }
{
    let begun = with_text(cut, comma_before(v))?;
    with_version(alloc, begun, v, version)
}

#[tactic(auto, using(kj_value::specs::laws::Inside::item_depth))]
fn with_versions(alloc: Global, cut: Cut, versions: &[JVal]) -> Result<Cut, NoMemory>
    requires { items_depth (items_of (map json versions.now)) ≤ MAX_JSON_LEVELS }
    ensures { IfOk result (λ after. GoesOn cut after
        (λ m. items_from 0 (versions_with m 0 (items_of (map json versions.now))))) }
{
    let mut cut = cut;
    for v in 0..versions.len() {
        cut = with_version_item(alloc, cut, v, &versions[v])?;
    }
    Ok(cut)
}

fn with_version_list(alloc: Global, cut: Cut, versions: &[JVal]) -> Result<Cut, NoMemory>
    requires { items_depth (items_of (map json versions.now)) ≤ MAX_JSON_LEVELS }
    ensures { IfOk result (λ after. GoesOn cut after
        (λ m. text_of (list (versions_with m 0 (items_of (map json versions.now)))))) }
{
    let begun = with_text(cut, "[")?;
    let inside = with_versions(alloc, begun, versions)?;
    let ended = with_text(inside, "]")?;
    Ok(ended)
}

// ---- `spec`

fn with_list(alloc: Global, cut: Cut, v: &JVal) -> Result<Cut, NoMemory>
    requires { depth (json v.now) ≤ MAX_JSON_LEVELS }
    ensures { IfOk result (λ after. GoesOn cut after (λ m. text_of (list_with m (json v.now)))) }
{
    match v {
        JVal::Null => with_value(alloc, cut, v),
        JVal::Bool(_) => with_value(alloc, cut, v),
        JVal::Int(_) => with_value(alloc, cut, v),
        JVal::Text(_) => with_value(alloc, cut, v),
        JVal::List(items) => with_version_list(alloc, cut, items.as_slice()),
        JVal::Obj(_) => with_value(alloc, cut, v),
    }
}

fn with_spec_value(alloc: Global, cut: Cut, name: &str, value: &JVal) -> Result<Cut, NoMemory>
    requires { depth (json value.now) ≤ MAX_JSON_LEVELS }
    ensures { IfOk result (λ after. GoesOn cut after (λ m. text_of (spec_value m name.now (json value.now)))) }
{
    if name == versions_name() {
        return with_list(alloc, cut, value);
    }
    with_value(alloc, cut, value)
}

fn with_spec_field(alloc: Global, cut: Cut, i: usize, field: &Field) -> Result<Cut, NoMemory>
    requires { depth (json field.now.value) ≤ MAX_JSON_LEVELS }
    ensures { IfOk result (λ after. GoesOn cut after
        (λ m. named_text i field.now.name.bytes (text_of (spec_value m field.now.name.bytes (json field.now.value))))) }
{
    let name = field.name.as_str();
    let named = with_name(alloc, cut, i, name)?;
    with_spec_value(alloc, named, name, &field.value)
}

#[tactic(auto, using(kj_value::specs::laws::Inside::field_depth))]
fn with_spec_fields(alloc: Global, cut: Cut, fields: &[Field]) -> Result<Cut, NoMemory>
    requires { members_depth (members_of (map pair_of fields.now)) ≤ MAX_JSON_LEVELS }
    ensures { IfOk result (λ after. GoesOn cut after
        (λ m. members_from 0 (spec_fields m (members_of (map pair_of fields.now))))) }
{
    let mut cut = cut;
    for i in 0..fields.len() {
        cut = with_spec_field(alloc, cut, i, &fields[i])?;
    }
    Ok(cut)
}

fn with_spec_object(alloc: Global, cut: Cut, fields: &[Field]) -> Result<Cut, NoMemory>
    requires { members_depth (members_of (map pair_of fields.now)) ≤ MAX_JSON_LEVELS }
    ensures { IfOk result (λ after. GoesOn cut after
        (λ m. text_of (object (spec_fields m (members_of (map pair_of fields.now)))))) }
{
    let begun = with_text(cut, "{")?;
    let inside = with_spec_fields(alloc, begun, fields)?;
    let ended = with_text(inside, "}")?;
    Ok(ended)
}

// A definition's `spec`, cut where the flags of its versions stand.
pub(crate) fn with_spec(alloc: Global, cut: Cut, spec: &JVal) -> Result<Cut, NoMemory>
    requires { depth (json spec.now) ≤ MAX_JSON_LEVELS }
    ensures { IfOk result (λ after. GoesOn cut after (λ m. text_of (spec_with m (json spec.now)))) }
{
    match spec {
        JVal::Null => with_value(alloc, cut, spec),
        JVal::Bool(_) => with_value(alloc, cut, spec),
        JVal::Int(_) => with_value(alloc, cut, spec),
        JVal::Text(_) => with_value(alloc, cut, spec),
        JVal::List(_) => with_value(alloc, cut, spec),
        JVal::Obj(fields) => with_spec_object(alloc, cut, fields.as_slice()),
    }
}
