//! A converter that renames a field, in memory.
ghost use Rattle.std.specs.Prelude.{◌≡◌, ◌↔◌, ◌<◌, ◌≤◌, ◌++◌, ◌∷◌, [], None, Some, true, false, codes, option_map, map, IsTrue, IsSome, IfOk, IfErr, OnOk, OnErr};
ghost use Rattle.kj_value.specs.Json.{depth, object, members_of};
ghost use Rattle.kj_value.specs.Fields.{field};
ghost use Rattle.kj_value.specs.Kinds.{as_object};
ghost use Rattle.kj_value.specs.Seen.{json};
ghost use Rattle.kube_meta.specs.View.{ObjectView};
ghost use Rattle.object_reading.specs.Parts.{whole_in, text_or_empty};
ghost use Rattle.api_calls.specs.declared.versions.TheConstants.{OBJECT_LEVELS};
ghost use Rattle.converters.specs.Turns.{after_turn, OnRefused, Counts};
ghost use Rattle.converters.specs.Turned.{IsDocumentOf};
ghost use Rattle.converters.specs.Renaming.{put, remade, rename, names_for, TurnsTo, answer_to};
ghost use Rattle.converters.specs.Seen.{answer_of, turn_of, turns_of};

use crate::list_converter::{MadeTurn, Outcome, made};
use crate::{Converter, TurnFault};
use api_calls::Tool;
use kj_value::{JFields, JVal, NoMemory, Txt, copy};
use std::alloc::Global;

const V1: &str = "example.com/v1";

const V1BETA1: &str = "example.com/v1beta1";

// The name of the field at a version and at another one.
#[tactic(auto, unfolding(crate::specs::Renaming::names_for, crate::specs::Renaming::v1, crate::specs::Renaming::v1beta1))]
fn names_for(version: &str, to: &str) -> Option<(&'static str, &'static str)>
    ensures { option_map (λ n. (n.0.now, n.1.now)) result ≡ names_for version.now to.now }
{
    if version == V1BETA1 && to == V1 {
        Some(("address", "host"))
    } else if version == V1 && to == V1BETA1 {
        Some(("host", "address"))
    } else {
        None
    }
}

fn put(alloc: Global, fields: &mut JFields, name: &str, value: Option<JVal>) -> Result<(), NoMemory>
    ensures { OnOk result (fields.new ≡ put name.now (option_map json value) fields.old) }
{
    match value {
        Some(value) => fields.set(Txt::of(alloc, name)?, value),
        None => Ok(()),
    }
}

// The document of these fields with a field renamed and another version.
fn moved(alloc: Global, fields: JFields, to: &str, from: &str, name: &str) -> Result<JVal, NoMemory>
    ensures { IfOk result (λ v. json v ≡ object (members_of (remade (from.now, name.now) to.now fields))) }
{
    let mut fields = fields;
    let metadata = fields.remove("metadata");
    let kind = fields.remove("kind");
    let _version = fields.remove("apiVersion");
    let value = fields.remove(from);
    put(alloc, &mut fields, name, value)?;
    fields.set(
        Txt::of(alloc, "apiVersion")?,
        JVal::Text(Txt::of(alloc, to)?),
    )?;
    put(alloc, &mut fields, "kind", kind)?;
    put(alloc, &mut fields, "metadata", metadata)?;
    Ok(JVal::Obj(fields))
}

// The text at `apiVersion`.
fn version_of(fields: &JFields) -> &str
    ensures { result.now ≡ text_or_empty (field (codes "apiVersion") fields.now) }
{
    let Some(value) = fields.get("apiVersion") else {
        return "";
    };
    match value.as_text() {
        Some(text) => text,
        None => "",
    }
}

fn is_same(a: &str, b: &str) -> bool
    ensures { IsTrue result ↔ (a.now ≡ b.now) }
{
    a == b
}

// The document of what the object is turned to, or none.
fn turned(alloc: Global, object: &JVal, to: &str) -> Result<Option<JVal>, NoMemory>
    requires { IsSome (as_object (json object.now)) }
    ensures { IfOk result (λ found. (x : ObjectView) → IsDocumentOf (json object.now) x → TurnsTo x to.now (option_map json found)) }
{
    let Some(fields) = object.as_object() else {
        unreachable!()
    };
    let version = version_of(fields);
    if is_same(version, to) {
        return Ok(Some(copy(alloc, object)?));
    }
    match names_for(version, to) {
        Some((from, name)) => {
            let Some(owned) = copy(alloc, object)?.into_object() else {
                unreachable!()
            };
            Ok(Some(moved(alloc, owned, to, from, name)?))
        }
        None => Ok(None),
    }
}

// The same as an outcome, in memory of its own.
fn outcome_of(alloc: Global, found: &Option<JVal>) -> Result<Outcome, NoMemory>
    ensures { IfOk result (λ o. answer_of o ≡ answer_to (option_map json found.now)) }
{
    match found {
        Some(v) => Ok(Outcome::Answered(copy(alloc, v)?)),
        None => Ok(Outcome::Refused),
    }
}

/// A converter of a small definition: group `example.com`, whose version `v1` calls `host` what `v1beta1` calls `address`. It is honest, never
/// fails by itself, and tells its turns.
#[derive(Drop)]
pub struct RenameConverter {
    made: Vec<MadeTurn>,
    faults: u64,
}

impl RenameConverter {
    /// A converter that has turned nothing.
    pub fn new(alloc: Global) -> RenameConverter
        ensures made { turns_of result ≡ [] }
        ensures faults { ⟦<RenameConverter as Tool>⟧.faults result ≡ 0 }
    {
        RenameConverter {
            made: Vec::new(alloc),
            faults: 0,
        }
    }

    /// The turns that were made, in order.
    pub fn made(&self) -> &[MadeTurn]
        ensures { map turn_of result.now ≡ turns_of self.now }
    {
        &self.made
    }

    // Makes the turn.
    fn take(&mut self, alloc: Global, object: &JVal, to: &str) -> Result<Option<JVal>, NoMemory>
        requires { IsSome (as_object (json object.now)) }
        ensures turned { IfOk result (λ found. (x : ObjectView) → IsDocumentOf (json object.now) x → TurnsTo x to.now (option_map json found)) }
        ensures made { IfOk result (λ found. turns_of self.new ≡ turns_of self.old ++ (record { object = json object.now; to = to.now; answer = answer_to (option_map json found) }) ∷ []) }
        ensures kept { OnErr result (turns_of self.new ≡ turns_of self.old) }
        ensures faults { self.new.faults ≡ self.old.faults }
    {
        let found = turned(alloc, object, to)?;
        let outcome = outcome_of(alloc, &found)?;
        let turn = made(alloc, object, to, &outcome)?;
        self.made.push(turn)?;
        Ok(found)
    }
}

impl Tool for RenameConverter {
    ghost faults = { λ c. c.faults };

    fn count(&self) -> u64
        ensures { result ≡ self.now.faults }
    {
        self.faults
    }
}

impl Converter for RenameConverter {
    ghost use Rattle.std.specs.Prelude.{true, Some};
    ghost use Rattle.converters.specs.Renaming.{rename};

    ghost HONEST = { true };

    const HONEST: bool = true;

    ghost turned = { rename };

    ghost turns = { λ c. Some (turns_of c) };

    fn turn(&mut self, alloc: Global, object: &JVal, to: &str) -> Result<JVal, TurnFault>
        requires object { IsSome (as_object (json object.now)) }
        requires levels { depth (json object.now) ≤ OBJECT_LEVELS }
        ensures turned { IsTrue true → (x : ObjectView) → IsDocumentOf (json object.now) x → IfOk result (λ y. rename x to.now ≡ Some (whole_in (json y))) }
        ensures refused { IsTrue true → (x : ObjectView) → IsDocumentOf (json object.now) x → IfErr result (OnRefused (rename x to.now ≡ None)) }
        ensures turns { Some (turns_of self.new) ≡ after_turn json (Some (turns_of self.old)) (json object.now) to.now result }
        ensures counts { Counts self.old.faults self.new.faults result }
    {
        match self.take(alloc, object, to)? {
            Some(y) => Ok(y),
            None => Err(TurnFault::Refused {
                message: Txt::of_string(String::new(alloc)),
            }),
        }
    }

    fn reject(&mut self) -> bool
        ensures rejects { IsTrue result → self.old.faults < self.new.faults }
        ensures turns { Some (turns_of self.new) ≡ Some (turns_of self.old) }
        ensures kept { result ≡ false → self.new.faults ≡ self.old.faults }
    {
        match self.faults.checked_add(1) {
            Some(faults) => {
                self.faults = faults;
                true
            }
            None => false,
        }
    }

    ghost use Rattle.converters.specs.Honest.{rename_stays, rename_unstamped};

    ghost stays = { λ honest. rename_stays };

    ghost unstamped = { λ honest. rename_unstamped };
}
