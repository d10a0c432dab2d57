//! From a document to a definition.
ghost use Rattle.std.specs.Prelude.{◌≡◌, ◌++◌, IfOk, IfErr, OnOk, None, map, option_map, codes};
ghost use Rattle.kj_value.specs.Json.{object, members_of};
ghost use Rattle.kj_value.specs.Seen.{json};
ghost use Rattle.struct_schema.specs.Names.{value_at};
ghost use Rattle.crd_reading.specs.Words.{spelled};
ghost use Rattle.crd_reading.specs.Seen.{version_of};
ghost use Rattle.crd_reading.specs.Spelled.{or_null, spec_in, list_kind_read, definition_read};
ghost use Rattle.crd_reading.specs.Whole.{HaveOwnDefaults, IsWholeDefinition};
ghost use Rattle.crd_reading.specs.First.{first_refusal};
ghost use Rattle.crd_reading.specs.Told.{NamesDefinitionFault, refused_in};

use crate::comparing::compare;
use crate::definition::{Definition, Version};
use crate::found::Found;
use crate::laws::accepts;
use crate::parts::{inside, names_in, spec_in, text_in, version_items};
use crate::places::Place;
use crate::schemas::read_versions;
use crate::walk::try_value;
use crate::words::Word;
use kj_value::{JFields, JVal, NoMemory, Txt, sound};
use schema_reading::sound_defaults;
use std::alloc::Global;

/// Why a document is no definition.
#[derive(Drop)]
pub enum DefinitionFault {
    /// The first thing that is refused. Its path has names joined by points, with items in brackets, as
    /// `spec.versions[1].schema.openAPIV3Schema.properties.size`, and is empty for the whole document. The
    /// word is `Unknown` at a name that may not stand there, a keyword of a schema or `Limit` inside a
    /// schema, and else `Shape`.
    Refused { path: Txt, word: Txt },
    NoMemory,
}

impl From<NoMemory> for DefinitionFault {
    ghost use Rattle.std.specs.Prelude.{◌≡◌};
    ghost use Rattle.crd_reading.specs.declared.reading.DefinitionFault.{DefinitionFault};

    ghost from_gives = { λ _ e. e ≡ DefinitionFault.NoMemory };

    fn from(_e: NoMemory) -> DefinitionFault {
        DefinitionFault::NoMemory
    }
}

// Its versions, or the first thing that is refused.
#[tactic(auto, unfolding(crate::specs::First::first_refusal))]
fn try_document(alloc: Global, doc: &JVal) -> Result<Result<Vec<Version>, Found>, NoMemory>
    ensures read { IfOk result (λ r. IfOk r
        (λ vs. map version_of vs.items ≡ (definition_read (json doc.now)).versions)) }
    ensures own_defaults { IfOk result (λ r. OnOk r
        (HaveOwnDefaults (definition_read (json doc.now)).versions)) }
    ensures walk { IfOk result (λ r. refused_in r ≡ first_refusal (json doc.now)) }
{
    match try_value(alloc, Place::Document, doc)? {
        Some(found) => return Ok(Err(found)),
        None => {}
    }
    match compare(alloc, doc)? {
        Some(found) => return Ok(Err(found)),
        None => {}
    }
    read_versions(alloc, version_items(doc))
}

fn kind_and_list(alloc: Global, kind: &str) -> Result<Txt, NoMemory>
    ensures { IfOk result (λ t. t.bytes ≡ kind.now ++ codes "List") }
{
    let mut text = String::from_str(alloc, kind)?;
    text.push_str("List")?;
    Ok(Txt::of_string(text))
}

fn list_kind(alloc: Global, given: Option<&JVal>, kind: &str) -> Result<Txt, NoMemory>
    ensures { IfOk result (λ t. t.bytes
        ≡ list_kind_read (option_map (λ v. json v.now) given.entry) kind.now) }
{
    match given {
        None => kind_and_list(alloc, kind),
        Some(v) => Ok(Txt::of(alloc, text_in(Some(v)))?),
    }
}

fn remove(fields: &mut JFields, word: Word) -> Option<JVal>
    ensures { option_map json result ≡ value_at (spelled word) (members_of fields.old) }
{
    fields.remove(word.text())
}

fn take_spec(mut fields: JFields) -> JVal
    ensures { json result ≡ or_null (spec_in (object (members_of fields))) }
{
    match remove(&mut fields, Word::Spec) {
        None => JVal::Null,
        Some(v) => v,
    }
}

// `spec`, moved out of the document.
fn into_spec(doc: JVal) -> JVal
    ensures { json result ≡ or_null (spec_in (json doc)) }
{
    match doc {
        JVal::Obj(fields) => take_spec(fields),
        _ => JVal::Null,
    }
}

// What an accepted document spells is whole.
fn whole(doc: &JVal)
    requires allowed { first_refusal (json doc.now) ≡ None }
    requires own_defaults { HaveOwnDefaults (definition_read (json doc.now)).versions }
    ensures { IsWholeDefinition (definition_read (json doc.now)) }
{
    accepts();
    sound_defaults();
    sound(doc);
}

fn definition(alloc: Global, doc: JVal, versions: Vec<Version>) -> Result<Definition, NoMemory>
    requires read { map version_of versions.items ≡ (definition_read (json doc)).versions }
    requires whole { IsWholeDefinition (definition_read (json doc)) }
    ensures { IfOk result (λ d. d ≡ definition_read (json doc)) }
{
    let group = Txt::of(alloc, text_in(inside(spec_in(&doc), Word::Group)))?;
    let plural = Txt::of(alloc, text_in(inside(names_in(&doc), Word::Plural)))?;
    let kind = Txt::of(alloc, text_in(inside(names_in(&doc), Word::Kind)))?;
    let list_kind = list_kind(alloc, inside(names_in(&doc), Word::ListKind), kind.as_str())?;
    let spec = into_spec(doc);
    Ok(Definition::new(group, plural, kind, list_kind, versions, spec))
}

/// The definition that the document spells, or the first thing that is refused in it.
///
/// In each object the names are tried in their order by bytes, each value before the next name. A name that
/// must be there and isn't is refused in its place, at the path that it would have. Then the name of the
/// document is compared with the plural and the group, and the versions with each other: their names differ,
/// one is the storage version, and one at least is served. Then come the schemas, in the order of the
/// versions. `NoMemory` may come anywhere.
///
/// The walk is linear in the document, but for the schemas, of which `read_schema` of `schema_reading` tells.
pub fn read_definition(alloc: Global, doc: JVal) -> Result<Definition, DefinitionFault>
    ensures read { IfOk result (λ d. d ≡ definition_read (json doc)) }
    ensures allowed { OnOk result (first_refusal (json doc) ≡ None) }
    ensures refused { IfErr result (λ e. NamesDefinitionFault (first_refusal (json doc)) e) }
{
    match try_document(alloc, &doc)? {
        Err(found) => Err(DefinitionFault::Refused {
            path: found.path,
            word: found.word,
        }),
        Ok(versions) => {
            whole(&doc);
            Ok(definition(alloc, doc, versions)?)
        }
    }
}
