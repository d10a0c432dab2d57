//! Parts of a document.
ghost use Rattle.std.specs.Prelude.{◌≡◌, option_map, map};
ghost use Rattle.kj_value.specs.Json.{items_of, members_of};
ghost use Rattle.kj_value.specs.Seen.{json};
ghost use Rattle.struct_schema.specs.Names.{value_at};
ghost use Rattle.schema_reading.specs.Kind.{is_yes};
ghost use Rattle.crd_reading.specs.Words.{spelled};
ghost use Rattle.crd_reading.specs.Spelled.{inside, text_in, items_in, spec_in, names_in, version_items, own_name};

use crate::words::Word;
use kj_value::{JFields, JVal};

fn value_at<'a>(fields: &'a JFields, word: Word) -> Option<&'a JVal>
    ensures { option_map (λ v. json v.now) result ≡ value_at (spelled word) (members_of fields.now) }
{
    fields.get(word.text())
}

// The value at a name of the object that stands there.
pub(crate) fn inside(v: Option<&JVal>, word: Word) -> Option<&JVal>
    ensures { option_map (λ w. json w.now) result
        ≡ inside word (option_map (λ w. json w.now) v.entry) }
{
    match v {
        Some(JVal::Obj(fields)) => value_at(fields, word),
        _ => None,
    }
}

// The text that stands there.
pub(crate) fn text_in(v: Option<&JVal>) -> &str
    ensures { result.now ≡ text_in (option_map (λ w. json w.now) v.entry) }
{
    match v {
        Some(JVal::Text(t)) => t.as_str(),
        _ => "",
    }
}

/// Whether true stands there.
pub fn is_yes(v: Option<&JVal>) -> bool
    ensures { result ≡ is_yes (option_map (λ w. json w.now) v.entry) }
{
    match v {
        Some(JVal::Bool(b)) => *b,
        _ => false,
    }
}

/// The items of the list that stands there; anything else is read as an empty one.
pub fn items_in(v: Option<&JVal>) -> &[JVal]
    ensures { items_of (map json result.now) ≡ items_in (option_map (λ w. json w.now) v.entry) }
{
    match v {
        Some(JVal::List(items)) => items.as_slice(),
        _ => &[],
    }
}

pub(crate) fn spec_in(doc: &JVal) -> Option<&JVal>
    ensures { option_map (λ w. json w.now) result ≡ spec_in (json doc.now) }
{
    inside(Some(doc), Word::Spec)
}

pub(crate) fn names_in(doc: &JVal) -> Option<&JVal>
    ensures { option_map (λ w. json w.now) result ≡ names_in (json doc.now) }
{
    inside(spec_in(doc), Word::Names)
}

pub(crate) fn version_items(doc: &JVal) -> &[JVal]
    ensures { items_of (map json result.now) ≡ version_items (json doc.now) }
{
    items_in(inside(spec_in(doc), Word::Versions))
}

// The name of the definition itself.
pub(crate) fn own_name(doc: &JVal) -> &str
    ensures { result.now ≡ own_name (json doc.now) }
{
    text_in(inside(inside(Some(doc), Word::Metadata), Word::Name))
}
