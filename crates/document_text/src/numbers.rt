//! The text with a number and a uid.
ghost use Rattle.std.specs.Prelude.{◌≡◌, ◌≤◌, ◌+◌, [], ◌∷◌, length, IfOk, flat_map, if◌then◌else◌};
ghost use Rattle.kj_value.specs.Characters.{comma};
ghost use Rattle.kj_value.specs.Text.{escaped_byte, text_of};
ghost use Rattle.kube_meta.specs.View.{ObjectView};
ghost use Rattle.kube_meta.specs.Document.{document};
ghost use Rattle.document_text.specs.inner.Cut.{IsCut};
ghost use Rattle.document_text.specs.Numbered.{AreParts, IsBare, with_numbers};

use crate::ends::ending;
use crate::place::metadata_of;
use kj_value::{NoMemory, Txt};
use std::alloc::Global;

/// What stands before the number.
pub const NUMBER: &str = "\"resourceVersion\":\"";

/// What stands between the number and the uid.
pub const BETWEEN: &str = "\",\"uid\":\"";

// The place of the brace that closes the metadata, and whether there is a field before it.
fn cut(text: &str) -> (usize, bool)
    requires { (x : ObjectView) × IsBare x text.now }
    ensures { (x : ObjectView) → IsBare x text.now → IsCut x text.now result.0 result.1 }
{
    let bytes = text.as_bytes();
    let Some((_, fields)) = bytes.split_first() else {
        unreachable!()
    };
    let inside = metadata_of(fields);
    let rest = ending(inside, false);
    (bytes.len() - rest.len(), rest.len() < inside.len())
}

// What stands before a field, where others do.
fn between_fields(some: bool) -> &'static str
    ensures { result.now ≡ (if some then comma ∷ [] else []) }
{
    if some { "," } else { "" }
}

/// The compact text of a document that has neither a resource version nor a uid, cut where they go: what stands before
/// their two fields, the comma before these, where other fields stand there, and what stands behind the last quote.
pub fn parts(text: &str) -> (&str, &'static str, &str)
    requires { (x : ObjectView) × IsBare x text.now }
    ensures parts { (x : ObjectView) → IsBare x text.now → AreParts x result.0.now result.1.now result.2.now }
    ensures lengths { (length result.0.now + length result.2.now ≡ length text.now) × (length result.1.now ≤ 1) }
{
    let (place, some) = cut(text);
    let (front, back) = text.split_at(place);
    (front, between_fields(some), back)
}

/// From the compact text of a document that has neither a resource version nor a uid, that of the same document with
/// both. They are texts that JSON spells as they stand.
pub fn numbered(alloc: Global, text: &str, number: &str, uid: &str) -> Result<Txt, NoMemory>
    requires bare { (x : ObjectView) × IsBare x text.now }
    requires number { flat_map escaped_byte number.now ≡ number.now }
    requires uid { flat_map escaped_byte uid.now ≡ uid.now }
    ensures { IfOk result (λ t. (x : ObjectView) → IsBare x text.now → t.bytes ≡ text_of (document (with_numbers number.now uid.now x))) }
{
    let (front, comma, back) = parts(text);
    let room = text
        .len()
        .saturating_add(number.len())
        .saturating_add(uid.len())
        .saturating_add(32);
    let mut whole = String::with_capacity(alloc, room)?;
    whole.push_str(front)?;
    whole.push_str(comma)?;
    whole.push_str(NUMBER)?;
    whole.push_str(number)?;
    whole.push_str(BETWEEN)?;
    whole.push_str(uid)?;
    whole.push_str("\"")?;
    whole.push_str(back)?;
    Ok(Txt::of_string(whole))
}
