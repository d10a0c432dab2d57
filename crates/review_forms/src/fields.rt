//! What stands at a name of an object, looked at and taken out.
ghost use Rattle.std.specs.Prelude.{◌≡◌, false, option_map, MatchOption};
ghost use Rattle.kj_value.specs.Fields.{field, without_field};
ghost use Rattle.kj_value.specs.Seen.{json};
ghost use Rattle.object_reading.specs.Refusal.{is_given_text};
ghost use Rattle.review_forms.specs.Form.{text_in, list_in, object_in, has_text, is_filled};
ghost use Rattle.review_forms.specs.Seen.{HasFilled};

use kj_value::{JFields, JItems, JVal};

/// The text at the name.
pub(crate) fn text_at<'a>(fields: &'a JFields, name: &str) -> Option<&'a str>
    ensures { option_map (λ s. s.now) result ≡ text_in (field name.now fields.now) }
{
    match fields.get(name) {
        Some(value) => value.as_text(),
        None => None,
    }
}

/// Whether this very text stands at the name.
pub(crate) fn has_text(fields: &JFields, name: &str, wanted: &str) -> bool
    ensures { result ≡ has_text wanted.now (field name.now fields.now) }
{
    match fields.get(name) {
        Some(JVal::Text(text)) => text.as_str() == wanted,
        None => false,
        Some(JVal::Null) => false,
        Some(JVal::Bool(_)) => false,
        Some(JVal::Int(_)) => false,
        Some(JVal::List(_)) => false,
        Some(JVal::Obj(_)) => false,
    }
}

/// The text at the name, where it isn't empty.
pub(crate) fn filled_text_at<'a>(fields: &'a JFields, name: &str) -> Option<&'a str>
    ensures { MatchOption result (is_given_text is_filled (field name.now fields.now) ≡ false)
        (λ s. HasFilled (field name.now fields.now) s.now) }
{
    let Some(text) = text_at(fields, name) else {
        return None;
    };
    if text.is_empty() {
        return None;
    }
    Some(text)
}

/// The object at the name.
pub(crate) fn object_at<'a>(fields: &'a JFields, name: &str) -> Option<&'a JFields>
    ensures { option_map (λ fs. fs.now) result ≡ object_in (field name.now fields.now) }
{
    match fields.get(name) {
        Some(value) => value.as_object(),
        None => None,
    }
}

/// The object at the name, moved out.
pub(crate) fn take_object(fields: JFields, name: &str) -> Option<JFields>
    ensures { result ≡ object_in (field name.now fields) }
{
    let mut rest = fields;
    match rest.remove(name) {
        Some(value) => value.into_object(),
        None => None,
    }
}

/// The list at the name, moved out.
pub(crate) fn take_list(fields: JFields, name: &str) -> Option<JItems>
    ensures { result ≡ list_in (field name.now fields) }
{
    let mut rest = fields;
    match rest.remove(name) {
        Some(value) => value.into_list(),
        None => None,
    }
}
