//! Fields of a document, looked at before its object is read.
ghost use Rattle.std.specs.Prelude.{◌≡◌, option_map};
ghost use Rattle.std.specs.Str.{bytes_eq};
ghost use Rattle.kj_value.specs.Fields.{field};
ghost use Rattle.kj_value.specs.Seen.{json};
ghost use Rattle.object_reading.specs.Fields.{given};
ghost use Rattle.object_reading.specs.Refusal.{is_given_text};
ghost use Rattle.object_reading.specs.Rules.{keeps, is_text as is_text_value};
ghost use Rattle.crd_meaning.specs.Request.{meta_fields};

use kj_value::{JFields, JVal};
use object_reading::given;

/// The value at a name of the metadata, where it isn't null.
#[tactic(auto, using(kj_value::specs::KindLaws::pairs_members))]
pub(crate) fn in_metadata<'a>(fields: &'a JFields, name: &str) -> Option<&'a JVal>
    ensures { option_map (λ v. json v.now) result ≡ given (field name.now (meta_fields fields.entry.now)) }
{
    match fields.get("metadata") {
        Some(JVal::Obj(metadata)) => given(metadata, name),
        _ => None,
    }
}

/// Whether the value is there and is this text.
pub(crate) fn is_text(value: Option<&JVal>, text: &str) -> bool
    ensures { result ≡ is_given_text (λ s. bytes_eq s text.now) (option_map (λ v. json v.now) value.entry) }
{
    match value {
        Some(JVal::Text(t)) => t.as_str() == text,
        _ => false,
    }
}

/// Whether the value isn't there, or is this text.
pub(crate) fn is_absent_or(value: Option<&JVal>, text: &str) -> bool
    ensures { result ≡ keeps (is_text_value (λ s. bytes_eq s text.now)) (option_map (λ v. json v.now) value.entry) }
{
    match value {
        None => true,
        Some(JVal::Text(t)) => t.as_str() == text,
        _ => false,
    }
}
