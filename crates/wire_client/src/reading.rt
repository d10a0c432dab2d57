//! What an object of an answer tells of itself.
ghost use Rattle.std.specs.Prelude.{◌≡◌, ◌≤◌, length, IfOk, unwrap_or, option_copied};
ghost use Rattle.kj_value.specs.Seen.{json};
ghost use Rattle.object_reading.specs.Fields.{text_at};
ghost use Rattle.wire_client.specs.Forms.{fields_of, meta_field, key_in, number_in};
ghost use Rattle.wire_client.specs.Keys.{texts_key};

use crate::fields::meta_text;
use kj_value::JVal;

/// The namespace and the name of an object, lent.
#[derive(Clone, Copy, Drop)]
pub struct KeyTexts<'a> {
    pub ns: &'a str,
    pub name: &'a str,
}

/// The namespace and the name that the object tells: empty where it tells none.
pub fn key_texts(object: &JVal) -> KeyTexts<'_>
    ensures { texts_key result ≡ key_in (fields_of (json object.now)) }
{
    KeyTexts {
        ns: meta_text(object, "namespace"),
        name: meta_text(object, "name"),
    }
}

/// The text of the number that the object tells: empty where it tells none.
pub fn number_text(object: &JVal) -> &str
    ensures { result.now ≡ number_in (fields_of (json object.now)) }
{
    meta_text(object, "resourceVersion")
}
