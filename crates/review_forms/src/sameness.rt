//! Whether an object of a response is the one that was sent.
ghost use Rattle.std.specs.Prelude.{◌≡◌, option_map};
ghost use Rattle.kj_value.specs.Fields.{field};
ghost use Rattle.kj_value.specs.Seen.{json};
ghost use Rattle.object_reading.specs.Fields.{given};
ghost use Rattle.review_forms.specs.Form.{fields_of};
ghost use Rattle.review_forms.specs.Sameness.{same_there};
ghost use Rattle.review_forms.specs.Response.{is_same_object, meta_field};

use kj_value::{JVal, same};

/// Whether the two have one kind, name, namespace and uid.
pub(crate) fn is_same_object(object: &JVal, sent: &JVal) -> bool
    ensures { result ≡ is_same_object (json object.now) (json sent.now) }
{
    let kind = same_there(field_at(object, "kind"), field_at(sent, "kind"));
    let name = same_meta(object, sent, "name");
    let namespace = same_meta(object, sent, "namespace");
    let uid = same_meta(object, sent, "uid");
    kind && (name && (namespace && uid))
}

fn same_meta(object: &JVal, sent: &JVal, name: &str) -> bool
    ensures { result ≡ same_there (meta_field name.now (json object.now)) (meta_field name.now (json sent.now)) }
{
    same_there(meta_at(object, name), meta_at(sent, name))
}

fn same_there(a: Option<&JVal>, b: Option<&JVal>) -> bool
    ensures { result ≡ same_there (option_map (λ v. json v.now) a.entry) (option_map (λ v. json v.now) b.entry) }
{
    match (a, b) {
        (None, None) => true,
        (Some(a), Some(b)) => same(a, b),
        (None, Some(_)) => false,
        (Some(_), None) => false,
    }
}

fn field_at<'a>(object: &'a JVal, name: &str) -> Option<&'a JVal>
    ensures { option_map (λ v. json v.now) result ≡ field name.now (fields_of (json object.now)) }
{
    match object.as_object() {
        Some(fields) => fields.get(name),
        None => None,
    }
}

fn meta_at<'a>(object: &'a JVal, name: &str) -> Option<&'a JVal>
    ensures { option_map (λ v. json v.now) result ≡ meta_field name.now (json object.now) }
{
    match field_at(object, "metadata") {
        Some(metadata) => non_null(field_at(metadata, name)),
        None => None,
    }
}

fn non_null(value: Option<&JVal>) -> Option<&JVal>
    ensures { option_map (λ v. json v.now) result ≡ given (option_map (λ v. json v.now) value.entry) }
{
    match value {
        None => None,
        Some(JVal::Null) => None,
        Some(JVal::Bool(_)) => value,
        Some(JVal::Int(_)) => value,
        Some(JVal::Text(_)) => value,
        Some(JVal::List(_)) => value,
        Some(JVal::Obj(_)) => value,
    }
}
