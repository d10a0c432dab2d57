//! What a refusal says.
ghost use Rattle.std.specs.Prelude.{◌≡◌, Some};
ghost use Rattle.kj_value.specs.Seen.{json};
ghost use Rattle.wire_client.specs.Answers.{has_details as has_details_of};
ghost use Rattle.wire_client.specs.inner.Seen.{value_of};

use crate::fields::has_field;
use kj_value::JVal;

/// Whether the body is an object that has details.
pub(crate) fn has_details(body: &Option<JVal>) -> bool
    ensures { result ≡ has_details_of (value_of body.now) }
{
    match body {
        Some(value) => is_detailed(value),
        None => false,
    }
}

fn is_detailed(value: &JVal) -> bool
    ensures { result ≡ has_details_of (Some (json value.now)) }
{
    match value.as_object() {
        Some(fields) => has_field(fields, "details"),
        None => false,
    }
}
