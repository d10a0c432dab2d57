//! What a request is answered.
use kj_value::Txt;

/// What a request is answered: the status code of RFC 9110, and the JSON text of the body.
#[derive(Drop)]
pub struct Reply {
    pub code: u16,
    pub text: Txt,
}
