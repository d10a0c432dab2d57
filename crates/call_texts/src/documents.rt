//! Objects as texts.
ghost use Rattle.std.specs.Prelude.{◌≡◌, ◌<◌, IfOk, IsUtf8};
ghost use Rattle.kube_meta.specs.View.{object_of};
ghost use Rattle.api_calls.specs.Meaning.{stored_text as stored_text_of};
ghost use Rattle.api_calls.specs.Documents.{reply_text as reply_text_of};

use api_calls::{BORN_END, uid_of};
use document_text::write_document;
use itoa::Buffer;
use kj_value::{NoMemory, Txt};
use kube_meta::Object;
use std::alloc::Global;

/// The text in which an object is stored: it has no number and no uid.
pub fn stored_text(alloc: Global, object: &Object) -> Result<Txt, NoMemory>
    ensures text { IfOk result (λ t. t.bytes ≡ stored_text_of (object_of object.now)) }
    ensures utf8 { IfOk result (λ t. IsUtf8 t.bytes) }
{
    let text = write_document(alloc, object, None, None)?;
    let _ = text.as_str();
    Ok(text)
}

/// The text in which an object is shown: with its number, and the uid of the server's start and the object's creation.
pub fn reply_text(
    alloc: Global,
    boot: u64,
    number: u64,
    born: u64,
    object: &Object,
) -> Result<Txt, NoMemory>
    requires { born < BORN_END }
    ensures { IfOk result (λ t. t.bytes ≡ reply_text_of boot number born (object_of object.now)) }
{
    let uid = uid_of(alloc, boot, born)?;
    let mut buffer = Buffer::new();
    write_document(
        alloc,
        object,
        Some(buffer.format(number)),
        Some(uid.as_str()),
    )
}
