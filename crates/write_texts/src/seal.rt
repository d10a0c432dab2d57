//! The text of a reply that is ready before a commit: but for the number and the uid, which the commit tells.
ghost use Rattle.std.specs.Prelude.{◌≡◌, ◌+◌, ◌<◌, ◌≤◌, IfOk, IsUtf8, length};
ghost use Rattle.kube_meta.specs.View.{ObjectView, object_of};
ghost use Rattle.document_text.specs.Numbered.{IsBare};
ghost use Rattle.api_calls.specs.Meaning.{stored_text};
ghost use Rattle.write_texts.specs.Sealed.{IsSealed, opened};

use api_calls::{BORN_END, uid_into};
use document_text::{BETWEEN, NUMBER, parts, write_document};
use itoa::Buffer;
use kj_value::{NoMemory, Txt};
use kube_meta::Object;
use std::alloc::Global;

/// A text that shows an object, cut where the number and the uid go. The front has room for the whole.
#[derive(Drop)]
pub struct Sealed {
    pub front: Txt,
    pub back: Txt,
}

impl Sealed {
    /// The whole text, with this number, and the uid of the server's start and the object's creation. It takes no memory.
    pub fn open(self, boot: u64, number: u64, born: u64) -> Txt
        requires born { born < BORN_END }
        requires room { 65 + length self.back.bytes ≤ self.front.room }
        ensures { result.bytes ≡ opened self boot number born }
    {
        let Sealed { mut front, back } = self;
        let mut buffer = Buffer::new();
        front.add(buffer.format(number));
        front.add(BETWEEN);
        uid_into(boot, born, &mut front);
        front.add(back.as_str());
        front
    }
}

// The text that shows a document, but for its number and its uid, by its text without them. It is as long as that one, but
// for the names of the two, and is copied once.
fn seal_text(alloc: Global, text: &str) -> Result<Sealed, NoMemory>
    requires { (x : ObjectView) × IsBare x text.now }
    ensures { IfOk result (λ s. (x : ObjectView) → IsBare x text.now → IsSealed x s) }
{
    let (known, comma, rest) = parts(text);
    // a comma, the name of the number, and what the number, the uid and what stands between them take at most, with a quote
    let mut front = Txt::with_room(alloc, (text.len() + 86) as u64)?;
    front.add(known);
    front.add(comma);
    front.add(NUMBER);
    let mut back = String::with_capacity(alloc, rest.len() + 1)?;
    back.push_str("\"")?;
    back.push_str(rest)?;
    Ok(Sealed {
        front,
        back: Txt::of_string(back),
    })
}

/// The text in which an object is stored, which has neither number nor uid, and the text that shows it, but for these.
pub fn both(alloc: Global, form: &Object) -> Result<(Txt, Sealed), NoMemory>
    ensures stored { IfOk result (λ r. r.0.bytes ≡ stored_text (object_of form.now)) }
    ensures utf8 { IfOk result (λ r. IsUtf8 r.0.bytes) }
    ensures seals { IfOk result (λ r. IsSealed (object_of form.now) r.1) }
{
    let text = write_document(alloc, form, None, None)?;
    let sealed = seal_text(alloc, text.as_str())?;
    Ok((text, sealed))
}

/// The text that shows an object, but for its number and its uid.
pub fn seal(alloc: Global, form: &Object) -> Result<Sealed, NoMemory>
    ensures { IfOk result (λ s. IsSealed (object_of form.now) s) }
{
    let (_, sealed) = both(alloc, form)?;
    Ok(sealed)
}
