//! What is refused, with its path as it is built on the way out.
ghost use Rattle.std.specs.Prelude.{◌≡◌, ◌++◌, IfOk};
ghost use Rattle.struct_schema.specs.Path.{point};
ghost use Rattle.crd_reading.specs.Refusal.{refused_here, out_of_name, out_of_item};
ghost use Rattle.crd_reading.specs.Told.{found_of};

use kj_value::{NoMemory, Txt};
use std::alloc::Global;
use struct_schema::{item_step, step_before};

// What is refused: its path, whether that begins with a name, and the word.
#[derive(Drop)]
pub(crate) struct Found {
    pub(crate) path: Txt,
    pub(crate) named: bool,
    pub(crate) word: Txt,
}

// The value itself.
pub(crate) fn refused_here(alloc: Global, word: &str) -> Result<Found, NoMemory>
    ensures { IfOk result (λ f. found_of f ≡ refused_here word.now) }
{
    Ok(Found {
        path: Txt::of_string(String::new(alloc)),
        named: false,
        word: Txt::of(alloc, word)?,
    })
}

fn stepped(alloc: Global, step: &str, named: bool, inner: Found) -> Result<Found, NoMemory>
    ensures path { IfOk result (λ f. f.path.bytes
        ≡ step.now ++ point inner.named ++ inner.path.bytes) }
    ensures named { IfOk result (λ f. f.named ≡ named) }
    ensures word { IfOk result (λ f. f.word.bytes ≡ inner.word.bytes) }
{
    let path = step_before(alloc, step, inner.named, inner.path.as_str())?;
    Ok(Found {
        path,
        named,
        word: inner.word,
    })
}

// One name further out.
pub(crate) fn in_name(alloc: Global, name: &str, inner: Found) -> Result<Found, NoMemory>
    ensures { IfOk result (λ f. found_of f ≡ out_of_name name.now (found_of inner)) }
{
    stepped(alloc, name, true, inner)
}

// One list further out.
pub(crate) fn in_item(alloc: Global, i: usize, inner: Found) -> Result<Found, NoMemory>
    ensures { IfOk result (λ f. found_of f ≡ out_of_item i (found_of inner)) }
{
    let step = item_step(alloc, i)?;
    stepped(alloc, step.as_str(), false, inner)
}
