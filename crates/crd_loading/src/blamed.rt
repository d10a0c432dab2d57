//! What is refused, with its path.
ghost use Rattle.std.specs.Prelude.{◌≡◌, IfOk};
ghost use Rattle.crd_loading.specs.Blame.{blame};
ghost use Rattle.crd_loading.specs.Told.{blame_of};

use kj_value::{NoMemory, Txt};
use std::alloc::Global;

// What is refused: its path and a word.
#[derive(Drop)]
pub(crate) struct Blamed {
    pub(crate) path: Txt,
    pub(crate) word: Txt,
}

pub(crate) fn blame(alloc: Global, path: Txt, word: &str) -> Result<Blamed, NoMemory>
    ensures { IfOk result (λ b. blame_of b ≡ blame path.bytes word.now) }
{
    let word = Txt::of(alloc, word)?;
    Ok(Blamed { path, word })
}
