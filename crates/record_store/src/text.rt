//! Copies of the texts that a region holds.
ghost use Rattle.std.specs.Prelude.{◌≡◌, IfOk, IsUtf8};
ghost use Rattle.record_region.specs.Places.{bytes_at, IsLive};

use kj_value::{NoMemory, Txt};
use record_region::{Piece, Region};
use std::alloc::Global;

/// A copy of the text of a live piece.
pub(crate) fn copy_text(alloc: Global, region: &Region, piece: &Piece) -> Result<Txt, NoMemory>
    requires live { IsLive region.now piece.now }
    requires text { IsUtf8 (bytes_at region.now piece.now) }
    ensures { IfOk result (λ t. t.bytes ≡ bytes_at region.now piece.now) }
{
    let mut out = Vec::with_capacity(alloc, region.length_of(piece))?;
    region.get(piece, &mut out);
    let text = unsafe { String::from_utf8_unchecked(out) };
    Ok(Txt::of_string(text))
}
