//! The whole of an input, as one document.
ghost use Rattle.std.specs.Prelude.{◌≡◌, ◌≤◌, ◌<◌, ◌++◌, ℕ, List, Some, length, IfOk, IfErr, OnOk};
ghost use Rattle.std.specs.Io.KnownBytes.{prepend_known, IsAtEnd};
ghost use Rattle.edge_io.specs.Causes.{Rose};
ghost use Rattle.kubeconv_cmd.specs.inner.Ends.{OnUnread};

use edge_io::Source;
use std::alloc::Global;

/// The longest document that is read of the input, in bytes.
pub const MOST_INPUT_BYTES: usize = 4_194_304;

// How many bytes are read at a time, at most.
const PIECE_BYTES: usize = 16_384;

/// Why the input isn't had.
#[derive(Drop)]
pub(crate) enum Unread {
    Failed,
    TooLong,
    NoMemory,
}

// Reads one more piece behind the bytes, and answers how many bytes it has.
fn read_piece<S: Source>(input: &mut S, bytes: &mut Vec<u8>) -> Result<usize, Unread>
    ensures more { IfOk result (λ n. (piece : List ℕ) × (length piece ≡ n) × (bytes.new.items ≡ bytes.old.items ++ piece)
        × (S.left input.old ≡ prepend_known piece (S.left input.new))) }
    ensures end { IfOk result (λ n. n ≡ 0 → IsAtEnd (S.left input.new)) }
    ensures later { S.faults input.old ≤ S.faults input.new }
    ensures fault { IfErr result (OnUnread (Rose (S.faults input.old) (S.faults input.new)) ⊥) }
{
    let mut piece = [0; PIECE_BYTES];
    match input.read(&mut piece) {
        Ok(count) => match bytes.extend_from_slice(&piece[..count]) {
            Ok(()) => Ok(count),
            Err(_) => Err(Unread::NoMemory),
        },
        Err(_) => Err(Unread::Failed),
    }
}

/// All bytes of the input, up to `MOST_INPUT_BYTES`.
pub(crate) fn read_input<S: Source>(alloc: Global, input: &mut S) -> Result<Vec<u8>, Unread>
    ensures whole { (b : List ℕ) → S.left input.old ≡ Some b → IfOk result (λ bytes. bytes.items ≡ b) }
    ensures short { IfOk result (λ bytes. length bytes.items ≤ MOST_INPUT_BYTES) }
    ensures end { OnOk result (IsAtEnd (S.left input.new)) }
    ensures fault { (b : List ℕ) → S.left input.old ≡ Some b
        → IfErr result (OnUnread (Rose (S.faults input.old) (S.faults input.new)) (MOST_INPUT_BYTES < length b)) }
    ensures cause { IfErr result (OnUnread (Rose (S.faults input.old) (S.faults input.new)) (Unit {0})) }
{
    let mut bytes = Vec::new(alloc);
    while bytes.len() <= MOST_INPUT_BYTES {
        match read_piece(input, &mut bytes) {
            Ok(count) => {
                if count == 0 {
                    return Ok(bytes);
                }
            }
            Err(fault) => return Err(fault),
        }
    }
    Err(Unread::TooLong)
}
