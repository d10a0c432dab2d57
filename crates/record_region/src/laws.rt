//! What holds of every list of calls, and the number of a chunk's bytes, which no edit of the constant can turn. The
//! functions do nothing, and their clauses are the laws.
ghost use Rattle.std.specs.Prelude.{◌≡◌, ◌≢◌, ◌+◌, ◌<◌, ℕ, List, None, get_or};
ghost use Rattle.record_region.specs.Chains.{IsSoundRegion, chain_length, walk};
ghost use Rattle.record_region.specs.Places.{piece_at, spare, used};
ghost use Rattle.record_region.specs.Runs.{AnswersAll, Call, called_all, opened, put_last};

use crate::chunks::CHUNK_BYTES;

/// A chunk has 256 bytes.
pub fn numbers()
    ensures chunk { CHUNK_BYTES ≡ 256 }
{}

/// However pieces are put into a region and freed, from its opening on: at each chunk begins the piece
/// whose bytes were last put there and not freed since, and the chunks that are spare are all but those
/// of the live pieces.
pub fn every_list()
    ensures bytes { (chunks : ℕ) (calls : List Call) → AnswersAll (opened chunks) calls
        → (chunk : ℕ) → piece_at (called_all (opened chunks) calls) chunk ≡ put_last chunk None calls }
    ensures counted { (chunks : ℕ) (calls : List Call) → AnswersAll (opened chunks) calls
        → spare (called_all (opened chunks) calls) + used (called_all (opened chunks) calls) ≡ chunks }
{}

/// Two pieces share no chunk: in a region that is as every region is (`IsSoundRegion`, the invariant of `Region`), the chunk to
/// which so many links lead from where one piece begins is that of another piece, or of another place of the same one, for no
/// two. Nor is it one that is free.
pub fn apart()
    ensures pieces { (store links marks : List ℕ) (head free : ℕ) → IsSoundRegion store links marks head free
        → (first other j k : ℕ) → j < chain_length (get_or marks first 0) → k < chain_length (get_or marks other 0)
        → walk links j first ≡ walk links k other → (first ≡ other) × (j ≡ k) }
    ensures spare { (store links marks : List ℕ) (head free : ℕ) → IsSoundRegion store links marks head free
        → (first j k : ℕ) → j < chain_length (get_or marks first 0) → k < free → walk links j first ≢ walk links k head }
{}
