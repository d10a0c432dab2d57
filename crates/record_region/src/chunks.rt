//! The size of a chunk, and how many chunks some bytes take.
ghost use Rattle.std.specs.Prelude.{◌≡◌, ◌≤◌, ◌*◌};
ghost use Rattle.record_region.specs.Chunks.{chunks_of as chunks_of_length};

/// How many bytes a chunk has.
pub const CHUNK_BYTES: usize = 256;

/// How many chunks a piece of `length` bytes takes: those that its bytes fill or begin, and at least
/// one.
pub fn chunks_of(length: usize) -> usize
    ensures { result ≡ chunks_of_length length }
{
    length.saturating_sub(1) / CHUNK_BYTES + 1
}
