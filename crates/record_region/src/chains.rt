//! Chains of chunks over the bytes of a region, by a link from each chunk to the next.
ghost use Rattle.std.specs.Prelude.{◌≡◌, ◌≢◌, ℕ, ◌+◌, ◌*◌, ◌<◌, ◌≤◌, ◌++◌, length, take, drop, vec_len};
ghost use Rattle.std.specs.Vec.{vec_capacity};
ghost use Rattle.record_region.specs.Chunks.{chunks_of as chunks_of_length};
ghost use Rattle.record_region.specs.Chains.{walk, chunk_at, content};

use crate::chunks::{CHUNK_BYTES, chunks_of};

// The chunk that so many links lead to.
pub(crate) fn follow(links: &[u32], steps: usize, first: u32) -> u32
    requires { (j : ℕ) → j < steps → walk links.now j first < length links.now }
    ensures { result ≡ walk links.now steps first }
{
    let mut chunk = first;
    for _step in 0..steps {
        chunk = links[chunk as usize];
    }
    chunk
}

// Writes bytes to the front of a chunk.
fn write(store: &mut [u8], chunk: usize, part: &[u8])
    requires within { CHUNK_BYTES * chunk + CHUNK_BYTES ≤ length store.old }
    requires fits { length part.now ≤ CHUNK_BYTES }
    ensures written { take (length part.now) (chunk_at store.new chunk) ≡ part.now }
    ensures others { (other : ℕ) → other ≢ chunk → chunk_at store.new other ≡ chunk_at store.old other }
{
    let start = chunk * CHUNK_BYTES;
    store[start..start + part.len()].copy_from_slice(part);
}

// Writes bytes to the chain from `first`, and answers the chunk behind those that they take.
pub(crate) fn fill(store: &mut [u8], links: &[u32], first: u32, bytes: &[u8]) -> u32
    requires linked { CHUNK_BYTES * length links.now ≤ length store.old }
    requires within { (j : ℕ) → j < chunks_of_length (length bytes.now) → walk links.now j first < length links.now }
    requires apart { (i j : ℕ) → i < j → j < chunks_of_length (length bytes.now) → walk links.now i first ≢ walk links.now j first }
    ensures next { result ≡ walk links.now (chunks_of_length (length bytes.now)) first }
    ensures filled { take (length bytes.now) (content store.new links.now (chunks_of_length (length bytes.now)) first) ≡ bytes.now }
    ensures others { (other : ℕ) → ((j : ℕ) → j < chunks_of_length (length bytes.now) → walk links.now j first ≢ other)
        → chunk_at store.new other ≡ chunk_at store.old other }
{
    let mut chunk = first;
    for step in 0..chunks_of(bytes.len()) {
        let start = step * CHUNK_BYTES;
        let end = bytes.len().min(start + CHUNK_BYTES);
        write(store, chunk as usize, &bytes[start..end]);
        chunk = links[chunk as usize];
    }
    chunk
}

// Appends the first bytes of the chain from `first`.
pub(crate) fn gather(store: &[u8], links: &[u32], first: u32, size: usize, out: &mut Vec<u8>)
    requires linked { CHUNK_BYTES * length links.now ≤ length store.now }
    requires within { (j : ℕ) → j < chunks_of_length size → walk links.now j first < length links.now }
    requires room { vec_len out.old + size ≤ vec_capacity out.old }
    ensures { out.new.items ≡ out.old.items ++ take size (content store.now links.now (chunks_of_length size) first) }
{
    let mut chunk = first;
    for step in 0..chunks_of(size) {
        let at = chunk as usize * CHUNK_BYTES;
        let part = (size - step * CHUNK_BYTES).min(CHUNK_BYTES);
        match out.extend_from_slice(&store[at..at + part]) {
            Ok(()) => {}
            Err(_) => unreachable!(),
        }
        chunk = links[chunk as usize];
    }
}
