//! A region: its bytes, the links of its chunks, and where pieces begin.
ghost use Rattle.std.specs.Prelude.{◌≡◌, ◌↔◌, ℕ, ◌+◌, ◌<◌, ◌^◌, ◌≤◌, ◌++◌, length, Some, None, IsErr, IfOk, IfErr, OnErr, replicate, slice_index, slice_set, vec_len};
ghost use Rattle.std.specs.Vec.{vec_capacity};
ghost use Rattle.record_region.specs.Chunks.{chunks_of as chunks_of_length};
ghost use Rattle.record_region.specs.Places.{piece_at, bytes_at, IsLive, spare, used};

use crate::chains::{fill, follow, gather};
use crate::chunks::{CHUNK_BYTES, chunks_of};
use crate::piece::{Piece, RegionFull};
use kj_value::NoMemory;
use std::alloc::Global;
use std::marker::Model;

/// A region of chunks. It takes its memory when it is opened, and none later.
pub struct Region {
    store: Vec<u8>,
    // The chunk that follows a chunk in its chain.
    links: Vec<u32>,
    // One more than the length of the piece that begins at a chunk, or 0.
    marks: Vec<usize>,
    // The first free chunk, and how many are free: the chain from it has so many.
    head: u32,
    free: u32,
}

impl Drop for Region {
    fn drop(self) {
        let Region {
            store: _,
            links: _,
            marks: _,
            head: _,
            free: _,
        } = self;
    }
}

impl Model for Region {
    ghost use Rattle.record_region.specs.Places.{Places};
    ghost use Rattle.record_region.specs.Chains.{places_from, IsSoundRegion};

    ghost Value = { Places };

    ghost view = { λ r. places_from r.store.items r.links.items 0 r.marks.items };

    ghost invariant = { λ r. IsSoundRegion r.store.items r.links.items r.marks.items r.head r.free };
}

impl Region {
    /// A region of so many chunks of `CHUNK_BYTES` bytes, all free. `NoMemory` comes where the allocator
    /// has no room for them and 12 bytes more for each.
    pub fn open(alloc: Global, chunks: u32) -> Result<Region, NoMemory>
        ensures { IfOk result (λ region. region ≡ replicate chunks None) }
    {
        let count = chunks as usize;
        let store = vec![in alloc; 0u8; count * CHUNK_BYTES]?;
        let marks = vec![in alloc; 0usize; count]?;
        let links = in_order(alloc, chunks)?;
        Ok(Region {
            store,
            links,
            marks,
            head: 0,
            free: chunks,
        })
    }

    /// Puts a piece with these bytes into free chunks, any that are free. The bytes take fewer than
    /// 2^32 chunks. Exactly where they take more than are free it answers `RegionFull`, and the region
    /// stays as it was.
    pub fn put(&mut self, bytes: &[u8]) -> Result<Piece, RegionFull>
        requires few { chunks_of_length (length bytes.now) < 2 ^ 32 }
        ensures full { IsErr result ↔ (spare self.old < chunks_of_length (length bytes.now)) }
        ensures numbers { IfErr result (λ e. e ≡ record { need = chunks_of_length (length bytes.now); free = spare self.old }) }
        ensures refused { OnErr result (self.new ≡ self.old) }
        ensures within { IfOk result (λ piece. piece < length self.old) }
        ensures unused { IfOk result (λ piece. piece_at self.old piece ≡ None) }
        ensures put { IfOk result (λ piece. self.new ≡ slice_set self.old piece (Some bytes.now)) }
    {
        let need = chunks_of(bytes.len()) as u32;
        if self.free < need {
            return Err(RegionFull {
                need,
                free: self.free,
            });
        }
        let first = self.head;
        self.head = fill(&mut self.store, &self.links, first, bytes);
        self.marks[first as usize] = bytes.len() + 1;
        self.free -= need;
        Ok(Piece { first })
    }

    /// How many bytes a live piece has.
    pub fn length_of(&self, piece: &Piece) -> usize
        requires live { IsLive self.now piece.now }
        ensures { result ≡ length (bytes_at self.now piece.now) }
    {
        self.marks[piece.first as usize] - 1
    }

    /// Appends the bytes of a live piece to `out`, which has room for them.
    pub fn get(&self, piece: &Piece, out: &mut Vec<u8>)
        requires live { IsLive self.now piece.now }
        requires room { vec_len out.old + length (bytes_at self.now piece.now) ≤ vec_capacity out.old }
        ensures { out.new.items ≡ out.old.items ++ bytes_at self.now piece.now }
    {
        let size = self.length_of(piece);
        gather(&self.store, &self.links, piece.first, size, out);
    }

    /// Frees the chunks of a live piece. Every other piece stays as it is.
    pub fn free(&mut self, piece: Piece)
        requires live { IsLive self.old piece }
        ensures { self.new ≡ slice_set self.old piece None }
    {
        let count = chunks_of(self.length_of(&piece));
        let first = piece.first;
        let last = follow(&self.links, count - 1, first);
        self.links[last as usize] = self.head;
        self.marks[first as usize] = 0;
        self.head = first;
        self.free += count as u32;
    }

    /// How many chunks are free.
    pub fn spare(&self) -> u32
        ensures spare { result ≡ spare self.now }
        ensures within { used self.now ≤ length self.now }
    {
        self.free
    }
}

// A link from each chunk to the one behind it.
fn in_order(alloc: Global, chunks: u32) -> Result<Vec<u32>, NoMemory>
    ensures count { IfOk result (λ links. length links.items ≡ chunks) }
    ensures order { IfOk result (λ links. (k : ℕ) → k < chunks → slice_index links.items k ≡ k + 1) }
{
    let mut links = Vec::with_capacity(alloc, chunks as usize)?;
    for chunk in 0..chunks {
        links.push(chunk + 1)?;
    }
    Ok(links)
}
