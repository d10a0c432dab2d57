//! Regions of few chunks: the ends of a chunk, a full region, and chunks that are taken again.
ghost use Rattle.std.specs.Prelude.{◌≡◌, ◌+◌, ◌<◌, ◌≤◌, ◌^◌, ℕ, Some, None, IfSome, IsTrue, length, replicate, slice_set, vec_len};
ghost use Rattle.record_region.specs.Places.{IsLive, piece_at};

use record_region::{Piece, Region, RegionFull};
use std::alloc::Global;

// So many bytes, of which neighbours in two chunks differ.
fn numbered(alloc: Global, count: usize) -> Option<Vec<u8>>
    requires { count ≤ 1024 }
    ensures { IfSome result (λ bytes. vec_len bytes ≤ 1024) }
{
    let mut bytes = Vec::new(alloc);
    for place in 0..count {
        let Ok(()) = bytes.push((place % 251) as u8) else {
            return None;
        };
    }
    Some(bytes)
}

// So many chunks.
fn opened(alloc: Global, chunks: u32) -> Option<Region>
    ensures { IfSome result (λ region. region ≡ replicate chunks None) }
{
    match Region::open(alloc, chunks) {
        Ok(region) => Some(region),
        Err(_) => None,
    }
}

// A piece, where there is room for it.
fn taken(region: &mut Region, bytes: &[u8]) -> Option<Piece>
    requires { length bytes.now ≤ 1024 }
    ensures unused { IfSome result (λ piece. piece_at region.old piece ≡ None) }
    ensures within { IfSome result (λ piece. piece < length region.old) }
    ensures put { IfSome result (λ piece. region.new ≡ slice_set region.old piece (Some bytes.now)) }
{
    match region.put(bytes) {
        Ok(piece) => Some(piece),
        Err(_) => None,
    }
}

fn reads(alloc: Global, region: &Region, piece: &Piece, bytes: &[u8]) -> bool
    requires { IsLive region.now piece.now }
{
    let Ok(mut out) = Vec::with_capacity(alloc, region.length_of(piece)) else {
        return false;
    };
    region.get(piece, &mut out);
    out.as_slice() == bytes
}

fn spares(region: &Region, free: u32) -> bool {
    region.spare() == free
}

// Whether a piece is refused, and nothing else changed.
fn refused(region: &mut Region, bytes: &[u8], need: u32, free: u32) -> bool
    requires { length bytes.now ≤ 1024 }
    ensures { IsTrue result → region.new ≡ region.old }
{
    match region.put(bytes) {
        Ok(_piece) => false,
        Err(full) => full == RegionFull { need, free } && region.spare() == free,
    }
}

pub(crate) fn one_chunk(alloc: Global) -> Option<bool> {
    let Some(mut region) = opened(alloc, 1) else {
        return None;
    };
    let Some(long) = numbered(alloc, 257) else {
        return None;
    };
    let one = refused(&mut region, &long, 2, 1);
    let Some(piece) = taken(&mut region, b"") else {
        return None;
    };
    let two = reads(alloc, &region, &piece, b"");
    let three = refused(&mut region, b"", 1, 0);
    Some(one && two && three)
}

pub(crate) fn ends_of_a_chunk(alloc: Global) -> Option<bool> {
    let Some(mut region) = opened(alloc, 3) else {
        return None;
    };
    let Some(whole) = numbered(alloc, 256) else {
        return None;
    };
    let Some(longer) = numbered(alloc, 257) else {
        return None;
    };
    let Some(first) = taken(&mut region, &whole) else {
        return None;
    };
    let two = spares(&region, 2);
    let Some(second) = taken(&mut region, &longer) else {
        return None;
    };
    let none = spares(&region, 0);
    let one = reads(alloc, &region, &first, &whole);
    let other = reads(alloc, &region, &second, &longer);
    Some(two && none && one && other)
}

// Takes a piece that fills a region of four chunks which are free again.
fn fills_again(alloc: Global, region: &mut Region) -> Option<bool> {
    let Some(all) = numbered(alloc, 1024) else {
        return None;
    };
    let four = spares(region, 4);
    let Some(again) = taken(region, &all) else {
        return None;
    };
    let same = reads(alloc, region, &again, &all);
    Some(four && same && spares(region, 0))
}

pub(crate) fn taken_again(alloc: Global) -> Option<bool> {
    let Some(mut region) = opened(alloc, 4) else {
        return None;
    };
    let Some(longer) = numbered(alloc, 257) else {
        return None;
    };
    let Some(first) = taken(&mut region, b"one") else {
        return None;
    };
    let Some(second) = taken(&mut region, &longer) else {
        return None;
    };
    let Some(third) = taken(&mut region, b"three") else {
        return None;
    };
    if !refused(&mut region, b"", 1, 0) {
        return Some(false);
    }
    let one = reads(alloc, &region, &third, b"three");
    region.free(second);
    let two = reads(alloc, &region, &first, b"one");
    region.free(first);
    let three = reads(alloc, &region, &third, b"three");
    region.free(third);
    match fills_again(alloc, &mut region) {
        Some(again) => Some(one && two && three && again),
        None => None,
    }
}
