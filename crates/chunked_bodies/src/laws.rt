//! The limit, which no edit of a constant can turn, and that bytes are one response.
ghost use Rattle.std.specs.Prelude.{◌≡◌, ℕ, List};
ghost use Rattle.chunked_bodies.specs.Response.{ChunkedResponse, ReadsChunked, HandsOn};

use crate::MOST_FIELDS;

/// Bytes have one chunked response at their front at most.
pub fn one_response()
    ensures { (bytes : List ℕ) (r q : ChunkedResponse) (rest tail : List ℕ)
        → ReadsChunked bytes r rest → ReadsChunked bytes q tail → (r ≡ q) × (rest ≡ tail) }
{}

/// So what is handed on of bytes is one.
pub fn one_answer()
    ensures { (bytes a b : List ℕ) → HandsOn bytes a → HandsOn bytes b → a ≡ b }
{}

/// A head and a body's trailers have at most 64 fields.
pub fn number()
    ensures { MOST_FIELDS ≡ 64 }
{}
