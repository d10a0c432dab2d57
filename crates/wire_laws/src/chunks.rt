//! That what is handed on of a response in chunks is read as that response: with its code, and the bytes of its chunks as its body.
//!
//! It is a law, a function that does nothing and whose clause is the law, about the words of `chunked_bodies` and `http_wire`.
ghost use Rattle.std.specs.Prelude.{◌≤◌, ℕ, List, [], length};
ghost use Rattle.httparse.specs.Grammar.{print_response, status_code};
ghost use Rattle.http_wire.specs.declared.limits.TheConstants.{MOST_BODY_BYTES, MOST_HEAD_BYTES};
ghost use Rattle.http_wire.specs.Received.{Receives};
ghost use Rattle.chunked_bodies.specs.Chunks.{content};
ghost use Rattle.chunked_bodies.specs.Response.{ChunkedResponse, ReadsChunked, head_with_length, with_length};

/// A chunked response that is handed on with its length is read as one of its code and of its chunks' bytes, where its head and its body
/// are within the limits of what is read.
pub fn joined_is_read()
    ensures { (bytes rest : List ℕ) (r : ChunkedResponse) → ReadsChunked bytes r rest
        → length (print_response (head_with_length r.head r.coding (length (content r.body)))) ≤ MOST_HEAD_BYTES
        → length (content r.body) ≤ MOST_BODY_BYTES
        → Receives (with_length r) (record { code = status_code r.head; body = content r.body }) [] }
{}
