//! Where the lines of a head stand.
ghost use Rattle.std.specs.Prelude.{◌≡◌, ◌≤◌, ◌+◌, ◌∷◌, ◌++◌, [], List, ℕ, length, drop};
ghost use Rattle.httparse.specs.Ascii.{line_feed};
ghost use Rattle.httparse.specs.Grammar.{ResponseHead, ReadsResponse};
ghost use Rattle.chunked_bodies.specs.inner.Walk.{IsInLine, before_field};

/// Where the line that begins there ends, behind its line feed.
pub(crate) fn line_end(bytes: &[u8], from: usize) -> usize
    requires { from ≤ length bytes.now }
    ensures within { (from ≤ result) × (result ≤ length bytes.now) }
    ensures line { (line more : List ℕ) → drop from bytes.now ≡ line ++ line_feed ∷ more → IsInLine line → result ≡ from + (length line + 1) }
{
    for i in from..bytes.len() {
        if bytes[i] == b'\n' {
            return i + 1;
        }
    }
    bytes.len()
}

/// Where the field of that place stands in a head that begins with its status line.
pub(crate) fn field_line(bytes: &[u8], place: usize) -> usize
    ensures within { result ≤ length bytes.now }
    ensures line { (h : ResponseHead) (after : List ℕ) → ReadsResponse bytes.now h after → h.blank ≡ [] → place ≤ length h.fields
        → result ≡ length (before_field h place) }
{
    let mut at = line_end(bytes, 0);
    for _passed in 0..place {
        at = line_end(bytes, at);
    }
    at
}
