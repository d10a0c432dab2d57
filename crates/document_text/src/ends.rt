//! Where a value of a compact text ends.
ghost use Rattle.std.specs.Prelude.{◌≡◌, ◌≤◌, ℕ, Bool, length, drop};
ghost use Rattle.document_text.specs.inner.Ending.{ending, in_text, is_end, is_closing, is_opening};

fn is_opening(x: u8) -> bool
    ensures { result ≡ is_opening x }
{
    x == b'{' || x == b'['
}

fn is_closing(x: u8) -> bool
    ensures { result ≡ is_closing x }
{
    x == b'}' || x == b']'
}

// Whether the value that a place is inside of ends at this byte.
fn is_end(commas: bool, x: u8) -> bool
    ensures { result ≡ is_end commas x }
{
    is_closing(x) || (commas && x == b',')
}

/// The bytes from the place on at which the list or the object ends whose inside begins here, or, with `commas`, its first
/// item or field. Nothing where the text ends before.
pub(crate) fn ending(bytes: &[u8], commas: bool) -> &[u8]
    ensures { result.now ≡ ending commas 0 bytes.now }
{
    let mut level: usize = 0;
    let mut i = 0;
    while i < bytes.len() {
        let x = bytes[i];
        if x == b'"' {
            i = behind_text(bytes, i + 1);
        } else {
            if is_opening(x) {
                level += 1;
            } else if level == 0 {
                if is_end(commas, x) {
                    return &bytes[i..];
                }
            } else if is_closing(x) {
                level -= 1;
            }
            i += 1;
        }
    }
    &[]
}

// The place behind the quote that ends the text that a place is inside of, or behind the last byte where none ends it.
fn behind_text(bytes: &[u8], from: usize) -> usize
    requires { from ≤ length bytes.now }
    ensures later { from ≤ result }
    ensures within { result ≤ length bytes.now }
    ensures same { (commas : Bool) (level : ℕ) → in_text commas level (drop from bytes.now) ≡ ending commas level (drop result bytes.now) }
{
    let mut i = from;
    while i < bytes.len() {
        let x = bytes[i];
        if x == b'"' {
            return i + 1;
        }
        i += 1;
        if x == b'\\' && i < bytes.len() {
            i += 1;
        }
    }
    i
}
