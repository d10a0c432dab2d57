//! Where a head may end: at an empty line behind a line that isn't empty.
ghost use Rattle.std.specs.Prelude.{◌≡◌, ◌≤◌, ◌<◌, ◌+◌, IsTrue, ◌↔◌, length, take};
ghost use Rattle.http_wire.specs.Lines.{IsInside, EndsIn, EndsInEmptyLine, HasEmptyLine};

fn is_inside(byte: u8) -> bool
    ensures { IsTrue result ↔ IsInside byte }
{
    byte != b'\r' && byte != b'\n'
}

// Whether the bytes end in these line ends, and a byte of a line stands before them.
fn ends_in(bytes: &[u8], ends: &[u8]) -> bool
    ensures { IsTrue result ↔ EndsIn ends.now bytes.now }
{
    match bytes.strip_suffix(ends) {
        Some([.., last]) => is_inside(*last),
        Some([]) => false,
        None => false,
    }
}

fn ends_in_empty_line(bytes: &[u8]) -> bool
    ensures { IsTrue result ↔ EndsInEmptyLine bytes.now }
{
    if ends_in(bytes, b"\r\n\r\n") {
        return true;
    }
    if ends_in(bytes, b"\n\n") {
        return true;
    }
    if ends_in(bytes, b"\n\r\n") {
        return true;
    }
    ends_in(bytes, b"\r\n\n")
}

// Whether an empty line ends with this byte.
fn is_empty_line_end(bytes: &[u8], at: usize) -> bool
    requires { at < length bytes.now }
    ensures { IsTrue result ↔ EndsInEmptyLine (take (at + 1) bytes.now) }
{
    if bytes[at] != b'\n' {
        return false;
    }
    ends_in_empty_line(&bytes[..at + 1])
}

/// Whether an empty line ends behind the first `from` bytes.
pub fn has_empty_line(bytes: &[u8], from: usize) -> bool
    requires { from ≤ length bytes.now }
    ensures { IsTrue result ↔ HasEmptyLine from bytes.now }
{
    for at in from..bytes.len() {
        if is_empty_line_end(bytes, at) {
            return true;
        }
    }
    false
}
