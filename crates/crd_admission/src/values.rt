//! Bytes of texts and of values, each counted down from what is left.
ghost use Rattle.std.specs.Prelude.{◌≡◌, ◌+◌, true, length, flat_map};
ghost use Rattle.std.specs.Fmt.{signed_decimal};
ghost use Rattle.kj_value.specs.Json.{boolean, list, object, items_of, members_of};
ghost use Rattle.kj_value.specs.Seen.{json};
ghost use Rattle.kj_value.specs.Pair.{pair_of};
ghost use Rattle.kj_value.specs.Text.{escaped_byte, quoted, text_of};
ghost use Rattle.crd_admission.specs.inner.Count.{Leaves, field_bytes};

use itoa::Buffer;
use kj_value::{Field, JFields, JItems, JVal};

// What is left where so many bytes are taken, or none where there are fewer.
pub(crate) fn spend(left: u64, bytes: u64) -> Option<u64>
    ensures { Leaves left bytes result }
{
    if left < bytes {
        return None;
    }
    Some(left - bytes)
}

fn byte_len(byte: u8) -> u64
    ensures { result ≡ length (escaped_byte byte) }
{
    if byte == b'"' {
        2
    } else if byte == b'\\' {
        2
    } else if byte == 8 {
        2
    } else if byte == b'\t' {
        2
    } else if byte == b'\n' {
        2
    } else if byte == 12 {
        2
    } else if byte == b'\r' {
        2
    } else if byte < b' ' {
        6
    } else {
        1
    }
}

pub(crate) fn text(left: u64, s: &str) -> Option<u64>
    ensures { Leaves left (length (quoted s.now)) result }
{
    let rest = spend(left, 2)?;
    let bytes = s.as_bytes();
    if are_plain(bytes) {
        return spend(rest, bytes.len() as u64);
    }
    escaped(rest, bytes)
}

// The same where some bytes may have to be escaped, without the quotes.
fn escaped(left: u64, bytes: &[u8]) -> Option<u64>
    ensures { Leaves left (length (flat_map escaped_byte bytes.now)) result }
{
    let mut rest = left;
    for byte in bytes {
        rest = spend(rest, byte_len(*byte))?;
    }
    Some(rest)
}

// Whether JSON spells a byte by itself.
fn is_plain(byte: u8) -> bool
    ensures { result ≡ true → length (escaped_byte byte) ≡ 1 }
{
    (byte >= b' ') & (byte != b'"') & (byte != b'\\')
}

// Whether JSON spells each byte by itself. No byte ends the walk, so that the compiler looks at many at once.
fn are_plain(bytes: &[u8]) -> bool
    ensures { result ≡ true → length (flat_map escaped_byte bytes.now) ≡ length bytes.now }
{
    let mut plain = true;
    for byte in bytes {
        plain &= is_plain(*byte);
    }
    plain
}

fn whole(left: u64, n: i64) -> Option<u64>
    ensures { Leaves left (length (signed_decimal n)) result }
{
    let mut buffer = Buffer::new();
    let digits = buffer.format(n);
    spend(left, digits.len() as u64)
}

fn truth(left: u64, b: bool) -> Option<u64>
    ensures { Leaves left (length (text_of (boolean b))) result }
{
    if b { spend(left, 4) } else { spend(left, 5) }
}

#[cycle(value)]
fn value(left: u64, v: &JVal) -> Option<u64>
    ensures { Leaves left (length (text_of (json v.now))) result }
{
    match v {
        JVal::Null => spend(left, 4),
        JVal::Bool(b) => truth(left, *b),
        JVal::Int(n) => whole(left, *n),
        JVal::Text(t) => text(left, t.as_str()),
        JVal::List(items) => list(left, items),
        JVal::Obj(fields) => object(left, fields),
    }
}

#[cycle(value)]
#[tactic(auto, using(kj_value::specs::laws::Inside::item_depth))]
pub(crate) fn list(left: u64, items: &JItems) -> Option<u64>
    ensures { Leaves left (length (text_of (list (items_of items.now)))) result }
{
    if items.len() == 0 {
        return spend(left, 2);
    }
    let mut rest = spend(left, 1)?;
    for x in items.as_slice() {
        rest = item(rest, x)?;
    }
    Some(rest)
}

// An item with the comma or the bracket behind it.
#[cycle(value)]
fn item(left: u64, x: &JVal) -> Option<u64>
    ensures { Leaves left (1 + length (text_of (json x.now))) result }
{
    let rest = value(left, x)?;
    spend(rest, 1)
}

#[cycle(value)]
#[tactic(auto, using(kj_value::specs::laws::Inside::field_depth))]
fn object(left: u64, fields: &JFields) -> Option<u64>
    ensures { Leaves left (length (text_of (object (members_of fields.now)))) result }
{
    if fields.len() == 0 {
        return spend(left, 2);
    }
    let mut rest = spend(left, 1)?;
    for f in fields.as_slice() {
        rest = field(rest, f)?;
    }
    Some(rest)
}

// A field with the comma or the brace behind it.
#[cycle(value)]
pub(crate) fn field(left: u64, f: &Field) -> Option<u64>
    ensures { Leaves left (field_bytes (pair_of f.now)) result }
{
    let rest = text(left, f.name.as_str())?;
    let rest = value(rest, &f.value)?;
    spend(rest, 2)
}
