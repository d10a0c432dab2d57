//! From bytes to a value, straight from their tokens, where that can be told on the way.
ghost use Rattle.std.specs.Prelude.{◌≡◌, ◌==◌, ◌<◌, ◌≤◌, length, slice_index, true, false, Some, option_map, IfSome, IsTrue};
ghost use Rattle.fast_float.specs.Text.{scan};
ghost use Rattle.json.specs.Json.{value, items, members, read_key};
ghost use Rattle.serde_json.specs.Data.{no_members};
ghost use Rattle.serde_json.specs.Read.{of_json, of_items, of_members, converted, number_from, number_of};
ghost use Rattle.serde_json.specs.Find.{of_integer};
ghost use Rattle.kj_value.specs.Json.{depth, items_depth, members_depth, items_of, members_of};
ghost use Rattle.kj_value.specs.Seen.{json};
ghost use Rattle.kj_value.specs.Data.{to_data, items_data, members_data};
ghost use Rattle.kj_value.specs.Reading.{Reads};

use crate::txt::Txt;
use crate::value::{JFields, JItems, JVal, open};
use fast_float::Numeral;
use json::{Reader, Scratch, Token};
use std::alloc::Global;

/// The most levels of lists and objects that `serde_json` reads.
const MOST_NESTED: u32 = 127;

/// From so many names of an object on each has to come behind those before it, so that none is put in between many.
const FEW_NAMES: usize = 32;

fn has_minus(bytes: &[u8]) -> bool
    ensures value { result ≡ (slice_index bytes.now 0 == 45) }
    ensures some { IsTrue result → 0 < length bytes.now }
{
    !bytes.is_empty() && bytes[0] == b'-'
}

fn positive(digits: &[u8]) -> Option<i64>
    ensures { IfSome result (λ z. number_from false (scan digits.now) ≡ Some (of_integer z)) }
{
    match Numeral::scan(digits).to_u64() {
        Some(n) if n <= i64::MAX as u64 => Some(n as i64),
        _ => None,
    }
}

fn negative(digits: &[u8]) -> Option<i64>
    ensures { IfSome result (λ z. number_from true (scan digits.now) ≡ Some (of_integer z)) }
{
    match Numeral::scan(digits).to_i64(true) {
        Some(n) if n < 0 => Some(n),
        _ => None,
    }
}

// The whole number that a text is, where it is one of 64 bits signed. `-0` is none.
fn whole_of(text: &str) -> Option<i64>
    ensures { IfSome result (λ z. number_of text.now ≡ Some (of_integer z)) }
{
    let bytes = text.as_bytes();
    if has_minus(bytes) {
        negative(&bytes[1..])
    } else {
        positive(bytes)
    }
}

// The next name of an object, or its end.
fn next_name<'a>(reader: &mut Reader<'a>) -> Option<Option<&'a str>>
    ensures { IfSome result (λ k. read_key reader.old ≡ Some (option_map (λ s. s.now) k, reader.new)) }
{
    match reader.next_key() {
        Ok(name) => Some(name),
        Err(_) => None,
    }
}

// Whether a name may go among these: they are few, or it comes behind all of them.
fn may_go(found: &JFields, name: &str) -> bool {
    if found.len() < FEW_NAMES {
        return true;
    }
    match found.as_slice().last() {
        Some(field) => field.name.as_str() < name,
        None => true,
    }
}

// The next value of the reader.
#[cycle(quick)]
fn quick(alloc: Global, reader: &mut Reader<'_>, nested: u32, levels: u32) -> Option<JVal>
    requires { levels ≤ nested }
    ensures ok { IfSome result (λ v. converted of_json (value nested reader.old) ≡ Some (to_data (json v), reader.new)) }
    ensures shorter { IfSome result (λ _. length reader.new < length reader.old) }
    ensures depth { IfSome result (λ v. depth (json v) ≤ levels) }
{
    let token = reader.next()?;
    match token {
        Token::String(text) => match Txt::of(alloc, text) {
            Ok(text) => Some(JVal::Text(text)),
            Err(_) => None,
        },
        Token::Number(text) => match whole_of(text) {
            Some(whole) => Some(JVal::Int(whole)),
            None => None,
        },
        Token::Bool(b) => Some(JVal::Bool(b)),
        Token::Null => Some(JVal::Null),
        Token::EndObject | Token::EndArray | Token::Key(_) | Token::Bad => None,
        Token::BeginArray => {
            if levels == 0 {
                return None;
            }
            Some(JVal::List(quick_items(alloc, reader, nested - 1, levels - 1)?))
        }
        Token::BeginObject => {
            if levels == 0 {
                return None;
            }
            Some(JVal::Obj(quick_members(alloc, reader, nested - 1, levels - 1)?))
        }
    }
}

#[cycle(quick)]
fn quick_items(alloc: Global, reader: &mut Reader<'_>, nested: u32, levels: u32) -> Option<JItems>
    requires { levels ≤ nested }
    ensures ok { IfSome result
        (λ js. converted of_items (items (value nested) (length reader.old) reader.old) ≡ Some (items_data (items_of js), reader.new)) }
    ensures shorter { IfSome result (λ _. length reader.new < length reader.old) }
    ensures depth { IfSome result (λ js. items_depth (items_of js) ≤ levels) }
{
    let mut found = JItems::new(alloc);
    'items: while !reader.take_end_array() {
        let item = quick(alloc, reader, nested, levels)?;
        let Ok(()) = found.push(item) else {
            return None;
        };
    }
    Some(found)
}

#[cycle(quick)]
fn quick_members(
    alloc: Global,
    reader: &mut Reader<'_>,
    nested: u32,
    levels: u32,
) -> Option<JFields>
    requires { levels ≤ nested }
    ensures ok { IfSome result
        (λ ms. converted (λ fs. of_members fs no_members) (members (value nested) (length reader.old) reader.old)
        ≡ Some (members_data (members_of ms), reader.new)) }
    ensures shorter { IfSome result (λ _. length reader.new < length reader.old) }
    ensures depth { IfSome result (λ ms. members_depth (members_of ms) ≤ levels) }
{
    let mut found = JFields::new(alloc);
    'members: while let Some(name) = next_name(reader)? {
        if !may_go(&found, name) {
            return None;
        }
        let Ok(name) = Txt::of(alloc, name) else {
            return None;
        };
        let value = quick(alloc, reader, nested, levels)?;
        let Ok(()) = found.set(name, value) else {
            return None;
        };
    }
    Some(found)
}

/// The value that bytes are, where it can be told on the way: each number is a whole one of 64 bits signed, nothing is deeper than
/// the levels, and no name is put in between many. None where not, and where there is no memory.
pub(crate) fn quick_read(alloc: Global, bytes: &[u8], levels: u32) -> Option<JVal>
    requires { levels ≤ MOST_NESTED }
    ensures read { IfSome result (λ v. Reads bytes.now levels (json v)) }
    ensures depth { IfSome result (λ v. depth (json v) ≤ levels) }
{
    let Ok(text) = std::str::from_utf8(bytes) else {
        return None;
    };
    let mut room = Scratch::new(alloc);
    let Ok(mut reader) = Reader::new(text, &mut room) else {
        return None;
    };
    let value = quick(alloc, &mut reader, MOST_NESTED, levels)?;
    if reader.next().is_some() {
        return None;
    }
    open(&value);
    Some(value)
}
