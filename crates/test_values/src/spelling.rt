//! Bytes as a case spells them.
use crate::told::Told;
use std::alloc::Global;

/// The part of a text before the first of such characters, and the part behind it.
pub(crate) fn cut(text: &str, at: char) -> Option<(&str, &str)> {
    text.split_once(at)
}

/// The text with each `(PIECE*COUNT)` in it written out, as so many pieces.
pub(crate) fn spelled(alloc: Global, short: &str) -> Option<String> {
    let mut text = String::new(alloc);
    if add_parts(&mut text, short) {
        Some(text)
    } else {
        None
    }
}

// Whether each part was added.
fn add_parts(text: &mut String, short: &str) -> bool {
    for part in short.split('(') {
        if !add_part(text, part) {
            return false;
        }
    }
    true
}

// Adds what `PIECE*COUNT)REST` spells, or the part as it stands. Answers whether that was added.
fn add_part(text: &mut String, part: &str) -> bool {
    match cut(part, ')') {
        Some((repeated, rest)) => add_repeated(text, repeated) && text.push_str(rest).is_ok(),
        None => text.push_str(part).is_ok(),
    }
}

fn add_repeated(text: &mut String, repeated: &str) -> bool {
    let Some((piece, count)) = cut(repeated, '*') else {
        return false;
    };
    let Ok(count) = count.parse::<u32>() else {
        return false;
    };
    for _ in 0..count {
        if text.push_str(piece).is_err() {
            return false;
        }
    }
    true
}

// What a byte of a case means: `~` a byte that no text has, `` ` `` the first of two, and behind a `|` a control byte.
fn meant(byte: u8, is_control: bool) -> u8 {
    match byte {
        b'~' => 0xff,
        b'`' => 0xc3,
        other => {
            if is_control {
                other.saturating_sub(64)
            } else {
                other
            }
        }
    }
}

/// The bytes of a text, where `|J`, say, is the end of a line.
pub(crate) fn bytes_of(alloc: Global, text: &str) -> Option<Vec<u8>> {
    let mut bytes = Vec::new(alloc);
    if add_bytes_of(&mut bytes, text) {
        Some(bytes)
    } else {
        None
    }
}

/// The bytes of the text that is written out so.
pub(crate) fn spelled_bytes(alloc: Global, short: &str) -> Option<Vec<u8>> {
    match spelled(alloc, short) {
        Some(text) => bytes_of(alloc, text.as_str()),
        None => None,
    }
}

fn add_bytes_of(bytes: &mut Vec<u8>, text: &str) -> bool {
    let mut is_control = false;
    for byte in text.as_bytes() {
        if *byte == b'|' {
            is_control = true;
        } else {
            if bytes.push(meant(*byte, is_control)).is_err() {
                return false;
            }
            is_control = false;
        }
    }
    true
}

/// Adds bytes as a case spells them, as a word.
pub(crate) fn add_spelled(alloc: Global, out: &mut Told, bytes: &[u8]) {
    let mut told = Vec::new(alloc);
    if add_each(&mut told, bytes) {
        out.add_bytes(&told);
    } else {
        out.lose();
    }
}

// The letter behind `|` that tells a control byte, and any other byte as it is. Answers whether there was room.
fn add_each(told: &mut Vec<u8>, bytes: &[u8]) -> bool {
    for byte in bytes {
        if !add_byte(told, *byte) {
            return false;
        }
    }
    true
}

fn add_byte(told: &mut Vec<u8>, byte: u8) -> bool {
    if byte < b' ' {
        told.push(b'|').is_ok() && told.push(byte | 0x40).is_ok()
    } else {
        told.push(byte).is_ok()
    }
}
