//! Values: read, written, copied and compared.
use crate::containers;
use crate::spelling::bytes_of;
use crate::told::Told;
use kj_value::{JItems, JVal, MAX_JSON_LEVELS, Txt, copy, depth, read, same};
use std::alloc::Global;

/// The answer to a case, where values have at most so many levels.
pub(crate) fn answer(alloc: Global, levels: &str, word: u8, text: &str, out: &mut Told) {
    match word {
        b'r' => add_read(alloc, levels, text, out),
        b't' => add_text(alloc, text, out),
        b'd' | b'c' | b's' => of_text(alloc, word, text, out),
        _ => containers::answer(alloc, word, text, out),
    }
}

fn of_text(alloc: Global, word: u8, text: &str, out: &mut Told) {
    match read(alloc, text.as_bytes(), MAX_JSON_LEVELS) {
        Ok(v) => of_value(alloc, word, &v, out),
        Err(_) => out.lose(),
    }
}

fn of_value(alloc: Global, word: u8, v: &JVal, out: &mut Told) {
    match word {
        b'd' => out.add_number(alloc, u64::from(depth(v))),
        b'c' => add_copy(alloc, v, out),
        _ => match v.as_list() {
            Some(items) => add_first_two(items, out),
            None => out.lose(),
        },
    }
}

fn add_first_two(items: &JItems, out: &mut Told) {
    let Some(first) = items.get(0) else {
        return out.lose();
    };
    match items.get(1) {
        Some(second) => add_same(out, first, second),
        None => out.lose(),
    }
}

// The text of what is read with so many levels, or why it isn't.
fn add_read(alloc: Global, levels: &str, text: &str, out: &mut Told) {
    match levels.parse::<u32>() {
        Ok(levels) => add_read_within(alloc, levels, text, out),
        Err(_) => out.lose(),
    }
}

fn add_read_within(alloc: Global, levels: u32, text: &str, out: &mut Told) {
    match bytes_of(alloc, text) {
        Some(bytes) => add_read_of(alloc, levels, bytes.as_slice(), out),
        None => out.lose(),
    }
}

fn add_read_of(alloc: Global, levels: u32, bytes: &[u8], out: &mut Told) {
    if levels > MAX_JSON_LEVELS {
        return out.lose();
    }
    match read(alloc, bytes, levels) {
        Ok(v) => out.add_value(alloc, &v),
        Err(fault) => out.add_shown(alloc, &fault),
    }
}

// The text of a copy, and whether it is the same.
fn add_copy(alloc: Global, v: &JVal, out: &mut Told) {
    match copy(alloc, v) {
        Ok(w) => {
            add_same(out, v, &w);
            out.add_value(alloc, &w);
        }
        Err(_) => out.lose(),
    }
}

fn add_same(out: &mut Told, v: &JVal, w: &JVal) {
    out.add(if same(v, w) { "same" } else { "not the same" });
}

// The value that bytes are as a text.
fn add_text(alloc: Global, text: &str, out: &mut Told) {
    match bytes_of(alloc, text) {
        Some(bytes) => match Txt::of_bytes(bytes) {
            Some(text) => out.add_value(alloc, &JVal::Text(text)),
            None => out.add("no text"),
        },
        None => out.lose(),
    }
}
