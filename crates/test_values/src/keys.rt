//! Keys, names, tokens, uids, and the refusal for want of memory.
use crate::forms;
use crate::spelling::cut;
use crate::told::Told;
use api_calls::{
    BORN_END, Refusal, Token, code_of, no_memory_text, read_token, status_text, uid_of, write_token,
};
use kj_value::Txt;
use kube_meta::{Key, KeySpot, NAME_BYTES, NAMESPACE_BYTES, NameSpot};
use std::alloc::Global;
use std::cmp::Ordering;

/// The answer to a case.
pub(crate) fn answer(alloc: Global, word: u8, text: &str, out: &mut Told) {
    match word {
        b'k' => keys(alloc, text, out),
        b'n' => names(alloc, text, out),
        b't' => token(alloc, text, out),
        b'T' => add_token(alloc, text, out),
        b'u' => uid(alloc, text, out),
        b'2' => forms::of_two(alloc, text, out),
        _ => no_memory(alloc, out),
    }
}

fn add_order(out: &mut Told, order: Ordering) {
    match order {
        Ordering::Less => out.add("less"),
        Ordering::Equal => out.add("equal"),
        Ordering::Greater => out.add("greater"),
    }
}

fn add_key(out: &mut Told, key: &Key) {
    out.add(key.ns());
    out.add(key.name());
}

// The key that `NAMESPACE/NAME` is.
fn key(alloc: Global, text: &str) -> Option<Key> {
    match cut(text, '/') {
        Some((ns, name)) => key_of(alloc, ns, name),
        None => None,
    }
}

fn key_of(alloc: Global, ns: &str, name: &str) -> Option<Key> {
    if ns.len() > NAMESPACE_BYTES || name.len() > NAME_BYTES {
        return None;
    }
    Key::of(alloc, ns, name).ok()
}

// A key out of its place, and how it stands to another: as keys, as a key and two texts, and as places.
fn keys(alloc: Global, text: &str, out: &mut Told) {
    match cut(text, ' ') {
        Some((first, second)) => two_keys(alloc, first, second, out),
        None => out.lose(),
    }
}

fn two_keys(alloc: Global, first: &str, second: &str, out: &mut Told) {
    match key(alloc, second) {
        Some(second) => beside(alloc, first, &second, out),
        None => out.lose(),
    }
}

fn beside(alloc: Global, first: &str, second: &Key, out: &mut Told) {
    match key(alloc, first) {
        Some(first) => compared(alloc, &first, second, out),
        None => out.lose(),
    }
}

fn compared(alloc: Global, first: &Key, second: &Key, out: &mut Told) {
    add_again(alloc, &first.spot(), out);
    add_order(out, first.compare(second));
    add_order(out, first.compare_with(second.ns(), second.name()));
    add_order(out, first.spot().compare(&second.spot()));
}

// A key out of its place, shared by one whose memory it has.
fn add_again(alloc: Global, spot: &KeySpot, out: &mut Told) {
    match shared(alloc, spot) {
        Some(key) => add_key(out, &key),
        None => out.lose(),
    }
}

fn shared(alloc: Global, spot: &KeySpot) -> Option<Key> {
    match spot.again().key(alloc) {
        Ok(key) => key.shared().ok(),
        Err(_) => None,
    }
}

fn spot(name: &str) -> Option<NameSpot> {
    if name.len() > NAME_BYTES {
        return None;
    }
    Some(NameSpot::of(name))
}

// A name out of its place, and how it stands to another.
fn names(alloc: Global, text: &str, out: &mut Told) {
    match cut(text, ' ') {
        Some((first, second)) => two_names(alloc, first, second, out),
        None => out.lose(),
    }
}

fn two_names(alloc: Global, first: &str, second: &str, out: &mut Told) {
    let Some(first) = spot(first) else {
        return out.lose();
    };
    match spot(second) {
        Some(second) => add_names(alloc, &first, &second, out),
        None => out.lose(),
    }
}

fn add_names(alloc: Global, first: &NameSpot, second: &NameSpot, out: &mut Told) {
    match first.again().name(alloc) {
        Ok(name) => out.add(name.as_str()),
        Err(_) => out.lose(),
    }
    add_order(out, first.compare(second));
}

// The number and the key of a token.
fn token(alloc: Global, text: &str, out: &mut Told) {
    match read_token(alloc, text) {
        Ok(token) => {
            out.add_number(alloc, token.rv);
            add_key(out, &token.key);
        }
        Err(fault) => out.add_shown(alloc, &fault),
    }
}

// The token of a number, in `default` and of the name `b`.
fn add_token(alloc: Global, number: &str, out: &mut Told) {
    match token_text(alloc, number) {
        Some(text) => out.add(text.as_str()),
        None => out.lose(),
    }
}

fn token_text(alloc: Global, number: &str) -> Option<Txt> {
    let Ok(rv) = number.parse::<u64>() else {
        return None;
    };
    match Key::of(alloc, "default", "b") {
        Ok(key) => write_token(alloc, &Token { rv, key }).ok(),
        Err(_) => None,
    }
}

// The uid of a boot number and the number of an entry.
fn uid(alloc: Global, text: &str, out: &mut Told) {
    match cut(text, ' ') {
        Some((boot, born)) => uid_of_words(alloc, boot, born, out),
        None => out.lose(),
    }
}

fn uid_of_words(alloc: Global, boot: &str, born: &str, out: &mut Told) {
    let Ok(boot) = boot.parse::<u64>() else {
        return out.lose();
    };
    match born.parse::<u64>() {
        Ok(born) => add_uid(alloc, boot, born, out),
        Err(_) => out.lose(),
    }
}

fn add_uid(alloc: Global, boot: u64, born: u64, out: &mut Told) {
    if born >= BORN_END {
        return out.lose();
    }
    match uid_of(alloc, boot, born) {
        Ok(text) => out.add(text.as_str()),
        Err(_) => out.lose(),
    }
}

// The refusal for want of memory, and the text of it that takes none.
fn no_memory(alloc: Global, out: &mut Told) {
    let refusal = Refusal::NoMemory;
    out.add_number(alloc, u64::from(code_of(&refusal)));
    match status_text(alloc, &refusal, "crontabs", "example.com") {
        Ok(text) => out.add(text.as_str()),
        Err(_) => out.lose(),
    }
    out.add(no_memory_text());
}
