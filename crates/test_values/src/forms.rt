//! The cache of forms: which form goes out, and which are found.
use crate::told::Told;
use form_cache::{FormCache, TEXT_BYTES};
use kj_value::Txt;
use kube_meta::{Key, NAME_BYTES};
use std::alloc::Global;
use std::marker::Send;

fn key_of(alloc: Global, name: &str) -> Option<Key> {
    if name.len() > NAME_BYTES {
        return None;
    }
    Key::of(alloc, "a", name).ok()
}

// One form is kept, of an object at number 7, at the version at place 1. Answers whether it was.
fn keep(alloc: Global, cache: &mut FormCache, name: &str, text: &str) -> bool {
    let Some(key) = key_of(alloc, name) else {
        return false;
    };
    match Txt::of(alloc, text) {
        Ok(text) => text.len() <= TEXT_BYTES && cache.keep(key, 7, 1, text).is_ok(),
        Err(_) => false,
    }
}

// The form of `x=X` is kept.
fn keep_pair(alloc: Global, cache: &mut FormCache, pair: &str, out: &mut Told) {
    match pair.split_once('=') {
        Some((name, text)) => {
            if !keep(alloc, cache, name, text) {
                out.lose();
            }
        }
        None => out.lose(),
    }
}

// One form is looked for.
fn find(
    alloc: Global,
    cache: &mut FormCache,
    name: &str,
    number: u64,
    version: u8,
    out: &mut Told,
) {
    match key_of(alloc, name) {
        Some(key) => find_of(cache, &key, number, version, out),
        None => out.lose(),
    }
}

fn find_of(cache: &mut FormCache, key: &Key, number: u64, version: u8, out: &mut Told) {
    match cache.find(key, number, version) {
        Some(text) => out.add(text.as_str()),
        None => out.add("none"),
    }
}

// A cache goes to a thread with its pass.
fn sent<T: Send>(value: T) -> T {
    value
}

// A form is kept, as `+x=X`, or looked for: `x` as it is kept, `?x` at the next number, `!x` at the version before.
fn step(alloc: Global, cache: &mut FormCache, word: &str, out: &mut Told) {
    let behind = word.get(1..).unwrap_or("");
    match word.as_bytes().first() {
        Some(b'+') => keep_pair(alloc, cache, behind, out),
        Some(b'?') => find(alloc, cache, behind, 8, 1, out),
        Some(b'!') => find(alloc, cache, behind, 7, 0, out),
        _ => find(alloc, cache, word, 7, 1, out),
    }
}

/// What is found in a cache of two forms.
pub(crate) fn of_two(alloc: Global, text: &str, out: &mut Told) {
    match FormCache::open(alloc, 2) {
        Ok(cache) => all_steps(alloc, &mut sent(cache), text, out),
        Err(_) => out.lose(),
    }
}

fn all_steps(alloc: Global, cache: &mut FormCache, text: &str, out: &mut Told) {
    for word in text.split(' ') {
        step(alloc, cache, word, out);
    }
}
