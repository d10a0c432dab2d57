//! Calls over a link in memory.
ghost use Rattle.std.specs.Prelude.{◌≤◌, IfOk};
ghost use Rattle.kj_value.specs.Json.{depth};
ghost use Rattle.kj_value.specs.Seen.{json};
ghost use Rattle.wire_client.specs.declared.buffer.TheConstants.{ANSWER_LEVELS};

use crate::client::answers::{answered, link_of};
use edge_io::MemLink;
use kj_value::{JVal, MAX_JSON_LEVELS, depth, read, write};
use kube_meta::{Key, NAME_BYTES, NAMESPACE_BYTES};
use std::alloc::Global;
use wire_client::{
    ListPage, Place, PlainFar, ResponseBuffer, WireEnd, get_one, key_texts, list_page, number_text,
    post_one, put_one, read_place,
};

/// The place of all cases.
pub(crate) fn place(alloc: Global) -> Option<Place> {
    read_place(alloc, "http://h/apis/example.com/v1/crontabs").ok()
}

fn end_of(alloc: Global, end: WireEnd) -> Option<String> {
    match end {
        WireEnd::LinkFault => String::from_str(alloc, "link fault").ok(),
        WireEnd::TooLong => String::from_str(alloc, "too long").ok(),
        WireEnd::Gone => String::from_str(alloc, "gone").ok(),
        WireEnd::Code { code } => format!(in alloc; "code {code}").ok(),
        WireEnd::Shape { path } => format!(in alloc; "shape [{}]", path.as_str()).ok(),
        WireEnd::NoMemory => None,
    }
}

// Adds the key and the number of an item. Answers whether there was room.
fn add_item(alloc: Global, item: &JVal, out: &mut String) -> bool {
    let key = key_texts(item);
    let number = number_text(item);
    match format!(in alloc; " {}/{} {number},", key.ns, key.name) {
        Ok(text) => out.push_str(text.as_str()).is_ok(),
        Err(_) => false,
    }
}

fn add_items(alloc: Global, items: &[JVal], out: &mut String) -> bool {
    for item in items {
        if !add_item(alloc, item, out) {
            return false;
        }
    }
    true
}

// What the page tells beside its items.
fn add_rest(alloc: Global, page: &ListPage, out: &mut String) -> bool {
    match format!(in alloc; " token [{}], number {}", page.token.as_str(), page.rv) {
        Ok(text) => out.push_str(text.as_str()).is_ok(),
        Err(_) => false,
    }
}

// The keys and numbers of the items, and what the page tells beside them.
fn page_of(alloc: Global, page: &ListPage) -> Option<String> {
    let mut out = String::new(alloc);
    if out.push_str("page").is_ok()
        && add_items(alloc, page.items.as_slice(), &mut out)
        && add_rest(alloc, page, &mut out)
    {
        Some(out)
    } else {
        None
    }
}

fn object_of(alloc: Global, given: Result<JVal, WireEnd>) -> Option<String>
    requires { IfOk given (λ v. depth (json v) ≤ ANSWER_LEVELS) }
{
    match given {
        Ok(object) => match write(alloc, &object) {
            Ok(text) => Some(text.into_string()),
            Err(_) => None,
        },
        Err(end) => end_of(alloc, end),
    }
}

fn key_of(alloc: Global, ns: &str, name: &str) -> Option<Key> {
    if ns.len() > NAMESPACE_BYTES {
        return None;
    }
    if name.len() > NAME_BYTES {
        return None;
    }
    Key::of(alloc, ns, name).ok()
}

fn listed(
    alloc: Global,
    buffer: &mut ResponseBuffer,
    place: &Place,
    far: &mut PlainFar<MemLink>,
    limit: u64,
    token: &str,
) -> Option<String> {
    match list_page(far, alloc, buffer, place, limit, token) {
        Ok(page) => page_of(alloc, &page),
        Err(end) => end_of(alloc, end),
    }
}

fn list(alloc: Global, buffer: &mut ResponseBuffer, place: &Place, case: &str) -> Option<String> {
    let Some((limit, rest)) = case.split_once(' ') else {
        return None;
    };
    let Some((token, rest)) = rest.split_once(' ') else {
        return None;
    };
    let token = if token == "-" { "" } else { token };
    let Ok(limit) = limit.parse::<u64>() else {
        return None;
    };
    match link_of(alloc, rest) {
        Some(mut far) => {
            let told = listed(alloc, buffer, place, &mut far, limit, token);
            answered(alloc, far, told)
        }
        None => None,
    }
}

fn got(
    alloc: Global,
    buffer: &mut ResponseBuffer,
    place: &Place,
    key: &Key,
    answer: &str,
) -> Option<String> {
    match link_of(alloc, answer) {
        Some(mut far) => {
            let told = object_of(alloc, get_one(&mut far, alloc, buffer, place, key));
            answered(alloc, far, told)
        }
        None => None,
    }
}

fn get(alloc: Global, buffer: &mut ResponseBuffer, place: &Place, case: &str) -> Option<String> {
    let Some((ns, rest)) = case.split_once(' ') else {
        return None;
    };
    let Some((name, rest)) = rest.split_once(' ') else {
        return None;
    };
    match key_of(alloc, ns, name) {
        Some(key) => got(alloc, buffer, place, &key, rest),
        None => None,
    }
}

// The put of a body at a key, or without one its post in a namespace.
#[derive(Clone, Copy, Drop)]
enum To<'a> {
    Key(&'a Key),
    Namespace(&'a str),
}

fn sent_over(
    alloc: Global,
    buffer: &mut ResponseBuffer,
    place: &Place,
    far: &mut PlainFar<MemLink>,
    to: To<'_>,
    body: &JVal,
) -> Option<String> {
    if depth(body) > MAX_JSON_LEVELS {
        return None;
    }
    match to {
        To::Key(key) => object_of(alloc, put_one(far, alloc, buffer, place, key, body)),
        To::Namespace(ns) => object_of(alloc, post_one(far, alloc, buffer, place, ns, body)),
    }
}

fn sent_body(
    alloc: Global,
    buffer: &mut ResponseBuffer,
    place: &Place,
    to: To<'_>,
    body: &JVal,
    answer: &str,
) -> Option<String> {
    match link_of(alloc, answer) {
        Some(mut far) => {
            let told = sent_over(alloc, buffer, place, &mut far, to, body);
            answered(alloc, far, told)
        }
        None => None,
    }
}

// What comes of a body that is sent, which stands before the answer.
fn sent(
    alloc: Global,
    buffer: &mut ResponseBuffer,
    place: &Place,
    to: To<'_>,
    case: &str,
) -> Option<String> {
    let Some((body, answer)) = case.split_once(' ') else {
        return None;
    };
    match read(alloc, body.as_bytes(), 100) {
        Ok(body) => sent_body(alloc, buffer, place, to, &body, answer),
        Err(_) => None,
    }
}

fn put(alloc: Global, buffer: &mut ResponseBuffer, place: &Place, case: &str) -> Option<String> {
    let Some((ns, rest)) = case.split_once(' ') else {
        return None;
    };
    let Some((name, rest)) = rest.split_once(' ') else {
        return None;
    };
    match key_of(alloc, ns, name) {
        Some(key) => sent(alloc, buffer, place, To::Key(&key), rest),
        None => None,
    }
}

fn post(alloc: Global, buffer: &mut ResponseBuffer, place: &Place, case: &str) -> Option<String> {
    let Some((ns, rest)) = case.split_once(' ') else {
        return None;
    };
    sent(alloc, buffer, place, To::Namespace(ns), rest)
}

fn of_call(
    alloc: Global,
    buffer: &mut ResponseBuffer,
    place: &Place,
    word: &str,
    rest: &str,
) -> Option<String> {
    match word {
        "list" => list(alloc, buffer, place, rest),
        "get" => get(alloc, buffer, place, rest),
        "put" => put(alloc, buffer, place, rest),
        "post" => post(alloc, buffer, place, rest),
        _ => None,
    }
}

/// The request that a call makes, and what it gives.
pub(crate) fn answer(alloc: Global, buffer: &mut ResponseBuffer, case: &str) -> Option<String> {
    let Some((word, rest)) = case.split_once(' ') else {
        return None;
    };
    match place(alloc) {
        Some(place) => of_call(alloc, buffer, &place, word, rest),
        None => None,
    }
}
