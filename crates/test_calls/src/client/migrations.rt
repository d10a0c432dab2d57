//! Migrations over a link in memory.
use crate::client::answers::{answered, cut, link_of_all, response, unfolded};
use crate::client::calls::place;
use edge_io::MemLink;
use far_migrate::{FarFault, Tally, migrate};
use std::alloc::Global;
use wire_client::PlainFar;

// An object of the version: `NAMESPACE/NAME:NUMBER`.
fn object(alloc: Global, short: &str) -> Option<String> {
    let (key, number) = cut(short, ":");
    let (ns, name) = cut(key, "/");
    format!(in alloc;
        r#"{{"apiVersion":"example.com/v1","metadata":{{"name":"{name}","namespace":"{ns}","resourceVersion":"{number}"}}}}"#
    ).ok()
}

// Adds an object behind others. Answers whether there was room.
fn add_item(alloc: Global, items: &mut String, short: &str) -> bool {
    match object(alloc, short) {
        Some(item) => {
            (items.is_empty() || items.push_str(",").is_ok())
                && items.push_str(item.as_str()).is_ok()
        }
        None => false,
    }
}

fn items(alloc: Global, words: &str) -> Option<String> {
    let mut items = String::new(alloc);
    for word in words.split_whitespace() {
        if !word.starts_with('>') && !add_item(alloc, &mut items, word) {
            return None;
        }
    }
    Some(items)
}

fn token(words: &str) -> &str {
    for word in words.split_whitespace() {
        if let Some(rest) = word.strip_prefix('>') {
            return rest;
        }
    }
    ""
}

fn page_of(alloc: Global, items: &str, token: &str) -> Option<String> {
    format!(in alloc;
        r#"{{"apiVersion":"example.com/v1","items":[{items}],"metadata":{{"continue":"{token}","resourceVersion":"9"}}}}"#
    ).ok()
}

// A page of these objects; a word that begins with `>` is its token.
fn page(alloc: Global, words: &str) -> Option<String> {
    match items(alloc, words) {
        Some(items) => page_of(alloc, items.as_str(), token(words)),
        None => None,
    }
}

// A response with what is told in short, if there is any.
fn with_body(alloc: Global, code: &str, body: Option<String>) -> Option<Vec<u8>> {
    match body {
        Some(body) => response(alloc, code, body.as_str()),
        None => None,
    }
}

fn answer_of(alloc: Global, short: &str) -> Option<Vec<u8>> {
    let (word, rest) = cut(short, " ");
    match word {
        "page" => with_body(alloc, "200", page(alloc, rest)),
        "object" => with_body(alloc, "200", object(alloc, rest)),
        "created" => with_body(alloc, "201", object(alloc, rest)),
        "json" => response(alloc, "200", rest),
        "long" => unfolded(alloc, "HTTP/1.1 200 OK|Content-Length: 1048577||"),
        "missing" => response(alloc, "404", "{\"details\":{}}"),
        code => response(alloc, code, "{}"),
    }
}

fn add_answer(alloc: Global, answers: &mut Vec<Vec<u8>>, short: &str) -> bool {
    match answer_of(alloc, short) {
        Some(answer) => answers.push(answer).is_ok(),
        None => false,
    }
}

/// The answers, one after the other; the exchange behind the last one fails.
pub(crate) fn answers_of(alloc: Global, short: &str) -> Option<Vec<Vec<u8>>> {
    let mut answers = Vec::new(alloc);
    for answer in short.split(';') {
        if !add_answer(alloc, &mut answers, answer.trim()) {
            return None;
        }
    }
    Some(answers)
}

fn tally_of(alloc: Global, tally: &Tally) -> Option<String> {
    format!(in alloc;
        "listed {}, written {}, unchanged {}, gone {}, contested {}",
        tally.listed, tally.written, tally.unchanged, tally.gone, tally.contested
    )
    .ok()
}

fn fault_of(alloc: Global, fault: FarFault) -> Option<String> {
    match fault {
        FarFault::LinkFault => String::from_str(alloc, "link fault").ok(),
        FarFault::Answer { code } => format!(in alloc; "answer {code}").ok(),
        FarFault::Restarted => String::from_str(alloc, "restarted").ok(),
        FarFault::NoMemory => None,
    }
}

/// The tally of a migration, or why there is none.
pub(crate) fn told(alloc: Global, came: Result<Tally, FarFault>) -> Option<String> {
    match came {
        Ok(tally) => tally_of(alloc, &tally),
        Err(fault) => fault_of(alloc, fault),
    }
}

fn migrated_over(alloc: Global, far: &mut PlainFar<MemLink>) -> Option<String> {
    match place(alloc) {
        Some(place) => told(alloc, migrate(far, alloc, &place)),
        None => None,
    }
}

/// The requests of a migration, and its tally, or why there is none.
pub(crate) fn answer(alloc: Global, case: &str) -> Option<String> {
    match answers_of(alloc, case) {
        Some(answers) => {
            let mut far = link_of_all(alloc, answers);
            let told = migrated_over(alloc, &mut far);
            answered(alloc, far, told)
        }
        None => None,
    }
}
