//! Links in memory that are made, and taken back.
use crate::told::Told;
use edge_io::{Link, MemExchange, MemLink};
use std::alloc::Global;
use tcp_links::{Links, MemLinks, MemReady};

// A link with these answers, of which the exchange of a number fails.
fn ready(alloc: Global, answers: &str, failing: u64) -> Option<MemReady> {
    let Some(given) = given(alloc, answers) else {
        return None;
    };
    match vec![in alloc; failing] {
        Ok(failing) => MemReady::new(alloc, MemLink::new(alloc, given, failing)).ok(),
        Err(_) => None,
    }
}

fn given(alloc: Global, answers: &str) -> Option<Vec<Vec<u8>>> {
    let mut given = Vec::new(alloc);
    if add_each(alloc, &mut given, answers) {
        Some(given)
    } else {
        None
    }
}

// Whether each answer was added.
fn add_each(alloc: Global, given: &mut Vec<Vec<u8>>, answers: &str) -> bool {
    for answer in answers.split(',') {
        if !add_answer(alloc, given, answer) {
            return false;
        }
    }
    true
}

/// Whether an answer was added.
pub(crate) fn add_answer(alloc: Global, given: &mut Vec<Vec<u8>>, answer: &str) -> bool {
    match answer.as_bytes().to_vec(alloc) {
        Ok(answer) => given.push(answer).is_ok(),
        Err(_) => false,
    }
}

fn add_ready(alloc: Global, waiting: &mut Vec<MemReady>, answers: &str, failing: u64) -> bool {
    match ready(alloc, answers, failing) {
        Some(link) => waiting.push(link).is_ok(),
        None => false,
    }
}

fn opened(alloc: Global) -> Option<MemLinks> {
    let mut waiting = Vec::new(alloc);
    if add_ready(alloc, &mut waiting, "one,two", 1)
        && add_ready(alloc, &mut waiting, "three", u64::MAX)
    {
        Some(MemLinks::new(alloc, waiting))
    } else {
        None
    }
}

/// Two links, of which the first has two answers and fails at its second exchange, and one that is made where none is left. Each makes an
/// exchange of each word of the text, and is taken back.
pub(crate) fn answer(alloc: Global, text: &str, out: &mut Told) {
    match opened(alloc) {
        Some(mut links) => add_three(alloc, &mut links, text, out),
        None => out.lose(),
    }
}

fn add_three(alloc: Global, links: &mut MemLinks, text: &str, out: &mut Told) {
    for _ in 0..3 {
        add_one(alloc, links, text, out);
        out.add("/");
        add_last(links, out);
        out.add("/");
    }
}

fn add_one(alloc: Global, links: &mut MemLinks, text: &str, out: &mut Told) {
    match links.make(alloc, "host", 80) {
        Ok(mut link) => {
            add_exchanges(alloc, &mut link, text, out);
            links.back(link);
        }
        Err(_) => out.lose(),
    }
}

fn add_exchanges<L: Link>(alloc: Global, link: &mut L, text: &str, out: &mut Told) {
    for request in text.split(' ') {
        one_exchange(alloc, link, request.as_bytes(), out);
    }
}

/// One exchange: what it is answered, or that it fails.
pub(crate) fn one_exchange<L: Link>(alloc: Global, link: &mut L, request: &[u8], out: &mut Told) {
    match link.exchange(alloc, request) {
        Ok(answer) => out.add_bytes(&answer),
        Err(fault) => out.add_shown(alloc, &fault),
    }
}

fn add_last(links: &MemLinks, out: &mut Told) {
    match links.last_made() {
        Some(made) => add_made(made, out),
        None => out.lose(),
    }
}

/// The request of each exchange, and the answer where there is one.
pub(crate) fn add_made(made: &[MemExchange], out: &mut Told) {
    for exchange in made {
        out.add_bytes(exchange.request());
        match exchange.answer() {
            Some(answer) => out.add_bytes(answer),
            None => out.add("-"),
        }
    }
}
