//! Responses to reviews that were asked, with the uid `u1` and the desired version `example.com/v1`.
use crate::links::add_answer;
use crate::told::Told;
use edge_io::MemLink;
use kj_value::{JItems, JVal, read};
use review_forms::{AskFault, ResponseFault, ask, take_response};
use std::alloc::Global;

const UID: &str = "u1";

const DESIRED: &str = "example.com/v1";

/// The answer to a case, where these objects were sent.
pub(crate) fn answer(alloc: Global, sent: &str, word: u8, text: &str, out: &mut Told) {
    match word {
        b'r' => responded(alloc, sent, text, out),
        b'e' => exchanged(alloc, Some(text), out),
        _ => exchanged(alloc, None, out),
    }
}

fn list_of(alloc: Global, text: &str) -> Option<JItems> {
    match read(alloc, text.as_bytes(), 66) {
        Ok(list) => list.into_list(),
        Err(_) => None,
    }
}

// The objects that are taken of a response, or what is refused of it.
fn responded(alloc: Global, sent: &str, text: &str, out: &mut Told) {
    match list_of(alloc, sent) {
        Some(sent) => taken_of(alloc, &sent, text, out),
        None => out.lose(),
    }
}

fn taken_of(alloc: Global, sent: &JItems, text: &str, out: &mut Told) {
    taken(
        alloc,
        take_response(alloc, text.as_bytes(), UID, DESIRED, sent),
        out,
    );
}

fn taken(alloc: Global, came: Result<JItems, ResponseFault>, out: &mut Told) {
    match came {
        Ok(items) => out.add_value(alloc, &JVal::List(items)),
        Err(fault) => refused(alloc, &fault, out),
    }
}

fn refused(alloc: Global, fault: &ResponseFault, out: &mut Told) {
    match fault {
        ResponseFault::NotReview { path } => told(out, "NotReview", path.as_str()),
        ResponseFault::WrongUid => out.add("WrongUid"),
        ResponseFault::RemoteFailed { message } => told(out, "RemoteFailed", message.as_str()),
        ResponseFault::WrongCount { want, got } => {
            numbered(alloc, out, "WrongCount", *want);
            out.add_number(alloc, *got);
        }
        ResponseFault::WrongVersion { index } => numbered(alloc, out, "WrongVersion", *index),
        ResponseFault::ChangedIdentity { index } => numbered(alloc, out, "ChangedIdentity", *index),
        ResponseFault::NoMemory => out.lose(),
    }
}

fn told(out: &mut Told, word: &str, text: &str) {
    out.add(word);
    out.add(text);
}

fn numbered(alloc: Global, out: &mut Told, word: &str, number: u64) {
    out.add(word);
    out.add_number(alloc, number);
}

fn answers(alloc: Global, answer: Option<&str>) -> Option<Vec<Vec<u8>>> {
    let mut answers = Vec::new(alloc);
    match answer {
        Some(answer) => {
            if add_answer(alloc, &mut answers, answer) {
                Some(answers)
            } else {
                None
            }
        }
        None => Some(answers),
    }
}

// What is taken of the answer to a request without objects, if there is any, and the request.
fn exchanged(alloc: Global, answer: Option<&str>, out: &mut Told) {
    match answers(alloc, answer) {
        Some(answers) => over(
            alloc,
            &mut MemLink::new(alloc, answers, Vec::new(alloc)),
            out,
        ),
        None => out.lose(),
    }
}

fn over(alloc: Global, link: &mut MemLink, out: &mut Told) {
    if UID.is_empty() {
        return out.lose();
    }
    asked(
        alloc,
        ask(alloc, link, UID, DESIRED, &JItems::new(alloc)),
        out,
    );
    add_first(link, out);
}

fn add_first(link: &MemLink, out: &mut Told) {
    match link.made().first() {
        Some(made) => out.add_bytes(made.request()),
        None => out.lose(),
    }
}

fn asked(alloc: Global, came: Result<JItems, AskFault>, out: &mut Told) {
    match came {
        Ok(items) => taken(alloc, Ok(items), out),
        Err(AskFault::Response(fault)) => taken(alloc, Err(fault), out),
        Err(AskFault::LinkFault) => out.add("LinkFault"),
        Err(AskFault::NoMemory) => out.lose(),
    }
}
