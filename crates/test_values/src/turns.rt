//! Objects that converters turn.
use crate::spelling::{add_spelled, cut, spelled_bytes};
use crate::told::Told;
use api_calls::{OBJECT_LEVELS, Tool};
use converters::{Converter, RenameConverter, TurnFault};
use edge_io::{MemExchange, MemLink};
use kj_value::{JVal, Txt, read};
use link_converter::LinkConverter;
use std::alloc::Global;

/// The answer to a case.
pub(crate) fn answer(alloc: Global, word: u8, text: &str, out: &mut Told) {
    out.push(" ");
    match word {
        b'r' => renamed(alloc, text, out),
        _ => linked(alloc, text, out),
    }
}

// Adds what came of a turn.
fn add_turned(alloc: Global, turned: Result<JVal, TurnFault>, out: &mut Told) {
    match turned {
        Ok(y) => out.push_value(alloc, &y),
        Err(TurnFault::Refused { message }) => {
            out.push("refused: ");
            out.push(message.as_str());
        }
        Err(TurnFault::Failed) => out.push("failed"),
        Err(TurnFault::NoMemory) => out.lose(),
    }
    out.push(" / ");
}

// Adds what comes of a turn of the object.
fn add_turn<C: Converter>(
    alloc: Global,
    converter: &mut C,
    object: &str,
    to: &str,
    out: &mut Told,
) {
    let Ok(object) = read(alloc, object.as_bytes(), OBJECT_LEVELS) else {
        return out.lose();
    };
    let Some(_fields) = object.as_object() else {
        return out.lose();
    };
    add_turned(alloc, converter.turn(alloc, &object, to), out);
}

// A turn by the converter that renames a field.
fn renamed(alloc: Global, text: &str, out: &mut Told) {
    match cut(text, ' ') {
        Some((to, object)) => {
            add_turn(alloc, &mut RenameConverter::new(alloc), object, to, out);
        }
        None => out.lose(),
    }
}

fn add_answer(alloc: Global, answers: &mut Vec<Vec<u8>>, answer: &str) -> bool {
    match spelled_bytes(alloc, answer) {
        Some(bytes) => answers.push(bytes).is_ok(),
        None => false,
    }
}

// Whether each of the answers was added.
fn add_answers(alloc: Global, answers: &mut Vec<Vec<u8>>, given: &str) -> bool {
    for answer in given.split('~') {
        if !add_answer(alloc, answers, answer) {
            return false;
        }
    }
    true
}

// A converter over a link in memory that gives these answers.
fn opened(alloc: Global, given: &str) -> Option<LinkConverter<MemLink>> {
    let mut answers = Vec::new(alloc);
    if !add_answers(alloc, &mut answers, given) {
        return None;
    }
    match Txt::of(alloc, "/convert") {
        Ok(target) => Some(LinkConverter::open(
            MemLink::new(alloc, answers, Vec::new(alloc)),
            target,
        )),
        Err(_) => None,
    }
}

// Adds a turn for each answer and one more, and a `!` for each fault.
fn add_turns(
    alloc: Global,
    converter: &mut LinkConverter<MemLink>,
    to: &str,
    object: &str,
    given: &str,
    out: &mut Told,
) {
    for _ in given.split('~') {
        add_turn(alloc, converter, object, to, out);
    }
    add_turn(alloc, converter, object, to, out);
    for _ in 0..converter.count() {
        out.push("!");
    }
}

// Adds the requests that were made.
fn add_requests(alloc: Global, made: &[MemExchange], out: &mut Told) {
    for exchange in made {
        out.push(" /");
        add_spelled(alloc, out, exchange.request());
    }
}

// Adds the turns, and the requests that were made for them.
fn add_all(
    alloc: Global,
    mut converter: LinkConverter<MemLink>,
    to: &str,
    object: &str,
    given: &str,
    out: &mut Told,
) {
    add_turns(alloc, &mut converter, to, object, given, out);
    add_requests(alloc, converter.into_link().made(), out);
}

// Turns over a link in memory.
fn linked(alloc: Global, text: &str, out: &mut Told) {
    match cut(text, '~') {
        Some((to, behind)) => linked_to(alloc, to, behind, out),
        None => out.lose(),
    }
}

fn linked_to(alloc: Global, to: &str, behind: &str, out: &mut Told) {
    match cut(behind, '~') {
        Some((object, given)) => over(alloc, to, object, given, out),
        None => out.lose(),
    }
}

fn over(alloc: Global, to: &str, object: &str, given: &str, out: &mut Told) {
    match opened(alloc, given) {
        Some(converter) => add_all(alloc, converter, to, object, given, out),
        None => out.lose(),
    }
}
