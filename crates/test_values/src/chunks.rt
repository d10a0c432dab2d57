//! Responses in chunks.
use crate::spelling::{add_spelled, spelled_bytes};
use crate::told::Told;
use chunked_bodies::{laws, with_length};
use std::alloc::Global;

/// The answer to a case: what is handed on of a response, or laws, which do nothing.
pub(crate) fn answer(alloc: Global, word: u8, text: &str, out: &mut Told) {
    match word {
        b'c' => handed_on(alloc, text, out),
        _ => {
            laws::one_response();
            laws::one_answer();
            laws::number();
            out.add("laws");
        }
    }
}

fn handed_on(alloc: Global, text: &str, out: &mut Told) {
    match spelled_bytes(alloc, text) {
        Some(response) => beside(alloc, text, &response, out),
        None => out.lose(),
    }
}

// What is handed on of a text's bytes, beside these.
fn beside(alloc: Global, text: &str, response: &[u8], out: &mut Told) {
    match handed(alloc, text) {
        Some(handed) => add_handed(alloc, &handed, response, out),
        None => out.lose(),
    }
}

fn handed(alloc: Global, text: &str) -> Option<Vec<u8>> {
    match spelled_bytes(alloc, text) {
        Some(response) => with_length(alloc, response).ok(),
        None => None,
    }
}

fn add_handed(alloc: Global, handed: &[u8], response: &[u8], out: &mut Told) {
    if handed == response {
        out.add("as it is");
    } else {
        add_spelled(alloc, out, handed);
    }
}
