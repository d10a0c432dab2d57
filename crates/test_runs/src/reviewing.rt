//! A converter that answers by the rules of a definition, as a line of `review` does.
use crate::case::Documents;
use crd_versions::{VersionSet, load};
use kj_value::NoMemory;
use review_batch::{ReviewFault, answer};
use std::alloc::Global;

/// Whether the line has such a converter.
pub(crate) fn is_ruled(words: &str) -> bool {
    words.contains(" --converter http://rules")
}

// The body of the request of a review.
fn body_of(request: &[u8]) -> Option<&str> {
    let Ok(text) = str::from_utf8(request) else {
        return None;
    };
    let Some((head, body)) = text.split_once("\r\n\r\n") else {
        return None;
    };
    if head.starts_with("POST /convert HTTP/1.1\r\n") {
        Some(body)
    } else {
        None
    }
}

// A response of that code.
fn response(alloc: Global, code: &str, body: &str) -> Result<Vec<u8>, NoMemory> {
    let len = body.len();
    let text = format!(in alloc; "HTTP/1.1 {code}\r\nContent-Length: {len}\r\n\r\n{body}")?;
    Ok(text.as_bytes().to_vec(alloc)?)
}

// The response to a review, by a definition.
fn reviewed(alloc: Global, set: &VersionSet, review: &str) -> Result<Vec<u8>, NoMemory> {
    match answer(alloc, set, review.as_bytes()) {
        Ok(text) => response(alloc, "200 OK", text.as_str()),
        Err(ReviewFault::NotReview { path: _ }) => response(alloc, "400 Bad Request", ""),
        Err(ReviewFault::NoMemory) => Err(NoMemory),
    }
}

// The response to a request, by the definition and the rules of two texts.
fn responded(alloc: Global, crd: &str, rules: &str, request: &[u8]) -> Result<Vec<u8>, NoMemory> {
    let Some(review) = body_of(request) else {
        return response(alloc, "404 Not Found", "");
    };
    let Ok(set) = load(alloc, crd.as_bytes(), rules.as_bytes()) else {
        return response(alloc, "500 Internal Server Error", "");
    };
    let came = reviewed(alloc, &set, review);
    drop(set);
    came
}

/// A converter by rules, where it was asked for at its host and port.
#[derive(Clone, Copy, Drop)]
pub(crate) struct Reviewer<'a> {
    rules: Rules<'a>,
    is_there: bool,
}

impl<'a> Reviewer<'a> {
    /// What it answers.
    pub(crate) fn respond(&self, alloc: Global, request: &[u8]) -> Result<Vec<u8>, NoMemory> {
        if self.is_there {
            responded(alloc, self.rules.crd, self.rules.rules, request)
        } else {
            response(alloc, "404 Not Found", "")
        }
    }
}

/// The two files by which a converter answers.
#[derive(Clone, Copy, Drop)]
pub(crate) struct Rules<'a> {
    crd: &'a str,
    rules: &'a str,
}

impl<'a> Rules<'a> {
    /// Those of a case.
    pub(crate) fn of(documents: &'a Documents) -> Rules<'a> {
        Rules {
            crd: documents.crd.as_str(),
            rules: documents.rules.as_str(),
        }
    }

    /// The converter at a host and a port.
    pub(crate) fn at(self, host: &str, port: u16) -> Reviewer<'a> {
        Reviewer {
            rules: self,
            is_there: host == "rules" && port == 8081,
        }
    }
}
