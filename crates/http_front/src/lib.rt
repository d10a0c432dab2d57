//! The front of the server: one connection's requests become calls on a pass, and their answers responses.
//!
//! The crate's one contract is that of `serve_link`: the requests are those that the input spells, in order; each is answered
//! as the one-thread server answers it at the list that the pass then sees (`specs/Steps.antt`), the pass's new items are those
//! that its requests enter, and what is written is the responses. `serve_one` is one step of it, and
//! `serve_requests` all of them over an inbox of the caller's. The crate knows nothing of how
//! requests are read from bytes, of what a call does, nor of where connections come from.
#![tactic(auto)]

mod answer;
mod call;
mod fault;
pub mod laws;
mod link;
mod one;
mod reply;

pub use link::{End, serve_link, serve_requests};
pub use one::{OneEnd, serve_one};
