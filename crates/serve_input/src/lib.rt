//! The requests of one input, answered by a server that no other calls, with turns of one worker after each answer.
//!
//! The crate's one contract is that of `serve_input`: what was written is what a one-thread server answers to the requests that the
//! input spells, beginning with nothing entered, with so many turns of a worker after each; each answer was handed on before anything
//! was read but what came with its request; and where memory is wanted for the server nothing was read or written. It knows nothing of
//! how a request is read, routed and answered, of how a turn is decided, nor of where definitions and streams come from.
#![tactic(auto)]

mod conversing;

pub use conversing::{PipeEnd, serve_input};
