//! What a request is replied in bytes, at a list of the history: definitions, and no code.
//!
//! `specs/Replies.antt` says of a request, a list and a reply whether that is a reply that the one-thread server gives there, and
//! which item it enters. Who stands behind a link may be said by it without knowing how a server is built.
#![tactic(auto)]

mod about;

pub use about::About;
