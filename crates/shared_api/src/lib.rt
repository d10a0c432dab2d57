//! The calls of the server for many callers: each caller has a pass, and a tool to convert with.
//!
//! The crate's one contract is `CallsOn`: what a pass had seen is a beginning of the list at which its call is decided,
//! the list goes on by the one item that the call enters, if any, and the answer is that of the one-thread server at that
//! list. Want of memory and a failing tool enter nothing. A call that may give workers something to do rings a bell for
//! them. Objects are read, converted and written outside the turn, by `call_texts`. It knows nothing of connections,
//! requests or schemas.
#![tactic(auto)]

// The core as the turn keeps it, and what a caller holds.
mod api;
mod bell;
mod cell;

// The turns.
mod enter;
mod look;
mod look_migrations;
mod look_page;
mod removing;
mod settle;
mod step;
mod writing;

// The calls.
mod crd;
mod create;
mod delete;
mod get;
mod give_back;
mod group;
mod list;
mod migrations;
mod raw;
mod replace;
mod set;
mod start;
mod trim;
mod worker;

pub use api::{Pass, SharedApi};
pub use bell::Bell;
pub use cell::{CoreBase, CoreCell};
pub use step::{TurnStep, WorkFault};
