//! A drill of the server: a drawn history of creates, edits, deletes, switches of the storage version and migrations, and the
//! counts of the replies.
//!
//! The crate's one contract is `Tells`: the calls are those that a generator draws, one after another on a server to which
//! nothing has happened and that no other calls; each has the reply of the one-thread server at the history that the calls
//! before it left; and what is told is counted from these replies alone. Where memory is wanted, in whichever call, nothing
//! is told. It knows nothing of how a call is answered, nor of what the definition means.
#![tactic(auto)]

// What is counted of replies.
mod counts;

// The requests, and the turns of the worker.
mod calls;
mod settings;
mod switching;
mod worker;

// The steps, and what is told of them.
mod drilling;
mod telling;

pub use drilling::drill;
