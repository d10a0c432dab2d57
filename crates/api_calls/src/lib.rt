//! The words in which the server is asked and answers, and what they mean: refusals with their Status texts, replies, uids,
//! continue tokens, the priority of versions, and the versions of a definition as the server asks for them.
//!
//! The crate's one contract: whoever speaks of the server's history speaks of the one in `specs`. A list of items has one
//! state, a call at a list has one decision with its reply, and `laws` are what holds of every legal list. The texts that
//! the crate makes are those that `specs/Status`, `specs/Token` and `specs/Uid` define, and `read_form` reads the object
//! that a stored text spells. It knows nothing of connections, stores, threads or schemas.
#![tactic(auto)]

mod cause;
mod flags;
mod item;
pub mod laws;
mod message;
mod ranking;
mod refusal;
mod reply;
mod served;
mod status;
mod token;
mod tool;
mod uid;
mod versions;
mod why;
mod written;

pub use cause::Cause;
pub use flags::{Flags, StoredList};
pub use item::LogItem;
pub use ranking::{priority, priority_total, version_names};
pub use refusal::{Refusal, Subject};
pub use reply::Reply;
pub use served::is_served;
pub use status::{code_of, no_memory_text, status_text};
pub use token::{Token, TokenFault, number_of, one_token, read_token, write_token};
pub use tool::{NoTool, NoTools, Tool, Tools};
pub use uid::{BORN_END, UID_BYTES, uid_into, uid_of};
pub use versions::{
    AdmitFault, Admitted, ConvFault, Incoming, OBJECT_LEVELS, Versions, one_stored, one_weight,
    standing_is_read, stored_fits,
};
pub use why::Why;
pub use written::read_form;
