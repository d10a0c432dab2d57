//! A small definition of two versions, against which the promises of `Versions` are tried: group `example.com`, plural
//! `crontabs`, kind `CronTab`, with `v1`, the hub, where the one property is `host`, and `v1beta1`, which is stored, where
//! it is `address`.
//!
//! The crate's one contract: `TwoNames` is an implementation of `Versions` whose relations hold of something. It admits a
//! narrow form of documents, a name and the one property, and refuses every other. An object of it, its group and a whole
//! history with a migration are spelled out. It knows nothing of schemas, rules or stores.
#![tactic(auto)]

mod admission;
mod example;
mod forms;
mod parts;
mod reading;
mod settings;
mod two_names;

pub use example::{has_a_group, has_a_history, has_an_object};
pub use parts::Version;
pub use two_names::TwoNames;
