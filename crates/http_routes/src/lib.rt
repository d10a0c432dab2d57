//! What a request asks for: from its method and its target to a call, or to the reason why there is none.
//!
//! The crate's one contract is that of `find_call`: for every target, a request comes to what the tables of `specs/Paths.antt`,
//! `specs/Actions.antt` and `specs/Queries.antt` say. The path is tried first, then the method, then the query, and then whether
//! the definition has the version. It knows nothing of how requests are read from bytes, of what a body holds, nor of what a
//! call is answered.
#![tactic(auto)]

mod action;
mod calls;
mod finding;
mod names;
mod parts;
mod places;
mod query;
mod resource;
mod routing;
mod words;

pub use calls::{Call, Route};
pub use routing::find_call;
