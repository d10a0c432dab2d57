//! A client of a server of the Kubernetes API: a page of a list, a get, a put and a post, each one exchange over a link.
//!
//! The one contract: each call makes one exchange, of the request that `specs/Calls.antt` gives it, and answers what its bytes come
//! to by `specs/Answers.antt` and `specs/Forms.antt`: the body of a success that has its form, or why there is none. Where the other
//! end tells that it is a server with a known history, each exchange is one request that is answered at that history (`Made` in
//! `specs/Far.antt`).
//!
//! It knows nothing of what a client does with objects, nor of what a server answers.
#![tactic(auto)]

mod answer;
mod asking;
mod buffer;
mod calls;
mod details;
mod draft;
mod end;
mod far;
mod fields;
mod laws;
mod objects;
mod page_form;
mod plain;
mod reading;
mod targets;

pub use buffer::{ANSWER_LEVELS, ResponseBuffer};
pub use calls::{get_one, list_page, post_one, put_one};
pub use end::{ListPage, WireEnd};
pub use far::{Far, Serving};
pub use laws::numbers;
pub use place::{Place, PlaceFault, read_place};
pub use plain::{NoServer, PlainFar};
pub use reading::{KeyTexts, key_texts, number_text};
