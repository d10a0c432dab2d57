//! Many connections beside each other, and workers beside them, over one list of items.
//!
//! The crate's one contract is that of `serve_all`: each connection that is handed out is served once by one `serve_link`,
//! on a pass of its own or on the caller's, and given back; each has a span of the list that the caller's pass has seen at
//! the end, no two share an item, and where the pass was alone it is alone again and all else is the workers', each of whom
//! has a pass of its own but for those that are told to have no thread. It knows nothing of requests, nor of where
//! connections come from.
#![tactic(auto)]

mod accepting;
mod crew;
mod gates;
mod laws;
mod link_job;
mod passes;
mod running;
mod serving;
mod showing;

pub use accepting::MOST_RUNNING;
pub use crew::TURNS_BETWEEN;
pub use gates::{MOST_PAUSE_MILLIS, MOST_TOLD_PAUSE_MILLIS, PAUSE_MILLIS};
pub use laws::{never_rises, stays_served};
pub use serving::{ServeEnd, Served, serve_all};
