//! The requests of a drill: what a generator draws for a step, what the requests of the step say, and what is read of the texts of
//! their replies.
//!
//! The one contract: each is the value that its definition gives of the numbers that were drawn, or of the text that was
//! read. It knows nothing of a server, nor of what a reply means.
#![tactic(auto)]

// What is drawn, and what is done with it.
mod draws;
mod steps;

// What requests say, and what is read of their replies.
mod bodies;
mod replies;

pub use bodies::{HUB, NAMESPACE, SPOKE, hub_body, object_key, spoke_body, stamp, start_body};
pub use draws::{Draw, draw_step};
pub use replies::{edited, shown};
pub use steps::{Step, step_of};
