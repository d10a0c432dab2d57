//! Links that tell on a sink how many exchanges were made, on one line that is written anew, each second at most.
//!
//! The one contract: what goes over the links is what goes over those beneath, and nothing is written on the sink but numbers of exchanges
//! and, as a link is given back, what erases the line. The crate knows nothing of what is asked, nor whether the sink is a terminal.
#![tactic(auto)]

mod progress_links;
mod telling;

pub use progress_links::{ProgressLink, ProgressLinks};
