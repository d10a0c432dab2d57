//! Connections over TCP.
//!
//! The crate's one contract is that of `Ears`: a call answers that it failed only where a count of faults rose in it, that of
//! the object itself. A connection that breaks, or on which nothing comes or goes for a minute, is a fault of its own source
//! or sink alone, and so is a request that takes longer than two minutes to come. Where there are many connections, one that waits
//! between two requests, or on which little of one comes, is given up in seconds. Nothing is told of what bytes come or go. The crate
//! knows nothing of what they mean, nor of threads.
#![tactic(auto)]

mod ears;
pub mod laws;
mod parts;
mod patience;
mod place;

pub use ears::TcpEars;
pub use parts::{CLOSING_READS, CLOSING_SECONDS, TcpClosed, TcpSink, TcpSource, WRITE_BYTES};
pub use patience::{
    CROWD, CROWDED_BYTES, CROWDED_SECONDS, IDLE_SECONDS, SLICE_SECONDS, WHOLE_SECONDS,
};
pub use place::Place;
