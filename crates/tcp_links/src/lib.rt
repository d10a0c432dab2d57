//! Links to servers: over TCP, one connection for each exchange, and in memory.
//!
//! The one contract of `Links`: a link that is made is to the host and the port that it was asked for, has not failed and has made no
//! exchange, and what is given back is told where the object tells it. A link over TCP waits for a peer no longer than its limits say, and hands on a response that came in chunks with its
//! length (`chunked_bodies`). The crate knows nothing of what is asked, nor of threads.
#![tactic(auto)]

mod exchange;
pub mod laws;
mod limits;
mod links;
mod mem_links;
mod tcp_links;

pub use limits::{CONNECT_SECONDS, EXCHANGE_SECONDS, MOST_ANSWER_BYTES, READ_BYTES};
pub use links::Links;
pub use mem_links::{MemLent, MemLinks, MemPeer, MemReady};
pub use tcp_links::{TcpLink, TcpLinks};
