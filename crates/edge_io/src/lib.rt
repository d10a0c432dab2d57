//! The outside: what a program reads from, writes to, takes files, connections and the time from.
//!
//! One contract holds of them all: each object counts its faults, and a call answers that it failed only where that
//! count rose in the call. An object may tell its content; objects in memory do, and the adapters over std don't. The
//! crate knows nothing of what the bytes mean.
#![tactic(auto)]

mod adapters;
mod calls;
mod clock;
mod disk_files;
mod ears;
mod files;
pub mod laws;
mod link;
mod mem_ears;
mod mem_files;
mod mem_link;
mod mem_sink;
mod mem_source;
mod real_clock;
mod sending;
mod sink;
mod source;
mod stamps;
mod sure;

pub use adapters::{StdSink, StdSource};
pub use clock::{Clock, FixedClock};
pub use disk_files::DiskFiles;
pub use ears::Ears;
pub use files::{FileFault, Files, MOST_FILE_BYTES};
pub use link::{Link, LinkFault};
pub use mem_ears::{MemClosed, MemConnection, MemEars, MemInput};
pub use mem_files::{MemFile, MemFiles, SureFiles};
pub use mem_link::{MemExchange, MemLink};
pub use mem_sink::MemSink;
pub use mem_source::MemSource;
pub use real_clock::RealClock;
pub use sending::send;
pub use sink::Sink;
pub use source::Source;
pub use stamps::stamp_of;
pub use sure::{SureSink, SureSource};

/// The outside failed. Only the object that failed can say so: its count of faults has risen.
#[derive(Clone, Copy, Drop)]
pub struct Failed;
