//! A fixed region of memory in chunks of 256 bytes, which holds pieces of any length.
//!
//! The one contract: a region is seen as a list with a place for each chunk, which holds the bytes
//! of the piece that begins there. A piece keeps its bytes until it is freed, its chunks are its own,
//! and a put is refused exactly where the piece takes more chunks than are free. All memory is taken
//! when a region is opened.
//!
//! It knows nothing of what the bytes mean.
#![tactic(auto)]

mod chains;
mod chunks;
mod laws;
mod piece;
mod region;

pub use chunks::{CHUNK_BYTES, chunks_of};
pub use laws::{apart, every_list, numbers};
pub use piece::{Piece, RegionFull};
pub use region::Region;
