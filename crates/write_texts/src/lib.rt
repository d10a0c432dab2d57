//! What the writes of the server make ready, outside any turn: creates, replaces, deletes, and an object at another version.
//!
//! Bodies are read, values converted, and the texts written that are stored and shown, so that nothing after a commit takes
//! memory. The crate's one contract is that each prepared value and each answer is what the replies' definitions say at the
//! list of the look that it was made by. It knows nothing of passes, turns or threads.
#![tactic(auto)]

// What a body asks for.
mod options;

// Values that are to be stored, with the texts that show them.
mod change;
mod mark;
mod moving;
mod prepare;
mod seal;
mod update;

// What each call prepares and tells.
mod create;
mod delete;
mod deleted;
mod replace;
mod tried;

pub use change::{Change, changing};
pub use create::{Fresh, fresh_of, ready_new, told_new};
pub use delete::{DeleteTry, Leaving, leaving_of, told_marked, told_removed};
pub use mark::prepare_mark;
pub use moving::moved;
pub use options::is_served_delete;
pub use prepare::prepare_write;
pub use replace::{ready_over, ready_release, told_over, told_release, unchanged};
pub use seal::Sealed;
pub use tried::Tried;
