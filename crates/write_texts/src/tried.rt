//! How an attempt to enter what was prepared came out.

use api_calls::Reply;
use call_texts::Refused;

/// How an attempt to enter what was prepared came out.
#[derive(Drop)]
pub enum Tried {
    /// The call has this answer.
    Told(Result<Reply, Refused>),
    /// The storage version is this one, and it was prepared for another. Nothing was entered.
    Moved(u8),
}
