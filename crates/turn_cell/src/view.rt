//! What a pass knows. No value of these types is made.
use api_calls::LogItem;
use std::collections::LinkedList;

/// A part of the whole: `top` of 2 ^ `halves` parts.
pub struct Share {
    pub top: u64,
    pub halves: u64,
}

/// What one of two passes knew before they met: the list, and its numbers.
pub struct Sight {
    pub seen: LinkedList<LogItem>,
    pub numbers: LinkedList<u64>,
}

/// Where a pass stands. Between two calls it rests or holds the turn.
pub enum Stage {
    Rest,
    /// The ticket.
    Waits(u64),
    /// The ticket, and how many items were added since the turn was taken.
    Holds(u64, u64),
    /// What the two passes knew that became one.
    Met(Sight, Sight),
}

/// What a pass knows: the base, its number, the numbers of the passes that were met into it, the list that it has
/// seen, its share and its stage.
pub struct View<B> {
    pub base: Option<B>,
    pub number: Option<u64>,
    pub met: LinkedList<u64>,
    pub seen: LinkedList<LogItem>,
    pub share: Share,
    pub stage: Stage,
}
