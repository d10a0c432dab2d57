//! The turn lock: many callers, one value, one history.
//!
//! A `Turn` keeps one value, which stands for a list of items. A caller holds a pass. It takes the turn, and the value
//! with it, adds at most one item, and gives the value back. The crate's one contract: each pass knows which list of
//! items it has seen, and all these lists are beginnings of one. It knows the type of the items and nothing else of
//! what it keeps.
#![tactic(auto)]

mod law;
mod plays;
mod standing;
mod turn;
mod view;

pub use standing::{Names, Standing};
pub use turn::{PassOf, Turn, TurnPass};
pub use view::{Share, Sight, Stage, View};
