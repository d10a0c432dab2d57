//! An item of the server's history, for types that exist in contracts alone.
use std::marker::Model;

/// An item of the server's history, with the number of the pass that added it, and how many items that pass had added
/// before. Contracts see it as `Logged`. No value of it is made.
pub struct LogItem {
    nth: u64,
}

impl Model for LogItem {
    ghost use Rattle.api_calls.specs.Item.{Logged};

    ghost Value = { Logged };

    ghost use Rattle.api_calls.specs.laws.ItemCode.{logged_code};

    ghost coded = { logged_code };

    ghost use Rattle.api_calls.specs.Item.{note, Claim};

    ghost view = { λ i. record { by = 0; nth = i.nth; item = note (Claim 0) } };
}
