//! Records that go into a store and come out of it.
ghost use Rattle.std.specs.Prelude.{◌≡◌, length};

use crate::row::Record;
use kj_value::Txt;
use kube_meta::Key;

/// A record to be written: its key, the version of its text, and the chunks of 256 bytes that are kept
/// for it.
#[derive(Drop)]
pub struct NewRecord {
    pub key: Key,
    pub at: u8,
    pub weight: u64,
    pub bytes: Txt,
}

/// A copy of a record, with its key and its text, which is as long as the record says.
#[derive(Drop)]
pub struct StoredRecord {
    pub key: Key,
    pub record: Record,
    pub text: Txt,
    ghost sized: { length text.bytes ≡ record.len },
}

/// Some records by rising key, and how many were left behind them.
#[derive(Drop)]
pub struct StorePage {
    pub items: Vec<StoredRecord>,
    pub remaining: u64,
}
