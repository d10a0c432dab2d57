//! A block of rows.
ghost use Rattle.std.specs.Prelude.{◌≡◌, ◌==◌, ◌+◌, ◌<◌, ◌≤◌, [], ◌∷◌, ◌++◌, IfOk, IfNone, IfSome, Some, drop, insert, length, option_to_list, remove, slice_get, slice_set};
ghost use Rattle.record_store.specs.Blocks.{block_rows};
ghost use Rattle.record_store.specs.declared.row.Row.{Row as RowView};

use crate::row::Row;
use kj_value::NoMemory;
use record_region::Piece;
use std::alloc::Global;
use std::collections::VecDeque;
use std::marker::Model;
use std::mem;

/// How many rows a block has at most.
pub const BLOCK_ROWS: usize = 256;

/// Some rows that stand one behind another. It takes its memory when it is opened, and none later.
#[derive(Drop)]
pub struct Block {
    rows: VecDeque<Row>,
}

impl Model for Block {
    ghost use Rattle.std.specs.Prelude.{◌≤◌, List, length};
    ghost use Rattle.std.specs.VecDeque.{deque_capacity};
    ghost use Rattle.record_store.specs.Blocks.{block_rows};
    ghost use Rattle.record_store.specs.declared.row.Row.{Row};

    ghost Value = { List Row };

    ghost view = { λ b. b.rows.items };

    ghost invariant = { λ b. (length b.rows.items ≤ block_rows) × (block_rows ≤ deque_capacity b.rows) };
}

impl Block {
    /// A block with no rows.
    pub fn open(alloc: Global) -> Result<Block, NoMemory>
        ensures { IfOk result (λ block. block ≡ []) }
    {
        let rows = VecDeque::with_capacity(alloc, BLOCK_ROWS)?;
        Ok(Block { rows })
    }

    /// Whether it has no rows.
    pub fn is_empty(&self) -> bool
        ensures { result ≡ (length self.now == 0) }
    {
        self.rows.is_empty()
    }

    /// The row at a place.
    pub fn at(&self, place: usize) -> &Row
        requires within { place < length self.now }
        ensures { slice_get self.now place ≡ Some result.now }
    {
        &self.rows[place]
    }

    /// The rows from a place on, as far as they lie side by side.
    pub fn run(&self, place: usize) -> &[Row]
        requires within { place < length self.now }
        ensures some { 0 < length result.now }
        ensures rows { result.now ++ drop (place + length result.now) self.now ≡ drop place self.now }
    {
        let (front, back) = self.rows.as_slices();
        if place < front.len() {
            return &front[place..];
        }
        &back[place - front.len()..]
    }

    /// Puts a row in the place of another, and answers that one.
    pub fn replace(&mut self, place: usize, row: Row) -> Row
        requires within { place < length self.old }
        ensures row { slice_get self.old place ≡ Some result }
        ensures rows { self.new ≡ slice_set self.old place row }
    {
        mem::replace(&mut self.rows[place], row)
    }

    /// Gives the row at a place this piece.
    pub fn set_piece(&mut self, place: usize, piece: Piece)
        requires within { place < length self.old }
        ensures { (row : RowView) → slice_get self.old place ≡ Some row
            → self.new ≡ slice_set self.old place (record row { piece = piece }) }
    {
        self.rows[place].piece = piece;
    }

    /// Puts a row in at a place. Where the block is full, its last row goes out for it.
    pub fn put_in(&mut self, place: usize, row: Row) -> Option<Row>
        requires within { place ≤ length self.old }
        requires inside { place < block_rows }
        ensures rows { self.new ++ option_to_list result ≡ insert self.old place row }
        ensures full { IfSome result (λ _. length self.new ≡ block_rows) }
        ensures room { IfNone result (length self.old < block_rows) }
    {
        let last = self.spill();
        if self.rows.insert(place, row).is_err() {
            unreachable!()
        }
        last
    }

    // Takes the last row out of a full block.
    fn spill(&mut self) -> Option<Row>
        ensures rows { self.old ≡ self.new ++ option_to_list result }
        ensures full { IfSome result (λ _. length self.new + 1 ≡ block_rows) }
        ensures room { IfNone result (length self.new < block_rows) }
    {
        if self.rows.len() < BLOCK_ROWS {
            return None;
        }
        self.rows.pop_back()
    }

    /// Takes the row at a place out.
    pub fn take_out(&mut self, place: usize) -> Row
        requires within { place < length self.old }
        ensures row { slice_get self.old place ≡ Some result }
        ensures rows { self.new ≡ remove self.old place }
    {
        let Some(row) = self.rows.remove(place) else {
            unreachable!()
        };
        row
    }

    /// Takes the first row out.
    pub fn pop_first(&mut self) -> Row
        requires { 0 < length self.old }
        ensures { self.old ≡ result ∷ self.new }
    {
        let Some(row) = self.rows.pop_front() else {
            unreachable!()
        };
        row
    }

    /// Puts a row behind the last.
    pub fn push_last(&mut self, row: Row)
        requires { length self.old < block_rows }
        ensures { self.new ≡ self.old ++ row ∷ [] }
    {
        if self.rows.push_back(row).is_err() {
            unreachable!()
        }
    }
}
