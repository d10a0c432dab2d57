//! Rows in order, in blocks: a row that comes or goes moves the rows of its block, and one row of each block behind it.
ghost use Rattle.std.specs.Prelude.{◌≡◌, ◌+◌, ◌*◌, ◌<◌, ◌≤◌, ◌++◌, [], IfOk, Some, drop, insert, length, remove, slice_get, slice_set, take};
ghost use Rattle.std.specs.List.{AllByRecursion as Each};
ghost use Rattle.record_store.specs.Blocks.{IsFull, IsGapped, IsPacked, block_rows, joined};
ghost use Rattle.record_store.specs.declared.row.Row.{Row as RowView};

use crate::block::{BLOCK_ROWS, Block};
use crate::row::Row;
use kj_value::NoMemory;
use record_region::Piece;
use std::alloc::Global;
use std::marker::Model;

/// Rows in order, up to a number of them. It takes its memory when it is opened, and none later.
#[derive(Drop)]
pub struct RowList {
    // Each but the last that has rows is full.
    blocks: Vec<Block>,
    len: usize,
    room: u64,
}

impl Model for RowList {
    ghost use Rattle.std.specs.Prelude.{◌≡◌, ◌*◌, ◌≤◌, length};
    ghost use Rattle.record_store.specs.Blocks.{IsPacked, block_rows, joined};
    ghost use Rattle.record_store.specs.Rows.{Rows};

    ghost Value = { Rows };

    ghost view = { λ a. record { room = a.room; rows = joined a.blocks.items } };

    ghost invariant = { λ a. IsPacked a.blocks.items × (a.len ≡ length (joined a.blocks.items)) × (a.len ≤ a.room)
        × (a.room ≤ block_rows * length a.blocks.items) };
}

impl RowList {
    /// A list with no rows and with room for so many.
    pub fn open(alloc: Global, room: u64) -> Result<RowList, NoMemory>
        ensures { IfOk result (λ list. list ≡ record { room = room; rows = [] }) }
    {
        let blocks = open_blocks(alloc, room as usize / BLOCK_ROWS + 1)?;
        Ok(RowList {
            blocks,
            len: 0,
            room,
        })
    }

    /// How many rows there are.
    pub fn len(&self) -> usize
        ensures count { result ≡ length self.now.rows }
        ensures room { length self.now.rows ≤ self.now.room }
    {
        self.len
    }

    /// The row at a place.
    pub fn at(&self, place: usize) -> &Row
        requires within { place < length self.now.rows }
        ensures { slice_get self.now.rows place ≡ Some result.now }
    {
        self.blocks[place / BLOCK_ROWS].at(place % BLOCK_ROWS)
    }

    /// The rows from a place on, as far as they lie side by side.
    pub fn run(&self, place: usize) -> &[Row]
        requires within { place < length self.now.rows }
        ensures some { 0 < length result.now }
        ensures rows { result.now ++ drop (place + length result.now) self.now.rows ≡ drop place self.now.rows }
    {
        self.blocks[place / BLOCK_ROWS].run(place % BLOCK_ROWS)
    }

    /// Puts a row in the place of another, and answers that one.
    pub fn replace(&mut self, place: usize, row: Row) -> Row
        requires within { place < length self.old.rows }
        ensures row { slice_get self.old.rows place ≡ Some result }
        ensures rows { self.new ≡ record self.old { rows = slice_set self.old.rows place row } }
        ensures room { length self.old.rows ≤ self.old.room }
    {
        self.blocks[place / BLOCK_ROWS].replace(place % BLOCK_ROWS, row)
    }

    /// Gives the row at a place this piece.
    pub fn set_piece(&mut self, place: usize, piece: Piece)
        requires within { place < length self.old.rows }
        ensures { (row : RowView) → slice_get self.old.rows place ≡ Some row
            → self.new ≡ record self.old { rows = slice_set self.old.rows place (record row { piece = piece }) } }
    {
        self.blocks[place / BLOCK_ROWS].set_piece(place % BLOCK_ROWS, piece);
    }

    /// Puts a row in at a place.
    pub fn insert(&mut self, place: usize, row: Row)
        requires within { place ≤ length self.old.rows }
        requires room { length self.old.rows < self.old.room }
        ensures { self.new ≡ record self.old { rows = insert self.old.rows place row } }
    {
        put_in(self.blocks.as_mut_slice(), place, row);
        self.len += 1;
    }

    /// Takes the row at a place out.
    pub fn remove(&mut self, place: usize) -> Row
        requires within { place < length self.old.rows }
        ensures row { slice_get self.old.rows place ≡ Some result }
        ensures rows { self.new ≡ record self.old { rows = remove self.old.rows place } }
    {
        let row = take_out(self.blocks.as_mut_slice(), place);
        self.len -= 1;
        row
    }
}

fn open_blocks(alloc: Global, count: usize) -> Result<Vec<Block>, NoMemory>
    ensures none { IfOk result (λ blocks. length (joined blocks.items) ≡ 0) }
    ensures packed { IfOk result (λ blocks. IsPacked blocks.items) }
    ensures count { IfOk result (λ blocks. length blocks.items ≡ count) }
{
    let mut blocks = Vec::with_capacity(alloc, count)?;
    for _ in 0..count {
        blocks.push(Block::open(alloc)?)?;
    }
    Ok(blocks)
}

// Puts a row in at a place. Each full block from there on hands its last row to the next one.
fn put_in(blocks: &mut [Block], place: usize, row: Row)
    requires packed { IsPacked blocks.old }
    requires within { place ≤ length (joined blocks.old) }
    requires room { length (joined blocks.old) < block_rows * length blocks.old }
    ensures rows { joined blocks.new ≡ insert (joined blocks.old) place row }
    ensures packed { IsPacked blocks.new }
    ensures count { length blocks.new ≡ length blocks.old }
{
    let mut at = place % BLOCK_ROWS;
    let mut row = row;
    for i in place / BLOCK_ROWS..blocks.len() {
        match blocks[i].put_in(at, row) {
            Some(last) => {
                row = last;
                at = 0;
            }
            None => return,
        }
    }
    unreachable!()
}

// Takes the row at a place out.
fn take_out(blocks: &mut [Block], place: usize) -> Row
    requires packed { IsPacked blocks.old }
    requires within { place < length (joined blocks.old) }
    ensures row { slice_get (joined blocks.old) place ≡ Some result }
    ensures rows { joined blocks.new ≡ remove (joined blocks.old) place }
    ensures packed { IsPacked blocks.new }
    ensures count { length blocks.new ≡ length blocks.old }
{
    let from = place / BLOCK_ROWS;
    let row = blocks[from].take_out(place % BLOCK_ROWS);
    close_up(blocks, from);
    row
}

// Fills a block that lacks a row with the first one of the next block, and so on.
fn close_up(blocks: &mut [Block], from: usize)
    requires within { from < length blocks.old }
    requires front { Each IsFull (take from blocks.old) }
    requires gap { IsGapped (drop from blocks.old) }
    ensures rows { joined blocks.new ≡ joined blocks.old }
    ensures packed { IsPacked blocks.new }
    ensures count { length blocks.new ≡ length blocks.old }
{
    for i in from..blocks.len() - 1 {
        if blocks[i + 1].is_empty() {
            return;
        }
        let row = blocks[i + 1].pop_first();
        blocks[i].push_last(row);
    }
}
