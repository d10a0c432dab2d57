//! A cell: the names that hold one thing on each side, and how their values go over.
use crate::pairs::PairItems;
use kj_value::{JVal, Txt};
use struct_schema::Schema;

/// The two sides of a conversion: an object at a spoke's version, and at the hub's.
#[derive(Clone, Copy, PartialEq, Eq, Drop)]
pub enum Side {
    Spoke,
    Hub,
}

/// How a cell's values on one side match those on the other. Where all are absent they match.
#[derive(Drop)]
pub enum CellKind {
    /// One name a side: the values are equal.
    Same,
    /// One name of the spoke's: only its absence matches.
    SpokeOnly,
    /// One name of the hub's: only its absence matches.
    HubOnly,
    /// The spoke's text is the hub's first, a colon and the hub's second, which has no colon.
    Split,
    /// The values are a listed pair. A value that isn't listed shows as the other side's blank, where
    /// null means absent.
    Table {
        pairs: PairItems,
        spoke_blank: JVal,
        hub_blank: JVal,
    },
    /// The hub's whole number is so many times the spoke's. One that is no multiple shows as the
    /// quotient, rounded down.
    Scale {
        by: u32,
    },
}

/// The values at a cell's names on one side, in the order of the names.
#[derive(Drop)]
pub enum Tuple {
    Empty,
    One(Option<JVal>),
    Two(Option<JVal>, Option<JVal>),
}

/// A name of a cell, with what its side asks of the value there.
#[derive(Drop)]
pub struct Name {
    pub text: Txt,
    pub schema: Schema,
    /// Whether the object has to have the name.
    pub required: bool,
}

/// A cell's names on one side.
#[derive(Drop)]
pub enum Names {
    Empty,
    One(Name),
    Two(Name, Name),
}

/// Names of both sides that hold one thing.
pub struct Cell {
    pub spoke: Names,
    pub hub: Names,
    pub kind: CellKind,
    /// How many names of objects lead to it.
    pub depth: u32,
}

impl Drop for Cell {
    fn drop(self) {
        let Cell {
            spoke: _,
            hub: _,
            kind: _,
            depth: _,
        } = self;
    }
}
