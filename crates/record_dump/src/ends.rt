//! How a dump and a restoring end.

/// How a dump ends.
#[derive(Clone, Copy, Drop)]
pub enum DumpEnd {
    /// All objects were written, each as a line, and handed on.
    Done { lines: u64 },
    /// The link failed: its count of faults has risen.
    LinkFault,
    /// The output failed: its count of faults has risen.
    WriteFault,
    /// A list was answered with this code, with 404 where it isn't there, or with another form, order or length, where the code is 0.
    Answer { code: u16 },
    /// The server has forgotten the list: the token of its next page is too old.
    Expired,
    /// Memory was wanted and there was none.
    NoMemory,
}

/// How a restoring ends. Lines are counted from 1, and what was created stays.
#[derive(Clone, Copy, Drop)]
pub enum RestoreEnd {
    /// The input was read to its end: so many lines were created, and so many were there already.
    Done { created: u64, present: u64 },
    /// The link failed: its count of faults has risen.
    LinkFault,
    /// The input failed: its count of faults has risen.
    ReadFault,
    /// The line is too long, no value of 64 levels at most, or no object of the place's version with a namespace and a name.
    BadLine { line: u64 },
    /// The input ended inside of the line.
    Cut { line: u64 },
    /// More than 1,000,000 lines.
    TooMany,
    /// The line's post was answered with this code, with 404 where its resource isn't there, or with another form or length, where the
    /// code is 0.
    Answer { line: u64, code: u16 },
    /// Memory was wanted and there was none.
    NoMemory,
}
