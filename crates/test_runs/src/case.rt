//! What the lines of a case have said so far.
use std::alloc::Global;

/// The two files.
pub(crate) struct Documents {
    pub(crate) base: String,
    pub(crate) crd: String,
    pub(crate) rules: String,
    pub(crate) old: String,
}

impl Drop for Documents {
    fn drop(self) {
        let Documents {
            base: _,
            crd: _,
            rules: _,
            old: _,
        } = self;
    }
}

/// The input, and a request that isn't whole yet.
pub(crate) struct Asked {
    pub(crate) words: String,
    pub(crate) target: String,
    pub(crate) body: String,
    pub(crate) input: String,
}

impl Drop for Asked {
    fn drop(self) {
        let Asked {
            words: _,
            target: _,
            body: _,
            input: _,
        } = self;
    }
}

/// The connections that the ears have: how many, and which read and which write of each fails.
#[derive(Clone, Copy)]
pub(crate) struct Connections {
    pub(crate) count: usize,
    pub(crate) failing_read: u64,
    pub(crate) failing_write: u64,
}

/// How the outside behaves.
#[derive(Clone, Copy)]
pub(crate) struct Outside {
    pub(crate) piece: usize,
    pub(crate) copies: usize,
    pub(crate) step: usize,
    pub(crate) end: usize,
    pub(crate) failing_read: u64,
    pub(crate) failing_write: u64,
    pub(crate) failing_ears: u64,
    pub(crate) connections: Connections,
    pub(crate) last: usize,
    pub(crate) spoils_crd: bool,
    pub(crate) spoils_rules: bool,
}

/// With what a case is run again.
pub(crate) struct Again {
    pub(crate) pieces: String,
    pub(crate) faults: bool,
    pub(crate) places: bool,
}

impl Drop for Again {
    fn drop(self) {
        let Again {
            pieces: _,
            faults: _,
            places: _,
        } = self;
    }
}

/// Lines that stand once for each number from the first on and below the end; none are gathered where there is no such number.
pub(crate) struct Block {
    pub(crate) first: usize,
    pub(crate) end: usize,
    pub(crate) lines: Vec<String>,
}

impl Drop for Block {
    fn drop(self) {
        let Block {
            first: _,
            end: _,
            lines: _,
        } = self;
    }
}

/// A case.
pub struct Case {
    pub(crate) documents: Documents,
    pub(crate) asked: Asked,
    pub(crate) outside: Outside,
    pub(crate) again: Again,
    pub(crate) block: Block,
    pub(crate) times: usize,
}

impl Drop for Case {
    fn drop(self) {
        let Case {
            documents: _,
            asked: _,
            outside: _,
            again: _,
            block: _,
            times: _,
        } = self;
    }
}

impl Outside {
    /// Nothing fails.
    pub(crate) fn new() -> Outside {
        Outside {
            piece: 4_096,
            copies: 1,
            step: 0,
            end: usize::MAX,
            failing_read: u64::MAX,
            failing_write: u64::MAX,
            failing_ears: u64::MAX,
            connections: Connections {
                count: 1,
                failing_read: u64::MAX,
                failing_write: u64::MAX,
            },
            last: usize::MAX,
            spoils_crd: false,
            spoils_rules: false,
        }
    }

    /// The same, with reads of so many bytes.
    pub(crate) fn in_pieces(self, piece: usize) -> Outside {
        Outside { piece, ..self }
    }

    /// The same, with so many copies of the input, one behind another.
    pub(crate) fn repeated(self, copies: usize) -> Outside {
        Outside { copies, ..self }
    }

    /// The same, where no read gives bytes from both sides of a multiple of this number.
    pub(crate) fn parted_each(self, step: usize) -> Outside {
        Outside { step, ..self }
    }

    /// The same, with an input that ends at a place.
    pub(crate) fn ended_at(self, end: usize) -> Outside {
        Outside { end, ..self }
    }

    /// The same, where the read with this number fails.
    pub(crate) fn unread_at(self, failing_read: u64) -> Outside {
        Outside {
            failing_read,
            ..self
        }
    }

    /// The same, where the write with this number fails.
    pub(crate) fn unwritten_at(self, failing_write: u64) -> Outside {
        Outside {
            failing_write,
            ..self
        }
    }
}

fn no_documents(alloc: Global) -> Documents {
    Documents {
        base: String::new(alloc),
        crd: String::new(alloc),
        rules: String::new(alloc),
        old: String::new(alloc),
    }
}

fn nothing_asked(alloc: Global) -> Asked {
    Asked {
        words: String::new(alloc),
        target: String::new(alloc),
        body: String::new(alloc),
        input: String::new(alloc),
    }
}

impl Again {
    /// It isn't run again.
    pub(crate) fn new(alloc: Global) -> Again {
        Again {
            pieces: String::new(alloc),
            faults: false,
            places: false,
        }
    }
}

impl Block {
    /// No lines are gathered.
    pub(crate) fn new(alloc: Global) -> Block {
        Block {
            first: 0,
            end: 0,
            lines: Vec::new(alloc),
        }
    }
}

impl Case {
    /// Nothing said.
    pub fn new(alloc: Global) -> Case {
        Case {
            documents: no_documents(alloc),
            asked: nothing_asked(alloc),
            outside: Outside::new(),
            again: Again::new(alloc),
            block: Block::new(alloc),
            times: 1,
        }
    }
}
