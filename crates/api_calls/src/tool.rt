//! What a definition asks of the outside, to convert an object.
ghost use Rattle.std.specs.Prelude.{◌≡◌, ℕ};

use kj_value::NoMemory;
use std::alloc::Global;

/// What a definition asks of the outside. Only the count of its faults is known, which never falls: each call that
/// takes a tool says that it leaves no smaller count.
pub trait Tool: Drop {
    ghost faults: { Self → ℕ };

    /// How many faults there were. It takes no memory.
    fn count(&self) -> u64
        ensures { result ≡ faults self.now };
}

/// The tool of a definition that asks nothing of the outside. It has no faults.
#[derive(Clone, Copy, Drop)]
pub struct NoTool;

impl Tool for NoTool {
    ghost faults = { λ _. 0 };

    fn count(&self) -> u64 {
        0
    }
}

/// What makes a tool for each worker and each connection.
pub trait Tools<T: Tool> {
    /// A new tool.
    fn make(&mut self, alloc: Global) -> Result<T, NoMemory>;
}

/// It makes a `NoTool`, and takes no memory.
#[derive(Clone, Copy, Drop)]
pub struct NoTools;

impl Tools<NoTool> for NoTools {
    fn make(&mut self, _alloc: Global) -> Result<NoTool, NoMemory> {
        Ok(NoTool)
    }
}
