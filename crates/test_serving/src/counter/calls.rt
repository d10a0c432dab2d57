//! The calls of the counter of one thread. Each says what it does at every list that the counter may stand for.
ghost use Rattle.std.specs.Prelude.{◌≡◌, ◌≤◌, ◌<◌, ◌+◌, List, [], IfOk};
ghost use Rattle.api_calls.specs.Item.{Logged};
ghost use Rattle.turn_cell.specs.Turns.{StandsAfter};
ghost use Rattle.test_serving.specs.Counts.{Counts, IsReply, entered_by, total_of, amounts};

use super::{AddEnd, Counter};
use kj_value::NoMemory;
use std::alloc::Global;

impl Counter {
    /// A counter without numbers. It takes no memory.
    pub fn new(alloc: Global, limit: u64) -> Counter
        ensures { (result.limit ≡ limit) × Counts result [] }
    {
        Counter {
            limit,
            total: 0,
            list: Vec::new(alloc),
        }
    }

    /// The total.
    pub fn total(&self) -> u64
        ensures { (log : List Logged) → Counts self.now log → result ≡ total_of log }
    {
        self.total
    }

    /// A copy of the numbers.
    pub fn numbers(&self) -> Result<Vec<u64>, NoMemory>
        ensures { IfOk result (λ v. (log : List Logged) → Counts self.now log → v.items ≡ amounts log) }
    {
        Ok(self.list.clone()?)
    }

    /// Adds a number where the sum stays within the limit.
    pub fn add(&mut self, x: u64) -> AddEnd
        ensures limit { self.new.limit ≡ self.old.limit }
        ensures decides { (log : List Logged) → Counts self.old log → StandsAfter (Counts self.new) log (entered_by result x) × IsReply self.old.limit log x result }
    {
        if x > self.limit - self.total {
            return AddEnd::Full;
        }
        if self.list.reserve(1).is_err() {
            return AddEnd::NoMemory;
        }
        let next = self.total + x;
        self.list.push_reserved(x);
        self.total = next;
        AddEnd::Done(next)
    }
}
