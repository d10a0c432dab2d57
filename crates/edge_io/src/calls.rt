//! The calls of an object in memory.
ghost use Rattle.std.specs.Prelude.{◌≡◌, ◌↔◌, ◌≤◌, IsTrue, Contains};
ghost use Rattle.edge_io.specs.Calls.{one_more, IsListed};

use std::marker::Model;

/// How many calls there were, the numbers of those that are to fail, and how many failed.
#[derive(Drop)]
pub(crate) struct CallCount {
    made: u64,
    failing: Vec<u64>,
    faults: u64,
}

impl Model for CallCount {
    ghost use Rattle.edge_io.specs.Calls.{Calls};

    ghost Value = { Calls };

    ghost view = { λ c. record { made = c.made; failing = c.failing.items; faults = c.faults } };
}

impl CallCount {
    pub(crate) fn new(failing: Vec<u64>) -> CallCount
        ensures { result ≡ record { made = 0; failing = failing.items; faults = 0 } }
    {
        CallCount {
            made: 0,
            failing,
            faults: 0,
        }
    }

    pub(crate) fn made(&self) -> u64
        ensures { result ≡ self.now.made }
    {
        self.made
    }

    pub(crate) fn faults(&self) -> u64
        ensures { result ≡ self.now.faults }
    {
        self.faults
    }

    // Counts a call, and answers whether it is to fail.
    pub(crate) fn begin(&mut self) -> bool
        ensures listed { IsTrue result ↔ IsListed self.old }
        ensures counted { self.new ≡ record self.old { made = one_more self.old.made } }
    {
        let listed = self.failing.contains(&self.made);
        self.made = self.made.saturating_add(1);
        listed
    }

    // Counts a fault.
    pub(crate) fn fail(&mut self)
        ensures counted { self.new ≡ record self.old { faults = one_more self.old.faults } }
        ensures later { self.old.faults ≤ self.new.faults }
    {
        self.faults = self.faults.saturating_add(1);
    }
}
