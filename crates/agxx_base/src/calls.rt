//! Calls that are counted, some of which are to fail.

ghost use Rattle.std.specs.Prelude.{◌≡◌, ◌≤◌, OnOk, OnErr};
ghost use Rattle.agxx_base.specs.Calls.{no_calls, failing_at, fails, after_call, counted};

use crate::Memory;
use std::alloc::Global;
use std::marker::Model;

/// The calls of one function, numbered from 1, those past 2^64 - 1 as that one, and the numbers of those that fail.
#[derive(Drop)]
pub struct Calls {
    made: u64,
    failing: Vec<u64>,
}

impl Model for Calls {
    ghost use Rattle.agxx_base.specs.Calls.{CallsState};

    ghost Value = { CallsState };

    ghost view = { λ calls. record { made = calls.made; failing = calls.failing.items } };
}

impl Calls {
    /// No call was made and none is to fail.
    pub fn new(alloc: Global) -> Calls
        ensures { result ≡ no_calls }
    {
        Calls {
            made: 0,
            failing: Vec::new(alloc),
        }
    }

    /// Lets a call fail.
    pub fn fail(&mut self, call: u64) -> Result<(), Memory>
        ensures ok { OnOk result (self.new ≡ failing_at self.old call) }
        ensures err { OnErr result (self.new ≡ self.old) }
    {
        self.failing.push(call)?;
        Ok(())
    }

    /// Counts a call, and tells whether it is to fail.
    pub fn next_fails(&mut self) -> bool
        ensures fails { result ≡ fails self.old }
        ensures counted { self.new ≡ after_call self.old }
    {
        self.made = self.made.saturating_add(1);
        self.failing.as_slice().contains(&self.made)
    }
}

/// Counts a fault, up to the counter's last value.
pub fn count_fault(faults: &mut u64)
    ensures counted { faults.new ≡ counted faults.old }
    ensures later { faults.old ≤ faults.new }
{
    *faults = faults.saturating_add(1);
}
