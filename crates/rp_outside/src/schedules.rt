//! Which calls of a device fail.
ghost use Rattle.std.specs.Prelude.{◌≡◌, ◌+◌, ◌≤◌, ◌==◌, false, true};
ghost use Rattle.std.specs.List.{list_any};
ghost use Rattle.rp_outside.specs.Forms.{fails_next, after_call};

use rp_base::Calls;
use std::marker::Model;

/// Which calls of a device fail, counted from 1, and how many calls and faults it had.
#[derive(Drop)]
pub struct Schedule {
    fails: Calls,
    calls: u64,
    faults: u64,
}

impl Model for Schedule {
    ghost use Rattle.rp_outside.specs.Forms.{Troubles};

    ghost Value = { Troubles };

    ghost view = { λ s. record { fails = s.fails; calls = s.calls; faults = s.faults } };
}

impl Schedule {
    /// None was counted yet.
    pub fn new(fails: Calls) -> Schedule
        ensures { result ≡ record { fails = fails; calls = 0; faults = 0 } }
    {
        Schedule {
            fails,
            calls: 0,
            faults: 0,
        }
    }

    /// How many faults were counted.
    pub fn faults(&self) -> u64
        ensures { result ≡ self.now.faults }
    {
        self.faults
    }

    /// Whether the next call fails.
    pub fn fails_next(&self) -> bool
        ensures { result ≡ fails_next self.now }
    {
        has_next(self.fails.as_slice(), self.calls)
    }

    /// Counts a call, and answers whether it fails.
    pub fn next_fails(&mut self) -> bool
        ensures fails { result ≡ fails_next self.old }
        ensures counted { self.new ≡ after_call self.old result }
        ensures faults { self.old.faults ≤ self.new.faults }
    {
        let fails = self.fails_next();
        if fails {
            self.count_fault();
        } else {
            self.count_call();
        }
        fails
    }

    /// Counts a call without a fault.
    pub fn count_call(&mut self)
        ensures { self.new ≡ after_call self.old false }
    {
        self.calls = self.calls.saturating_add(1);
    }

    /// Counts a call with a fault.
    pub fn count_fault(&mut self)
        ensures troubles { self.new ≡ after_call self.old true }
        ensures risen { self.old.faults ≤ self.new.faults }
    {
        self.calls = self.calls.saturating_add(1);
        self.faults = self.faults.saturating_add(1);
    }
}

/// Whether the number after this one is in the list. Past the end of a `u64` there is none.
fn has_next(numbers: &[u64], last: u64) -> bool
    ensures { result ≡ list_any (λ n. n == last + 1) numbers.now }
{
    match last.checked_add(1) {
        Some(next) => numbers.contains(&next),
        None => false,
    }
}
