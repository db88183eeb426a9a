//! The numbered calls of an object in memory.
ghost use Rattle.std.specs.Prelude.{◌≡◌, ◌≤◌, is_err, is_ok, OnOk, OnErr, if◌then◌else◌};
ghost use Rattle.m2m_io.specs.Counts.{CountsFaults, fails_next, after_call, after_fault, no_calls};

use crate::Failed;
use std::marker::Model;

/// How many calls were made, which of them are to fail, and how many failed. Both counts stop at
/// `u64::MAX`.
#[derive(Debug, Drop)]
pub struct Calls {
    made: u64,
    fails: Vec<u64>,
    faults: u64,
}

impl Model for Calls {
    ghost use Rattle.m2m_io.specs.Counts as counts;

    ghost Value = { counts.Calls };

    ghost view = { λ c. record { made = c.made; fails = c.fails.items; faults = c.faults } };
}

impl Calls {
    /// No call was made yet, and those of these numbers, from 1, are to fail.
    pub fn new(fails: Vec<u64>) -> Self
        ensures { result ≡ no_calls fails.items }
    {
        Calls {
            made: 0,
            fails,
            faults: 0,
        }
    }

    /// How many calls were made, up to `u64::MAX`.
    pub fn made(&self) -> u64
        ensures { result ≡ self.now.made }
    {
        self.made
    }

    /// Whether the next call is one of those that are to fail.
    pub fn is_next_to_fail(&self) -> bool
        ensures { result ≡ fails_next self.now }
    {
        self.fails.contains(&self.made.saturating_add(1))
    }

    /// Counts a call.
    pub fn count(&mut self)
        ensures { self.new ≡ after_call self.old }
    {
        self.made = self.made.saturating_add(1);
    }

    /// Counts a call that failed.
    pub fn count_fault(&mut self)
        ensures after { self.new ≡ after_fault self.old }
        ensures count { self.old.faults ≤ self.new.faults }
    {
        self.made = self.made.saturating_add(1);
        self.faults = self.faults.saturating_add(1);
    }

    /// Counts a call, and fails where it is one of those that are to fail.
    pub fn next(&mut self) -> Result<(), Failed>
        ensures variant { is_err result ≡ fails_next self.old }
        ensures after { self.new
            ≡ (if is_ok result then after_call self.old else after_fault self.old) }
        ensures faults { CountsFaults result self.old.faults self.new.faults }
    {
        if self.is_next_to_fail() {
            self.count_fault();
            return Err(Failed);
        }
        self.count();
        Ok(())
    }
}
