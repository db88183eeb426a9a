//! Numbers in ascending order.
ghost use Rattle.std.specs.Prelude.{◌≡◌, ◌++◌, [], ◌∷◌, OnOk, OnErr, IsTrue, nat_lt, length};
ghost use Rattle.std.specs.Prelude.{slice_get, Some, MatchOption};
ghost use Rattle.std.specs.List.{list_all};
ghost use Rattle.resource_tree.specs.Queue.{without_number};

use std::alloc::{AllocError as OutOfMemory, Global};
use std::collections::VecDeque;
use std::marker::Model;

/// Numbers that ascend. They come at the end and mostly go at the front.
#[derive(Drop)]
pub struct Queue {
    numbers: VecDeque<u64>,
}

impl Model for Queue {
    ghost use Rattle.std.specs.Prelude.{List, ℕ};
    ghost use Rattle.tree_model.specs.Tree.{DoAscend};

    ghost Value = { List ℕ };

    ghost view = { λ q. q.numbers.items };

    ghost invariant = { λ q. DoAscend q.numbers.items };
}

impl Queue {
    /// No number; it takes no memory.
    pub fn new(alloc: Global) -> Queue
        ensures { result ≡ [] }
    {
        Queue {
            numbers: VecDeque::new(alloc),
        }
    }

    /// How many there are.
    pub fn len(&self) -> u64
        ensures { result ≡ length self.now }
    {
        self.numbers.len() as u64
    }

    /// The number at a place, from 0.
    pub fn get(&self, k: u64) -> Option<u64>
        ensures { result ≡ slice_get self.now k }
    {
        self.numbers.get(k as usize).copied()
    }

    /// Puts a number last, which is greater than all.
    pub fn push(&mut self, number: u64) -> Result<(), OutOfMemory>
        requires { IsTrue (list_all (λ m. nat_lt m number) self.old) }
        ensures ok { OnOk result (self.new ≡ self.old ++ number ∷ []) }
        ensures err { OnErr result (self.new ≡ self.old) }
    {
        self.numbers.push_back(number)?;
        Ok(())
    }

    /// Takes a number out, where it is there. Where many go at once, most are the last.
    pub fn remove(&mut self, number: u64)
        ensures { self.new ≡ without_number number self.old }
    {
        let last = self.numbers.len().saturating_sub(1);
        if self.is_at(last, number) {
            let _last = self.numbers.pop_back();
            return;
        }
        if let Some(at) = self.place_of(number) {
            let _gone = self.numbers.remove(at);
        }
    }

    // Where a number stands. One that goes alone mostly stands at the front, so that is tried
    // first.
    fn place_of(&self, number: u64) -> Option<usize>
        ensures { MatchOption result (without_number number self.now ≡ self.now)
            (λ at. slice_get self.now at ≡ Some number) }
    {
        if self.is_at(0, number) {
            return Some(0);
        }
        match self.numbers.binary_search(&number) {
            Ok(at) => Some(at),
            Err(_) => None,
        }
    }

    fn is_at(&self, at: usize, number: u64) -> bool
        ensures { IsTrue result → slice_get self.now at ≡ Some number }
    {
        match self.numbers.get(at) {
            Some(own) => *own == number,
            None => false,
        }
    }
}
