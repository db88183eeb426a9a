//! Numbers by names.
ghost use Rattle.std.specs.Prelude.{◌≡◌, ℕ, List, OnOk, OnErr, None, Some, true, if◌then◌else◌};
ghost use Rattle.std.specs.Str.{bytes_eq};
ghost use Rattle.tree_model.specs.Tree.{has};
ghost use Rattle.resource_names.specs.Names.{number_by};

use indexmap::IndexMap;
use resource_store::{Seeded, Store};
use std::alloc::{AllocError as OutOfMemory, Global};

/// Numbers by names, in the order in which the names came. Which names fall together hangs on the
/// seed, so that a client can't choose names that are slow to find. A name whose resource has gone
/// may stay for a while; given again meanwhile, it keeps its place.
#[derive(Drop)]
pub(crate) struct Names {
    pub(crate) numbers: IndexMap<Vec<u8>, u64, Seeded>,
    // How many resources have gone since the names of those were let go.
    gone: usize,
}

impl Names {
    /// No name; it takes no memory.
    pub(crate) fn new(alloc: Global, seeded: Seeded) -> Names
        ensures { (name : List ℕ) → number_by name result ≡ None }
    {
        Names {
            numbers: IndexMap::with_hasher(alloc, seeded),
            gone: 0,
        }
    }

    /// The number of a name, of a resource that may have gone.
    pub(crate) fn find(&self, name: &[u8]) -> Option<u64>
        ensures { result ≡ number_by name.now self.now }
    {
        self.numbers.get(name).copied()
    }

    /// Gives a name a number, in place of the one that it may have had.
    pub(crate) fn add(&mut self, alloc: Global, name: &[u8], number: u64) -> Result<(), OutOfMemory>
        ensures ok { (other : List ℕ) → OnOk result (number_by other self.new
            ≡ if bytes_eq name.now other then Some number else number_by other self.old) }
        ensures err { (other : List ℕ) →
            OnErr result (number_by other self.new ≡ number_by other self.old) }
    {
        let name = Vec::from_slice(alloc, name)?;
        self.numbers.insert(name, number)?;
        Ok(())
    }

    /// A resource that may have had a name has gone, and this list has those that are left. Once
    /// more have gone than half the names and some, the names of those that have gone are let go.
    pub(crate) fn note_gone(&mut self, list: &Store, some: usize)
        ensures { (name : List ℕ) (n : ℕ) → number_by name self.old ≡ Some n
            → has n list.now ≡ true → number_by name self.new ≡ Some n }
    {
        self.gone = self.gone.saturating_add(1);
        if self.gone > (self.numbers.len() / 2).saturating_add(some) {
            self.gone = 0;
            self.let_go(list);
        }
    }

    /// Without the names of what isn't in this list.
    pub(crate) fn let_go(&mut self, list: &Store)
        ensures { (name : List ℕ) (n : ℕ) → number_by name self.old ≡ Some n
            → has n list.now ≡ true → number_by name self.new ≡ Some n }
    {
        self.numbers.retain(|_, number| list.has(*number));
    }

    /// Whether there is no name.
    pub(crate) fn is_empty(&self) -> bool
        ensures { (name : List ℕ) → result ≡ true → number_by name self.now ≡ None }
    {
        self.numbers.is_empty()
    }
}
