//! A tree that counts its calls.
ghost use Rattle.std.specs.Prelude.{◌≡◌};

use m2m_value::Numbers;
use resource_model::Resource;
use std::alloc::{AllocError as OutOfMemory, Global};
use std::sync::atomic::{AtomicU64, Ordering};
use std::sync::ledger::Ledger;
use tree_model::{Steps, Tree};

/// A tree, and how many calls of it were made. Clauses don't see the number.
#[derive(Drop)]
pub struct CountedTree<T: Tree> {
    /// The tree.
    pub tree: T,
    calls: AtomicU64,
}

impl<T: Tree> CountedTree<T> {
    /// The tree, of which no call was made.
    pub fn of(tree: T) -> CountedTree<T>
        ensures { result.tree ≡ tree }
    {
        CountedTree {
            tree,
            calls: AtomicU64::new(0),
        }
    }

    /// How many calls were made.
    pub fn calls(&self) -> u64 {
        self.calls.load(Ordering::SeqCst)
    }

    /// The tree, one call of which is counted.
    fn counted(&self) -> &T
        ensures { result.now ≡ self.now.tree }
    {
        let _before = self.calls.fetch_add(1, Ordering::SeqCst);
        &self.tree
    }

    fn count(&self) {
        let _before = self.calls.fetch_add(1, Ordering::SeqCst);
    }
}

impl<T: Tree> Tree for CountedTree<T> {
    ghost nodes = { λ t. T.nodes t.tree };

    ghost child_steps = { T.child_steps };

    fn len(&self) -> u64 {
        self.counted().len()
    }

    fn nth(&self, k: u64) -> Option<&Resource> {
        self.counted().nth(k)
    }

    fn after(&self, number: u64) -> Option<&Resource> {
        self.counted().after(number)
    }

    fn get(&self, number: u64) -> Option<&Resource> {
        self.counted().get(number)
    }

    fn child<L: Ledger>(&self, parent: u64, name: &[u8], steps: &mut Steps<L>) -> Option<u64> {
        self.counted().child(parent, name, steps)
    }

    fn kid(&self, parent: u64, k: u64) -> Option<u64> {
        self.counted().kid(parent, k)
    }

    fn sub(&self, parent: u64, k: u64) -> Option<u64> {
        self.counted().sub(parent, k)
    }

    fn instance(&self, container: u64, newest: bool) -> Option<u64> {
        self.counted().instance(container, newest)
    }

    fn nth_instance(&self, container: u64, k: u64) -> Option<u64> {
        self.counted().nth_instance(container, k)
    }

    fn instance_count(&self, container: u64) -> u64 {
        self.counted().instance_count(container)
    }

    fn instance_sizes(&self, container: u64) -> u128 {
        self.counted().instance_sizes(container)
    }

    fn ae(&self, aei: &[u8]) -> Option<u64> {
        self.counted().ae(aei)
    }

    fn cse(&self, csi: &[u8]) -> Option<u64> {
        self.counted().cse(csi)
    }

    fn channel(&self, parent: u64) -> Option<u64> {
        self.counted().channel(parent)
    }

    fn quiet_until(&self) -> u64 {
        self.counted().quiet_until()
    }

    fn due_numbers(&self, alloc: Global, moment: u64) -> Result<Numbers, OutOfMemory> {
        self.counted().due_numbers(alloc, moment)
    }

    fn insert(&mut self, resource: Resource) -> Result<(), (Resource, OutOfMemory)> {
        self.count();
        self.tree.insert(resource)
    }

    fn replace(&mut self, resource: Resource) {
        self.count();
        self.tree.replace(resource)
    }

    fn restamp(&mut self, number: u64, lt: u64, st: u64) {
        self.count();
        self.tree.restamp(number, lt, st)
    }

    fn recount(&mut self, number: u64, left: u64) {
        self.count();
        self.tree.recount(number, left)
    }

    fn remove_subtree(&mut self, number: u64) {
        self.count();
        self.tree.remove_subtree(number)
    }

    fn remove_all(&mut self, numbers: &[u64]) {
        self.count();
        self.tree.remove_all(numbers)
    }

    fn expire(&mut self, moment: u64) {
        self.count();
        self.tree.expire(moment)
    }
}
