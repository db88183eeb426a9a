//! The plain tree.
ghost use Rattle.std.specs.Prelude.{◌≡◌, []};

use crate::finding::{
    ae_in, channel_in, child_in, count_of_instances, cse_in, kid_in, kin_in, last_kin_in, sizes_in,
};
use m2m_names::Ty;
use m2m_value::Numbers;
use resource_list::Nodes;
use resource_model::Resource;
use std::alloc::{AllocError as OutOfMemory, Global};
use std::marker::Model;
use std::sync::ledger::Ledger;
use tree_model::{Steps, Tree, earlier, lowered_age};

/// The plain tree: the list of its resources, and a moment before which none of them is due.
#[derive(Drop)]
pub struct ListTree {
    nodes: Nodes,
    quiet: u64,
}

impl Model for ListTree {
    ghost use Rattle.std.specs.Prelude.{List};
    ghost use Rattle.std.specs.Coded.{coded_list};
    ghost use Rattle.resource_model.specs.Resource.{ResourceData};
    ghost use Rattle.resource_model.specs.Codes.{resource_code};

    ghost Value = { List ResourceData };

    ghost coded = { coded_list resource_code };

    ghost use Rattle.std.specs.Prelude.{IsTrue};
    ghost use Rattle.tree_model.specs.Tree.{are_quiet};

    ghost view = { λ t. t.nodes };

    ghost invariant = { λ t. IsTrue (are_quiet t.quiet t.nodes) };
}

impl ListTree {
    /// No resource; it takes no memory.
    pub fn new(alloc: Global) -> ListTree
        ensures { result ≡ [] }
    {
        ListTree {
            nodes: Nodes::new(alloc),
            quiet: u64::MAX,
        }
    }
}

impl Tree for ListTree {
    ghost nodes = { λ t. t };

    // It looks at each resource, and calls no counted look-up.
    ghost child_steps = { 0 };

    fn len(&self) -> u64 {
        self.nodes.len()
    }

    fn nth(&self, k: u64) -> Option<&Resource> {
        self.nodes.nth(k)
    }

    fn after(&self, number: u64) -> Option<&Resource> {
        self.nodes.after(number)
    }

    fn get(&self, number: u64) -> Option<&Resource> {
        self.nodes.look_up(number)
    }

    fn child<L: Ledger>(&self, parent: u64, name: &[u8], _steps: &mut Steps<L>) -> Option<u64> {
        child_in(self.nodes.entries(), parent, name)
    }

    fn kid(&self, parent: u64, k: u64) -> Option<u64> {
        kid_in(self.nodes.entries(), parent, k)
    }

    fn sub(&self, parent: u64, k: u64) -> Option<u64> {
        kin_in(self.nodes.entries(), Ty::Subscription, parent, k)
    }

    fn instance(&self, container: u64, newest: bool) -> Option<u64> {
        if newest {
            last_kin_in(self.nodes.entries(), Ty::ContentInstance, container)
        } else {
            kin_in(self.nodes.entries(), Ty::ContentInstance, container, 0)
        }
    }

    fn nth_instance(&self, container: u64, k: u64) -> Option<u64> {
        kin_in(self.nodes.entries(), Ty::ContentInstance, container, k)
    }

    fn instance_count(&self, container: u64) -> u64 {
        count_of_instances(self.nodes.entries(), container)
    }

    fn instance_sizes(&self, container: u64) -> u128 {
        sizes_in(self.nodes.entries(), container)
    }

    fn ae(&self, aei: &[u8]) -> Option<u64> {
        ae_in(self.nodes.entries(), aei)
    }

    fn cse(&self, csi: &[u8]) -> Option<u64> {
        cse_in(self.nodes.entries(), csi)
    }

    fn channel(&self, parent: u64) -> Option<u64> {
        channel_in(self.nodes.entries(), parent)
    }

    fn quiet_until(&self) -> u64 {
        self.quiet
    }

    fn due_numbers(&self, alloc: Global, moment: u64) -> Result<Numbers, OutOfMemory> {
        Ok(Numbers::of(self.nodes.overdue(alloc, moment, self.quiet)?))
    }

    fn insert(&mut self, resource: Resource) -> Result<(), (Resource, OutOfMemory)> {
        self.quiet = earlier(self.quiet, self.nodes.due(&resource));
        self.nodes.push(resource)
    }

    fn replace(&mut self, resource: Resource) {
        // A container that lowers their age may make its instances due earlier, though none before
        // that age.
        let own = earlier(self.quiet, self.nodes.due(&resource));
        let old = self.nodes.look_up(resource.number());
        self.quiet = earlier(own, lowered_age(old, &resource));
        self.nodes.replace(resource)
    }

    fn restamp(&mut self, number: u64, lt: u64, st: u64) {
        self.nodes.restamp(number, lt, st)
    }

    fn recount(&mut self, number: u64, left: u64) {
        self.nodes.recount(number, left)
    }

    fn remove_subtree(&mut self, number: u64) {
        self.nodes.remove_subtree(number)
    }

    fn remove_all(&mut self, numbers: &[u64]) {
        self.nodes.remove_all(numbers)
    }

    fn expire(&mut self, moment: u64) {
        self.nodes.expire(moment);
        self.quiet = self.nodes.quiet();
    }
}
