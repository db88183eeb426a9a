//! Resources by their numbers.
ghost use Rattle.std.specs.Prelude.{◌≡◌, ◌<◌, ◌≤◌, ◌+◌, ℕ, [], ◌∷◌, ◌++◌, length, slice_get};
ghost use Rattle.std.specs.Prelude.{IsTrue, OnOk, OnErr, IfErr, IfSome, Some, option_map};
ghost use Rattle.std.specs.List.{filter_map};
ghost use Rattle.m2m_names.specs.Ids.{count_bound};
ghost use Rattle.m2m_names.specs.Stamps.{last_moment};
ghost use Rattle.resource_model.specs.Resource.{has_number};
ghost use Rattle.resource_store.specs.KinRows.{row_of};
ghost use Rattle.tree_model.specs.Tree.{at, children_of, due, has, has_counter, has_state};
ghost use Rattle.tree_model.specs.Tree.{is_tree, may_stand, next_after, recounted_at, replaced};
ghost use Rattle.tree_model.specs.Tree.{restamped_at, standing, without};

use crate::kin_row::KinRow;
use crate::order::{let_gaps_go, nth_of, place_after, put_last};
use crate::seeded::Seeded;
use crate::slots::Slots;
use resource_model::Resource;
use std::alloc::{AllocError as OutOfMemory, Global};
use std::marker::Model;
use tree_model::due_under;

/// The resources of a tree, in order of their numbers.
#[derive(Drop)]
pub struct Store {
    resources: Slots,
    // Their numbers in order, among some whose resources have gone.
    order: Vec<u64>,
    count: u64,
}

impl Model for Store {
    ghost use Rattle.std.specs.Prelude.{List};
    ghost use Rattle.std.specs.Coded.{coded_list};
    ghost use Rattle.resource_model.specs.Resource.{ResourceData};
    ghost use Rattle.resource_model.specs.Codes.{resource_code};
    ghost use Rattle.resource_store.specs.Slots.{held};
    ghost use Rattle.resource_store.specs.Store.{resources_of, HoldsTree};

    ghost Value = { List ResourceData };

    ghost coded = { coded_list resource_code };

    ghost view = { λ s. resources_of s.order.items (held s.resources.table) };

    ghost invariant = { λ s. HoldsTree s.order.items (held s.resources.table) s.count };
}

impl Store {
    /// No resource; it takes no memory.
    pub fn new(alloc: Global, seeded: Seeded) -> Store
        ensures { result ≡ [] }
    {
        Store {
            resources: Slots::new(alloc, seeded),
            order: Vec::new(alloc),
            count: 0,
        }
    }

    /// How many resources there are.
    pub fn len(&self) -> u64
        ensures value { result ≡ length self.now }
        ensures tree { IsTrue (is_tree self.now) }
    {
        self.count
    }

    /// The resource at place k in order, from 0. The last one is found without a walk.
    pub fn nth(&self, k: u64) -> Option<&Resource>
        ensures { option_map (λ r. r.now) result ≡ slice_get self.now k }
    {
        if k < self.count && self.count - k == 1 {
            if let Some(last) = self.last() {
                return Some(last);
            }
        }
        nth_of(&self.resources, &self.order, k)
    }

    // The resource of the last number, unless that one has gone.
    fn last(&self) -> Option<&Resource>
        ensures { (k : ℕ) → k + 1 ≡ length self.now
            → IfSome result (λ r. slice_get self.now k ≡ Some r.now) }
    {
        let number = self.order.last()?;
        self.resources.get(*number)
    }

    /// The first resource whose number is greater than this one.
    pub fn after(&self, number: u64) -> Option<&Resource>
        ensures value { option_map (λ r. r.now) result ≡ next_after number self.now }
        ensures tree { IsTrue (is_tree self.now) }
    {
        let place = place_after(&self.order, number);
        nth_of(&self.resources, &self.order[place..], 0)
    }

    /// The numbers of the resources in order of creation, among some whose resources have gone.
    pub fn numbers(&self) -> &[u64]
        ensures { filter_map (λ n. at n self.now) result.now ≡ self.now }
    {
        &self.order
    }

    /// The resource of a number.
    pub fn get(&self, number: u64) -> Option<&Resource>
        ensures value { option_map (λ r. r.now) result ≡ at number self.now }
        ensures tree { IsTrue (is_tree self.now) }
    {
        self.resources.get(number)
    }

    /// Whether there is a resource of a number.
    pub fn has(&self, number: u64) -> bool
        ensures { result ≡ has number self.now }
    {
        self.resources.has(number)
    }

    /// When a resource is due whose parent stands there.
    pub fn due(&self, resource: &Resource) -> Option<u64>
        ensures { result ≡ due self.now resource.now }
    {
        due_under(self.get(resource.parent()), resource)
    }

    /// Puts a resource last. Its number is greater than every other, its parent is there (or it is
    /// the CSEBase and the first), and its name, its AE-ID and its CSE-ID are free.
    pub fn push(&mut self, resource: Resource) -> Result<(), (Resource, OutOfMemory)>
        requires { IsTrue (may_stand self.old resource) }
        ensures ok { OnOk result (self.new ≡ self.old ++ resource ∷ []) }
        ensures err { OnErr result (self.new ≡ self.old) }
        ensures back { IfErr result (λ e. e.0 ≡ resource) }
    {
        let number = resource.number();
        self.resources.free_some();
        if let Err(_) = self.order.reserve(1) {
            return Err((resource, OutOfMemory));
        }
        self.resources.insert(resource)?;
        put_last(&mut self.order, number);
        self.count += 1;
        Ok(())
    }

    /// Puts a resource in the place of the one of its number, which has the same type, name,
    /// parent, AE-ID and CSE-ID.
    pub fn replace(&mut self, resource: Resource)
        requires { option_map standing (at resource.number self.old) ≡ Some (standing resource) }
        ensures { self.new ≡ replaced resource self.old }
    {
        self.resources.write_over(resource)
    }

    /// Sets the moment of the last change and the state tag of a resource that has one, in place.
    pub fn restamp(&mut self, number: u64, lt: u64, st: u64)
        requires there { IsTrue (has_state number self.old) }
        requires lt { lt ≤ last_moment }
        requires st { st < count_bound }
        ensures { self.new ≡ restamped_at number lt st self.old }
    {
        self.resources.restamp(number, lt, st)
    }

    /// Sets how many notifications are left to a subscription that counts them, in place.
    pub fn recount(&mut self, number: u64, left: u64)
        requires there { IsTrue (has_counter number self.old) }
        requires left { left < count_bound }
        ensures { self.new ≡ recounted_at number left self.old }
    {
        self.resources.recount(number, left)
    }

    /// Takes out the resource of a number, below which none stands, and tells its row. It looks at
    /// an attribute only for a size of 2^32 - 1 bytes or more. Its memory is given back later
    /// (`free_some`).
    pub fn remove_leaf(&mut self, number: u64) -> Option<KinRow>
        requires { children_of number self.old ≡ [] }
        ensures value { self.new ≡ without (has_number number) self.old }
        ensures row { result ≡ option_map row_of (at number self.old) }
    {
        let row = self.resources.take_out(number)?;
        self.count -= 1;
        let_gaps_go(&self.resources, &mut self.order, self.count, number);
        Some(row)
    }

    /// Gives back the memory of some of the resources that were taken out, as `push` does.
    pub fn free_some(&mut self)
        ensures { self.new ≡ self.old }
    {
        self.resources.free_some()
    }
}
