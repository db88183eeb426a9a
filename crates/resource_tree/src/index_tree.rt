//! The tree with an index.
ghost use Rattle.std.specs.Prelude.{◌≡◌, [], ◌∷◌, IfOk};

use crate::kin::{Kin, count_of_kin, is_of, kin_at, kin_last};
use crate::sums::known_sum;
use m2m_names::{LAST_MOMENT, Ty};
use m2m_value::Numbers;
use resource_dues::{Dues, due_of, has_come};
use resource_model::Resource;
use resource_names::Named;
use resource_store::{Seeded, Store, instance_sizes, is_first_overdue, overdue_numbers};
use std::alloc::{AllocError as OutOfMemory, Global};
use std::marker::Model;
use std::sync::ledger::Ledger;
use tree_model::{Steps, Tree};

// Where there are more than so many times as many resources as entries up to a moment, what is
// overdue then is found by these entries. Each of them may have all levels above it looked at, and
// there are at most 32, so that a walk over all resources takes as long at least.
const PART: u64 = 32;

/// A tree that knows the children of each resource, those of three types, their names, and what the
/// sizes of instances add up to, so that none is sought.
#[derive(Drop)]
pub struct IndexTree {
    alloc: Global,
    list: Store,
    kin: Kin,
    named: Named,
    dues: Dues,
}

impl Model for IndexTree {
    ghost use Rattle.std.specs.Prelude.{List};
    ghost use Rattle.std.specs.Coded.{coded_list};
    ghost use Rattle.resource_model.specs.Resource.{ResourceData};
    ghost use Rattle.resource_model.specs.Codes.{resource_code};
    ghost use Rattle.resource_tree.specs.Indexed.{IsIndexed};

    ghost Value = { List ResourceData };

    ghost coded = { coded_list resource_code };

    ghost view = { λ t. t.list };

    ghost invariant = { λ t. IsIndexed t.list t.kin t.named t.dues };
}

impl IndexTree {
    /// No resource; it takes no memory. Its tables are those of one seed that anybody may know.
    pub fn new(alloc: Global) -> IndexTree
        ensures { result ≡ [] }
    {
        IndexTree::seeded(alloc, 0)
    }

    /// The same, with tables by a seed: nobody who doesn't know it can choose resources that are
    /// slow to find.
    pub fn seeded(alloc: Global, seed: u64) -> IndexTree
        ensures { result ≡ [] }
    {
        let seeded = Seeded::of(seed);
        IndexTree {
            alloc,
            list: Store::new(alloc, seeded),
            kin: Kin::new(alloc, seeded),
            named: Named::new(alloc, seeded),
            dues: Dues::new(alloc),
        }
    }
}

// Removals.
impl IndexTree {
    ghost use Rattle.std.specs.Prelude.{◌≡◌, [], ◌<◌, ◌^◌, IsTrue, IfSome, false, Bool};
    ghost use Rattle.std.specs.Option.{option_map_or};
    ghost use Rattle.resource_model.specs.Resource.{ResourceData, has_number};
    ghost use Rattle.tree_model.specs.Tree.{at, children_of, has, is_tree, last_number, without};
    ghost use Rattle.tree_model.specs.Tree.{without_all};

    // Removes a resource with all that stands below it.
    fn remove_one(&mut self, number: u64)
        ensures value { self.new ≡ without (has_number number) self.old }
        ensures tree { IsTrue (is_tree self.old) }
    {
        if self.is_leaf(number) {
            let _parent = self.remove_leaf(number);
        } else {
            self.remove_branch(number)
        }
    }

    // Whether nothing stands below a resource.
    fn is_leaf(&self, number: u64) -> bool
        ensures alone { IsTrue result → children_of number self.now ≡ [] }
        ensures tree { IsTrue (is_tree self.now) }
    {
        count_of_kin(&self.kin.children, number) == 0
    }

    // Removes a resource below which something stands, and all of that, the newest first.
    fn remove_branch(&mut self, number: u64)
        ensures value { self.new ≡ without (has_number number) self.old }
        ensures tree { IsTrue (is_tree self.old) }
    {
        if !self.list.has(number) {
            return;
        }
        let mut leaf = self.newest_below(number);
        while leaf != number {
            let parent = self.remove_leaf(leaf);
            leaf = self.newest_below(parent);
        }
        let _parent = self.remove_leaf(number);
    }

    // The newest child of a resource, its newest child, and so on: the last of them. Whatever takes
    // the resource takes that too.
    fn newest_below(&self, number: u64) -> u64
        requires { IsTrue (has number self.now) }
        ensures alone { children_of result self.now ≡ [] }
        ensures there { IsTrue (has result self.now) }
        ensures goes { (picks : ResourceData → Bool) → has number (without picks self.now) ≡ false
            → has result (without picks self.now) ≡ false }
        ensures tree { IsTrue (is_tree self.now) }
    {
        let mut at = number;
        while let Some(child) = self.newest_child(at) {
            at = child;
        }
        at
    }

    fn newest_child(&self, parent: u64) -> Option<u64>
        ensures value { result ≡ last_number (children_of parent self.now) }
        ensures bound { IfSome result (λ n. n < 2 ^ 64) }
        ensures tree { IsTrue (is_tree self.now) }
    {
        kin_last(&self.kin.children, parent)
    }

    // Removes a resource below which none stands. The number of its parent is told, or 0 where it
    // isn't there.
    fn remove_leaf(&mut self, number: u64) -> u64
        requires { children_of number self.old ≡ [] }
        ensures value { self.new ≡ without (has_number number) self.old }
        ensures parent { result
            ≡ option_map_or (λ (r : ResourceData). r.parent) (at number self.old) 0 }
        ensures tree { IsTrue (is_tree self.old) }
    {
        let gone = self.list.remove_leaf(number);
        let row = self.kin.remove(number, gone);
        let is_instance = is_of(row, Ty::ContentInstance);
        self.named
            .note_gone(&self.list, number, row.parent, is_instance);
        row.parent
    }

    // Where most moments stand for resources that have gone, these moments go. Some of what was
    // taken out is freed.
    fn tidy(&mut self)
        ensures { self.new ≡ self.old }
    {
        self.dues.note_gone(self.alloc, &self.list);
        self.list.free_some()
    }

    // Removes the resources of these numbers, the last of them first: what stands behind it has
    // gone then, so that the table of places lets its last go, and is never gone through.
    fn remove_several(&mut self, numbers: &[u64])
        ensures { self.new ≡ without_all numbers.now self.old }
    {
        if self.len() == 0 {
            return;
        }
        let mut left = numbers;
        while let Some((last, others)) = left.split_last() {
            self.remove_one(*last);
            left = others;
        }
    }
}

// What is due.
impl IndexTree {
    ghost use Rattle.std.specs.Prelude.{◌≡◌, ◌<◌, ◌^◌, [], ◌∷◌, IsTrue, IfSome, ℕ, Some};
    ghost use Rattle.std.specs.Prelude.{false, length, true};
    ghost use Rattle.std.specs.Option.{option_map_or};
    ghost use Rattle.tree_model.specs.Tree.{is_tree, live, next_after, overdue_numbers};
    ghost use Rattle.tree_model.specs.Tree.{resource_number};
    ghost use Rattle.tree_model.specs.Tree as tree;
    ghost use Rattle.resource_dues.specs.Dues.{due_at, IsDueLeaf};

    // Removes what is due at a moment by the entries.
    fn expire_told(&mut self, moment: u64)
        ensures { live moment self.new ≡ live moment self.old }
    {
        while self.expire_first(moment) {}
    }

    // Removes the first that the entries tell to be due, with all that stands below it.
    fn expire_first(&mut self, moment: u64) -> bool
        ensures live { live moment self.new ≡ live moment self.old }
        ensures less { IsTrue result → length self.new < length self.old }
    {
        let Some(number) = self.next_due(moment) else {
            return false;
        };
        self.remove_one(number);
        true
    }

    // Removes what is due at a moment: it looks at each resource.
    fn expire_each(&mut self, moment: u64)
        ensures { self.new ≡ live moment self.old }
    {
        let mut last = 0;
        while let Some(number) = self.number_after(last) {
            if self.is_due(number, moment) {
                self.remove_one(number);
            }
            last = number;
        }
    }

    // The first number of a resource that is greater than this one.
    fn number_after(&self, number: u64) -> Option<u64>
        ensures value { result ≡ resource_number (next_after number self.now) }
        ensures bound { IfSome result (λ n. n < 2 ^ 64) }
        ensures tree { IsTrue (is_tree self.now) }
    {
        let resource = self.list.after(number)?;
        Some(resource.number())
    }

    fn is_due(&self, number: u64, moment: u64) -> bool
        ensures { result ≡ option_map_or (tree.has_come moment) (due_at number self.now) false }
    {
        has_come(due_of(&self.list, number), moment)
    }

    fn is_due_leaf(&self, number: u64, moment: u64) -> bool
        ensures { IsTrue result → IsDueLeaf number moment self.now }
    {
        self.is_leaf(number) && has_come(due_of(&self.list, number), moment)
    }

    // The number of what is overdue at a moment, where that is one resource.
    fn only_overdue(&self, moment: u64) -> Option<u64>
        ensures { (n : ℕ) → result ≡ Some n → overdue_numbers moment self.now ≡ n ∷ [] }
    {
        if !self.dues.whole {
            return None;
        }
        let number = self.dues.sole(moment)?;
        if !self.is_due_leaf(number, moment) {
            return None;
        }
        Some(number)
    }

    // The number of the first that the entries tell to be due at a moment, if one is.
    fn next_due(&mut self, moment: u64) -> Option<u64>
        ensures same { self.new ≡ self.old }
        ensures due { (n : ℕ) → result ≡ Some n
            → option_map_or (tree.has_come moment) (due_at n self.old) false ≡ true }
    {
        self.dues.next_due(&self.list, moment)
    }

    // Whether nothing is due at a moment, as far as the entries tell.
    fn is_quiet_at(&self, moment: u64) -> bool
        ensures live { IsTrue result → live moment self.now ≡ self.now }
        ensures none { IsTrue result → overdue_numbers moment self.now ≡ [] }
    {
        self.dues.whole && moment < self.dues.quiet()
    }

    // Where some entries may be missing, they are made anew.
    fn refresh(&mut self)
        ensures { self.new ≡ self.old }
    {
        self.dues.refresh(self.alloc, &self.list)
    }
}

// What is overdue, by the entries.
impl IndexTree {
    ghost use Rattle.std.specs.Prelude.{◌≡◌, ◌≢◌, ◌<◌, [], IsTrue, IfOk, IfSome, OnOk, OnErr};
    ghost use Rattle.m2m_names.specs.Stamps.{last_moment};
    ghost use Rattle.tree_model.specs.Tree.{has, is_tree, overdue_numbers, Gathers};
    ghost use Rattle.resource_store.specs.Overdue.{is_overdue};
    ghost use Rattle.resource_tree.specs.Gathering as spec;

    // The numbers of what is overdue at a moment, where the entries tell it and few are up to it. No
    // other resource is looked at.
    fn told_overdue(&self, alloc: Global, moment: u64) -> Result<Option<Vec<u64>>, OutOfMemory>
        ensures value { IfOk result (λ found. IfSome found
            (λ v. v.items ≡ overdue_numbers moment self.now)) }
        ensures memory { OnErr result (overdue_numbers moment self.now ≢ []) }
    {
        if !self.dues.whole || !self.are_few_told(moment) {
            return Ok(None);
        }
        let told = self.gather_told(alloc, &self.dues, moment)?;
        let Some(found) = told else {
            return Ok(None);
        };
        let mut numbers = found;
        numbers.sort_unstable();
        numbers.dedup();
        Ok(Some(numbers))
    }

    // Whether there are few entries up to a moment, among so many resources.
    fn are_few_told(&self, moment: u64) -> bool
        ensures { IsTrue result → moment < last_moment }
    {
        if LAST_MOMENT <= moment {
            return false;
        }
        let mut left = self.list.len() / PART;
        let mut entries = self.dues.moments.iter();
        while let Some(told) = entries.next() {
            if moment < told.0 {
                return true;
            }
            if left == 0 {
                return false;
            }
            left -= 1;
        }
        true
    }

    // The numbers of what is overdue, of those that the entries up to a moment tell. A resource that
    // several of them tell is gathered for each: it gives up where there are more numbers than
    // resources.
    fn gather_told(
        &self,
        alloc: Global,
        dues: &Dues,
        moment: u64,
    ) -> Result<Option<Vec<u64>>, OutOfMemory>
        requires { IsTrue (is_tree self.now) }
        ensures ok { IfOk result (λ found. IfSome found
            (λ v. spec.GathersTold moment dues.now.moments.keys self.now v.items)) }
        ensures memory { OnErr result (overdue_numbers moment self.now ≢ []) }
    {
        let mut numbers = Vec::new(alloc);
        let mut entries = dues.moments.iter();
        while let Some(entry) = entries.next() {
            if moment < entry.0 {
                return Ok(Some(numbers));
            }
            if numbers.len() as u64 > self.len() {
                return Ok(None);
            }
            self.gather_first(entry.1, moment, &mut numbers)?;
        }
        Ok(Some(numbers))
    }

    // Gathers the number of a resource that is due, and those of all that stands below it. Where it
    // stands under a resource that is overdue, it gathers none: they are gathered with that one.
    fn gather_first(
        &self,
        number: u64,
        moment: u64,
        numbers: &mut Vec<u64>,
    ) -> Result<(), OutOfMemory>
        ensures ok { OnOk result
            (spec.GathersFirst moment number self.now numbers.old.items numbers.new.items) }
        ensures memory { OnErr result (IsTrue (is_overdue moment self.now number)) }
    {
        if is_first_overdue(&self.list, number, moment) {
            self.gather(number, numbers)?;
        }
        Ok(())
    }

    // Puts the numbers of a resource and of all that stands below it behind others.
    fn gather(&self, number: u64, numbers: &mut Vec<u64>) -> Result<(), OutOfMemory>
        requires { IsTrue (has number self.now) }
        ensures { OnOk result (Gathers number self.now numbers.old.items numbers.new.items) }
    {
        numbers.push(number)?;
        for place in 0..self.len() {
            let Some(kid) = self.kid(number, place) else {
                return Ok(());
            };
            self.gather(kid, numbers)?;
        }
        Ok(())
    }
}

fn one_number(alloc: Global, number: u64) -> Result<Numbers, OutOfMemory>
    ensures { IfOk result (λ n. n ≡ number ∷ []) }
{
    let mut numbers = Vec::new(alloc);
    numbers.push(number)?;
    Ok(Numbers::of(numbers))
}

impl Tree for IndexTree {
    ghost nodes = { λ t. t };

    // It looks a name up once.
    ghost child_steps = { 1 };

    fn len(&self) -> u64 {
        self.list.len()
    }

    fn nth(&self, k: u64) -> Option<&Resource> {
        self.list.nth(k)
    }

    fn after(&self, number: u64) -> Option<&Resource> {
        self.list.after(number)
    }

    fn get(&self, number: u64) -> Option<&Resource> {
        self.list.get(number)
    }

    fn child<L: Ledger>(&self, parent: u64, name: &[u8], steps: &mut Steps<L>) -> Option<u64> {
        steps.tick();
        self.named.child(&self.list, parent, name)
    }

    fn kid(&self, parent: u64, k: u64) -> Option<u64> {
        kin_at(&self.kin.children, parent, k)
    }

    fn sub(&self, parent: u64, k: u64) -> Option<u64> {
        kin_at(&self.kin.subs, parent, k)
    }

    fn instance(&self, container: u64, newest: bool) -> Option<u64> {
        if newest {
            kin_last(&self.kin.instances, container)
        } else {
            kin_at(&self.kin.instances, container, 0)
        }
    }

    fn nth_instance(&self, container: u64, k: u64) -> Option<u64> {
        kin_at(&self.kin.instances, container, k)
    }

    fn instance_count(&self, container: u64) -> u64 {
        count_of_kin(&self.kin.instances, container)
    }

    fn instance_sizes(&self, container: u64) -> u128 {
        if let Some(sum) = known_sum(&self.kin.sums, container) {
            return sum;
        }
        if count_of_kin(&self.kin.instances, container) == 0 {
            return 0;
        }
        instance_sizes(&self.list, container)
    }

    fn ae(&self, aei: &[u8]) -> Option<u64> {
        self.named.ae(&self.list, aei)
    }

    fn cse(&self, csi: &[u8]) -> Option<u64> {
        self.named.cse(&self.list, csi)
    }

    fn channel(&self, parent: u64) -> Option<u64> {
        kin_at(&self.kin.channels, parent, 0)
    }

    fn quiet_until(&self) -> u64 {
        if self.dues.whole {
            self.dues.quiet()
        } else {
            0
        }
    }

    fn due_numbers(&self, alloc: Global, moment: u64) -> Result<Numbers, OutOfMemory> {
        if self.is_quiet_at(moment) {
            return Ok(Numbers::of(Vec::new(alloc)));
        }
        if let Some(number) = self.only_overdue(moment) {
            return one_number(alloc, number);
        }
        if let Some(numbers) = self.told_overdue(alloc, moment)? {
            return Ok(Numbers::of(numbers));
        }
        Ok(Numbers::of(overdue_numbers(alloc, &self.list, moment)?))
    }

    fn insert(&mut self, resource: Resource) -> Result<(), (Resource, OutOfMemory)> {
        if let Err(_) = self.named.add(self.alloc, &self.list, &resource) {
            return Err((resource, OutOfMemory));
        }
        let moment = self.list.due(&resource);
        if let Err(_) = self.dues.add(moment, resource.number()) {
            return Err((resource, OutOfMemory));
        }
        if let Err(_) = self.kin.add(self.alloc, &self.list, &resource) {
            return Err((resource, OutOfMemory));
        }
        match self.list.push(resource) {
            Ok(()) => Ok(()),
            Err((resource, fault)) => {
                self.kin.take_back(&self.list, &resource);
                Err((resource, fault))
            }
        }
    }

    fn replace(&mut self, resource: Resource) {
        self.kin.replace(&self.list, &resource);
        self.dues.replace(&self.list, &resource);
        self.list.replace(resource)
    }

    fn restamp(&mut self, number: u64, lt: u64, st: u64) {
        self.list.restamp(number, lt, st)
    }

    fn recount(&mut self, number: u64, left: u64) {
        self.list.recount(number, left)
    }

    fn remove_subtree(&mut self, number: u64) {
        self.remove_one(number);
        self.tidy()
    }

    fn remove_all(&mut self, numbers: &[u64]) {
        self.remove_several(numbers);
        self.tidy()
    }

    fn expire(&mut self, moment: u64) {
        self.refresh();
        self.expire_told(moment);
        self.tidy();
        if !self.is_quiet_at(moment) {
            self.expire_each(moment);
        }
    }
}
