//! What a tree is, whatever keeps it.
ghost use Rattle.std.specs.Prelude.{◌≡◌, ◌≢◌, ℕ, ◌+◌, ◌^◌, ◌<◌, ◌≤◌, List, [], ◌∷◌, ◌++◌, length};
ghost use Rattle.std.specs.Prelude.{slice_get, IsTrue, IfOk, OnOk, OnErr, IfErr, Some, option_map};
ghost use Rattle.m2m_names.specs.Ids.{count_bound};
ghost use Rattle.m2m_names.specs.Stamps.{last_moment};
ghost use Rattle.resource_model.specs.Resource.{ResourceData, has_number};
ghost use Rattle.tree_model.specs.Tree.{at, has, child_of, children_of, subs_of, number_at};
ghost use Rattle.tree_model.specs.Tree.{instance_of, instances_of, sizes_of, ae_of, cse_of};
ghost use Rattle.tree_model.specs.Tree.{channel_of};
ghost use Rattle.tree_model.specs.Tree.{are_quiet, live, replaced, restamped_at, has_state};
ghost use Rattle.tree_model.specs.Tree.{recounted_at, has_counter};
ghost use Rattle.tree_model.specs.Tree.{without, may_stand, is_tree, standing, DoAscend};
ghost use Rattle.tree_model.specs.Tree.{next_after, overdue_numbers, without_all};

use crate::steps::Steps;
use m2m_value::Numbers;
use resource_model::Resource;
use std::alloc::{AllocError as OutOfMemory, Global};
use std::sync::ledger::Ledger;

/// A tree of resources.
pub trait Tree: Drop {
    /// The resources in order of creation.
    ghost nodes: { Self → List ResourceData };

    /// How many steps a call of `child` takes at most.
    ghost child_steps: { ℕ };

    /// How many resources there are.
    fn len(&self) -> u64
        ensures value { result ≡ length (nodes self.now) }

        // A CSEBase first, numbers ascend, each other resource comes after its parent, and names
        // of siblings, AE-IDs and CSE-IDs differ.
        ensures tree { IsTrue (is_tree (nodes self.now)) };

    /// The resource at place k in order of creation, from 0.
    fn nth(&self, k: u64) -> Option<&Resource>
        ensures { option_map (λ r. r.now) result ≡ slice_get (nodes self.now) k };

    /// The first resource, in order of creation, whose number is greater than this one.
    fn after(&self, number: u64) -> Option<&Resource>
        ensures value { option_map (λ r. r.now) result ≡ next_after number (nodes self.now) }
        ensures tree { IsTrue (is_tree (nodes self.now)) };

    /// The resource of a number.
    fn get(&self, number: u64) -> Option<&Resource>
        ensures value { option_map (λ r. r.now) result ≡ at number (nodes self.now) }
        ensures tree { IsTrue (is_tree (nodes self.now)) };

    /// The number of the child of a name.
    fn child<L: Ledger>(&self, parent: u64, name: &[u8], steps: &mut Steps<L>) -> Option<u64>
        ensures value { result ≡ child_of parent name.now (nodes self.now) }
        ensures counted { steps.old ≤ steps.new }
        ensures cost { steps.new ≤ steps.old + child_steps };

    /// The number of the child at place k in order of creation, from 0.
    fn kid(&self, parent: u64, k: u64) -> Option<u64>
        ensures value { result ≡ number_at k (children_of parent (nodes self.now)) }
        ensures tree { IsTrue (is_tree (nodes self.now)) };

    /// The same among its subscriptions.
    fn sub(&self, parent: u64, k: u64) -> Option<u64>
        ensures value { result ≡ number_at k (subs_of parent (nodes self.now)) }
        ensures tree { IsTrue (is_tree (nodes self.now)) };

    /// The number of the newest or of the oldest instance of a container.
    fn instance(&self, container: u64, newest: bool) -> Option<u64>
        ensures { result ≡ instance_of newest container (nodes self.now) };

    /// The number of the instance of a container at place k, the oldest first, from 0.
    fn nth_instance(&self, container: u64, k: u64) -> Option<u64>
        ensures value { result ≡ number_at k (instances_of container (nodes self.now)) }
        ensures tree { IsTrue (is_tree (nodes self.now)) };

    /// How many instances a container has.
    fn instance_count(&self, container: u64) -> u64
        ensures { result ≡ length (instances_of container (nodes self.now)) };

    /// What the sizes of a container's instances add up to, in bytes.
    fn instance_sizes(&self, container: u64) -> u128
        ensures value { result ≡ sizes_of container (nodes self.now) }
        ensures bound { result < 2 ^ 127 };

    /// The number of the application entity of an AE-ID.
    fn ae(&self, aei: &[u8]) -> Option<u64>
        ensures { result ≡ ae_of aei.now (nodes self.now) };

    /// The number of the remote CSE of a CSE-ID, which begins with its slash.
    fn cse(&self, csi: &[u8]) -> Option<u64>
        ensures { result ≡ cse_of csi.now (nodes self.now) };

    /// The number of the polling channel of a resource, which has at most one; of more, the first.
    fn channel(&self, parent: u64) -> Option<u64>
        ensures { result ≡ channel_of parent (nodes self.now) };

    /// A moment before which nothing is due, in seconds since 1970. It may be too early, and is
    /// never too late.
    fn quiet_until(&self) -> u64
        ensures { IsTrue (are_quiet result (nodes self.now)) };

    /// The numbers of what `expire` removes at a moment, in order of creation. No memory is taken
    /// where nothing is due.
    fn due_numbers(&self, alloc: Global, moment: u64) -> Result<Numbers, OutOfMemory>
        ensures value { IfOk result (λ n. n ≡ overdue_numbers moment (nodes self.now)) }
        ensures memory { OnErr result (overdue_numbers moment (nodes self.now) ≢ []) };

    /// Puts a resource last. Its number is greater than every other, its parent is there (or it is
    /// the CSEBase and the first), and its name, its AE-ID and its CSE-ID are free.
    fn insert(&mut self, resource: Resource) -> Result<(), (Resource, OutOfMemory)>
        requires { IsTrue (may_stand (nodes self.old) resource) }
        ensures ok { OnOk result (nodes self.new ≡ nodes self.old ++ resource ∷ []) }
        ensures err { OnErr result (nodes self.new ≡ nodes self.old) }
        ensures back { IfErr result (λ e. e.0 ≡ resource) };

    /// Puts a resource in the place of the one of its number, which has the same type, name,
    /// parent, AE-ID and CSE-ID.
    fn replace(&mut self, resource: Resource)
        requires { option_map standing (at resource.number (nodes self.old)) ≡ Some
            (standing resource) }
        ensures { nodes self.new ≡ replaced resource (nodes self.old) };

    /// Sets the moment of the last change and the state tag of a resource that has one, in place.
    fn restamp(&mut self, number: u64, lt: u64, st: u64)
        requires there { IsTrue (has_state number (nodes self.old)) }
        requires lt { lt ≤ last_moment }
        requires st { st < count_bound }
        ensures { nodes self.new ≡ restamped_at number lt st (nodes self.old) };

    /// Sets how many notifications are left to a subscription that counts them, in place.
    fn recount(&mut self, number: u64, left: u64)
        requires there { IsTrue (has_counter number (nodes self.old)) }
        requires left { left < count_bound }
        ensures { nodes self.new ≡ recounted_at number left (nodes self.old) };

    /// Removes a resource with all that stands below it.
    fn remove_subtree(&mut self, number: u64)
        requires { IsTrue (has number (nodes self.old)) }
        ensures { nodes self.new ≡ without (has_number number) (nodes self.old) };

    /// Removes the resources of these numbers, which ascend, with all that stands below them, in
    /// one pass. A number that no resource has takes nothing.
    fn remove_all(&mut self, numbers: &[u64])
        requires { DoAscend numbers.now }
        ensures { nodes self.new ≡ without_all numbers.now (nodes self.old) };

    /// Removes what is due at a moment, with all that stands below it, and finds anew when what is
    /// left is due.
    fn expire(&mut self, moment: u64)
        ensures { nodes self.new ≡ live moment (nodes self.old) };
}
