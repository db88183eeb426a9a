//! A tree with an index: it meets the same trait as the plain tree, under the same contracts, and
//! knows the children of each resource, its instances, subscriptions and polling channels, what the
//! sizes of its instances add up to, and the names, AE-IDs and CSE-IDs of all, so that what is
//! asked for costs a look-up and not a walk over all resources.
//!
//! `IndexTree` keeps the resources by their numbers (`resource_store`). Beside them stands for each
//! parent a queue of the numbers of its children, and of those of three types (`Queue`, which only
//! grows at its end), with the sum of the sizes of its instances. `kid`, `sub`, `channel`,
//! `instance`, `nth_instance`, `instance_count` and `instance_sizes` ask these. `child`, `ae` and
//! `cse` ask tables of names (`resource_names`). `quiet_until`, `due_numbers` and `expire` ask
//! moments in order (`resource_dues`). Where few of these are up to a moment, what is overdue then
//! is gathered from what they tell down to all below it (`specs/Gathering`). What goes, goes one
//! by one, each resource after all that stands below it, so that a removal looks at no other than
//! those that go. The invariant says that the list is a tree, that queues and sums are what the
//! definitions say of it (`HasKin` of `specs/Index`), that the names find its resources, and that
//! of each is told when it is due (`IsIndexed` of `specs/Indexed`).
//!
//! ```text
//! let mut tree = IndexTree::new(alloc);
//! tree.insert(resource)?;
//! let newest = tree.instance(container, true);
//! ```
#![tactic(auto)]

mod index_tree;
mod kin;
mod queue;
mod sums;

pub use index_tree::IndexTree;
pub use queue::Queue;
