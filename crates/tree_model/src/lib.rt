//! Trees of resources: what a tree is, whatever keeps it, and how a resource in it is shown. What a
//! resource is stands in `resource_model`, whose types are handed on here; the crates plain_tree
//! and resource_tree keep trees.
//!
//! To callers a tree is the list of its resources in order of creation (`Tree::nodes`); every
//! operation is a look-up, an append, one replacement, or a removal by ancestry on that list, and
//! every definition of `specs/Tree` and `specs/Shown` takes the list and never what keeps it. A
//! tree is gone over by `for r in over(&tree)`, whose iterator is seen as the list of what is left,
//! and the instances of a container by `over_instances`. `Changes` is the list of what an operation
//! or an expiry changes, which lends the resources as they were before and are after it.
//!
//! What procedures ask is a call of the tree (children, subscriptions, instances with their count
//! and the sum of their sizes, polling channels, AE-IDs, CSE-IDs, and a moment before which nothing
//! is due), so that none of them walks.
//!
//! Callers owe the conditions of `insert` and `replace`, which `may_insert` and `may_replace` test
//! by look-ups, and that a resource which they remove stands in the tree (`stands_in`). Only
//! `insert`, `due_numbers` and what builds values fail for want of memory. Steps are counted by
//! `Steps`, on a ledger of the caller's, at no cost; who counts none asks `child_named`.
//!
//! ```text
//! let containers = over(tree).filter(|r| r.is(Ty::Container)).count();
//! let expired = is_due(tree, resource, 1_700_000_000);
//! attributes(alloc, tree, home, resource) // as they are shown, under the name of the type
//! ```
#![tactic(auto)]

mod conditions;
mod expiry;
mod laws;
mod listing;
mod placed;
mod showing;
mod steps;
mod tree;
mod typed;
mod walk;

pub use conditions::{
    has_ae, has_channel, has_child, has_cse, may_insert, may_recount, may_replace, may_restamp,
    stands_in,
};
pub use expiry::{due, due_under, earlier, is_due, lowered_age};
pub use laws::{
    a_line_goes_up_from_parent_to_parent, a_removal_takes_what_is_picked_and_what_stands_below,
    a_resource_is_named_by_its_id, a_well_formed_tree_stays_one, all_is_live_while_it_is_quiet,
    an_attribute_is_shown_as_added_or_else_as_kept, no_two_resources_share_what_stands_once,
};
pub use listing::Changes;
pub use placed::{child_at, subscription_at};
pub use resource_model::{
    ADMIN, AttrSet, Attrs, BASE, CSE_ID, CSE_TYPE, Change, Home, HomeFault, Moments, Resource,
    SERVICE_PROVIDER,
};
pub use showing::{attributes, content, members_of, own_cse_id, shown, under_type};
pub use std::alloc::AllocError as OutOfMemory;
pub use steps::{Steps, child_named};
pub use tree::Tree;
pub use typed::{of_type, resource_of_id, typed_at};
pub use walk::{Instances, Walk, over, over_instances};
