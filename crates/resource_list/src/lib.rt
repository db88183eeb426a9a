//! The resources of a tree as one list in order of creation, whose numbers ascend.
//!
//! A resource is found by binary search, after a look at its likely place. A removal is one pass in
//! place, which searches for no parent, since the list notes where that stands (`places`). Callers
//! owe the conditions of `push` and `replace`. Only `push` and `overdue` take memory.
//!
//! ```text
//! let mut nodes = Nodes::new(alloc);
//! nodes.push(resource)?;
//! nodes.remove_subtree(3)
//! ```
#![tactic(auto)]

mod nodes;
mod overdue;
mod places;
mod placing;
mod removing;

pub use nodes::Nodes;
