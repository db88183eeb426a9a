//! The plain tree: the list of its resources in order of creation, which answers most of what is
//! asked by a walk of its own. It is the body that says what a tree is; `tree_model` has the trait
//! and all definitions.
//!
//! `ListTree` keeps its list (`resource_list`) with a moment before which nothing is due. Callers
//! owe the conditions of `insert` and `replace`. Only an insert takes memory.
//!
//! ```text
//! let mut tree = ListTree::new(alloc);
//! let fits = may_insert(&tree, &resource);
//! tree.len()
//! ```
#![tactic(auto)]

mod finding;
mod list_tree;

pub use finding::{is_ae, is_child, is_cse};
pub use list_tree::ListTree;
