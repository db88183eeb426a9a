//! A tree that counts its calls, for tests of how much of a tree a request looks at.
//!
//! A `CountedTree` passes each call of the trait on to the tree that it holds, and counts it. To
//! contracts it is that tree.
//!
//! ```text
//! let tree = CountedTree::of(IndexTree::new(alloc));
//! let found = child_named(&tree, 1, b"dev");
//! tree.calls() // 1
//! ```
#![tactic(auto)]

mod counted_tree;

pub use counted_tree::CountedTree;
