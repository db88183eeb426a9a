//! The resources of a tree by their numbers: each is found, put last, changed or taken out by one
//! look-up, and none of the others moves.
//!
//! To callers a `Store` is the list of its resources in order of creation, in which their numbers
//! ascend; that it is a tree is its invariant. It keeps them in a table by number, and beside it
//! the numbers in order. A number whose resource has gone stays in that order for a while; where
//! more than half of them have gone, they are let go in one pass. What was taken out stays in its
//! slot of the table, unseen, and is freed later, some at each `push` and `free_some`, so that a
//! removal of many is short. The size of an instance stands in its slot too: attributes may lie in
//! memory that wasn't used for long, and a removal looks at none of them. Callers owe the
//! conditions of `push` and `replace`, and that what is taken out has nothing below it. Only `push`
//! and `overdue_numbers` fail for want of memory.
//!
//! ```text
//! let mut store = Store::new(alloc, Seeded::of(seed));
//! store.push(resource)?;
//! store.after(1) // the first resource whose number is greater than 1
//! ```
#![tactic(auto)]

mod kin_row;
mod order;
mod overdue;
mod seeded;
mod sizes;
mod slot;
mod slots;
mod store;

pub use kin_row::{KinRow, row_of, size_in_bytes};
pub use overdue::{is_first_overdue, overdue_numbers};
pub use seeded::{NumberMap, Seeded};
pub use sizes::instance_sizes;
pub use store::Store;
