//! What the limits of a container push out, and what is overdue in a tree (TS-0001, 9.6.6 and
//! 9.6.1.3.2).
//!
//! Callers ask `evictions` after a new instance and after a change of a container, and `overdue` at
//! an event. Each answers exactly its definition over the plain list of resources (`evicted` of
//! `specs/Limits`, `overdue_numbers` of `specs/Overdue`): numbers in order of creation. What stays
//! of a container's instances is the longest suffix, in order of creation, of those that aren't due
//! that is within the limits on their count and on the sum of their sizes; a law says that it fits,
//! and that no longer one does. Both take memory only for what goes. Where the tree knows that
//! nothing is due, no instance is looked at for its age, and none for its size unless the sum of
//! sizes has a limit.
//!
//! ```text
//! let limits = Limits::of(container); // its `mni`, `mbs` and `mia`
//! let new_size = Some(4); // of an instance that is to come
//! evictions(alloc, tree, container.number(), limits, new_size, moment)
//! ```
#![tactic(auto)]

mod evicting;
mod expiring;
mod instances;
mod laws;
mod limits;
mod outside;

pub use evicting::evictions;
pub use expiring::overdue;
pub use laws::what_stays_is_the_longest_suffix_that_fits;
pub use limits::{Limits, is_within};
pub use std::alloc::AllocError as OutOfMemory;
