//! The resources that names, AE-IDs and CSE-IDs find, beside the list of a tree.
//!
//! `Named` has tables of names in order of creation (`Names`): of each parent those of its
//! children, and the AE-IDs and CSE-IDs of all. What a table finds is asked of the list, whether it
//! has that name: so a removal moves no name, and a name may stay for a while once its resource has
//! gone. Once half the names of a table may have gone, it is gone through once, and those that are
//! left keep their order. A child whose name tells its number, as that of an instance does that
//! nobody named, stands in no table. Callers say what comes last (`add`) and what has gone
//! (`note_gone`), and owe that the list is a tree.
//!
//! ```text
//! let mut named = Named::new(alloc, Seeded::of(seed));
//! named.add(alloc, &list, &resource)?;
//! named.child(&list, parent, b"lamp")
//! ```
#![tactic(auto)]

mod named;
mod names;

pub use named::Named;
