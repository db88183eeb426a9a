//! Announced copies (TS-0001, 9.6.26 and 10.2.18): which requests make the copies of a resource at
//! other CSEs follow it, what they carry, and where they go.
//!
//! A resource is announced to the CSEs in its `at`, and its copy has the attributes that its `aa`
//! names. A change of it makes at most one operation for each of these CSEs: a Create where the
//! resource is new, or newly announced there; an Update where one of the attributes was named that
//! copies follow; a Delete where the resource is gone, or no longer announced there. An instance is
//! announced only where its container was before the operation, since its copy stands below that of
//! the container. `copies` makes the drafts of one change, and `all_copies` those of an operation;
//! `copy_of` is the content of a Create. `copy_notes` makes items of the outbox of drafts.
//! `announces_below` tells whether a deletion is announced at all, and `lists_peers` whether any
//! change of a resource may be. Each is exactly its definition in `specs/`, over the list of
//! resources as it is before the operation.
//!
//! Callers hand in the tree before the operation. A resource without `at` costs one look-up of an
//! attribute, or two for an Update, and takes no memory; nothing else is done before the first
//! change of a resource that lists a CSE there. The CSE-IDs of a list are compared by way of a
//! sorted set, and those of a container stand in one set for a whole operation, so that the cost is
//! that of the items that are made and of the lists that are read. That memory runs out leaves
//! everything as it was.
//!
//! ```text
//! let changes = Changes::of_creation(tree, resource, pushed.entries());
//! let drafts = all_copies(alloc, tree, home, changes)?;
//! let notes = copy_notes(alloc, tree, home, drafts)?; // behind the notifications
//! ```
#![tactic(auto)]

mod announced;
mod below;
mod contents;
mod copying;
mod drafts;
mod items;
mod naming;
mod peers;

pub use announced::{announceable, announced_type};
pub use below::{announces_below, lists_peers};
pub use contents::copy_of;
pub use copying::{all_copies, copies};
pub use drafts::{CopyDraft, CopyDrafts};
pub use items::copy_notes;
pub use std::alloc::AllocError as OutOfMemory;
