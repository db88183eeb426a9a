//! The snapshot of an entity: a text that says all that the entity is, and from which an equal one
//! is opened.
//!
//! `snapshot_text` writes the head, a line for each resource in order of creation, and the lines of
//! each item of the outbox (specs/Snapshots). `open_snapshot` opens the entity whose snapshot
//! stands at the front of a text, and tells how many bytes the snapshot has; callers give it a tree
//! without a resource. It trusts nothing: what the lines say is tested as a whole
//! (entity_soundness), and a text is refused whose resources and items are those of no sound
//! entity. A refusal tells the line.
//!
//! ```text
//! let mut scratch = Scratch::new(alloc);
//! let text = snapshot_text(alloc, &entity)?;
//! let (same, len) = open_snapshot(alloc, &mut scratch, &text, home, IndexTree::new(alloc))?;
//! ```
#![tactic(auto)]

mod fault;
mod laws;
mod opening;
mod reading;
mod writing;

pub use entity_lines::LineFault;
pub use fault::SnapshotFault;
pub use laws::{a_snapshot_is_no_header, a_text_is_the_snapshot_of_one_entity};
pub use opening::open_snapshot;
pub use std::alloc::AllocError as OutOfMemory;
pub use writing::snapshot_text;
