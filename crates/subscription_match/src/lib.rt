//! Who is told of what changed (TS-0001, 9.6.8 and 10.2.10): which subscriptions match a change,
//! what each of them is told, where it is sent, and how subscriptions that count are lowered.
//!
//! A change is told to those subscriptions under the changed resource or its parent whose criteria
//! (`enc`) look for it, in order of creation; then the deletion of a subscription is told to its
//! `su`. The tree finds the subscriptions of a resource, so that a change to which nobody has
//! subscribed costs one or two look-ups. `notes` makes the drafts of one change, and `all_notes`
//! those of an operation; `notes` and `counted_notes` count each look at a place among the
//! subscriptions of a resource as a step, and bound these. Of the drafts `spend` keeps no more than
//! what is left to each subscription that counts, and says what is left then. `aim` says where a
//! target leads. Each is exactly its definition in `specs/`, over the list of resources as it is
//! before the operation.
//!
//! Callers owe that the numbers of what an operation removes ascend. The tree that they hand in is
//! the one before the operation, for all of these calls. What is built is copied once for each
//! draft; that memory runs out leaves everything as it was.
//!
//! `first_url`, `cse_named` and `leading_cse_id` also serve requests that go on to another CSE, and
//! `reference_of` those on announced copies.
//!
//! ```text
//! let changes = Changes::of_creation(tree, resource, pushed.entries());
//! let mut drafts = all_notes(alloc, tree, home, pushed.entries(), changes)?;
//! let left = spend(alloc, tree, &mut drafts)?;
//! let dest = aim(alloc, tree, home, drafts[0].parts().target.entries())?;
//! ```
#![tactic(auto)]

mod criteria;
mod destinations;
mod drafts;
mod events;
mod items;
mod laws;
mod naming;
mod noting;
mod spending;
mod telling;
mod watching;

pub use destinations::{aim, cse_named, first_url, leading_cse_id};
pub use drafts::{Draft, DraftParts};
pub use events::EventKind;
pub use items::items_of;
pub use laws::{each_that_matches_is_told_once, what_is_kept_and_what_is_left_add_up};
pub use naming::reference_of;
pub use noting::{all_notes, counted_notes, notes};
pub use spending::{left_to, spend};
pub use std::alloc::AllocError as OutOfMemory;
