//! One operation on one resource, and the same operation on each member of a group (TS-0001, 10.2
//! and 10.2.7).
//!
//! `operate` gives what a request gives on the resource of a number (`resource_effect` of
//! `specs/Operations`): a Retrieve reads it, a Notify is handed on, and every other operation may
//! change something.
//!
//! `fan` gives what a request gives at the fan-out point of a group (`fan_effect_at` of
//! `specs/Fan`). Without the right on the group it is refused. Else each member that the group has
//! is asked in order, by the one function that any request to a resource is answered by, on the
//! entity that the member before left: so each is judged by its own rights, and what it changes is
//! told as that of one request. A member on another CSE isn't reached. The reply lists those of all
//! members. Where memory runs out it is told how many members have been done.
//!
//! Callers owe an originator in its short form, as the one whom the request is judged as
//! (`claimed_originator` of `specs/Rights`), and that what follows the fan-out point is names.
//!
//! ```text
//! let group = 4;
//! match fan(alloc, entity, b"CDev", request, group, &rest) {
//!     Ok(reply) => Some(reply),
//!     Err(Starved { done }) => None, // memory ran out behind so many members
//! }
//! ```
#![tactic(auto)]

mod fanning;
mod gathering;
mod members;
mod operating;

pub use fanning::{Starved, fan};
pub use operating::operate;
pub use std::alloc::AllocError as OutOfMemory;
