//! Why a request is refused, in words for whoever sent it.
//!
//! What is told is a function of the home, the message and the status of its refusal, and of
//! nothing else: no resource, policy or owner is looked at, so that whoever is refused learns
//! nothing that the status doesn't tell. Where a status has several causes that turn on the CSE,
//! those are told that the request leaves.
//!
//! `causes` gives the causes of a status that a request leaves, each a row of one table: the status,
//! what the request has to be, and the words. `content_fault` gives what is wrong with its content
//! where that may be why, and `reason_of` the text of all of this. What is no request at all has a
//! text by its fault: `reason_of_binding` for a message of HTTP, `reason_of_member` for an object of
//! JSON, and `words_of_value` for what is no JSON.
//!
//! ```text
//! let text = reason_of(alloc, home, request, Rsc::BadRequest)?; // `missing attribute api`
//! let text = reason_of_binding(alloc, &fault)?; // `missing X-M2M-RI`
//! ```
#![tactic(auto)]

mod cause;
mod content;
mod facts;
mod laws;
mod naming;
mod phrase;
mod telling;

pub use cause::Cause;
pub use content::content_fault;
pub use laws::{nothing_is_told_of_success, what_is_told_has_the_status, what_is_told_is_printed};
pub use phrase::{reason_of_binding, reason_of_member, words_of_value};
pub use std::alloc::AllocError as OutOfMemory;
pub use telling::{causes, reason_of};
