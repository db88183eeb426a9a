//! What a request to a resource needs, and the order in which it is refused (TS-0001, 10.2;
//! TS-0004, 7.3.3).
//!
//! The order is one list of places for all operations (`places` of `specs/Order`), each a test and
//! a status: the right of the originator (`specs/Rights`); the types of the target and of the
//! child; the content, its expiry and the policies that it names (`specs/Policies`); what stands in
//! the tree already; a limit (`specs/Creation`); and the members that a group is to have
//! (`specs/Groups`). `judge_create` and `judge_update` give the
//! status of the first that doesn't hold, or hand on what they found: the resource, the type and
//! the attributes that the content names. They change nothing. `Creation` also says which resource
//! a Create makes, as its name, its identifiers and its size are what places speak of.
//!
//! An originator is passed in its short form.
//!
//! ```text
//! let target = 1; // the CSEBase
//! let granted = may_do(Op::Create, entity, b"CDev", request, target);
//! judge_create(alloc, entity, b"CDev", request, target) // what was found, or the first refusal
//! ```
#![tactic(auto)]

mod allowed;
mod asking;
mod contents;
mod groups;
mod judging;
mod limiting;
mod membership;
mod naming;
mod policies;
mod refusing;
mod rights;
mod uniqueness;

pub use allowed::{AllowedCreate, AllowedUpdate, Links};
pub use asking::{child_ty, find};
pub use contents::expiry_for;
pub use groups::{member_named, membership_edited, membership_new};
pub use judging::{Refusal, judge_create, judge_target, judge_update};
pub use membership::Membership;
pub use naming::{new_ae_id, new_name, new_owner};
pub use rights::{is_discovery, may_do};
pub use std::alloc::AllocError as OutOfMemory;
