//! The rights of one originator on many resources of a tree, where no rule is read twice
//! (TS-0001, 9.6.2).
//!
//! `granted_besides` answers what `granted_on` of policy_eval answers. Who asks is an `Asker`,
//! whose full form is built once. `Known` keeps what each policy gives the asker, and what each
//! container gives it on its instances, so that a policy that many resources name costs a look-up
//! for each of them. It also keeps what the long list of policies gave that was read last: where
//! the next resource has the same list, no id of it is looked up. What is kept holds for one asker
//! and for one tree as it stands; callers owe that (`IsKnown` of `specs/Known`), and that the tree
//! has the resource. Where there is no room to keep something, it is read again.
//!
//! ```text
//! let asker = Asker::of(alloc, home, b"CDev")?;
//! let mut known = Known::nothing(alloc);
//! granted_besides(tree, &asker, Op::Retrieve.bit(), resource, &mut known)
//! ```
#![tactic(auto)]

mod asker;
mod granting;
mod known;
mod rules;
mod table;

pub use asker::Asker;
pub use granting::granted_besides;
pub use known::Known;
pub use std::alloc::AllocError as OutOfMemory;
