//! Reading a tree of resources: Retrieve and discovery (TS-0001, 10.2.3 and 10.2.6).
//!
//! `retrieve` answers what a resource has, and, as the request wants it, what stands below it or
//! references to its children; `discover` answers the addresses of what stands below it and meets
//! the conditions of the filter. Each reply is exactly its definition, over the home and the plain
//! list of resources: what is shown is what the originator may retrieve, with all between it and
//! the target, and what is found is what it may discover. The code walks down by the children of
//! one resource after another, and stops at the limits. For one request, the labels and types of a
//! filter stand in sets (`Asked`), and what policies give the originator is kept (known_rights).
//!
//! `poll` answers a Retrieve of the poll point of a polling channel (TS-0001, 9.6.22): it gives the
//! first item of the outbox that waits for the channel, and removes it.
//!
//! Callers owe that the originator is one and that the tree has the target. The laws on what is
//! shown and found stand in retrieve_laws.
//!
//! ```text
//! let base = 1; // the CSEBase
//! let shown = retrieve(alloc, tree, home, b"CAdmin", request, base)?;
//! discover(alloc, tree, home, b"CAdmin", request, base)
//! ```
#![tactic(auto)]

mod asked;
mod conditions;
mod contents;
mod descendants;
mod discovering;
mod finding;
mod look;
mod paths;
mod polling;
mod references;
mod replies;
mod retrieving;

pub use asked::Asked;
pub use conditions::{holds, meets};
pub use discovering::discover;
pub use polling::poll;
pub use retrieving::retrieve;
pub use std::alloc::AllocError as OutOfMemory;
