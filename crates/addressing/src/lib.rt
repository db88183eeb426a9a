//! Addresses (TS-0001, 7.2 and 9.3.1): their texts, what they name in a tree, and the short form of
//! originators.
//!
//! `parse` reads a text as an address: local segments, which stay where they stand in it, a foreign
//! text, or one of another provider; `print` writes it back. `resolve` tells what local segments
//! name: a resource, the fan-out point of a group with the place where the rest begins, or a poll
//! point. `name_spot` and `name_segments` tell the same of an address and of the segments of a
//! local one, where nobody counts steps. `structured` writes the names down to a resource. Each is
//! exactly its definition, which takes the home and the plain list of resources, and speaks of
//! parents and names alone.
//!
//! Callers owe that `resolve` gets local segments, `print` an address that keeps its text, and
//! `structured` a number that the tree has. `resolve` and `short_fr` take no memory.
//!
//! ```text
//! let addr = parse(alloc, b"cse-in/dev/room/la", home)?;
//! let spot = name_spot(tree, &addr); // Some(Spot::Resource(number)) where it is there
//! let originator = short_fr(b"/id-in/CDev", home); // Some(b"CDev")
//! Ok(spot)
//! ```
#![tactic(auto)]

mod addr;
mod laws;
mod naming;
mod reading;
mod resolving;
mod segments;
mod short;
mod spot;

pub use addr::{Addr, AddrFault, print};
pub use laws::{a_resource_is_named_by_its_addresses, what_is_printed_is_read_back};
pub use naming::structured;
pub use reading::parse;
pub use resolving::{name_segments, name_spot, resolve};
pub use segments::Segments;
pub use short::short_fr;
pub use spot::Spot;
pub use std::alloc::AllocError as OutOfMemory;
