//! What a resource is, and what the entity that holds it is called.
//!
//! `Resource` is seen as a record of its parts, `Attrs` as rows in byte order of the short names,
//! so that equal resources are equal records. `Home` has what an entity is called and who runs it,
//! all of it admitted. Callers that make a resource hand in moments that have a timestamp and
//! numbers below 2^63. Only what builds values takes memory.
//!
//! ```text
//! let home = Home::with_defaults(alloc)?; // /id-in, cse-in, CAdmin
//! let limit = resource.attrs().count(Attr::Mni);
//! resource.id(alloc) // as cnt7
//! ```
#![tactic(auto)]

mod attrs;
mod home;
mod resource;

pub use attrs::{AttrSet, Attrs};
pub use home::{ADMIN, BASE, CSE_ID, CSE_TYPE, Home, HomeFault, LAST_CSE_TYPE, SERVICE_PROVIDER};
pub use resource::{Change, Moments, Resource, id_text, numbered};
pub use std::alloc::AllocError as OutOfMemory;
