//! An entity as lines of text: of its counters, of each resource, and of each item of its outbox.
//!
//! The first line is the head (specs/Heads): a JSON list of the number of the format, the home, the
//! counters, and how many resources and items there are. A resource has one line, which is the
//! value that the crate resource_lines makes of it. An item has three: its number, its kind and
//! where it leads, and then the two lines of its request as that of a deed at its moment
//! (journal_lines). No byte below 32 stands inside a line.
//!
//! What is written is read back as it, whatever stands behind it. What wouldn't be is told before
//! anything of it is written: a value that is too deep, and a request that no journal keeps.
//!
//! ```text
//! let mut scratch = Scratch::new(alloc);
//! push_resource(alloc, &mut text, &resource)?; // [[7,3,1],"data","CDev",[100,100,200],{"st":0}]
//! let found = first_resource(alloc, &mut scratch, &text)?; // it, and how many bytes its line has
//! ```
#![tactic(auto)]

mod heads;
mod items;
mod laws;
mod resources;
mod values;

pub use heads::{Head, first_head, push_head};
pub use items::{first_item, push_item};
pub use journal_lines::{HeaderFault, LineFault};
pub use laws::what_is_read_is_spelled;
pub use resources::{first_resource, push_resource};
pub use std::alloc::AllocError as OutOfMemory;
