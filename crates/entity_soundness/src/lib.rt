//! Whether resources and items are those of a sound entity, as a test.
//!
//! Each entity is sound at every moment, so no program that only serves has to ask. An opening asks
//! it of what stands in a file. It puts each resource that `fits` into a tree, takes each item that
//! `follows` the one before, and tests the whole by `are_sound`. The tests hold of every sound
//! entity, and of nothing else (specs/Laws).
//!
//! ```text
//! if !fits(&tree, &resource) { return Ok(None); } // no tree has it there
//! tree.insert(resource)?;
//! are_sound(&tree, &home, 9, 1_700_000_000) // all but the items
//! ```
#![tactic(auto)]

mod items;
mod laws;
mod resources;
mod trees;

pub use items::follows;
pub use laws::tests_decide_soundness;
pub use trees::{are_sound, fits};
