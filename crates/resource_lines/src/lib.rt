//! A resource as a JSON value, by all that it keeps: its number, its type and its parent, its name
//! and its owner, its moments, and its attributes under their short names.
//!
//! What `resource_value` writes `resource_in` reads back as an equal resource (specs/Laws). It is
//! what an entity is kept by, and nothing that oneM2M shows.
//!
//! ```text
//! let value = resource_value(alloc, &resource)?; // [[7,3,1],"data","CDev",[100,100,200],{"st":0}]
//! let same = resource_in(alloc, &value)?; // an equal resource
//! same.is_some()
//! ```
#![tactic(auto)]

mod laws;
mod reading;
mod writing;

pub use laws::resources_are_read_back;
pub use m2m_value::OutOfMemory;
pub use reading::resource_in;
pub use writing::resource_value;
