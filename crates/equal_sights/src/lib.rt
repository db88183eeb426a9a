//! What an originator sees of an entity: the definitions by which two entities are compared.
//!
//! Whatever its rights, an originator sees of each resource where it stands, by what it is judged,
//! named and told, and when it is due: that is the shape (`specs/Shape`). Besides, it sees what its
//! rights show (`specs/Seen`). Its sight of an entity is the entity with the list so seen
//! (`specs/Sight`); the outbox isn't in it. Two lists are alike to it where each resource stands at
//! one place and the originator is judged alike by it (`specs/Alike`).
//!
//! A program may stand on this crate. The laws of equal sights stand above, in policy_laws,
//! sight_laws and machine_laws.
//!
//! ```text
//! the_outbox_is_not_seen(); // the law is its contract
//! ```
#![tactic(auto)]

mod laws;

pub use laws::the_outbox_is_not_seen;
