//! The entity: its home, its tree of resources, the number of the resource that is created next,
//! the moment of the last event, and its outbox; how it opens, and what each event finds of it.
//!
//! To callers an `Entity` is the record of these (`EntityData` of `specs/Entity`), its tree being
//! the plain list of its resources, and its outbox the list of its items. It is sound at every
//! moment (`IsSoundEntity` of `specs/Sound`). Its fields are public: whoever changes them in place
//! owes that it is sound again. `Entity::open` gives exactly the opening entity. `sweep` brings the
//! entity to the moment of an event: it removes what is due by then with all that stands below it,
//! drops what has waited too long, and tells who looks for what went. It takes memory only where
//! something is due. `take_next` takes what is sent next.
//!
//! An operation tells of its changes by two calls. `prepare_telling` takes all memory, before the
//! first change; `tell`, behind the last, needs none: it appends the notes, and behind them the
//! requests to where copies of the resources stand; and it lowers the subscriptions that count, or
//! removes those to which none is left (`telling` of `specs/Entity`). Every operation and the
//! expiry tell by these two; who knows that no copy follows the changes prepares by
//! `prepare_uncopied`, which goes through them once.
//!
//! Laws over every entity stand on functions without a body: an entity opens sound, and stays sound
//! where something but the CSEBase is removed, and where something is told; its first resource is
//! its only CSEBase; and while no time passes nothing expires.
//!
//! ```text
//! let home = Home::with_defaults(alloc)?;
//! let mut entity = Entity::open(alloc, home, ListTree::new(alloc), 1_700_000_000)?;
//! sweep(alloc, &mut entity, 1_700_000_060)?; // removes what has expired by then
//! Ok(entity)
//! ```
#![tactic(auto)]

mod contents;
mod entity;
mod laws;
mod moments;
mod opening;
mod replying;
mod sweeping;
mod taking;
mod telling;
mod told;

pub use contents::object_of_one;
pub use entity::Entity;
pub use laws::{
    a_sound_entity_has_one_base, an_expiry_tells_what_it_takes,
    nothing_expires_while_no_time_passes, opening_expiry_and_removal_are_sound,
    what_is_told_leaves_an_entity_sound,
};
pub use moments::event_moment;
pub use replying::{refuse, reply_to, wanted_content};
pub use std::alloc::AllocError as OutOfMemory;
pub use sweeping::sweep;
pub use taking::take_next;
pub use telling::{nothing_told, prepare_telling, prepare_uncopied, tell};
pub use told::Told;
