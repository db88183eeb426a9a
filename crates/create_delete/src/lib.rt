//! The requests that change an entity: Create, Update and Delete (TS-0001, 10.2).
//!
//! What comes of one is a function of the entity, the originator and the request (`told_effect_at`
//! of `specs/Telling`): a refusal by the first place that doesn't hold, in the one order of the
//! crate request_rules, and else a reply and the entity after it. That is the entity which the
//! operation leaves (`effect_at` of `specs/Changing`), told of the changes by which it comes to be
//! so (`changes_at` of `specs/Changes`): each subscription that looks for one of them has its item
//! in the outbox, and one that counts is lowered, or goes. A call judges, which changes nothing; it
//! prepares, which takes all memory, room in the outbox included; and it applies, which can't fail
//! but where a resource is put last, which comes first. Where memory runs out nothing has changed.
//! The crate change_laws says what holds of each operation.
//!
//! A Notify to an application entity changes no resource: it is handed on by an item of the outbox
//! (`notify_at` of `specs/Relaying`).
//!
//! An originator is passed in its short form. A group keeps what was learned of its members where
//! they were judged: who they are, without repeats and those that are left out, their type, how
//! many there are, and whether each names a live resource.
//!
//! ```text
//! let reply = create(alloc, entity, b"CDev", request, 1)?; // below the CSEBase
//! let status = reply.parts().rsc; // Rsc::Created, or the first refusal
//! delete(alloc, entity, b"CDev", request, 3)
//! ```
#![tactic(auto)]

mod building;
mod creation;
mod deletion;
mod editing;
mod gathering;
mod growth;
mod guard;
mod joining;
mod listing;
mod notifying;
mod pushing;
mod relaying;
mod telling;
mod updating;

pub use creation::create;
pub use deletion::delete;
pub use growth::{
    an_entity_stays_sound_where_a_resource_is_updated,
    an_entity_stays_sound_where_a_resource_joins, an_entity_stays_sound_where_an_instance_joins,
};
pub use guard::{
    a_container_keeps_the_newest_that_fit, an_entity_stays_sound,
    nothing_is_changed_without_a_grant,
};
pub use listing::named_attrs;
pub use relaying::{a_notify_changes_no_resource, notify};
pub use std::alloc::AllocError as OutOfMemory;
pub use tree_model::Changes;
pub use updating::update;
